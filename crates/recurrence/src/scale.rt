// Days and years as the arithmetic of this crate counts them: from 1 January of the year -10000 on, so that nothing is negative.
ghost use Rattle.std.specs.Prelude.{◌≡◌, pos, ◌-ℤ◌};
ghost use Rattle.definition.specs.Base.{◌or◌};
ghost use Rattle.definition.specs.Date.{month_length, year_of};
ghost use Rattle.recurrence.specs.Scale.{InDates, IsYear, IsMonth, YearNumber, count_by, scaled_by, month_on, month_at, day_in};

use crate::Rule;
use date::{at_count, count_of};
use definition::Date;

// A rule with its days counted so.
#[derive(Clone, Copy, Debug, PartialEq, Eq)]
pub(crate) struct Scaled {
    pub rule: Rule,
    pub from: u32,
    pub last: u32,
}

// A month of a year. March of `date` is a year that begins in March, and a day of it.
#[derive(Clone, Copy, Debug, PartialEq, Eq)]
pub(crate) struct Month {
    pub year: u32,
    pub month: u32,
}

// ---- from dates: by functions and no From, as a number does not say from which day it counts

pub(crate) fn count_by(a: Option<Date>) -> Option<u32>
    ensures { result ≡ count_by a }
{
    a.map(count_of)
}

pub(crate) fn to_scale(r: Rule) -> Scaled
    ensures { result ≡ scaled_by r }
{
    Scaled {
        rule: r,
        from: count_of(r.from),
        last: count_of(r.last),
    }
}

// ---- a year as it is written, and back

// Here and not in date, whose `lowered` is private and takes any two numbers below 2 ^ 31: this one has a year that is known.
fn year_number(y: u32) -> i32
    requires { IsYear y }
    ensures { result ≡ pos y -ℤ pos 10000 }
{
    y.cast_signed() - 10000
}

fn year_count(year: i32) -> u32
    requires { YearNumber year }
    ensures { pos result -ℤ pos 10000 ≡ year }
{
    (year + 10000).cast_unsigned()
}

// ---- the calendar, by the crate date. A day is a number under a bound, here and in `kind`: a type of it would be made at each of its readings.

// The day of a month, if it has one. Here and for the candidates of a rule the year and the month go side by side: loops count them, so that a Month
// would be made for each call and taken apart in it.
pub(crate) fn day_in(y: u32, m: u32, day: u32) -> Option<u32>
    requires year { IsYear y }
    requires month { IsMonth m }
    ensures { result ≡ day_in y m day }
{
    count_by(date::from_ymd(year_number(y), m, day))
}

pub(crate) fn length_in(y: u32, m: u32) -> u32
    requires year { IsYear y }
    requires month { IsMonth m }
    ensures { result ≡ month_length y m }
{
    // Never 0: each month of a year has a length.
    date::days_in_month(year_number(y), m).unwrap_or(0)
}

pub(crate) fn month_on(d: u32) -> Month
    requires { InDates d }
    ensures { result ≡ month_on d }
{
    let Some(c) = date::ymd(at_count(d)) else {
        // Never taken: a day in the years has a date.
        return Month { year: 0, month: 0 };
    };
    Month {
        year: year_count(c.year),
        month: c.month,
    }
}

pub(crate) fn year_of(d: u32) -> u32
    requires { InDates d }
    ensures { result ≡ year_of d }
{
    month_on(d).year
}

// Months, counted from the first January: like `year_of` a reading of a day, and no method of Month.
pub(crate) fn month_at(d: u32) -> u32
    requires { InDates d }
    ensures { result ≡ month_at d }
{
    let c = month_on(d);
    c.year * 12 + (c.month - 1)
}
