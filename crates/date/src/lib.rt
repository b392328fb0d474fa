// Dates of the Gregorian calendar, in whole numbers. What is right is said in the crate definition, specs/Date.antt. A `Date` is document
// 01's day number. Inside, a day is counted from 1 January of the year -10000 and a year from that year, so that nothing is negative.
#![tactic(auto)]

ghost use Rattle.std.specs.Prelude.{◌≡◌, ◌≤◌, ◌<◌, ◌^◌, min, pos, ◌-ℤ◌};
ghost use Rattle.definition.specs.Date.{leap, month_length, new_year, date_at, weekday, ymd_of, year_at, from_days, from_ymd, first_ten, date_parts, date_of};
ghost use Rattle.laws.specs.Calendar.{MarchDay, IsDay};
ghost use Rattle.definition.specs.Answer.{date_meaning, day_number_of};
ghost use Rattle.date.specs.Answer.{ymd_at, weekday_at, length_at, days_between};
ghost use Rattle.date.specs.Answer.{is_day, placed};
ghost use Rattle.date.specs.Scale.{day_count};

use definition::{Date, Ymd};

// The first and the last date, 1 January -9999 and 31 December 9999, as count_of counts.
pub const FIRST: u32 = 366;

pub const LAST: u32 = 7304849;

// 1 January 1970, from which a day number counts, likewise.
const EPOCH: u32 = 4371953;

// The date of count 0, 1 January of the year -10000. By `as`, since a constant calls no `cast_signed`.
pub const ORIGIN: Date = Date(-(EPOCH as i32));

fn is_leap(y: u32) -> bool
    ensures { result ≡ leap y }
{
    y % 4 == 0 && (y % 100 != 0 || y % 400 == 0)
}

// The days of a month, from 1 for January.
fn month_length(y: u32, m: u32) -> u32
    ensures { result ≡ month_length y m }
{
    match m {
        2 => { if is_leap(y) { 29 } else { 28 } }
        4 | 6 | 9 | 11 => 30,
        _ => 31,
    }
}

// Monday is 0. A number: the day sheet writes it so, and a model's week begins on Monday.
fn weekday_of(d: u32) -> u32
    ensures { result ≡ weekday d }
{
    (d % 7 + 5) % 7
}

// 1 January: 365 days a year and the leap days before it.
fn new_year(y: u32) -> u32
    requires { y ≤ 20001 }
    ensures { result ≡ new_year y }
{
    365 * y + (y + 3) / 4 + (y + 399) / 400 - (y + 99) / 100
}

// From March on the months follow in steps of 153 days in five months, and 1 March lies 306 days before the next 1 January.
fn day_at(y: u32, m: u32, d: u32) -> u32
    requires year { y ≤ 20000 }
    requires day { IsDay y m d }
    ensures { result ≡ date_at y m d }
{
    if m < 3 {
        return new_year(y) + 31 * (m - 1) + (d - 1);
    }
    new_year(y + 1) - 306 + (153 * m - 457) / 5 + (d - 1)
}

// A year that begins in March, by the January in it, and the day of it, counted from 0. recurrence's Month is a year and a month, so that the two
// share no type.
#[derive(Clone, Copy)]
struct March {
    year: u32,
    day: u32,
}

// A century of such years has 146097 / 4 days and a year 1461 / 4, each rounded down: the leap day is the last.
fn march_of(d: u32) -> March
    ensures { MarchDay d result.year result.day }
{
    let n = (u64::from(d) + 146037) * 4 + 3;
    let century = n / 146097;
    let k = n % 146097 / 4 * 4 + 3;
    let year = century * 100 + k / 1461 - 399;
    March {
        // Both fit: 2^32 days are fewer than 12 million years.
        year: year as u32,
        day: (k % 1461 / 4) as u32,
    }
}

// The difference, with its sign.
fn lowered(n: u32, by: u32) -> i32
    requires small { n < 2 ^ 31 }
    requires by_small { by < 2 ^ 31 }
    ensures { result ≡ pos n -ℤ pos by }
{
    n.cast_signed() - by.cast_signed()
}

// Year, month and day of a date.
fn civil_of(d: u32) -> Ymd
    ensures { result ≡ ymd_of d }
{
    let m = march_of(d);
    let k = m.day * 5 + 461;
    let (year, month) = if m.day < 306 {
        (m.year - 1, k / 153)
    } else {
        (m.year, k / 153 - 12)
    };
    Ymd {
        year: lowered(year, 10000),
        month,
        day: k % 153 / 5 + 1,
    }
}

// ---- dates as they are written
// Functions, and no From or FromStr: `Date` and `Ymd` belong to the crate definition, and the texts are bytes.

// A number counted from `from` below 0 on, where that lies between the first and the last.
fn place(n: i32, from: u32, first: u32, last: u32) -> Option<u32>
    ensures { result ≡ placed from first last n }
{
    from.checked_add_signed(n)
        .filter(|k| (first..=last).contains(k))
}

fn year_at(year: i32) -> Option<u32>
    ensures { result ≡ year_at year }
{
    place(year, 10000, 1, 19999)
}

// A day number on the scale inside, if its year is in range.
fn date_of_number(n: i32) -> Option<u32>
    ensures { result ≡ from_days n }
{
    place(n, EPOCH, FIRST, LAST)
}

// The days of a month of the years -9999 to 9999.
pub fn days_in_month(year: i32, month: u32) -> Option<u32>
    ensures { result ≡ length_at year month }
{
    let y = year_at(year)?;
    (1..=12).contains(&month).then_some(month_length(y, month))
}

// Whether a year has such a month and day.
fn is_day(y: u32, m: u32, d: u32) -> bool
    ensures { result ≡ is_day y m d }
{
    (1..=12).contains(&m) && (1..=month_length(y, m)).contains(&d)
}

// The date of a year, a month and a day, if there is one.
pub fn from_ymd(year: i32, month: u32, day: u32) -> Option<Date>
    ensures { date_meaning result ≡ day_number_of (from_ymd year month day) }
{
    let y = year_at(year)?;
    if !is_day(y, month, day) {
        return None;
    }
    Some(at_count(day_at(y, month, day)))
}

// The date of a day number, if its year is in range.
pub fn from_days(n: i32) -> Option<Date>
    ensures { date_meaning result ≡ day_number_of (from_days n) }
{
    date_of_number(n)?;
    Some(Date(n))
}

// Year, month and day.
pub fn ymd(d: Date) -> Option<Ymd>
    ensures { result ≡ ymd_at d.0 }
{
    date_of_number(d.0).map(civil_of)
}

// The day of the week; none outside the years -9999 to 9999.
pub fn weekday(d: Date) -> Option<u32>
    ensures { result ≡ weekday_at d.0 }
{
    date_of_number(d.0).map(weekday_of)
}

// How many days b lies after a; 0 where it lies before.
pub fn days_between(a: Date, b: Date) -> u32
    ensures { result ≡ days_between a.0 b.0 }
{
    u32::try_from(i64::from(b.0) - i64::from(a.0)).unwrap_or(0)
}

// How many days a date lies behind 1 January of the year -10000.
#[tactic(auto, unfolding(crate::specs::Scale::day_count))]
pub fn count_of(d: Date) -> u32
    ensures { result ≡ day_count d.0 }
{
    days_between(ORIGIN, d)
}

// The date that lies so many days behind 1 January of the year -10000; 2 ^ 31 - 1 days stand for more.
pub fn at_count(n: u32) -> Date
    ensures { result.0 ≡ pos (min n 2147483647) -ℤ pos 4371953 }
{
    Date(lowered(n.min(2147483647), EPOCH))
}

// ---- date texts

// The first ten bytes, or all where byte 10 goes on with the character before it. A text is bytes, and no `str`.
fn first_ten(s: &[u8]) -> &[u8]
    ensures { result.now ≡ first_ten s.now }
{
    if s.len() <= 10 || (0x80..=0xBF).contains(&s[10]) {
        return s;
    }
    &s[..10]
}

fn date_parts(s: &[u8]) -> Option<Date>
    ensures { date_meaning result ≡ day_number_of (date_parts s.now) }
{
    let (year, rest) = text::cut_at(s, b'-')?;
    let (month, day) = text::cut_at(rest, b'-')?;
    from_ymd(
        text::whole_of(year)?,
        text::whole_of(month)?,
        text::whole_of(day)?,
    )
}

// A date text: year, month and day with `-` between.
pub fn date_of(s: &[u8]) -> Option<Date>
    ensures { date_meaning result ≡ day_number_of (date_of s.now) }
{
    date_parts(text::trim(first_ten(s)))
}
