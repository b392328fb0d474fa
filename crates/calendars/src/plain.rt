// The calendars that no file gives: the default one and the elapsed one. They have no holidays, no extra days and no exceptions.
ghost use Rattle.std.specs.Prelude.{List, replicate};
ghost use Rattle.definition.specs.Format.{flag, periods, times, whole};
ghost use Rattle.definition.specs.Pack.{calendar};
ghost use Rattle.definition.specs.Calendar.{plain_calendar};
ghost use Rattle.bits.specs.Steps.{Puts};
ghost use Rattle.calendar.specs.Week.{flags_in};
ghost use Rattle.calendars.specs.Plain.{hours_each};

use bits::Place;
use definition::Period;
use pack::put_count;

// Weeks as their seven bits, Monday first.
pub(crate) const WORKDAYS: u32 = 0b1111100;

pub(crate) const EVERY_DAY: u32 = 0b1111111;

pub(crate) const WHOLE_DAY: Period = Period { from: 0, to: 1440 };

// The seven low bits of a number, Monday first. A name for the width and its contract, as pack's put_count.
pub(crate) fn put_week(out: &mut [u8], p: Place, week: u32) -> Place
    ensures { Puts (times 7 flag) (flags_in week) out.old p out.new result }
{
    bits::put(out, p, 7, u64::from(week))
}

// One period, or none. A `match`, as in record.rt's put_base_hours.
fn put_day_hours(out: &mut [u8], p: Place, hours: Option<Period>) -> Place
    ensures { Puts periods (hours_each hours) out.old p out.new result }
{
    match hours {
        Some(t) => {
            let a = put_count(out, p, 1);
            model::parts::put_period(out, a, u64::from(t.from), u64::from(t.to))
        }
        None => put_count(out, p, 0),
    }
}

// The same hours on each weekday.
fn put_hours(out: &mut [u8], p: Place, hours: Option<Period>) -> Place
    ensures { Puts (times 7 periods) (replicate 7 (hours_each hours)) out.old p out.new result }
{
    let mut q = p;
    for _ in 0..7u32 {
        q = put_day_hours(out, q, hours);
    }
    q
}

pub(crate) fn put_plain_calendar(
    out: &mut [u8],
    p: Place,
    name: &[u8],
    week: u32,
    hours: Option<Period>,
) -> Place
    ensures { Puts (whole calendar) (plain_calendar name.now (flags_in week) (replicate 7 (hours_each hours))) out.old p out.new result }
{
    let a = bits::put_text(out, p, name);
    let b = put_week(out, a, week);
    let c = put_hours(out, b, hours);
    let d = put_count(out, c, 0);
    let e = put_count(out, d, 0);
    let f = put_count(out, e, 0);
    bits::pad(out, f)
}
