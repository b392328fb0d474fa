// The days of a week. What is right is said in the crate definition, specs/Calendar.antt. A week is a word: bit 6 for Monday, bit 0 for Sunday;
// no type of its own: a model holds these seven bits, so that each of the readers and writers of calendar_days would wrap and unwrap them.
ghost use Rattle.std.specs.Prelude.{◌≡◌, ◌+◌, ◌-◌, ◌*◌, ◌/◌, ◌%◌, ◌^◌, ◌<◌, ◌≤◌, false, ◌∷◌, set, ◌==◌, slice_index_or, slice_set};
ghost use Rattle.definition.specs.Base.{◌or◌};
ghost use Rattle.definition.specs.Ascii.{bytes};
ghost use Rattle.definition.specs.Field.{yes_in};
ghost use Rattle.definition.specs.Format.{bit as bit_of};
ghost use Rattle.definition.specs.Tree.{all};
ghost use Rattle.definition.specs.Calendar.{day_type, place_of, week_days, week_by};
ghost use Rattle.tree.specs.Place.{later, meaning};
ghost use Rattle.calendar.specs.Week.{place_by, flags_in, word_of, replaced, week_with, works_on};

use definition::Date;
use tree::Element;

fn day_type(e: Element<'_>) -> Option<u64>
    ensures { result ≡ day_type (meaning e.entry) }
{
    text::whole_of(e.text_of(b"DayType"))
}

// Sunday is 1, and the week begins on Monday.
fn place_by(a: Option<u64>) -> Option<u32>
    ensures { result ≡ place_by a }
{
    let t = a?;
    if (1..=7).contains(&t) {
        return u32::try_from((t + 5) % 7).ok();
    }
    None
}

// The place of a WeekDay in the week, Monday 0.
pub fn day_place(e: Element<'_>) -> Option<u32>
    ensures { result ≡ place_of (meaning e.entry) }
{
    place_by(day_type(e))
}

// A WeekDay of DayType 0 is an exception in the old form.
pub fn is_old_exception(e: Element<'_>) -> bool
    ensures { result ≡ ((day_type (meaning e.entry) or 1) == 0) }
{
    day_type(e) == Some(0)
}

// A name for the child, which callers read.
pub fn day_working(e: Element<'_>) -> bool
    ensures { result ≡ yes_in (meaning e.entry) "DayWorking" }
{
    fields::yes_in(e, b"DayWorking")
}

// ---- the flags of a week

// The n low bits of a word.
fn low(w: u32, n: u32) -> u32
    requires { n < 32 }
    ensures { result ≡ w % 2 ^ n }
{
    w % (1 << n)
}

// The flag of a place in the week; none is set past Sunday's.
fn flag_at(week: u32, k: u32) -> bool
    ensures { result ≡ slice_index_or (flags_in week) k false }
{
    k <= 6 && (week >> (6 - k)) & 1 == 1
}

// The bit above the n low ones replaced: by the parts above and below it, as masks would be no plainer.
fn with_bit(w: u32, n: u32, on: bool) -> u32
    requires small { w < 128 }
    requires place { n ≤ 6 }
    ensures { result ≡ replaced w n «on» }
{
    let top = ((w >> (n + 1)) << 1) | u32::from(on);
    (top << n) | low(w, n)
}

// A week with the flag of a place replaced.
fn with_flag(week: u32, k: u32, on: bool) -> u32
    ensures { flags_in result ≡ slice_set (flags_in week) k «on» }
{
    if 6 < k {
        return week;
    }
    with_bit(low(week, 7), 6 - k, on)
}

// A week with what a WeekDay says.
fn with_day(e: Element<'_>, week: u32) -> u32
    ensures { flags_in result ≡ week_with (meaning e.entry) (flags_in week) }
{
    let Some(k) = day_place(e) else {
        return week;
    };
    with_flag(week, k, day_working(e))
}

// A week with what an element's WeekDays say, one after another.
fn week_in(e: Element<'_>, base: u32) -> u32
    ensures { flags_in result ≡ week_by (all (meaning e.entry) (bytes "WeekDay")) (flags_in base) }
{
    let mut week = base;
    for day in e.children(b"WeekDay") {
        week = with_day(day, week);
    }
    week
}

fn week_under(e: Element<'_>, base: u32) -> u32
    ensures { flags_in result ≡ week_by (week_days (meaning e.entry)) (flags_in base) }
{
    let Some(days) = e.child(b"WeekDays") else {
        return base;
    };
    week_in(days, base)
}

// The week of a Calendar over its base's.
pub fn week_of(e: Element<'_>, base: u32) -> u32
    ensures { result ≡ word_of (week_by (week_days (meaning e.entry)) (flags_in base)) }
{
    low(week_under(e, base), 7)
}

// Whether a week works on a day; on no day outside the years.
pub fn works(week: u32, day: Date) -> bool
    ensures { result ≡ works_on (flags_in week) day.0 }
{
    let Some(k) = date::weekday(day) else {
        return false;
    };
    flag_at(week, k)
}
