// What an element says: the rule of an Exception, the days of a WeekDay of DayType 0.
ghost use Rattle.std.specs.Prelude.{◌≡◌, ◌≤◌, pos, true};
ghost use Rattle.definition.specs.Base.{◌or◌};
ghost use Rattle.definition.specs.Date.{last_date};
ghost use Rattle.definition.specs.Recurrence.{month_from, rule_from};
ghost use Rattle.fields.specs.Said.{whole_said, date_said};
ghost use Rattle.tree.specs.Place.{meaning};
ghost use Rattle.recurrence.specs.Element.{pick_of, mask_of, last_by, held_rule, judged, RuleRead, RangeRead};

use crate::kind::kind_of;
use crate::scale::count_by;
use crate::{Range, Rule};
use date::{LAST, at_count};
use tree::Element;

// A number held to `most`, with what stands for one below 0 and for a missing one. Not by fields' `unsigned_in`: it gives a u64, which would be held
// and converted here all the same.
fn pick(a: Option<i64>, most: u32, below: u32, absent: u32) -> u32
    ensures { result ≡ pick_of most below absent a }
{
    // A `match`, since it shows both defaults side by side; `map_or` would have one of them in a closure.
    match a {
        Some(n) => u32::try_from(n.min(i64::from(most))).unwrap_or(below),
        None => absent,
    }
}

// The seven low bits. By `as`: below 128, so that `try_from` would have an error that cannot occur.
fn mask_of(a: Option<i64>) -> u32
    ensures { result ≡ mask_of a }
{
    (a.unwrap_or(0).cast_unsigned() % 128) as u32
}

// Here and below as the readers of `fields`, held to what a rule has.
fn number_in(e: Element<'_>, name: &[u8], most: u32, below: u32, absent: u32) -> u32
    ensures { result ≡ pick_of most below absent (whole_said (meaning e.entry) name.now) }
{
    pick(fields::int_in(e, name), most, below, absent)
}

fn day_said(e: Element<'_>, name: &[u8]) -> Option<u32>
    ensures { result ≡ date_said (meaning e.entry) name.now }
{
    count_by(fields::date_in(e, name))
}

// A century on, if that is a date.
fn century_on(from: u32, to: u32) -> u32
    ensures { result ≡ last_by true from to }
{
    if from <= LAST - 36600 {
        from + 36600
    } else {
        to
    }
}

// MSPDI counts months from 0.
fn month_from(n: u32) -> Option<u32>
    ensures { result ≡ month_from (pos n) }
{
    (n < 12).then(|| n + 1)
}

fn rule_at(e: Element<'_>, from: u32, to: u32) -> Rule
    requires from { from ≤ last_date }
    requires to { to ≤ last_date }
    ensures { result ≡ held_rule (rule_from (meaning e.entry) from to) }
{
    let (last, most) = if fields::yes_in(e, b"EnteredByOccurrences") {
        (
            century_on(from, to),
            number_in(e, b"Occurrences", 5000, 0, 1),
        )
    } else {
        (to, 5000)
    };
    Rule {
        // Past 6 and below 0 the Type becomes 0, which no kind has.
        kind: number_in(e, b"Type", 7, 7, 1) % 7,
        from: at_count(from),
        last: at_count(last),
        most,
        period: number_in(e, b"Period", 1000, 1, 1).max(1),
        month: month_from(number_in(e, b"Month", 12, 12, 0)),
        day: number_in(e, b"MonthDay", 32, 32, 1),
        item: number_in(e, b"MonthItem", 10, 10, 0),
        position: number_in(e, b"MonthPosition", 5, 5, 0),
        weekdays: mask_of(fields::int_in(e, b"DaysOfWeek")),
    }
}

// A rule of a kind that there is.
fn judge(r: Rule) -> Option<Rule>
    ensures { result ≡ judged r }
{
    kind_of(r)?;
    Some(r)
}

// The rule of an Exception.
pub fn rule_of(e: Element<'_>) -> Option<Rule>
    ensures { RuleRead (meaning e.entry) result }
{
    let p = e.child(b"TimePeriod")?;
    let from = day_said(p, b"FromDate")?;
    let to = day_said(p, b"ToDate").unwrap_or(from);
    judge(rule_at(e, from, to))
}

// The days of a WeekDay of DayType 0. A reversed range is its first day alone, and 3,661 days are the most.
pub fn days_of(e: Element<'_>) -> Option<Range>
    ensures { RangeRead (meaning e.entry) result }
{
    let p = e.child(b"TimePeriod")?;
    let first = day_said(p, b"FromDate")?;
    let last = day_said(p, b"ToDate")?;
    Some(Range {
        first: at_count(first),
        count: last.saturating_sub(first).min(3660) + 1,
    })
}
