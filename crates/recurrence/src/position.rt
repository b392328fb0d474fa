// The item at a position of a month.
ghost use Rattle.std.specs.Prelude.{◌≡◌, ◌-◌, Bool, true, false, pos};
ghost use Rattle.std.specs.Prelude.{slice_get};
ghost use Rattle.definition.specs.Base.{◌or◌, within, keep, count};
ghost use Rattle.definition.specs.Date.{sunday_first};
ghost use Rattle.definition.specs.Recurrence.{item_fits, nth_in_month};
ghost use Rattle.recurrence.specs.Scale.{IsYear, IsMonth};
ghost use Rattle.recurrence.specs.Kind.{last_of, candidate_of};

use crate::scale::{Scaled, day_in, length_in};

// Sunday 0, as a rule has its items and weekdays. Not by date's `weekday`, where Monday is 0: this is of a day on the scale, with no Date in between.
pub(crate) fn sunday_first(d: u32) -> u32
    ensures { result ≡ sunday_first d }
{
    (d % 7 + 6) % 7
}

fn is_workday(w: u32) -> bool
    ensures { result ≡ within 1 5 w }
{
    (1..=5).contains(&w)
}

// The item stays the number that a rule has, as does the position: an enum would be made of it once a month, in `nth_of`.
// Item 0 is any day, 1 Monday to Friday, 2 the weekend, 3 to 9 Sunday to Saturday.
fn item_fits(item: u32, d: u32) -> bool
    ensures { result ≡ item_fits (pos item) d }
{
    let w = sunday_first(d);
    match item {
        0 => true,
        1 => is_workday(w),
        2 => !is_workday(w),
        _ => item == w + 3,
    }
}

fn nth_fit(first: u32, end: u32, item: u32, position: usize) -> Option<u32>
    ensures { result ≡ slice_get (keep (item_fits (pos item)) (count first (end - first))) position }
{
    (first..end).filter(|d| item_fits(item, *d)).nth(position)
}

fn last_fit(first: u32, end: u32, item: u32) -> Option<u32>
    ensures { result ≡ last_of (keep (item_fits (pos item)) (count first (end - first))) }
{
    (first..end).rev().find(|d| item_fits(item, *d))
}

// Position 0 to 3 counts from the first, 4 is the last; December 9999 has none.
fn nth_of(y: u32, m: u32, item: u32, position: u32) -> Option<u32>
    requires year { IsYear y }
    requires month { IsMonth m }
    ensures { result ≡ nth_in_month y m (pos item) (pos position) }
{
    if (y == 19999) & (m == 12) {
        return None;
    }
    let first = day_in(y, m, 1)?;
    let end = first + length_in(y, m);
    match position {
        // There is no From from u32 to usize.
        0..=3 => nth_fit(first, end, item, position as usize),
        4 => last_fit(first, end, item),
        _ => None,
    }
}

// How a rule names its candidate of a month: what the searches are generic over.
pub(crate) trait Candidate {
    ghost positioned: { Bool };

    fn candidate_in(r: Scaled, y: u32, m: u32) -> Option<u32>
        requires year { IsYear y }
        requires month { IsMonth m }
        ensures { result ≡ candidate_of positioned r y m };
}

// By the day of the month.
pub(crate) struct ByDay;

// By the item at a position.
pub(crate) struct ByPosition;

impl Candidate for ByDay {
    ghost positioned = { false };

    fn candidate_in(r: Scaled, y: u32, m: u32) -> Option<u32> {
        day_in(y, m, r.rule.day)
    }
}

impl Candidate for ByPosition {
    ghost positioned = { true };

    fn candidate_in(r: Scaled, y: u32, m: u32) -> Option<u32> {
        nth_of(y, m, r.rule.item, r.rule.position)
    }
}
