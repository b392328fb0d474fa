// Records, each with the zero bits up to a whole byte. That a record ends at a whole byte stands in each contract: a type for such a place would be
// one more beside Place.
ghost use Rattle.std.specs.Prelude.{◌≡◌, ◌%◌};
ghost use Rattle.definition.specs.Format.{times, whole};
ghost use Rattle.definition.specs.Pack.{project};
ghost use Rattle.model.specs.Passes.{Passes};
ghost use Rattle.model.specs.Parts.{text_by, calendar_parts, activity_parts, activity_rest, activity_notes, link_parts, resource_parts, assignment_parts, expense_parts, record_of};

use crate::fields::{
    skip, skip_code, skip_date, skip_lag_kind, skip_optional, skip_optional_constraint,
    skip_optional_date, skip_optional_text, skip_text, skip_times,
};
use crate::lists::{skip_days, skip_hours};
use crate::parts::{parent_place_as, resource_calendar_place_as};
use bits::Place;

pub(crate) fn skip_project(s: &[u8], p: Place) -> Place
    ensures { Passes (whole project) s.now p result }
{
    let a = skip_text::<true>(s, p);
    let b = skip_date(s, a);
    let c = skip_text::<true>(s, b);
    let d = skip(s, c, 32);
    let e = skip(s, d, 32);
    let f = skip(s, e, 32);
    let g = skip(s, f, 32);
    bits::take_pad(s, skip_optional_date(s, g))
}

// A function for each kind of record, a line for each field, in the order in which they stand: six impls of a trait would have these lines, and
// `skip_record_as` would choose among them all the same.
fn skip_calendar<const CHECK: bool>(s: &[u8], p: Place) -> Place
    ensures { Passes (whole (calendar_parts (text_by CHECK))) s.now p result × (result.bit % 8 ≡ 0) }
{
    let a = skip_text::<CHECK>(s, p);
    let b = skip(s, a, 7);
    let c = skip_hours(s, b, 7);
    let d = skip_days(s, c, false);
    let e = skip_days(s, d, false);
    bits::take_pad(s, skip_days(s, e, true))
}

// From the calendar's name on.
fn skip_activity_rest<const CHECK: bool>(s: &[u8], p: Place) -> Place
    ensures { Passes (activity_rest (text_by CHECK)) s.now p result }
{
    let a = skip_optional_text::<CHECK>(s, p);
    let b = skip_optional_constraint(s, a);
    let c = skip_optional_date(s, b);
    let d = skip_optional_date(s, c);
    let e = skip_optional_date(s, d);
    let f = skip_optional(s, e, 64);
    let g = skip_code(s, f, 0, 3);
    let h = skip_optional(s, g, 64);
    skip_text::<CHECK>(s, h)
}

// From the notes on, behind the parent.
fn skip_from_notes_as<const CHECK: bool>(s: &[u8], p: Place) -> Place
    ensures { Passes (activity_notes (text_by CHECK)) s.now p result }
{
    let a = skip_text::<CHECK>(s, p);
    skip_activity_rest::<CHECK>(s, a)
}

// The same, for callers outside: the flag is a value to the public functions, as a caller may have it only as it runs, and const inside.
pub fn skip_from_notes(s: &[u8], p: Place, check: bool) -> Place
    ensures { Passes (activity_notes (text_by check)) s.now p result }
{
    if check {
        skip_from_notes_as::<true>(s, p)
    } else {
        skip_from_notes_as::<false>(s, p)
    }
}

fn skip_activity<const CHECK: bool>(s: &[u8], p: Place) -> Place
    ensures { Passes (whole (activity_parts (text_by CHECK))) s.now p result × (result.bit % 8 ≡ 0) }
{
    let a = parent_place_as::<CHECK>(s, p);
    let b = skip_optional(s, a, 32);
    bits::take_pad(s, skip_from_notes_as::<CHECK>(s, b))
}

fn skip_link(s: &[u8], p: Place) -> Place
    ensures { Passes (whole link_parts) s.now p result × (result.bit % 8 ≡ 0) }
{
    let a = skip(s, p, 32);
    let b = skip(s, a, 32);
    let c = skip_code(s, b, 0, 3);
    let d = skip(s, c, 64);
    let e = skip_optional(s, d, 64);
    bits::take_pad(s, skip_lag_kind(s, e))
}

fn skip_resource<const CHECK: bool>(s: &[u8], p: Place) -> Place
    ensures { Passes (whole (resource_parts (text_by CHECK))) s.now p result × (result.bit % 8 ≡ 0) }
{
    let a = resource_calendar_place_as::<CHECK>(s, p);
    let b = skip_optional_text::<CHECK>(s, a);
    bits::take_pad(s, skip_optional(s, b, 64))
}

fn skip_assignment(s: &[u8], p: Place) -> Place
    ensures { Passes (whole assignment_parts) s.now p result × (result.bit % 8 ≡ 0) }
{
    let a = skip(s, p, 32);
    let b = skip(s, a, 32);
    let c = skip(s, b, 64);
    let d = skip(s, c, 64);
    let e = skip_optional(s, d, 64);
    bits::take_pad(s, skip_optional(s, e, 64))
}

fn skip_expense<const CHECK: bool>(s: &[u8], p: Place) -> Place
    ensures { Passes (whole (expense_parts (text_by CHECK))) s.now p result × (result.bit % 8 ≡ 0) }
{
    let a = skip(s, p, 32);
    let b = skip_text::<CHECK>(s, a);
    let c = skip(s, b, 64);
    let d = skip(s, c, 64);
    let e = skip_optional(s, d, 64);
    bits::take_pad(s, skip_code(s, e, 0, 2))
}

// The six sections of records. The kind is a value to the functions below: two are public, and a caller may have it only as it runs.
#[derive(Clone, Copy, Debug, PartialEq, Eq)]
pub enum Kind {
    Calendars,
    Activities,
    Links,
    Resources,
    Assignments,
    Expenses,
}

fn skip_record_as<const CHECK: bool>(s: &[u8], p: Place, kind: Kind) -> Place
    ensures { Passes (record_of CHECK kind) s.now p result × (result.bit % 8 ≡ 0) }
{
    match kind {
        Kind::Calendars => skip_calendar::<CHECK>(s, p),
        Kind::Activities => skip_activity::<CHECK>(s, p),
        Kind::Links => skip_link(s, p),
        Kind::Resources => skip_resource::<CHECK>(s, p),
        Kind::Assignments => skip_assignment(s, p),
        Kind::Expenses => skip_expense::<CHECK>(s, p),
    }
}

// A record of any kind; its texts are tested where `check` says so, a value as in skip_from_notes.
pub fn skip_record(s: &[u8], p: Place, kind: Kind, check: bool) -> Place
    ensures { Passes (record_of check kind) s.now p result × (result.bit % 8 ≡ 0) }
{
    if check {
        skip_record_as::<true>(s, p, kind)
    } else {
        skip_record_as::<false>(s, p, kind)
    }
}

// So many records. It ends at the first that is refused.
pub fn skip_records(s: &[u8], p: Place, kind: Kind, count: usize, check: bool) -> Place
    ensures { Passes (times count (record_of check kind)) s.now p result }
{
    skip_times(p, count, |q| skip_record(s, q, kind, check))
}
