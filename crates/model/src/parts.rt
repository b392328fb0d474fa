// The parts of records: where they stand, and what they are. In a model that was opened no text is tested again; a function with CHECK or `check` tests
// where that says so.
ghost use Rattle.std.specs.Prelude.{◌≡◌, false};
ghost use Rattle.definition.specs.Answer.{date_meaning, period_meaning};
ghost use Rattle.definition.specs.Format.{period};
ghost use Rattle.bits.specs.Steps.{Puts};
ghost use Rattle.model.specs.Passes.{Passes};
ghost use Rattle.model.specs.Parts.{text_by, activity_head, resource_head};
ghost use Rattle.model.specs.Answers.{read_at, row_at, rows_at, date_at};
ghost use Rattle.model.specs.Places.{NamePlaced, NameTaken, CalendarAt};

pub use crate::fields::text_in;
use crate::fields::{skip, skip_code, skip_optional, skip_text};
use crate::lists::skip_days;
pub use crate::lists::{skip_hours, skip_periods};
use bits::{Field, PAST, Place, Span};
use definition::Date;
pub use definition::Period;

// ---- what stands at a place. Where nothing can be read, a value is missing or 0, and the next place is past every end. A row and a name are two
// functions: skip_flagged's form would take a closure that gives a Field, and a contract of its own for what an Option of either is

// An optional row.
pub fn take_row(s: &[u8], p: Place) -> Field<Option<u32>>
    ensures { (result.value, result.next) ≡ row_at s.now p }
{
    let f = bits::take_flag(s, p);
    let at = f.next;
    if !f.value {
        return Field {
            value: None,
            next: at,
        };
    }
    let Field { value, next } = bits::take_u32(s, at);
    Field {
        value: (next.bit < 8).then_some(value),
        next,
    }
}

// Where an optional text starts, and its length. It is not tested for UTF-8. A pair and no range, as its contract's name_at has it: `take_name` alone
// calls it, and would be no shorter.
pub fn take_name_place(s: &[u8], p: Place) -> Field<Option<(usize, usize)>>
    ensures { NamePlaced s.now p result }
{
    let f = bits::take_flag(s, p);
    let at = f.next;
    if !f.value {
        return Field {
            value: None,
            next: at,
        };
    }
    let Span { start, len, next } = bits::take_text(s, at);
    Field {
        value: (next.bit < 8).then_some((start, len)),
        next,
    }
}

// The text itself.
pub fn take_name(s: &[u8], p: Place) -> Field<Option<&[u8]>>
    ensures { NameTaken s.now p result }
{
    let Field { value, next } = take_name_place(s, p);
    let Some((start, len)) = value else {
        return Field { value: None, next };
    };
    Field {
        value: Some(&s[start..start + len]),
        next,
    }
}

// The two rows at the start of a link and of an assignment. Zeros and no Option where they cannot be read: callers ask in a model that was opened.
pub fn take_rows(s: &[u8], p: Place) -> Field<(u32, u32)>
    ensures { (result.value, result.next) ≡ rows_at s.now p }
{
    let a = bits::take_u32(s, p);
    let b = bits::take_u32(s, a.next);
    let next = b.next;
    let rows = (next.bit < 8).then_some((a.value, b.value));
    Field {
        value: rows.unwrap_or((0, 0)),
        next,
    }
}

// A date. A field that is cut is 0, which is a date's number, so its place is tested.
pub fn take_date(s: &[u8], p: Place) -> Field<Option<Date>>
    ensures { (date_meaning result.value, result.next) ≡ date_at s.now p }
{
    let Field { value, next } = bits::take_i32(s, p);
    let Some(d) = date::from_days(value) else {
        return Field {
            value: None,
            next: PAST,
        };
    };
    Field {
        value: (next.bit < 8).then_some(d),
        next,
    }
}

// A period. lists' take_period_key is not this with another result: that both minutes are below 2048 would have to be promised too.
pub fn take_period(s: &[u8], p: Place) -> Field<Option<Period>>
    ensures { (period_meaning result.value, result.next) ≡ read_at period s.now p }
{
    let from = bits::take(s, p, 11);
    let to = bits::take(s, from.next, 11);
    let next = to.next;
    if to.value <= from.value || 1440 < to.value {
        return Field {
            value: None,
            next: PAST,
        };
    }
    Field {
        // Both fit, as they are at most 1440.
        value: Some(Period {
            from: from.value as u16,
            to: to.value as u16,
        }),
        next,
    }
}

// A period written, by its two minutes, any two: a day sheet holds periods as a model does.
pub fn put_period(out: &mut [u8], p: Place, from: u64, to: u64) -> Place
    ensures { Puts period (from, to) out.old p out.new result }
{
    let q = bits::put(out, p, 11, from);
    bits::put(out, q, 11, to)
}

// ---- where a part of a record stands, from the record's place

// An activity's parent. The texts before it are tested where CHECK says so.
pub(crate) fn parent_place_as<const CHECK: bool>(s: &[u8], p: Place) -> Place
    ensures { Passes (activity_head (text_by CHECK)) s.now p result }
{
    let a = skip_text::<CHECK>(s, p);
    let b = skip_text::<CHECK>(s, a);
    let c = skip_code(s, b, 0, 2);
    let d = skip(s, c, 64);
    skip_optional(s, d, 64)
}

// The same, for callers outside: the flag is a value to the public functions, as a caller may have it only as it runs, and const inside.
pub fn parent_place_by(s: &[u8], p: Place, check: bool) -> Place
    ensures { Passes (activity_head (text_by check)) s.now p result }
{
    if check {
        parent_place_as::<true>(s, p)
    } else {
        parent_place_as::<false>(s, p)
    }
}

// The name of a resource's calendar. The texts before it are tested where CHECK says so. An activity begins with the same three fields: a function for them
// would be a name and a clause for three lines.
pub(crate) fn resource_calendar_place_as<const CHECK: bool>(s: &[u8], p: Place) -> Place
    ensures { Passes (resource_head (text_by CHECK)) s.now p result }
{
    let a = skip_text::<CHECK>(s, p);
    let b = skip_text::<CHECK>(s, a);
    let c = skip_code(s, b, 0, 2);
    let d = skip_text::<CHECK>(s, c);
    skip(s, d, 64)
}

// For callers outside, who all ask in a model that was opened; the const parameter stays inside.
pub fn resource_calendar_place(s: &[u8], p: Place) -> Place
    ensures { Passes (resource_head (text_by false)) s.now p result }
{
    resource_calendar_place_as::<false>(s, p)
}

// A calendar's parts.
#[derive(Clone, Copy, Debug, PartialEq, Eq)]
pub struct CalendarPlaces {
    pub week: Place,
    pub hours: Place,
    pub holidays: Place,
    pub extra: Place,
    pub exceptions: Place,
}

pub fn calendar_places(s: &[u8], p: Place) -> CalendarPlaces
    ensures { CalendarAt s.now p result }
{
    let week = skip_text::<false>(s, p);
    let hours = skip(s, week, 7);
    let holidays = skip_hours(s, hours, 7);
    let extra = skip_days(s, holidays, false);
    let exceptions = skip_days(s, extra, false);
    CalendarPlaces {
        week,
        hours,
        holidays,
        extra,
        exceptions,
    }
}
