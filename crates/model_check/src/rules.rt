// The rules that each record keeps by itself: rows in range, a parent's row below its own, names of calendars.
// NamesIn is a premise, for the reason that tables.rt gives for KeyTable.
ghost use Rattle.std.specs.Prelude.{◌≡◌, Bool, List, ℕ, ltb};
ghost use Rattle.std.specs.Prelude.{Option};
ghost use Rattle.definition.specs.Base.{every?};
ghost use Rattle.definition.specs.Text.{Text};
ghost use Rattle.definition.specs.Format.{whole, row, text, optional};
ghost use Rattle.definition.specs.Model.{Model, Resource};
ghost use Rattle.definition.specs.Pack.{calendar, resource};
ghost use Rattle.definition.specs.Check.{if_given, is_calendar};
ghost use Rattle.model.specs.Splits.{Stands};
ghost use Rattle.model.specs.Sections.{Holds};
ghost use Rattle.model_check.specs.Kinds.{Item, format_of};
ghost use Rattle.model.specs.Answers.{rows_at};
ghost use Rattle.model_check.specs.Rules.{rows_below, Tells};
ghost use Rattle.model_check.specs.Tables.{NamesIn};
ghost use Rattle.model_check.specs.Walk.{JudgedAt};

use crate::keys::{Calendars, KeyBytes, some_has_key};
use crate::tables::{KeyIndex, table_has_key};
use bits::{Field, Place};
use index::Table;
use model::Section;
use model::parts::{parent_place_by, resource_calendar_place, take_name, take_row, take_rows};
use model::records::{Kind, skip_from_notes, skip_record};

// The names of the calendars: their section, and their table, if there is one, in the words that hold it.
#[derive(Clone, Copy)]
pub(crate) struct Names<'a> {
    pub(crate) section: Section,
    // No Option of a KeyIndex: the walk writes further words in between, so its clauses speak of the table and of the words one by one.
    pub(crate) table: Option<Table>,
    pub(crate) words: &'a [u32],
}

// Whether some calendar has a name, by the table of the calendars; by a scan where there is none. One way needs the words, the other the section, so
// that a trait over both is no plainer than the `match`, here and in tables.rt.
fn is_calendar(s: &[u8], names: Names<'_>, name: &[u8]) -> bool
    ensures { (m : Model) (end : ℕ) → Holds calendar s.now names.entry.section m.calendars end → NamesIn s.now m names.entry.table names.entry.words.now → result ≡ is_calendar m name.now }
{
    let key = KeyBytes { row: 0, name };
    match names.table {
        Some(table) => {
            let words = names.words;
            table_has_key::<Calendars>(s, KeyIndex { table, words }, key)
        }
        None => {
            let x = names.section;
            let first = Place { byte: x.at, bit: 0 };
            some_has_key::<Calendars>(s, first, x.count, key)
        }
    }
}

// Whether the optional name at a place is missing, or some calendar's.
fn calendar_known(s: &[u8], p: Place, names: Names<'_>) -> bool
    ensures { (m : Model) (end : ℕ) → Holds calendar s.now names.entry.section m.calendars end → NamesIn s.now m names.entry.table names.entry.words.now → (o : Option Text) → Stands (optional text) s.now p o → result ≡ if_given (is_calendar m) o }
{
    // No is_none_or: what a closure that takes a reference answers is not known here.
    match take_name(s, p).value {
        Some(name) => is_calendar(s, names, name),
        None => true,
    }
}

// Whether a row is missing, or below another.
fn is_below(row: Option<u32>, own: u32) -> bool
    ensures { result ≡ if_given (λ (n : ℕ). ltb n own) row }
{
    row.is_none_or(|n| n < own)
}

// Whether the activity at a place, the one of a row, is right, and the place behind it. Its texts are tested: the model is not decoded yet.
pub(crate) fn judge_activity(s: &[u8], p: Place, own: u32, names: Names<'_>) -> Field<bool>
    ensures { JudgedAt s.now p own names.entry.section names.entry.table names.entry.words.now result }
{
    let parent = take_row(s, parent_place_by(s, p, true));
    let row = parent.value;
    let calendar = bits::take_text(s, parent.next).next;
    let known = calendar_known(s, calendar, names);
    let end = skip_from_notes(s, parent.next, true);
    let next = bits::take_pad(s, end);
    Field {
        value: is_below(row, own) & known,
        next,
    }
}

// Whether the two rows at a place are below two counts.
pub(crate) fn rows_below(s: &[u8], p: Place, first: u32, second: u32) -> bool
    ensures { result ≡ rows_below (rows_at s.now p).0 first second }
{
    let r = take_rows(s, p);
    r.value.0 < first && r.value.1 < second
}

// Whether the row at a place is below a count.
pub(crate) fn row_below(s: &[u8], p: Place, count: u32) -> bool
    ensures { (n : ℕ) → Stands row s.now p n → result ≡ ltb n count }
{
    bits::take_u32(s, p).value < count
}

// Whether the calendar of the resource at a place is missing, or known.
pub(crate) fn resource_right(s: &[u8], p: Place, names: Names<'_>) -> bool
    ensures { (m : Model) (end : ℕ) → Holds calendar s.now names.entry.section m.calendars end → NamesIn s.now m names.entry.table names.entry.words.now → (a : Resource) → Stands (whole resource) s.now p a → result ≡ if_given (is_calendar m) a.calendar }
{
    calendar_known(s, resource_calendar_place(s, p), names)
}

// Whether each record of a section, all of a kind, passes a test at its place. The other walks over a section are no such test: `some_has_key` begins
// between two records too, `distinct` asks of the records that follow, and `fill` writes. The kind is a value: links and assignments have no key, and
// so no type in keys.rt.
pub(crate) fn every_right<F: Fn(Place) -> bool>(s: &[u8], kind: Kind, x: Section, right: F) -> bool
    requires { F.IsAlwaysCallable right }
    ensures { (of : Item kind → Bool) → Tells kind s.now of (λ p b. F.post right p b) → (xs : List (Item kind)) (end : ℕ) → Holds (format_of kind) s.now x xs end → result ≡ every? of xs }
{
    let mut q = Place { byte: x.at, bit: 0 };
    for _ in 0..x.count {
        if !right(q) {
            return false;
        }
        q = skip_record(s, q, kind, false);
    }
    true
}
