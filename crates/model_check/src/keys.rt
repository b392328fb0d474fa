// Keys: what no two records of a section share. An id or a name that stands first in its record; of an expense its activity's row and its name.
// Keyed, Holds, KeyTable and NamesIn are premises in the contracts, as they speak of a model, or of its keys, that are not at hand as a value.
ghost use Rattle.std.specs.Prelude.{◌≡◌, refl, ◌%◌, ◌≤◌, false, List, ℕ};
ghost use Rattle.std.proofs.Common.{leb-true};
ghost use Rattle.definition.specs.Base.{some?};
ghost use Rattle.definition.specs.Text.{Text};
ghost use Rattle.definition.specs.Format.{whole, text};
ghost use Rattle.definition.specs.Check.{distinct};
ghost use Rattle.model.specs.Passes.{Passes};
ghost use Rattle.model.specs.Parts.{record_of};
ghost use Rattle.model.specs.Splits.{Stands};
ghost use Rattle.model.specs.declared.records.Kind.{Kind};
ghost use Rattle.model.specs.declared.records.Kind.TheVariants.{Calendars, Activities, Resources, Expenses};
ghost use Rattle.model.specs.Sections.{Holds};
ghost use Rattle.model_check.specs.Kinds.{Item, format_of, Run};
ghost use Rattle.model_check.specs.Keys.{Key, key_of, same_key, KeyAt, Keyed};

use bits::Place;
use model::Section;
use model::parts::text_in;
use model::records::{Kind, skip_record};

// A section's records that have a key: what the functions on keys are generic over. LEAD is how many bits stand in one before the text of its key: an
// expense's row.
pub(crate) trait Records {
    ghost KIND: { Kind };

    ghost LEAD: { ℕ };

    const KIND: Kind;

    const LEAD: usize;

    ghost fits: { LEAD ≤ 64 };
}

pub(crate) struct Calendars;

pub(crate) struct Activities;

pub(crate) struct Resources;

pub(crate) struct Expenses;

impl Records for Calendars {
    ghost KIND = { Calendars };

    ghost LEAD = { 0 };

    const KIND: Kind = Kind::Calendars;

    const LEAD: usize = 0;

    ghost fits = { leb-true 0 64 refl };
}

impl Records for Activities {
    ghost KIND = { Activities };

    ghost LEAD = { 0 };

    const KIND: Kind = Kind::Activities;

    const LEAD: usize = 0;

    ghost fits = { leb-true 0 64 refl };
}

impl Records for Resources {
    ghost KIND = { Resources };

    ghost LEAD = { 0 };

    const KIND: Kind = Kind::Resources;

    const LEAD: usize = 0;

    ghost fits = { leb-true 0 64 refl };
}

impl Records for Expenses {
    ghost KIND = { Expenses };

    ghost LEAD = { 32 };

    const KIND: Kind = Kind::Expenses;

    const LEAD: usize = 32;

    ghost fits = { leb-true 32 64 refl };
}

// A key: the row that stands in the record before its text, and the text. The row is 0 and no Option where none stands: all records of a section have
// a row there, or none has.
#[derive(Clone, Copy)]
pub(crate) struct KeyBytes<'a> {
    pub(crate) row: u64,
    pub(crate) name: &'a [u8],
}

// The bytes of the text at a place. names::raw_text has this body and promises more, of bytes that are no text too: a function for both would stand in
// model, with the laws of names that prove that promise; the body is one line, so it stands twice.
fn text_at(s: &[u8], p: Place) -> &[u8]
    ensures { (t : Text) → Stands text s.now p t → result.now ≡ t }
{
    text_in(s, bits::take_text(s, p))
}

// The place behind the record at a place.
pub(crate) fn next_record<K: Records>(s: &[u8], p: Place) -> Place
    ensures { Passes (record_of false K.KIND) s.now p result × (result.bit % 8 ≡ 0) }
{
    skip_record(s, p, K::KIND, false)
}

// The key of the record at a place.
pub(crate) fn key_at<'a, K: Records>(s: &'a [u8], p: Place) -> KeyBytes<'a>
    ensures { (k : Key) → KeyAt K.LEAD s.now p k → key_of result ≡ k }
{
    let v = bits::take(s, p, K::LEAD);
    KeyBytes {
        row: v.value,
        name: text_at(s, v.next),
    }
}

// Whether the record at a place has a key. Not by `==` on keys: where the rows differ, the text is not read.
pub(crate) fn has_key<K: Records>(s: &[u8], p: Place, key: KeyBytes) -> bool
    ensures { (k : Key) → KeyAt K.LEAD s.now p k → result ≡ same_key (key_of key.entry) k }
{
    let v = bits::take(s, p, K::LEAD);
    if v.value != key.row {
        return false;
    }
    key.name == text_at(s, v.next)
}

// Whether one of so many records from a place on has a key.
pub(crate) fn some_has_key<K: Records>(s: &[u8], p: Place, count: u32, key: KeyBytes) -> bool
    ensures { (of : Item K.KIND → Key) → Keyed K.KIND K.LEAD s.now of → (xs : List (Item K.KIND)) (end : ℕ) → Run K.KIND s.now p count xs end → result ≡ some? (λ (x : Item K.KIND). same_key (key_of key.entry) (of x)) xs }
{
    let mut q = p;
    for _ in 0..count {
        if has_key::<K>(s, q, key) {
            return true;
        }
        q = next_record::<K>(s, q);
    }
    false
}

// Whether one of so many records from `next` on has the key of the record at p.
fn is_repeated<K: Records>(s: &[u8], p: Place, next: Place, count: u32) -> bool
    ensures { (of : Item K.KIND → Key) → Keyed K.KIND K.LEAD s.now of → (a : Item K.KIND) → Stands (whole (format_of K.KIND)) s.now p a → (xs : List (Item K.KIND)) (end : ℕ) → Run K.KIND s.now next count xs end → result ≡ some? (λ (x : Item K.KIND). same_key (of a) (of x)) xs }
{
    some_has_key::<K>(s, next, count, key_at::<K>(s, p))
}

// Whether no two records of a section have the same key, by a look at all later ones for each.
pub(crate) fn distinct<K: Records>(s: &[u8], x: Section) -> bool
    ensures { (of : Item K.KIND → Key) → Keyed K.KIND K.LEAD s.now of → (xs : List (Item K.KIND)) (end : ℕ) → Holds (format_of K.KIND) s.now x xs end → result ≡ distinct (λ (x y : Item K.KIND). same_key (of x) (of y)) xs }
{
    let mut q = Place { byte: x.at, bit: 0 };
    for i in 0..x.count {
        let next = next_record::<K>(s, q);
        if is_repeated::<K>(s, q, next, x.count - i - 1) {
            return false;
        }
        q = next;
    }
    true
}
