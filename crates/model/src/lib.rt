// Decoding a model of any bytes: where its sections stand, and the fields of its records.
#![tactic(auto)]

mod fields; // each field passed over
pub mod lists; // lists of periods and days
pub mod records; // records, one and many
pub mod parts; // the parts of records

ghost use Rattle.std.specs.Prelude.{◌≡◌};
ghost use Rattle.reader.specs.Read.{moved_by};
ghost use Rattle.model.specs.Answers.{counts_at};
ghost use Rattle.model.specs.Sections.{start, counts_in, sections_by, PassesProject, PassesRecords, Heads, Behind, Walks, Opens};

use crate::records::{Kind, skip_project, skip_records};
use bits::{Field, PAST, Place};
pub use definition::PerKind;
use reader::Reader;

// A section: how many records it has, and the byte at which the first stands. The model goes beside it, and no slice of it: its records have no
// common size, and callers keep the places of some. Numbers that mean something else than those of an index::Table.
#[derive(Clone, Copy, Debug, PartialEq, Eq)]
pub struct Section {
    pub count: u32,
    pub at: usize,
}

// A model's sections.
pub type Sections = PerKind<Section>;

// The six counts, and the place behind them; where they cannot be read, zeros and a place past every end.
pub type Counts = Field<PerKind<u32>>;

// Where each section begins, and the place behind the last.
pub type Places = Field<PerKind<Place>>;

// No Option: a walk goes on from a place past every end, as behind any field that is refused, and the callers test its end alone.
const NO_COUNTS: Counts = Field {
    value: PerKind {
        calendars: 0,
        activities: 0,
        links: 0,
        resources: 0,
        assignments: 0,
        expenses: 0,
    },
    next: PAST,
};

// Read one after another by a reader at the first bit, by name: an array of six would be taken apart at once into the fields of a PerKind.
pub fn take_counts(s: &[u8]) -> Counts
    ensures { (counts_in result, result.next) ≡ counts_at s.now start }
{
    let calendars = Reader::new(s).take_u32();
    let activities = calendars.next.take_u32();
    let links = activities.next.take_u32();
    let resources = links.next.take_u32();
    let assignments = resources.next.take_u32();
    let expenses = assignments.next.take_u32();
    let next = expenses.next.place;
    if 7 < next.bit {
        return NO_COUNTS;
    }
    Field {
        value: PerKind {
            calendars: calendars.value,
            activities: activities.value,
            links: links.value,
            resources: resources.value,
            assignments: assignments.value,
            expenses: expenses.value,
        },
        next,
    }
}

// Where the first two sections begin.
#[derive(Clone, Copy, Debug, PartialEq, Eq)]
pub struct Head {
    pub calendars: Place,
    pub activities: Place,
}

// The reader behind the project record, and the reader behind so many records of a kind. `moved_by` promises that its bytes are the same ones: two
// contracts do for the walk, while those of the fields would each need it (head of fields.rt). The kind is a value, as `skip_records` takes it.
fn past_project<'a>(r: Reader<'a>) -> Reader<'a>
    ensures { moved_by PassesProject r.entry result }
{
    Reader {
        place: skip_project(r.model, r.place),
        ..r
    }
}

fn past_records<'a>(r: Reader<'a>, kind: Kind, count: u32) -> Reader<'a>
    ensures { moved_by (PassesRecords kind count) r.entry result }
{
    // There is no From from u32 to usize.
    Reader {
        place: skip_records(r.model, r.place, kind, count as usize, true),
        ..r
    }
}

// The walk up to the activities.
pub fn walk_head(s: &[u8], n: Counts) -> Head
    ensures { Heads s.now n result }
{
    let project = Reader {
        model: s,
        place: n.next,
    };
    let calendars = past_project(project);
    let activities = past_records(calendars, Kind::Calendars, n.value.calendars);
    Head {
        calendars: calendars.place,
        activities: activities.place,
    }
}

// The walk from the links on, behind the activities. Each place by its name: two of the seven are a Head's, and `..` takes from a value of the same
// type alone.
pub fn walk_behind(s: &[u8], n: Counts, head: Head, links: Place) -> Places
    ensures { Behind s.now n head links result }
{
    let first = Reader {
        model: s,
        place: links,
    };
    let resources = past_records(first, Kind::Links, n.value.links);
    let assignments = past_records(resources, Kind::Resources, n.value.resources);
    let expenses = past_records(assignments, Kind::Assignments, n.value.assignments);
    let end = past_records(expenses, Kind::Expenses, n.value.expenses);
    Field {
        value: PerKind {
            calendars: head.calendars,
            activities: head.activities,
            links,
            resources: resources.place,
            assignments: assignments.place,
            expenses: expenses.place,
        },
        next: end.place,
    }
}

// The walk as a whole. The check and the outline have one of their own, with more at each activity: what all three share are the two functions above.
fn walk(s: &[u8], n: Counts) -> Places
    ensures { Walks s.now n result }
{
    let head = walk_head(s, n);
    let activities = Reader {
        model: s,
        place: head.activities,
    };
    let links = past_records(activities, Kind::Activities, n.value.activities);
    walk_behind(s, n, head, links.place)
}

// The sections of so many bytes, if the last one ends where they end.
pub fn sections_of(len: usize, n: Counts, w: Places) -> Option<Sections>
    ensures { result ≡ sections_by len n w }
{
    let section = |count: u32, place: Place| Section {
        count,
        at: place.byte,
    };
    if w.next == (Place { byte: len, bit: 0 }) {
        return Some(PerKind {
            calendars: section(n.value.calendars, w.value.calendars),
            activities: section(n.value.activities, w.value.activities),
            links: section(n.value.links, w.value.links),
            resources: section(n.value.resources, w.value.resources),
            assignments: section(n.value.assignments, w.value.assignments),
            expenses: section(n.value.expenses, w.value.expenses),
        });
    }
    None
}

// The one pass that decodes a model: it is refused, or these are its sections.
pub fn open(s: &[u8]) -> Option<Sections>
    ensures { Opens s.now result }
{
    let n = take_counts(s);
    sections_of(s.len(), n, walk(s, n))
}
