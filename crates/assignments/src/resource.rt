// The work resources. What is right is said in the crate definition, specs/Resource.antt.
ghost use Rattle.std.specs.Prelude.{◌≡◌, ◌&&◌, ◌∷◌, [], length, nat_le};
ghost use Rattle.definition.specs.Base.{◌>>=◌ as bind};
ghost use Rattle.definition.specs.Field.{text_in};
ghost use Rattle.definition.specs.Format.{whole};
ghost use Rattle.definition.specs.Pack.{resource};
ghost use Rattle.definition.specs.Refusal.{most_elements};
ghost use Rattle.definition.specs.Resource.{work_resources, resources as resources_of};
ghost use Rattle.bits.specs.Clear.{cleared};
ghost use Rattle.tree.specs.Place.{meaning};
ghost use Rattle.tree.specs.Root.{root_at};
ghost use Rattle.pack.specs.Record.{resource_by};
ghost use Rattle.pack.specs.Value.{given_by, starred, starred_by};
ghost use Rattle.pack.specs.Writes.{WritesIf};
ghost use Rattle.names.specs.Context.{context_at, calendars_before};
ghost use Rattle.names.specs.Named.{named_in};
ghost use Rattle.assignments.specs.Resources.{wanted_id, resource_with, section_names, Adds, PutsResources};

use crate::section::Done;
use bits::{PAST, Place};
use index::Table;
use model::records::Kind;
use names::Ids;
use pack::{Records, Resource, Starred};
use rows::Listed;
use tree::{Element, MOST_ELEMENTS, Root};

// ---- what a Resource says

// Its ID, else its UID, which is looked up in any case, as in activities. A function over a list of names, which would serve activities' three as well,
// would be a loop for one line.
fn wanted_id(e: Element<'_>) -> &[u8]
    ensures { result.now ≡ wanted_id (meaning e.entry) }
{
    fields::text_in(e, b"ID").unwrap_or(e.text_of(b"UID"))
}

// All of it, with so many `*` behind its id, and its calendar's name.
fn resource_of<'a>(e: Element<'a>, stars: u32, calendar: Option<Starred<'a>>) -> Resource<'a>
    ensures { resource_by result ≡ resource_with (given_by starred calendar.entry) (starred_by (wanted_id (meaning e.entry)) stars) (meaning e.entry) }
{
    Resource {
        id: Starred {
            text: wanted_id(e),
            stars,
        },
        name: e.text_of(b"Name"),
        kind: u32::from(resources::resource_kind(e)),
        unit: e.text_of(b"MaterialLabel"),
        max_units: resources::max_units(e),
        calendar,
        price: resources::price(e),
    }
}

// ---- one after another

// The project, where its calendars and its resources begin in the buffer, and the tables of the calendars' names and of the ids in lent words.
#[derive(Clone, Copy)]
struct Section<'a> {
    root: Root<'a>,
    calendars: Place,
    start: Place,
    calendar_names: Option<Table>,
    ids: Option<Ids>,
}

impl<'a> Section<'a> {
    // The name of a Resource's calendar, unless it is the main one's.
    fn calendar_of(self, out: &[u8], words: &[u32], e: Element<'_>) -> Option<Starred<'a>>
        ensures { given_by starred result ≡ bind (text_in (meaning e.entry) "CalendarUID") (section_names self.entry out.now words.now) }
    {
        let uid = fields::text_in(e, b"CalendarUID")?;
        let name = names::calendar_in(
            out,
            self.calendars,
            self.root,
            words,
            self.calendar_names,
            uid,
        )?;
        Some(name.starred())
    }

    // One more.
    fn put_one(self, out: &mut [u8], words: &mut [u32], done: Done, e: Element<'_>) -> Done
        ensures { Adds self.entry (meaning e.entry) out.old words.old done out.new words.new result }
    {
        let id = wanted_id(e);
        let row = done.row();
        let p = done.next;
        let stars = names::stars_for(
            out,
            Kind::Resources,
            self.start,
            p,
            words,
            self.ids,
            row,
            id,
        );
        let calendar = self.calendar_of(out, words, e);
        let next = resource_of(e, stars, calendar).put(out, p);
        names::note_stars(words, self.ids, row, id, stars, p);
        done.more(next)
    }

    // All of them.
    fn put(self, out: &mut [u8], words: &mut [u32]) -> Done
        ensures { PutsResources self.entry out.old words.old out.new words.new result }
    {
        // For proofs alone: says that a tree is bytes.
        rows::are_bytes(self.root.tree);
        let mut done = Done::none(self.start);
        for e in rows::elements(self.root, Listed::Work) {
            done = self.put_one(out, words, done, e);
        }
        done
    }
}

// All of them, with the calendars and the ids in the words from a place on; a place and no slice, since tables count from the front of the words.
fn put_all(
    out: &mut [u8],
    p: Place,
    root: Root<'_>,
    c: Place,
    words: &mut [u32],
    at: usize,
) -> Records
    ensures { WritesIf (nat_le (length (work_resources (root_at root.entry))) most_elements && calendars_before out.old c (root_at root.entry) p) (whole resource) (resources_of (context_at out.old c (root_at root.entry)) (root_at root.entry)) out.old p out.new result × (cleared at words.new ≡ cleared at words.old) }
{
    let n = rows::elements(root, Listed::Work).count();
    if MOST_ELEMENTS < n || !names::calendars_before(out, c, root, p) {
        return Records::none(PAST);
    }
    // No tables for none.
    if n == 0 {
        return Records::none(p);
    }
    let calendars = names::index_calendars(out, c, root, words, at);
    let section = Section {
        root,
        calendars: c,
        start: p,
        calendar_names: calendars.table,
        // `u32::try_from` would have an error that cannot occur.
        ids: names::ids_for(out.len(), p, words, calendars.end, n as u32),
    };
    Records::from(section.put(out, words))
}

// The work resources, one after another; none where there are more than 5,000,000. The calendars stand at c in the same buffer, before p; else nothing is
// written. The words from `at` on are lent for tables, and cleared.
pub fn put_resources(
    out: &mut [u8],
    p: Place,
    root: Root<'_>,
    c: Place,
    words: &mut [u32],
    at: usize,
) -> Records
    ensures { WritesIf (nat_le (length (work_resources (root_at root.entry))) most_elements && calendars_before out.old c (root_at root.entry) p) (whole resource) (resources_of (context_at out.old c (root_at root.entry)) (root_at root.entry)) out.old p out.new result × (words.new ≡ cleared at words.old) }
{
    let r = put_all(out, p, root, c, words, at);
    bits::fill_from(words, at, 0);
    r
}
