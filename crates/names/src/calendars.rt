// The calendars of a tree, and their names as they stand in the buffer.
ghost use Rattle.std.specs.Prelude.{◌≡◌, [], ◌∷◌, length};
ghost use Rattle.definition.specs.Base.{◌or◌, same};
ghost use Rattle.definition.specs.Ascii.{bytes};
ghost use Rattle.definition.specs.Calendar.{calendar_elements, elapsed_name};
ghost use Rattle.definition.specs.Task.{unless_main};
ghost use Rattle.bits.specs.Places.{up_to};
ghost use Rattle.model.specs.Answers.{read_at};
ghost use Rattle.model.specs.Parts.{raw};
ghost use Rattle.tree.specs.Place.{later, meaning};
ghost use Rattle.tree.specs.Root.{root_at};
ghost use Rattle.pack.specs.Value.{starred_by, name_meaning};
ghost use Rattle.names.specs.Context.{main_row, section_row, wanted_by, wanted_name, stars_by, stars_in, context_at, calendars_before};

use crate::records::{place_of_row, raw_text};
use crate::stars::same_starred;
use bits::Place;
use model::records::Kind;
use std::cmp::Ordering;
use tree::{Element, MOST_ELEMENTS, Root};

// ---- how many

// How many calendars there are.
pub fn count_calendars(root: Root<'_>) -> usize
    ensures { result ≡ length (calendar_elements (root_at root.entry)) }
{
    root.part(root.calendars).children(b"Calendar").count()
}

// Whether a place is not behind another. No derived order says this: a bit may be past 7, so that two places differ and are the same bit.
fn up_to(p: Place, q: Place) -> bool
    ensures { result ≡ up_to p q }
{
    if 7 < p.bit {
        return false;
    }
    if p.byte < q.byte {
        return true;
    }
    let d = p.byte - q.byte;
    if q.bit / 8 < d {
        return false;
    }
    p.bit <= q.bit - d * 8
}

// Whether all calendars, at most 5,000,000, are read from c on before p.
pub fn calendars_before(out: &[u8], c: Place, root: Root<'_>, p: Place) -> bool
    ensures { result ≡ calendars_before out.now c (root_at root.entry) p }
{
    let n = count_calendars(root);
    if MOST_ELEMENTS < n {
        return false;
    }
    up_to(place_of_row(out, c, Kind::Calendars, n), p)
}

// ---- names

// The elapsed calendar's name, as the definition's elapsed_name has it.
pub const ELAPSED: &[u8] = b"Elapsed (24 hours)";

// The name that a calendar is to have; `unnamed` for one that says none. Public, as it was: `calendar_text` alone calls it.
pub fn wanted_name<'a>(e: Element<'a>, unnamed: &'a [u8]) -> &'a [u8]
    ensures { result.now ≡ wanted_by unnamed.now (meaning e.entry) }
{
    let n = e.text_of(b"Name");
    if n.is_empty() { unnamed } else { n }
}

// The definition's wanted_name of a calendar: `Calendar` for one that says none.
pub fn calendar_text(e: Element<'_>) -> &[u8]
    ensures { result.now ≡ wanted_name (meaning e.entry) }
{
    wanted_name(e, b"Calendar")
}

// The row of the main calendar among those in the order in which they are built; 0 where there is none, as the definition has it.
fn main_row(root: Root<'_>) -> usize
    ensures { result ≡ main_row (root_at root.entry) }
{
    rows::main_calendar(root).map_or(0, |x| x.0)
}

fn section_row(main: usize, row: usize) -> usize
    ensures { result ≡ section_row main row }
{
    match row.cmp(&main) {
        Ordering::Less => row + 1,
        Ordering::Equal => 0,
        Ordering::Greater => row,
    }
}

// How many `*` the name of a calendar has behind its wanted name; its record in the buffer stands at p.
// By `as`: a text's length is read from 32 bits.
pub(crate) fn stars_at(out: &[u8], p: Place, e: Element<'_>) -> u32
    ensures { result ≡ stars_by ((read_at raw out.now p).0 or []) (meaning e.entry) }
{
    let long = raw_text(out, p).len();
    let short = calendar_text(e).len();
    long.saturating_sub(short) as u32
}

// The calendars of a project, and where they stand in the buffer as it is while a table or a name is made.
#[derive(Clone, Copy)]
pub(crate) struct CalendarNames<'a, 'b> {
    pub out: &'b [u8],
    pub root: Root<'a>,
    pub start: Place,
}

impl<'a, 'b> CalendarNames<'a, 'b> {
    // That of the calendar of a row.
    pub(crate) fn stars_of(self, row: usize, e: Element<'_>) -> u32
        ensures { result ≡ stars_in self.entry.out.now self.entry.start (root_at self.entry.root) row (meaning e.entry) }
    {
        let k = section_row(main_row(self.root), row);
        let p = place_of_row(self.out, self.start, Kind::Calendars, k);
        stars_at(self.out, p, e)
    }

    // Whether a text with so many `*` is the main calendar's name.
    fn is_main(self, text: &[u8], stars: u32) -> bool
        ensures { result ≡ same (starred_by text.now stars) (context_at self.entry.out.now self.entry.start (root_at self.entry.root)).main.name }
    {
        // A `match`: `map_or_else` would have two long closures.
        match rows::main_calendar(self.root) {
            Some((row, e)) => {
                let m = self.stars_of(row, e);
                same_starred(text, stars, calendar_text(e), m)
            }
            None => same_starred(text, stars, b"Standard", 0),
        }
    }

    // A text with so many `*`, unless it is the main calendar's name.
    pub(crate) fn unless_main(self, text: &[u8], stars: u32) -> Option<u32>
        ensures { name_meaning text.now result ≡ unless_main (context_at self.entry.out.now self.entry.start (root_at self.entry.root)) (starred_by text.now stars) }
    {
        (!self.is_main(text, stars)).then_some(stars)
    }

    // The elapsed calendar's name, unless it is the main one's.
    pub(crate) fn elapsed_named(self) -> Option<u32>
        ensures { name_meaning elapsed_name result ≡ unless_main (context_at self.entry.out.now self.entry.start (root_at self.entry.root)) elapsed_name }
    {
        self.unless_main(ELAPSED, 0)
    }
}
