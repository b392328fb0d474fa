// Where the parts of a project stand, found in one walk over its children.
ghost use Rattle.std.specs.Prelude.{◌≡◌, length};
ghost use Rattle.definition.specs.Tree.{child as child_of};
ghost use Rattle.tree.specs.Place.{meaning};
ghost use Rattle.tree.specs.Root.{note_at, Notes, Parts, Stands};

use crate::{Element, Siblings};

// The children of a project that are read; a position past the end stands for one that is missing.
// Option<usize> would be no plainer: past the end stands an element with no name, text or child, so that no reader of a part asks whether it is there.
#[derive(Clone, Copy, Debug, PartialEq, Eq)]
pub struct Root<'a> {
    pub tree: &'a [u8],
    pub calendars: usize,
    pub tasks: usize,
    pub resources: usize,
    pub assignments: usize,
    pub calendar: usize,
    pub minutes: usize,
    pub title: usize,
    pub name: usize,
    pub start: usize,
    pub currency: usize,
    pub status: usize,
}

impl<'a> Root<'a> {
    // The element at a position.
    pub fn part(self, at: usize) -> Element<'a>
        ensures { result ≡ record { tree = self.entry.tree; at = at } }
    {
        Element {
            tree: self.tree,
            at,
        }
    }
}

fn nowhere(tree: &[u8]) -> Root<'_>
    ensures tree { result.tree.now ≡ tree.now }
    ensures parts { Parts (λ n p. p ≡ length tree.now) result }
{
    let end = tree.len();
    Root {
        tree,
        calendars: end,
        tasks: end,
        resources: end,
        assignments: end,
        calendar: end,
        minutes: end,
        title: end,
        name: end,
        start: end,
        currency: end,
        status: end,
    }
}

// Where the part of a name stands, once a child was looked at.
fn note(was: usize, e: Element<'_>, name: &[u8]) -> usize
    ensures { result ≡ note_at e.entry.tree.now e.entry.at name.now was }
{
    if was < e.tree.len() {
        return was;
    }
    if e.name_is(name) {
        return e.at;
    }
    was
}

// By hand, and no list of names: each part has a field of its own.
fn note_all<'a>(was: Root<'a>, e: Element<'_>) -> Root<'a>
    ensures tree { result.tree.now ≡ was.entry.tree.now }
    ensures parts { Notes e.entry.tree.now e.entry.at was.entry result }
{
    Root {
        tree: was.tree,
        calendars: note(was.calendars, e, b"Calendars"),
        tasks: note(was.tasks, e, b"Tasks"),
        resources: note(was.resources, e, b"Resources"),
        assignments: note(was.assignments, e, b"Assignments"),
        calendar: note(was.calendar, e, b"CalendarUID"),
        minutes: note(was.minutes, e, b"MinutesPerDay"),
        title: note(was.title, e, b"Title"),
        name: note(was.name, e, b"Name"),
        start: note(was.start, e, b"StartDate"),
        currency: note(was.currency, e, b"CurrencySymbol"),
        status: note(was.status, e, b"StatusDate"),
    }
}

// The parts of an element.
pub fn root_of(e: Element<'_>) -> Root<'_>
    ensures tree { result.tree.now ≡ e.entry.tree.now }
    ensures parts { Parts (λ n p. Stands e.entry.tree.now p (child_of (meaning e.entry) n)) result }
{
    let mut r = nowhere(e.tree);
    let Some(h) = crate::read_head(e.tree, e.at) else {
        return r;
    };
    let children = Siblings {
        tree: e.tree,
        at: h.next,
        depth: h.depth + 1,
    };
    // Without the name: what `note` leaves is said of an element's own.
    for (child, _) in children {
        r = note_all(r, child);
    }
    r
}
