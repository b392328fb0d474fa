// The calendars in the order in which they are built: those without a base, then the others.
ghost use Rattle.std.specs.Prelude.{◌≡◌, suc, ◌+◌, ◌<◌, length, Some, IfSome};
ghost use Rattle.std.specs.Iterator.{item_count};
ghost use Rattle.definition.specs.Base.{◌>>=◌ as bind, first as first_of, numbered};
ghost use Rattle.definition.specs.Field.{text_in};
ghost use Rattle.tree.specs.Place.{Past};
ghost use Rattle.tree.specs.Root.{root_at};
ghost use Rattle.rows.specs.Rows.{in_order, with_uid_in, main_in, calendar_meaning};
ghost use Rattle.rows.specs.Walks.{Gives, later_in_order, order_by, order_room, OrdersAfter, calendars_left, CalendarsOf};

use crate::section::{Derived, Plain, first_which, next_which};
use tree::{Element, Root};

// After those without a base, the first over one.
fn or_derived<'a>(root: Root<'a>, plain: Option<Element<'a>>) -> Option<Element<'a>>
    ensures { OrdersAfter root.entry.tree.now (root_at root.entry) plain.entry result }
{
    // `or_else` would state the clause of `first_which` once more, on its closure.
    if plain.is_some() {
        return plain;
    }
    first_which::<Derived>(root.part(root.calendars), b"Calendar")
}

// The first calendar to be built.
pub fn first_calendar(root: Root<'_>) -> Option<Element<'_>>
    ensures is { in_order (root_at root.entry) ≡ order_by (root_at root.entry) result }
    ensures there { Past root.entry.tree.now 0 result }
    ensures few { order_room root.entry.tree.now result < suc (length root.entry.tree.now + length root.entry.tree.now) }
{
    or_derived(
        root,
        first_which::<Plain>(root.part(root.calendars), b"Calendar"),
    )
}

// The one to be built after another.
pub fn next_calendar<'a>(root: Root<'a>, e: Element<'a>) -> Option<Element<'a>>
    ensures is { later_in_order (root_at root.entry) e.entry ≡ order_by (root_at root.entry) result }
    ensures there { e.entry.tree.now ≡ root.entry.tree.now → Past root.entry.tree.now 0 result }
    ensures few { order_room root.entry.tree.now result < order_room root.entry.tree.now (Some e.entry) }
{
    if calendar::has_base(e) {
        return next_which::<Derived>(e, b"Calendar");
    }
    or_derived(root, next_which::<Plain>(e, b"Calendar"))
}

// The calendars to be built, one after another: those behind the last one given, all where none was. The next one is found only as it is asked for: the
// search for it may pass all the others.
#[derive(Clone, Copy, Debug, PartialEq, Eq)]
pub struct CalendarsInOrder<'a> {
    root: Root<'a>,
    last: Option<Element<'a>>,
}

impl<'a> CalendarsInOrder<'a> {
    // The one that comes next.
    fn following(self) -> Option<Element<'a>>
        ensures is { calendars_left self.entry ≡ order_by (root_at self.entry.root) result }
        ensures there { Past self.entry.root.tree.now 0 self.entry.last → Past self.entry.root.tree.now 0 result }
    {
        match self.last {
            None => first_calendar(self.root),
            Some(e) => next_calendar(self.root, e),
        }
    }
}

impl<'a> Iterator for CalendarsInOrder<'a> {
    type Item = Element<'a>;

    ghost next_gives = { Gives CalendarsOf calendars_left };

    ghost remaining = { item_count calendars_left };

    fn next(&mut self) -> Option<Element<'a>> {
        let e = self.following()?;
        self.last = Some(e);
        Some(e)
    }
}

pub fn calendars(root: Root<'_>) -> CalendarsInOrder<'_>
    ensures is { calendars_left result ≡ in_order (root_at root.entry) }
    ensures of { CalendarsOf result root.entry.tree.now }
{
    CalendarsInOrder { root, last: None }
}

// The first calendar with a UID, in the order in which calendars are built, and its row.
pub fn calendar_with<'a>(root: Root<'a>, uid: &[u8]) -> Option<(usize, Element<'a>)>
    ensures is { calendar_meaning result ≡ with_uid_in (root_at root.entry) uid.now }
    ensures there { IfSome result (λ x. x.1.tree.now ≡ root.entry.tree.now) }
{
    calendars(root)
        .enumerate()
        .find(|x| fields::text_is(x.1, b"UID", uid))
}

// The calendar of CalendarUID.
fn named_calendar(root: Root<'_>) -> Option<(usize, Element<'_>)>
    ensures is { calendar_meaning result ≡ bind (text_in (root_at root.entry) "CalendarUID") (with_uid_in (root_at root.entry)) }
    ensures there { IfSome result (λ x. x.1.tree.now ≡ root.entry.tree.now) }
{
    let uid = root.part(root.calendar).own_text();
    if uid.is_empty() {
        return None;
    }
    calendar_with(root, uid)
}

// The first to be built, with its row.
fn first_row(root: Root<'_>) -> Option<(usize, Element<'_>)>
    ensures is { calendar_meaning result ≡ first_of (numbered 0 (in_order (root_at root.entry))) }
    ensures there { IfSome result (λ x. x.1.tree.now ≡ root.entry.tree.now) }
{
    first_calendar(root).map(|e| (0, e))
}

// The main calendar: that of CalendarUID, else the first.
pub fn main_calendar(root: Root<'_>) -> Option<(usize, Element<'_>)>
    ensures is { calendar_meaning result ≡ main_in (root_at root.entry) }
    ensures there { IfSome result (λ x. x.1.tree.now ≡ root.entry.tree.now) }
{
    // `or_else` would state the clauses of `first_row` once more, on its closure; `or` would find the first where it is not asked for.
    let named = named_calendar(root);
    if named.is_some() {
        return named;
    }
    first_row(root)
}
