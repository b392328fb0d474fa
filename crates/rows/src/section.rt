// The elements of a name in a section, and those of them that pass a test, one after another.
ghost use Rattle.std.specs.Prelude.{◌≡◌, ◌+◌, Bool};
ghost use Rattle.definition.specs.Tree.{Element as Said, child as child_of, all, all_in};
ghost use Rattle.tree.specs.Place.{meaning, later, Starts};
ghost use Rattle.rows.specs.Walks.{is_work, is_cost_resource, is_plain, is_derived, Picks, PicksFrom};

use tree::Element;

// A test of an element: what the functions below are generic over.
pub(crate) trait Test {
    ghost test: { Said → Bool };

    fn passes(e: Element<'_>) -> bool
        ensures { result ≡ test (meaning e.entry) };
}

// Resources: work and cost.
pub(crate) struct Work;

pub(crate) struct Cost;

// Calendars: without a base and over one.
pub(crate) struct Plain;

pub(crate) struct Derived;

impl Test for Work {
    ghost test = { is_work };

    fn passes(e: Element<'_>) -> bool {
        resources::is_resource(e) & !resources::is_cost(e)
    }
}

impl Test for Cost {
    ghost test = { is_cost_resource };

    fn passes(e: Element<'_>) -> bool {
        resources::is_resource(e) & resources::is_cost(e)
    }
}

impl Test for Plain {
    ghost test = { is_plain };

    fn passes(e: Element<'_>) -> bool {
        !calendar::has_base(e)
    }
}

impl Test for Derived {
    ghost test = { is_derived };

    fn passes(e: Element<'_>) -> bool {
        calendar::has_base(e)
    }
}

// The first element of a name in a section, a child of an element.
pub fn first_in<'a>(e: Element<'a>, section: &[u8], name: &[u8]) -> Option<Element<'a>>
    ensures { Starts e.entry.tree.now name.now (all_in (child_of (meaning e.entry) section.now) name.now) (e.entry.at + 1) result }
{
    e.child(section)?.child(name)
}

// The first that passes, from where a list of elements starts: at a child or at a sibling. By hand, as `kept_from`.
fn which_from<'a, T: Test>(start: Option<Element<'a>>, name: &[u8]) -> Option<Element<'a>>
    ensures { PicksFrom name.now T.test start.entry result }
{
    let mut next = start;
    while let Some(e) = next {
        if T::passes(e) {
            return Some(e);
        }
        next = e.next(name);
    }
    None
}

// The first child of the name that passes.
pub(crate) fn first_which<'a, T: Test>(e: Element<'a>, name: &[u8]) -> Option<Element<'a>>
    ensures { Picks e.entry.tree.now name.now T.test (all (meaning e.entry) name.now) (e.entry.at + 1) result }
{
    which_from::<T>(e.child(name), name)
}

// The next sibling of the name that passes.
pub(crate) fn next_which<'a, T: Test>(e: Element<'a>, name: &[u8]) -> Option<Element<'a>>
    ensures { Picks e.entry.tree.now name.now T.test (later name.now e.entry) (e.entry.at + 1) result }
{
    which_from::<T>(e.next(name), name)
}
