// The assignments. What is right is said in the crate definition, specs/Resource.antt.
ghost use Rattle.std.specs.Prelude.{◌≡◌};
ghost use Rattle.std.specs.Option.{option_map};
ghost use Rattle.definition.specs.Format.{whole};
ghost use Rattle.definition.specs.Pack.{assignment};
ghost use Rattle.tree.specs.Place.{meaning};
ghost use Rattle.tree.specs.Root.{root_at};
ghost use Rattle.pack.specs.Record.{assignment_by};
ghost use Rattle.pack.specs.Writes.{Writes};
ghost use Rattle.assignments.specs.Finders.{assignment_for, assignments_by};
ghost use Rattle.assignments.specs.Records.{finders_at};

use crate::section::{Done, Tables};
use bits::Place;
use pack::{Assignment, Records};
use tree::Element;

// What an element gives: its task and its work resource have rows, and its resource is no cost resource.
fn assignment_of(tables: Tables<'_>, words: &[u32], e: Element<'_>) -> Option<Assignment>
    ensures { option_map assignment_by result ≡ assignment_for (finders_at words.now tables.entry) (meaning e.entry) }
{
    if tables.cost_of(words, e).is_some() {
        return None;
    }
    let activity = tables.task_of(words, e)?;
    let resource = tables.work_of(words, e)?;
    Some(Assignment {
        activity,
        resource,
        work: resources::work(e),
        rate: resources::rate(e),
    })
}

// The assignments, one after another; tasks and resources by tables in the words.
pub fn put_assignments(out: &mut [u8], p: Place, tables: Tables<'_>, words: &[u32]) -> Records
    ensures { Writes (whole assignment) (assignments_by (finders_at words.now tables.entry) (root_at tables.entry.root)) out.old p out.new result }
{
    let section = tables.root.part(tables.root.assignments);
    let mut done = Done::none(p);
    for e in section.children(b"Assignment") {
        if let Some(a) = assignment_of(tables, words, e) {
            done = done.more(a.put(out, done.next));
        }
    }
    Records::from(done)
}
