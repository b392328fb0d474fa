// Resources, assignments and expenses, with the tables of resources.
ghost use Rattle.std.specs.Prelude.{◌≡◌};
ghost use Rattle.tree.specs.Root.{root_at};
ghost use Rattle.assignments.specs.Finders.{Finds};
ghost use Rattle.assignments.specs.Records.{finders_at};
ghost use Rattle.read.specs.Sections.{AssignedPut};
ghost use Rattle.read.specs.Tables.{Tasked};

use assignments::Tables;
use bits::Place;
use index::Table;
use pack::Records;
use rows::Listed;
use tree::Root;

// The places behind the three sections, and how many records each has.
#[derive(Clone, Copy)]
pub(crate) struct Assigned {
    pub resources: Records,
    pub assignments: Records,
    pub expenses: Records,
}

// The tables of resources behind that of the kept tasks, each where it finds room. Tasked is a premise here as in sections.rt.
fn index_resources<'a>(root: Root<'a>, words: &mut [u32], tasks: Option<Table>) -> Tables<'a>
    requires { Tasked root words.old tasks }
    ensures finds { Finds (root_at root.entry) (finders_at words.new result) }
    ensures root { result.root ≡ root.entry }
{
    let at = index::end_of(tasks, words.len());
    let work = rows::index_rows(root, Listed::Work, words, at);
    let behind = at.max(index::end_of(work, words.len()));
    let cost = rows::index_rows(root, Listed::Cost, words, behind);
    Tables {
        root,
        tasks,
        work,
        cost,
    }
}

// All three, from p on. The calendars stand at c.
pub(crate) fn put_assigned(
    out: &mut [u8],
    p: Place,
    root: Root<'_>,
    c: Place,
    words: &mut [u32],
    tasks: Option<Table>,
) -> Assigned
    requires { Tasked root words.old tasks }
    ensures { AssignedPut (root_at root.entry) c out.old p out.new result }
{
    let at = index::end_of(tasks, words.len());
    let resources = assignments::put_resources(out, p, root, c, words, at);
    let tables = index_resources(root, words, tasks);
    let assignments = assignments::put_assignments(out, resources.next, tables, words);
    let expenses = assignments::put_expenses(out, assignments.next, tables, words);
    Assigned {
        resources,
        assignments,
        expenses,
    }
}
