// The six sections, one after another, and their counts.
ghost use Rattle.tree.specs.Root.{root_at};
ghost use Rattle.read.specs.Sections.{SectionsPut, AllPut, Closes};
ghost use Rattle.read.specs.Tables.{Tasked};

use crate::assigned::put_assigned;
use crate::project::put_project;
use bits::Place;
use index::Table;
use links::TaskFinder;
use pack::Counts;
use rows::Listed;
use tree::Root;

// How many records of each kind were put, and the place behind the last.
#[derive(Clone, Copy)]
pub(crate) struct Sections {
    pub counts: Counts,
    pub next: Place,
}

// The calendars stand at p; activities and resources read their names there. The words behind the table of the kept tasks are lent to each section.
// Tasked stands in five contracts and in no struct: each section borrows the words anew, and writes behind the table.
fn put_sections(
    out: &mut [u8],
    p: Place,
    root: Root<'_>,
    words: &mut [u32],
    tasks: Option<Table>,
) -> Sections
    requires { Tasked root words.old tasks }
    ensures { SectionsPut (root_at root.entry) out.old p out.new result }
{
    // For proofs alone: says that a tree is bytes.
    rows::are_bytes(root.tree);
    let behind = index::end_of(tasks, words.len());
    let a = calendars::put_calendars(out, p, root, words, behind);
    let b = activities::put_activities(out, a.next, root, p, words, tasks);
    let finder = TaskFinder {
        root,
        words,
        table: tasks,
    };
    let c = links::put_links(out, b.next, finder);
    let d = put_assigned(out, c.next, root, p, words, tasks);
    let next = d.expenses.next;
    Sections {
        counts: Counts {
            calendars: a.count,
            activities: b.count,
            links: c.count,
            resources: d.resources.count,
            assignments: d.assignments.count,
            expenses: d.expenses.count,
        },
        next,
    }
}

// All from the first byte on, the six counts left open.
pub(crate) fn put_all(out: &mut [u8], root: Root<'_>, words: &mut [u32]) -> Sections
    ensures { AllPut (root_at root.entry) out.old out.new result }
{
    let p = pack::put_counts(out, Place { byte: 0, bit: 0 }, Counts::default());
    let tasks = rows::index_rows(root, Listed::Tasks, words, 0);
    let finder = TaskFinder {
        root,
        words,
        table: tasks,
    };
    let q = put_project(out, p, finder);
    put_sections(out, q, root, words, tasks)
}

// The six counts put in their places. Written over, where pack's put_counts appends.
pub(crate) fn close_counts(out: &mut [u8], n: Counts)
    ensures { Closes n out.old out.new }
{
    let mut p = Place { byte: 0, bit: 0 };
    for count in n.each() {
        p = bits::overwrite(out, p, 32, u64::from(count));
    }
}
