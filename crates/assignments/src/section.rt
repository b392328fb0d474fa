// What the sections share: what an Assignment names, found by tables, and how many records were written.
ghost use Rattle.std.specs.Prelude.{◌≡◌, ◌+◌, ◌%◌, ◌^◌, min};
ghost use Rattle.tree.specs.Place.{meaning};
ghost use Rattle.rows.specs.Rows.{found_meaning};
ghost use Rattle.assignments.specs.Finders.{task_by, work_by, cost_by};
ghost use Rattle.assignments.specs.Records.{finders_at, ends_at};

use bits::Place;
use index::Table;
use pack::Records;
use rows::Listed;
use tree::{Element, Root};

// ---- what an Assignment names

// A project, and the tables of its tasks, of its work resources and of its cost resources, in lent words.
#[derive(Clone, Copy)]
pub struct Tables<'a> {
    pub root: Root<'a>,
    pub tasks: Option<Table>,
    pub work: Option<Table>,
    pub cost: Option<Table>,
}

// Two lines each: one function over the list and the name would have to pick the table by them.
impl<'a> Tables<'a> {
    // The row of its task.
    pub(crate) fn task_of(self, words: &[u32], e: Element<'_>) -> Option<u32>
        ensures { result ≡ task_by (finders_at words.now self.entry) (meaning e.entry) }
    {
        let uid = fields::text_in(e, b"TaskUID")?;
        rows::row_with(self.root, Listed::Tasks, words, self.tasks, uid)
    }

    // The row of its work resource.
    pub(crate) fn work_of(self, words: &[u32], e: Element<'_>) -> Option<u32>
        ensures { result ≡ work_by (finders_at words.now self.entry) (meaning e.entry) }
    {
        let uid = fields::text_in(e, b"ResourceUID")?;
        rows::row_with(self.root, Listed::Work, words, self.work, uid)
    }

    // Its cost resource.
    pub(crate) fn cost_of(self, words: &[u32], e: Element<'_>) -> Option<Element<'a>>
        ensures { found_meaning result ≡ cost_by (finders_at words.now self.entry) (meaning e.entry) }
    {
        let uid = fields::text_in(e, b"ResourceUID")?;
        rows::cost_with(self.root, words, self.cost, uid)
    }

    // Where they end, no more than the length of the words.
    pub(crate) fn end(self, len: usize) -> usize
        ensures { result ≡ min (ends_at self.entry) len }
    {
        let resources = index::end_of(self.work, len).max(index::end_of(self.cost, len));
        index::end_of(self.tasks, len).max(resources)
    }
}

// ---- how many records were written, and the place behind them

// Not pack's Records, which counts in 32 bits: the expenses that were written are looked through by their number. Resources and assignments count so too,
// since one notion of what was written serves the proofs of all three.
#[derive(Clone, Copy)]
pub(crate) struct Done {
    pub count: usize,
    pub next: Place,
}

impl Done {
    // None, from a place on.
    pub(crate) fn none(next: Place) -> Done
        ensures { result ≡ record { count = 0; next = next } }
    {
        Done { count: 0, next }
    }

    // One more, behind which `next` stands. The count wraps, since no `requires` bounds it.
    pub(crate) fn more(self, next: Place) -> Done
        ensures { (result.count ≡ (self.count + 1) % 2 ^ 64) × (result.next ≡ next) }
    {
        Done {
            count: self.count.wrapping_add(1),
            next,
        }
    }

    // Its number as 32 bits hold it.
    pub(crate) fn row(self) -> u32
        ensures { result ≡ self.count % 2 ^ 32 }
    {
        // `u32::try_from` would refuse what 32 bits hold in part.
        (self.count % 4294967296) as u32
    }
}

impl From<Done> for Records {
    ghost from_gives = { λ done r. (r.count ≡ done.count % 2 ^ 32) × (r.next ≡ done.next) };

    fn from(done: Done) -> Records {
        Records {
            count: done.row(),
            next: done.next,
        }
    }
}
