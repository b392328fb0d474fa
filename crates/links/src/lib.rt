// Links: what becomes of each link element of the kept tasks, and the kept ones written. What is right is said in the crate definition,
// specs/Link.antt.
#![tactic(auto)]

ghost use Rattle.std.specs.Prelude.{◌≡◌};
ghost use Rattle.links.specs.Fates.{found_by};

mod counting; // how many dangle and go across
mod fate; // what becomes of one
mod writing; // the kept ones

pub use counting::count_fates;
pub use fate::is_entered;
use index::Table;
use rows::Listed;
use tree::Root;
pub use writing::put_links;

// How many link elements dangle, and how many go across: two of the four counts of pack's Skips, which stands below and so holds no Fates.
#[derive(Clone, Copy, Debug, Default, PartialEq, Eq)]
pub struct Fates {
    pub dangling: u32,
    pub across: u32,
}

// Finds the row of a kept task by its UID: by the table in the lent words, or in the tree where there is none.
#[derive(Clone, Copy, Debug, PartialEq, Eq)]
pub struct TaskFinder<'a> {
    pub root: Root<'a>,
    pub words: &'a [u32],
    pub table: Option<Table>,
}

impl TaskFinder<'_> {
    pub(crate) fn row(self, uid: &[u8]) -> Option<u32>
        ensures { result ≡ found_by self.entry uid.now }
    {
        rows::row_with(self.root, Listed::Tasks, self.words, self.table, uid)
    }
}
