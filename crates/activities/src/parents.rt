// The nearest row before a task that has a lower level, without a look at all rows. For each row there are two lent words: where its element stands
// in the tree, and its parent row plus 1, 0 for none. They are words, as there is no heap for pairs with an Option.
// The parent of a row is the row before it, or a row above that one. A row is made a place by `as usize`, which has no From<u32>.
ghost use Rattle.std.specs.Prelude.{◌≡◌, map, ◌<◌, take, length};
ghost use Rattle.definition.specs.Task.{level_of, kept_tasks, parent_of};
ghost use Rattle.laws.specs.Bits.{Bytes};
ghost use Rattle.index.specs.Last.{last_below, word_of};
ghost use Rattle.tree.specs.Place.{meaning};
ghost use Rattle.tree.specs.Root.{root_at};
ghost use Rattle.activities.specs.Parents.{lower, level_in, Climbs, noted, Room, Behind, Ready};

use index::Table;
use tree::{Element, Root};

// Where the words begin, and for how many rows there are some. Not an index::Table, whose rows have buckets. No Option where there are none: each row is compared with `rows`, and none is below 0.
#[derive(Clone, Copy)]
pub(crate) struct Columns {
    pub at: usize,
    pub rows: u32,
}

// From a place on, for as many rows as the table of the kept tasks has, where there is room and 32 bits hold each position in the tree.
pub(crate) fn columns_for(tasks: Option<Table>, from: usize, len: usize, tree: &[u8]) -> Columns
    ensures made { Room result len (length tree.now) × Behind result from }
    ensures bytes { Bytes tree.now }
{
    let rows = tasks.map_or(0, |t| t.rows);
    let room = len.saturating_sub(from) / 2;
    if u32::try_from(tree.len()).is_err() || room < rows as usize {
        return Columns { at: from, rows: 0 };
    }
    Columns { at: from, rows }
}

// The last of the rows before a row that has a lower level, plus 1. The words begin at `first`. No `for`: each word names the row to look at next.
fn climb(tree: &[u8], words: &[u32], first: usize, row: u32, level: u64) -> u32
    requires { Climbs tree.now first row words.now }
    ensures { result ≡ word_of (last_below (lower (level_in tree.now first words.now) level) row) }
{
    let mut k = row;
    while let Some(r) = k.checked_sub(1) {
        let i = first + 2 * (r as usize);
        let at = words[i] as usize;
        if tasks::level_of(Element { tree, at }) < level {
            return k;
        }
        k = words[i + 1];
    }
    0
}

// The parent of the task, which has the row; noted where there are words for the row. One way writes the words, the other needs the tree alone: an
// `if`, as the `match` in `row_with` of rows.
pub(crate) fn parent_of(
    root: Root<'_>,
    task: Element<'_>,
    words: &mut [u32],
    own: Columns,
    row: u32,
) -> Option<u32>
    requires { Ready root.tree.now (root_at root) own row task words.old }
    ensures { (result ≡ parent_of (map level_of (take row (kept_tasks (root_at root.entry)))) (level_of (meaning task.entry))) × (words.new ≡ noted own row task.entry.at result words.old) }
{
    let level = tasks::level_of(task);
    if own.rows <= row {
        return rows::parent_row(root, row, level);
    }
    let k = climb(root.tree, words, own.at, row, level);
    let i = own.at + 2 * (row as usize);
    // `u32::try_from` would have an error that cannot occur: there are words for a row where 32 bits hold each position.
    words[i] = task.at as u32;
    words[i + 1] = k;
    k.checked_sub(1)
}
