// The section's own words, behind the table of the kept tasks: a table of the calendars, columns of parents, and tables of the ids that are taken.
ghost use Rattle.std.specs.Prelude.{length};
ghost use Rattle.laws.specs.Bits.{Bytes};
ghost use Rattle.index.specs.Below.{SameBelow};
ghost use Rattle.index.specs.Chains.{end_in};
ghost use Rattle.names.specs.Context.{context_at};
ghost use Rattle.names.specs.Naming.{Finds};
ghost use Rattle.tree.specs.Root.{root_at};
ghost use Rattle.activities.specs.Own.{OwnRoom};

use crate::parents::{Columns, columns_for};
use bits::Place;
use index::Table;
use names::Ids;
use tree::Root;

#[derive(Clone, Copy)]
pub(crate) struct Own {
    pub calendars: Option<Table>,
    pub columns: Columns,
    pub ids: Option<Ids>,
}

// What all rows of the section share: the file, where the section begins, where the calendars stand in the same buffer, the table of the kept
// tasks, the section's own words, and the minutes of a day.
#[derive(Clone, Copy)]
pub(crate) struct Section<'a> {
    pub root: Root<'a>,
    pub start: Place,
    pub calendars: Place,
    pub tasks: Option<Table>,
    pub own: Own,
    pub per_day: u64,
}

// For a section that begins at p. The calendars stand at c.
pub(crate) fn own_for(
    out: &[u8],
    p: Place,
    root: Root<'_>,
    c: Place,
    words: &mut [u32],
    tasks: Option<Table>,
) -> Own
    ensures { OwnRoom result tasks out.now p words.new (length root.entry.tree.now) × SameBelow (end_in tasks) words.old words.new × Finds (context_at out.now c (root_at root.entry)) root.entry.tree.now result.calendars words.new × Bytes root.entry.tree.now }
{
    let end = index::end_of(tasks, words.len());
    let made = names::index_calendars(out, c, root, words, end);
    let columns = columns_for(tasks, made.end, words.len(), root.tree);
    // usize has no From<u32>.
    let behind = columns.at + 2 * (columns.rows as usize);
    let ids = names::ids_for(out.len(), p, words, behind, columns.rows);
    Own {
        calendars: made.table,
        columns,
        ids,
    }
}
