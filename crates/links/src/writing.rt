// The kept links, written one after another.
ghost use Rattle.std.specs.Prelude.{Ok};
ghost use Rattle.definition.specs.Ascii.{bytes};
ghost use Rattle.definition.specs.Format.{whole};
ghost use Rattle.definition.specs.Pack.{link as link_format};
ghost use Rattle.definition.specs.Tree.{all};
ghost use Rattle.definition.specs.Task.{context_of};
ghost use Rattle.tree.specs.Place.{meaning};
ghost use Rattle.tree.specs.Root.{root_at};
ghost use Rattle.pack.specs.Writes.{Writes};
ghost use Rattle.links.specs.Fates.{found_by, links_by, links_for, links_in};
ghost use Rattle.links.specs.More.{More};

use crate::TaskFinder;
use crate::fate::fate_of;
use bits::Place;
use pack::{LagFields, Link, Records};
use tree::Element;

// A link element, from the row of its predecessor to that of its task.
fn put_kept(
    out: &mut [u8],
    done: Records,
    link: Element<'_>,
    per_day: u64,
    row: u32,
    predecessor: u32,
) -> Records
    ensures { More (whole link_format) (links_for per_day row (meaning link.entry) (Ok predecessor)) out.old done out.new result }
{
    let record = Link {
        predecessor,
        successor: row,
        kind: u32::from(tasks::link_kind(link)),
        lag: LagFields::from(tasks::link_lag(link, per_day)),
    };
    done.more(record.put(out, done.next))
}

// Those of a task, which has the row.
fn put_links_in(
    out: &mut [u8],
    done: Records,
    task: Element<'_>,
    finder: TaskFinder<'_>,
    per_day: u64,
    row: u32,
) -> Records
    ensures { More (whole link_format) (links_in per_day (found_by finder.entry) row (all (meaning task.entry) (bytes "PredecessorLink"))) out.old done out.new result }
{
    let mut r = done;
    for link in task.children(b"PredecessorLink") {
        if let Ok(predecessor) = fate_of(link, finder) {
            r = put_kept(out, r, link, per_day, row, predecessor);
        }
    }
    r
}

// The kept links, one after another.
pub fn put_links(out: &mut [u8], p: Place, finder: TaskFinder<'_>) -> Records
    ensures { Writes (whole link_format) (links_by (found_by finder.entry) (context_of (root_at finder.entry.root))) out.old p out.new result }
{
    let per_day = tasks::per_day(finder.root);
    let mut r = Records::none(p);
    // No more tasks are kept, so that the range does not end first. `enumerate` counts in usize, and a row has 32 bits.
    for (row, task) in (0..rows::MOST_TASKS).zip(rows::kept_tasks(finder.root)) {
        r = put_links_in(out, r, task, finder, per_day, row);
    }
    r
}
