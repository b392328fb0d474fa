// How many link elements dangle and go across, as 32 bits hold it.
ghost use Rattle.std.specs.Prelude.{◌≡◌};
ghost use Rattle.definition.specs.Ascii.{bytes};
ghost use Rattle.definition.specs.Tree.{all};
ghost use Rattle.definition.specs.Task.{context_of};
ghost use Rattle.tree.specs.Place.{meaning};
ghost use Rattle.tree.specs.Root.{root_at};
ghost use Rattle.links.specs.Fates.{found_by, fates_by, counted_by, counted_in, Counted};

use crate::fate::{LeftOut, fate_of};
use crate::{Fates, TaskFinder};
use tree::Element;

fn counted(n: Fates, fate: Result<u32, LeftOut>) -> Fates
    ensures { result ≡ counted_by n fate }
{
    match fate {
        Err(LeftOut::Across) => Fates {
            across: n.across.wrapping_add(1),
            ..n
        },
        Err(LeftOut::Dangling) => Fates {
            dangling: n.dangling.wrapping_add(1),
            ..n
        },
        Ok(_) => n,
    }
}

// With those of a task.
fn counted_in(task: Element<'_>, finder: TaskFinder<'_>, n: Fates) -> Fates
    ensures { result ≡ counted_in (found_by finder.entry) n (all (meaning task.entry) (bytes "PredecessorLink")) }
{
    let mut count = n;
    for link in task.children(b"PredecessorLink") {
        count = counted(count, fate_of(link, finder));
    }
    count
}

pub fn count_fates(finder: TaskFinder<'_>) -> Fates
    ensures { Counted (fates_by (found_by finder.entry) (context_of (root_at finder.entry.root))) result }
{
    let mut count = Fates::default();
    for task in rows::kept_tasks(finder.root) {
        count = counted_in(task, finder, count);
    }
    count
}
