// What becomes of a link element.
ghost use Rattle.std.specs.Prelude.{◌≡◌};
ghost use Rattle.tree.specs.Place.{meaning};
ghost use Rattle.links.specs.Fates.{found_by, is_entered, fate_for};

use crate::TaskFinder;
use tree::Element;

// Why a link is not kept.
#[derive(Clone, Copy, PartialEq, Eq)]
pub(crate) enum LeftOut {
    Across,
    Dangling,
}

// The row of its predecessor.
pub(crate) fn fate_of(link: Element<'_>, finder: TaskFinder<'_>) -> Result<u32, LeftOut>
    ensures { result ≡ fate_for (found_by finder.entry) (meaning link.entry) }
{
    if tasks::is_across(link) {
        return Err(LeftOut::Across);
    }
    // `and_then` was tried: of a closure over a slice the proof learns nothing.
    let uid = fields::text_in(link, b"PredecessorUID").ok_or(LeftOut::Dangling)?;
    finder.row(uid).ok_or(LeftOut::Dangling)
}

// Whether a kept link enters the task.
pub fn is_entered(task: Element<'_>, finder: TaskFinder<'_>) -> bool
    ensures { result ≡ is_entered (found_by finder.entry) (meaning task.entry) }
{
    task.children(b"PredecessorLink")
        .any(|link| fate_of(link, finder).is_ok())
}
