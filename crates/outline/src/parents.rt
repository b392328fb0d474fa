// The parents of a model's activities, put where `outline_rows` looks for them while the model is decoded.
ghost use Rattle.std.specs.Prelude.{◌≡◌};
ghost use Rattle.outline.specs.Steps.{word_of};
ghost use Rattle.outline.specs.Filled.{ParentAt, Filled, ModelWalked};

use crate::{NONE, PARENT, set_field};
use bits::{Field, Place, take_pad};
use model::parts::{parent_place_by, take_row};
use model::records::skip_from_notes;
use model::{Counts, Places, walk_behind, walk_head};

// The word for a parent.
fn word_of(parent: Option<u32>) -> u32
    ensures { result ≡ word_of parent }
{
    parent.unwrap_or(NONE)
}

// The word for the parent of the activity at a place, and the place of the next activity. The check goes the same way over an activity, and looks at its
// calendar's name too.
// A function for both would give three values: the parent, the place behind it, and that of the next activity.
fn take_parent(s: &[u8], p: Place) -> Field<u32>
    ensures { ParentAt s.now p result }
{
    let at = parent_place_by(s, p, true);
    let parent = take_row(s, at);
    let row = parent.value;
    let end = skip_from_notes(s, parent.next, true);
    let next = take_pad(s, end);
    Field {
        value: word_of(row),
        next,
    }
}

// Passes over so many activities and writes the parent of each into the first word of its row. It ends at the first that is refused.
fn fill(s: &[u8], p: Place, count: u32, work: &mut [u32]) -> Place
    ensures { Filled s.now p count work.old work.new result }
{
    let mut q = p;
    for i in 0..count {
        let parent = take_parent(s, q);
        set_field(work, i, PARENT, parent.value);
        q = parent.next;
        if 7 < q.bit {
            return q;
        }
    }
    q
}

// The places between the sections, as model::open finds them, with the parents in the words. The check's walk has tables to fill at the same step, and
// shares walk_head and walk_behind.
pub(crate) fn walk_model(s: &[u8], n: Counts, work: &mut [u32]) -> Places
    ensures { ModelWalked s.now n work.old work.new result }
{
    let head = walk_head(s, n);
    let activities = head.activities;
    let links = fill(s, activities, n.value.activities, work);
    walk_behind(s, n, head, links)
}
