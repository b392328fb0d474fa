// Cost resources by their UID.
ghost use Rattle.std.specs.Prelude.{◌≡◌, IfSome};
ghost use Rattle.definition.specs.Base.{find_last};
ghost use Rattle.definition.specs.Resource.{cost_resources};
ghost use Rattle.tree.specs.Root.{root_at};
ghost use Rattle.rows.specs.Rows.{found_meaning, has_uid};

use crate::table::{Listed, elements};
use tree::{Element, Root};

// The last cost resource with a UID. `scan` of `table` asks for the row: a walk for both would give its callers a pair, of which each needs one half.
pub(crate) fn cost_resource<'a>(root: Root<'a>, uid: &[u8]) -> Option<Element<'a>>
    ensures is { found_meaning result ≡ find_last (has_uid uid.now) (cost_resources (root_at root.entry)) }
    ensures there { IfSome result (λ e. e.tree.now ≡ root.entry.tree.now) }
{
    // The last by hand, here and in `scan`: `.filter(..).last()` was tried in calendars, and the search finds no way from `last` to find_last.
    let mut found = None;
    for e in elements(root, Listed::Cost) {
        let named = fields::text_is(e, b"UID", uid).then_some(e);
        found = named.or(found);
    }
    found
}
