// The exceptions that give no rule. What is right is said in the crate definition, specs/Calendar.antt.
ghost use Rattle.std.specs.Prelude.{◌≡◌, ◌%◌, ◌^◌, not, ◌∷◌};
ghost use Rattle.definition.specs.Base.{given};
ghost use Rattle.definition.specs.Ascii.{bytes};
ghost use Rattle.definition.specs.Tree.{all};
ghost use Rattle.definition.specs.Recurrence.{recurrence_days};
ghost use Rattle.definition.specs.Calendar.{recurring, skipped as skipped_in};
ghost use Rattle.tree.specs.Place.{later, meaning};
ghost use Rattle.tree.specs.Root.{root_at};
ghost use Rattle.calendar.specs.Skipped.{without_rule, in_all};

use tree::{Element, Root};

fn has_no_rule(e: Element<'_>) -> bool
    ensures { result ≡ not (given (recurrence_days (meaning e.entry))) }
{
    recurrence::rule_of(e).is_none()
}

// How many Exceptions of an element give no rule, as 32 bits hold it.
fn without_rule(e: Element<'_>) -> u32
    ensures { result ≡ without_rule (all (meaning e.entry) (bytes "Exception")) % 2 ^ 32 }
{
    let n = e.children(b"Exception").filter(|x| has_no_rule(*x)).count();
    // Below 2 ^ 32: try_from would have a case for what never is.
    (n % 4294967296) as u32
}

// How many of a Calendar, likewise.
fn skipped_by(e: Element<'_>) -> u32
    ensures { result ≡ without_rule (recurring (meaning e.entry)) % 2 ^ 32 }
{
    e.child(b"Exceptions").map_or(0, without_rule)
}

// How many exceptions give no rule, as 32 bits hold it. By `fold`, as `sum` does not wrap.
pub fn skipped(root: Root<'_>) -> u32
    ensures { result ≡ skipped_in (root_at root.entry) % 2 ^ 32 }
{
    root.part(root.calendars)
        .children(b"Calendar")
        .fold(0u32, |n, c| n.wrapping_add(skipped_by(c)))
}
