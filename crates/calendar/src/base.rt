// The base of a calendar. What is right is said in the crate definition, specs/Calendar.antt.
ghost use Rattle.std.specs.Prelude.{◌≡◌};
ghost use Rattle.definition.specs.Base.{given};
ghost use Rattle.definition.specs.Calendar.{base_of};
ghost use Rattle.tree.specs.Place.{meaning};

use tree::Element;

// A BaseCalendarUID other than `-1`.
pub fn has_base(e: Element<'_>) -> bool
    ensures { result ≡ given (base_of (meaning e.entry)) }
{
    fields::other_than(e, b"BaseCalendarUID", b"-1")
}
