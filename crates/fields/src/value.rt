// Values that may be missing.
ghost use Rattle.std.specs.Prelude.{◌≡◌};
ghost use Rattle.definition.specs.Number.{found};
ghost use Rattle.definition.specs.Field.{minutes_alone, not_whole};
ghost use Rattle.fields.specs.Answers.{unsigned_or};

use definition::{Duration, Unread};

pub(crate) fn minutes_of(a: Result<Duration, Unread>) -> Option<u32>
    ensures { result ≡ minutes_alone (found a) }
{
    Some(a.ok()?.minutes)
}

pub(crate) fn not_whole(a: Result<Duration, Unread>) -> bool
    ensures { result ≡ not_whole (found a) }
{
    matches!(a, Ok(d) if !d.whole)
}

// With what stands for a number below 0 and for a missing one.
pub(crate) fn unsigned_or(a: Option<i64>, below: u64, absent: u64) -> u64
    ensures { result ≡ unsigned_or below absent a }
{
    // A `match`, since it shows both defaults side by side; `map_or` would have one of them in a closure.
    match a {
        Some(n) => u64::try_from(n).unwrap_or(below),
        None => absent,
    }
}
