// When a tree is refused.
ghost use Rattle.std.specs.Prelude.{◌≡◌};
ghost use Rattle.definition.specs.Base.{every?, some?, same};
ghost use Rattle.definition.specs.Tree.{records, below_root};
ghost use Rattle.definition.specs.Answer.{answer_number};
ghost use Rattle.definition.specs.Refusal.{utf8?, long?, number_names, duration_names, long_in, too_long, tree_refusal};

use crate::{Element, Heads};
use definition::{Refusal, Unread};

// The most elements that a tree may have: the definition's most_elements.
pub const MOST_ELEMENTS: usize = 5_000_000;

// Whether all names and texts are UTF-8.
fn all_utf8(s: &[u8]) -> bool
    ensures { result ≡ every? utf8? (records s.now) }
{
    Heads { tree: s, at: 0 }.all(|h| text::is_utf8(h.name) && text::is_utf8(h.text))
}

const NUMBERS: [&[u8]; 8] = [
    b"MinutesPerDay",
    b"PhysicalPercentComplete",
    b"StandardRate",
    b"MaxUnits",
    b"Units",
    b"Cost",
    b"ActualCost",
    b"RemainingCost",
];

const DURATIONS: [&[u8]; 5] = [
    b"Duration",
    b"RemainingDuration",
    b"Work",
    b"ActualWork",
    b"RemainingWork",
];

// Whether a number was too long to be read.
fn too_long<T: Copy>(a: Result<T, Unread>) -> bool
    ensures { result ≡ long? a }
{
    matches!(a, Err(Unread::Long))
}

// Whether two names are the same. Length and first byte are asked first: by `same` alone `judge` took 4 % more instructions on a tree of 64 levels.
#[tactic(auto, using(text::proofs::Equal::same_lengths, crate::proofs::Names::other_at))]
fn has_name(name: &[u8], n: &[u8]) -> bool
    ensures { result ≡ same name.now n.now }
{
    name.len() == n.len() && text::byte_at(name, 0) == text::byte_at(n, 0) && text::same(name, n)
}

// Whether an element of the name has a number too long as its text. By `any`: `contains` compares each two names by a call, and `judge` takes 1.8 times as
// long with it.
fn is_long(name: &[u8], t: &[u8]) -> bool
    ensures { result ≡ long_in name.now t.now }
{
    if NUMBERS.iter().any(|n| has_name(name, n)) {
        return too_long(number::number_of(text::trim(t)));
    }
    DURATIONS.iter().any(|n| has_name(name, n)) && too_long(number::duration_of(t))
}

// Whether a record below the root has a number too long. The root is passed by `next`: `skip(1)` asks at each record whether one is still to be
// passed, 3 % more instructions of `judge`.
fn any_long(s: &[u8]) -> bool
    ensures { result ≡ some? too_long (below_root (records s.now)) }
{
    let mut heads = Heads { tree: s, at: 0 };
    heads.next();
    heads
        .take_while(|h| 1 < h.depth)
        .any(|h| is_long(h.name, h.text))
}

// The lowest refusal that applies to a tree.
pub fn judge(s: &[u8]) -> Result<(), Refusal>
    ensures { answer_number result ≡ tree_refusal s.now }
{
    let count = crate::layout(s).ok_or(Refusal::Layout)?;
    if !all_utf8(s) {
        return Err(Refusal::Utf8);
    }
    if MOST_ELEMENTS < count {
        return Err(Refusal::TooMany);
    }
    if !(Element { tree: s, at: 0 }).name_is(b"Project") {
        return Err(Refusal::NoProject);
    }
    if any_long(s) {
        return Err(Refusal::TooLong);
    }
    Ok(())
}
