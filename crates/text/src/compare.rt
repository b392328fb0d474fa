// Comparing texts.
ghost use Rattle.std.specs.Prelude.{◌≡◌};
ghost use Rattle.definition.specs.Base.{same as same_bytes};
ghost use Rattle.definition.specs.Text.{is_yes};

// The same bytes, promised in the definition's word. A body writes `==`, which the lemma `same_is` turns into that word; this is for callers outside, and
// for a closure of activities, which says why.
#[tactic(auto, using(crate::proofs::Equal::same_is))]
pub fn same(a: &[u8], b: &[u8]) -> bool
    ensures { result ≡ same_bytes a.now b.now }
{
    a == b
}

// A yes: the text `1` or `true`.
#[tactic(auto, using(crate::proofs::Equal::same_is), unfolding(definition::specs::Text::is_yes))]
pub fn is_yes(s: &[u8]) -> bool
    ensures { result ≡ is_yes s.now }
{
    s == b"1".as_slice() || s == b"true".as_slice()
}
