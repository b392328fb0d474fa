// Bytes of a text, and what stands before one of them.
ghost use Rattle.std.specs.Prelude.{◌≡◌, eqb, get_or, MatchOption, None, Some};
ghost use Rattle.definition.specs.Text.{before as before_of, after};
ghost use Rattle.text.specs.Cut.{place_of};

// The byte at i; 0 past the end and no Option, as `get_or` has it in the definition.
pub fn byte_at(s: &[u8], i: usize) -> u8
    ensures { result ≡ get_or s.now i 0 }
{
    s.get(i).copied().unwrap_or(0)
}

// Where the first byte b stands; the length where there is none, and no Option, as `before` cuts the text there.
pub fn place(s: &[u8], b: u8) -> usize
    ensures { result ≡ place_of (eqb b) s.now }
{
    s.iter().position(|x| b == *x).unwrap_or(s.len())
}

// What stands before the first byte b, the whole text where there is none.
// Not by `split`: its first piece comes in an Option that is never None.
pub fn before(s: &[u8], b: u8) -> &[u8]
    ensures { result.now ≡ before_of (eqb b) s.now }
{
    let k = place(s, b);
    &s[..k]
}

// What stands before the first byte b, and behind it.
// By `place`, as what stands before and behind a byte is proved of the number that it gives.
pub fn cut_at(s: &[u8], b: u8) -> Option<(&[u8], &[u8])>
    ensures { MatchOption result ((before_of (eqb b) s.now ≡ s.now) × (after (eqb b) s.now ≡ None)) (λ p. (before_of (eqb b) s.now ≡ p.0.now) × (after (eqb b) s.now ≡ Some p.1.now)) }
{
    let k = place(s, b);
    if k == s.len() {
        return None;
    }
    Some((&s[..k], &s[k + 1..]))
}
