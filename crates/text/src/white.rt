// White_Space, taken away at both ends of a text. A text is bytes that need not be UTF-8, so that `char::is_whitespace` and `str::trim` do not
// serve: white space is told by its one, two or three bytes.
ghost use Rattle.std.specs.Prelude.{◌≡◌, ◌<◌, length, MatchOption};
ghost use Rattle.definition.specs.Base.{within};
ghost use Rattle.definition.specs.Text.{white1 as is_white1, white2 as is_white2, white3 as is_white3, trim_front, trim_back, trim as trimmed};

// U+0009 to U+000D, U+0020
fn white1(a: u8) -> bool
    ensures { result ≡ is_white1 a }
{
    matches!(a, 9..=13 | 32)
}

// U+0085, U+00A0
fn white2(a: u8, b: u8) -> bool
    ensures { result ≡ is_white2 a b }
{
    matches!((a, b), (0xC2, 0x85 | 0xA0))
}

// U+1680; U+2000 to U+200A, U+2028, U+2029, U+202F; U+205F; U+3000
fn white3(a: u8, b: u8, c: u8) -> bool
    ensures { result ≡ is_white3 a b c }
{
    matches!(
        (a, b, c),
        (0xE1, 0x9A, 0x80)
            | (0xE2, 0x80, 0x80..=0x8A | 0xA8..=0xA9 | 0xAF)
            | (0xE2, 0x81, 0x9F)
            | (0xE3, 0x80, 0x80)
    )
}

// A byte that neither begins nor ends white space: nearly every first and last byte of a text.
fn plain(a: u8) -> bool
    ensures { result ≡ within 33 127 a }
{
    (33..=127).contains(&a)
}

// What follows the white space that a text begins with; what stands before that which it ends with. None where there is none. Two functions, as a
// pattern takes from one end.
#[tactic(auto, using(crate::proofs::Strip::front_one, crate::proofs::Strip::front_two, crate::proofs::Strip::front_none, crate::proofs::Strip::front_plain))]
fn behind(s: &[u8]) -> Option<&[u8]>
    ensures { MatchOption result (trim_front s.now ≡ s.now) (λ r. (trim_front r.now ≡ trim_front s.now) × (length r.now < length s.now)) }
{
    match s {
        [a, ..] if plain(*a) => None,
        [a, rest @ ..] if white1(*a) => Some(rest),
        [a, b, rest @ ..] if white2(*a, *b) => Some(rest),
        [a, b, c, rest @ ..] if white3(*a, *b, *c) => Some(rest),
        _ => None,
    }
}

#[tactic(auto, using(crate::proofs::Strip::back_none, crate::proofs::Strip::back_plain))]
fn ahead(s: &[u8]) -> Option<&[u8]>
    ensures { MatchOption result (trim_back s.now ≡ s.now) (λ r. (trim_back r.now ≡ trim_back s.now) × (length r.now < length s.now)) }
{
    match s {
        [.., c] if plain(*c) => None,
        [rest @ .., c] if white1(*c) => Some(rest),
        [rest @ .., b, c] if white2(*b, *c) => Some(rest),
        [rest @ .., a, b, c] if white3(*a, *b, *c) => Some(rest),
        _ => None,
    }
}

// A loop for each end: one over both would take `behind` or `ahead` as a function, and what it would ask and promise of that is longer than the loop.
fn trim_front(mut s: &[u8]) -> &[u8]
    ensures { result.now ≡ trim_front s.now }
{
    while let Some(rest) = behind(s) {
        s = rest;
    }
    s
}

fn trim_back(mut s: &[u8]) -> &[u8]
    ensures { result.now ≡ trim_back s.now }
{
    while let Some(rest) = ahead(s) {
        s = rest;
    }
    s
}

// The text without the white space at both ends.
pub fn trim(s: &[u8]) -> &[u8]
    ensures { result.now ≡ trimmed s.now }
{
    trim_back(trim_front(s))
}
