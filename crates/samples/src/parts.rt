// Parts of a case: its numbers, and its pieces behind their lengths. Past the end of a case there are zeros, so `split_at` does not serve. A length becomes
// an index by `as`, here and in the other files, as there is no From between usize and u32 or u64. Answers are numbers, as the cases hold them and as the
// entries give them for C.
use definition::Refusal;
use std::array;

// At most so many bytes, from the first on.
pub fn first(s: &[u8], n: usize) -> &[u8] {
    &s[..n.min(s.len())]
}

// What stands behind so many bytes.
pub fn behind(s: &[u8], n: usize) -> &[u8] {
    &s[n.min(s.len())..]
}

// The byte in front.
pub fn byte(s: &[u8]) -> u8 {
    text::byte_at(s, 0)
}

// So many bytes in front.
fn array<const N: usize>(s: &[u8]) -> [u8; N] {
    array::from_fn(|i| text::byte_at(s, i))
}

// Four bytes in front.
pub fn number(s: &[u8]) -> u32 {
    u32::from_be_bytes(array(s))
}

// Eight bytes in front.
pub fn word(s: &[u8]) -> u64 {
    u64::from_be_bytes(array(s))
}

// Four bytes in front, with a sign.
pub fn signed(s: &[u8]) -> i32 {
    number(s).cast_signed()
}

// Bytes behind their length, and what follows.
pub fn piece(s: &[u8]) -> (&[u8], &[u8]) {
    let rest = behind(s, 4);
    let n = number(s) as usize;
    (first(rest, n), behind(rest, n))
}

// What an entry is to answer: a number, and a result.
#[derive(Clone, Copy)]
pub struct Told<'a> {
    pub answer: u32,
    pub bytes: &'a [u8],
}

// Whether an entry that is lent so many bytes, which are not zeros, answers so.
fn is_in<F: Fn(&mut [u8], Told<'_>) -> bool>(
    out: &mut [u8],
    room: usize,
    told: Told<'_>,
    is: &F,
) -> bool
    requires { F.IsAlwaysCallable is.now }
{
    out.fill(0xAA);
    let n = room.min(out.len());
    is(&mut out[0..n], told)
}

// Whether a result is right in just the bytes that it needs, in all of `out`, and in one less, where there is no room and nothing is left. `is` tells
// whether the entry answers so in a slice, and leaves zeros behind the result.
pub fn fits<F: Fn(&mut [u8], Told<'_>) -> bool>(out: &mut [u8], told: Told<'_>, is: F) -> bool
    requires { F.IsAlwaysCallable is }
{
    let n = told.bytes.len();
    let most = out.len();
    let right = is_in(out, most, told, &is);
    if n == 0 {
        return right;
    }
    let all = Told {
        answer: 0,
        bytes: told.bytes,
    };
    let none = Told {
        answer: u32::from(Refusal::NoRoom),
        bytes: &[],
    };
    right & is_in(out, n, all, &is) & is_in(out, n - 1, none, &is)
}

// Whether the bytes are these, and zeros behind.
pub fn bytes_are(bytes: &[u8], s: &[u8]) -> bool {
    bytes
        .iter()
        .enumerate()
        .all(|(i, b)| *b == text::byte_at(s, i))
}

// Whether the words are those of the bytes, and zeros behind: each of four bytes, so no `bytes_are`.
pub fn words_are(words: &[u32], s: &[u8]) -> bool {
    words
        .iter()
        .enumerate()
        .all(|(i, w)| *w == number(behind(s, i.saturating_mul(4))))
}
