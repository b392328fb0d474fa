// Whole numbers, as Rust's `parse` reads them. Not by `str::parse`: a text is bytes that need not be UTF-8, and would be tested for UTF-8 first. In Rust,
// `from_utf8` and `parse` took 1.9 to 2.5 times as long as `parse` alone over texts of one to ten digits; the bar is 1.5 times the Rust's time.
ghost use Rattle.std.specs.Prelude.{◌≡◌, refl, ◌-◌, ◌≤◌, ℕ, Bool, Option, length};
ghost use Rattle.definition.specs.Base.{when};
ghost use Rattle.definition.specs.Text.{Text, is_digit, sign_of, unsigned_of, signed_of};
ghost use Rattle.definition.specs.Number.{unsigned};
ghost use Rattle.text.specs.Whole.{digits_to, size_to, unsigned_most, signed_most, unsigned_sized, signed_sized, whole_by, unsigned_reads, signed_reads};

use crate::parts::byte_at;

// What follows the sign, the whole text where there is none. Which sign it is, callers ask of the first byte: a pair of both would be taken apart at
// once in each of the three.
pub fn without_sign(s: &[u8]) -> &[u8]
    ensures { result.now ≡ unsigned (sign_of s.now) s.now }
{
    match s {
        [b'+' | b'-', rest @ ..] => rest,
        _ => s,
    }
}

fn digit(b: u8) -> Option<u64>
    ensures { result ≡ when (is_digit b) (b - 48) }
{
    b.is_ascii_digit().then(|| u64::from(b - b'0'))
}

// The digits s of a number that is at most `most`: so few that the number fits 64 bits. Two loops: with the checks of many_digits alone, usual numbers
// took 1.79 times as long as with Rust's `parse` (bar: 1.5).
fn few_digits(s: &[u8], most: u64) -> Option<u64>
    requires { length s.now ≤ 18 }
    ensures { result ≡ digits_to most 0 s.now }
{
    let mut n = 0;
    for b in s {
        n = n * 10 + digit(*b)?;
    }
    (n <= most).then_some(n)
}

// The same, as many as there may be, read no further than `most`.
fn many_digits(s: &[u8], most: u64) -> Option<u64>
    ensures { result ≡ digits_to most 0 s.now }
{
    let mut n: u64 = 0;
    for b in s {
        n = n.checked_mul(10)?.checked_add(digit(*b)?)?;
        if most < n {
            return None;
        }
    }
    Some(n)
}

// Digits, one at least, of a number that is at most `most`.
fn size_to(s: &[u8], most: u64) -> Option<u64>
    ensures { result ≡ size_to most s.now }
{
    match s.len() {
        0 => None,
        1..=18 => few_digits(s, most),
        _ => many_digits(s, most),
    }
}

// A type of whole numbers: what a text is in it, the largest size behind a `-` and without one, and what a size is there. An unsigned type has no size
// behind a `-`.
pub trait Whole: Sized {
    ghost means: { Text → Option Self };

    ghost most: { Bool → Option ℕ };

    ghost sized: { Bool → ℕ → Option Self };

    fn most(minus: bool) -> Option<u64>
        ensures { result ≡ most minus };

    fn sized(minus: bool, size: u64) -> Option<Self>
        ensures { result ≡ sized minus size };

    ghost reads: { (s : Text) → means s ≡ whole_by most sized s };
}

// Those of the unsigned types differ in the type alone: the gate refuses an `impl` that a macro wrote, and a const parameter is a number and no type.
impl Whole for u64 {
    ghost means = { unsigned_of 64 };

    ghost most = { unsigned_most 64 };

    ghost sized = { unsigned_sized 64 };

    ghost reads = { unsigned_reads 64 };

    fn most(minus: bool) -> Option<u64> {
        (!minus).then_some(u64::MAX)
    }

    fn sized(_minus: bool, size: u64) -> Option<u64> {
        Some(size)
    }
}

impl Whole for u32 {
    ghost means = { unsigned_of 32 };

    ghost most = { unsigned_most 32 };

    ghost sized = { unsigned_sized 32 };

    ghost reads = { unsigned_reads 32 };

    fn most(minus: bool) -> Option<u64> {
        (!minus).then_some(u64::from(u32::MAX))
    }

    fn sized(_minus: bool, size: u64) -> Option<u32> {
        u32::try_from(size).ok()
    }
}

impl Whole for u16 {
    ghost means = { unsigned_of 16 };

    ghost most = { unsigned_most 16 };

    ghost sized = { unsigned_sized 16 };

    ghost reads = { unsigned_reads 16 };

    fn most(minus: bool) -> Option<u64> {
        (!minus).then_some(u64::from(u16::MAX))
    }

    fn sized(_minus: bool, size: u64) -> Option<u16> {
        u16::try_from(size).ok()
    }
}

impl Whole for i64 {
    ghost means = { signed_of 64 };

    ghost most = { signed_most 64 };

    ghost sized = { signed_sized 64 };

    ghost reads = { signed_reads 64 };

    fn most(minus: bool) -> Option<u64> {
        let end = if minus { i64::MIN } else { i64::MAX };
        Some(end.unsigned_abs())
    }

    fn sized(minus: bool, size: u64) -> Option<i64> {
        if minus {
            0i64.checked_sub_unsigned(size)
        } else {
            i64::try_from(size).ok()
        }
    }
}

impl Whole for i32 {
    ghost means = { signed_of 32 };

    ghost most = { signed_most 32 };

    ghost sized = { signed_sized 32 };

    ghost reads = { signed_reads 32 };

    fn most(minus: bool) -> Option<u64> {
        let end = if minus { i32::MIN } else { i32::MAX };
        Some(u64::from(end.unsigned_abs()))
    }

    fn sized(minus: bool, size: u64) -> Option<i32> {
        let n = i64::sized(minus, size)?;
        i32::try_from(n).ok()
    }
}

// The whole number that a text is, as Rust's `parse` reads it for the type.
pub fn whole_of<W: Whole>(s: &[u8]) -> Option<W>
    ensures { result ≡ W.means s.now }
{
    let minus = byte_at(s, 0) == b'-';
    let most = W::most(minus)?;
    W::sized(minus, size_to(without_sign(s), most)?)
}
