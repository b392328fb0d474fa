// Bytes and texts. A text is a count of 32 bits, zero bits up to a whole byte, the bytes; whether they are UTF-8 is for the callers, so no `&str`.
ghost use Rattle.std.specs.Prelude.{◌≡◌};
ghost use Rattle.definition.specs.Bits.{bits_of};
ghost use Rattle.definition.specs.Format.{text};
ghost use Rattle.bits.specs.Reads.{span_in, Spans};
ghost use Rattle.bits.specs.Steps.{Laid, Step, Puts};
ghost use Rattle.laws.specs.Buf.{◌▷◌};

use crate::reading::{take_pad, take_u32};
use crate::writing::{pad, put};
use crate::{PAST, Place, Span};

// No text: it is cut, or a bit before it is not zero. Past every end, as any field that is not there.
const NO_SPAN: Span = Span {
    start: 0,
    len: 0,
    next: PAST,
};

// Copies bytes over those at a whole byte. A loop and no `copy_from_slice`, so that a C host need bring no memmove or memcpy.
fn copy_bytes(out: &mut [u8], p: Place, s: &[u8]) -> Place
    requires { p.bit ≡ 0 }
    ensures { Laid out.old p (bits_of s.now) out.new result }
{
    let at = p.byte;
    if out.len() < at || out.len() - at < s.len() {
        return PAST;
    }
    for (i, b) in s.iter().enumerate() {
        out[at + i] = *b;
    }
    Place {
        byte: at + s.len(),
        bit: 0,
    }
}

// Puts bytes one after another, as fields of 8 bits. pack's put_stars does so with one byte many times: a fold for both would have the lent buffer in its
// closure.
fn put_each(out: &mut [u8], p: Place, s: &[u8]) -> Place
    ensures { Step out.old p (λ b. b ▷ bits_of s.now) out.new result }
{
    let mut q = p;
    for b in s {
        q = put(out, q, 8, u64::from(*b));
    }
    q
}

// Bytes alone, at any place; copied where it is a whole byte.
pub fn put_bytes(out: &mut [u8], p: Place, s: &[u8]) -> Place
    ensures { Step out.old p (λ b. b ▷ bits_of s.now) out.new result }
{
    if 7 < p.bit {
        return PAST;
    }
    if 0 < p.bit {
        return put_each(out, p, s);
    }
    copy_bytes(out, p, s)
}

// A text.
pub fn put_text(out: &mut [u8], p: Place, s: &[u8]) -> Place
    ensures { Puts text s.now out.old p out.new result }
{
    // There is no From from usize to u64.
    let a = put(out, p, 32, s.len() as u64);
    let b = pad(out, a);
    put_bytes(out, b, s)
}

// So many bytes from a whole byte on.
fn bytes_at(n: usize, p: Place, len: usize) -> Span
    ensures { result ≡ span_in n p len }
{
    if 0 < p.bit || n < p.byte || n - p.byte < len {
        return NO_SPAN;
    }
    Span {
        start: p.byte,
        len,
        next: Place {
            byte: p.byte + len,
            bit: 0,
        },
    }
}

// Where the bytes of the text at a place stand. Whether they are UTF-8 is for the caller to test.
pub fn take_text(s: &[u8], p: Place) -> Span
    ensures { Spans s.now p result }
{
    let c = take_u32(s, p);
    let b = take_pad(s, c.next);
    // There is no From from u32 to usize.
    bytes_at(s.len(), b, c.value as usize)
}
