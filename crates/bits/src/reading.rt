// Fields read at a place.
ghost use Rattle.std.specs.Prelude.{◌≡◌, ◌+◌, ◌*◌, ◌<◌, ◌≤◌, length};
ghost use Rattle.bits.specs.Reads.{taken_at, flag_at, pad_at};
ghost use Rattle.bits.specs.Window.{Read};

use crate::places::{place_after, room};
use crate::shifts::{joined, part, to_byte};
use crate::{Field, PAST, Place};

// The field of `width` bits at a place of s.
pub fn take(s: &[u8], p: Place, width: usize) -> Field<u64>
    requires { width ≤ 64 }
    ensures { result ≡ taken_at s.now p width }
{
    if !room(s.len(), p, width) {
        return Field {
            value: 0,
            next: PAST,
        };
    }
    let mut q = p;
    let mut left = width;
    let mut value: u64 = 0;
    // A `while`: a turn takes what is left of a byte, 8 bits in the middle and fewer at the ends, so there is no range to go over.
    while 0 < left {
        let k = left.min(8 - q.bit);
        value = joined(value, k, part(u64::from(s[q.byte]), 8 - q.bit - k, k));
        q = place_after(q, k);
        left -= k;
    }
    Field { value, next: q }
}

// The flag at a place.
pub fn take_flag(s: &[u8], p: Place) -> Field<bool>
    ensures { result ≡ flag_at s.now p }
{
    let Field { value, next } = take(s, p, 1);
    Field {
        value: value == 1,
        next,
    }
}

// The place behind the bits up to a whole byte, if they are zeros.
pub fn take_pad(s: &[u8], p: Place) -> Place
    ensures { result ≡ pad_at s.now p }
{
    let f = take(s, p, to_byte(p.bit));
    if f.value == 0 { f.next } else { PAST }
}

// Five bytes as one number.
fn five_at(s: &[u8], q: usize) -> u64
    requires { q + 5 ≤ length s.now }
    ensures { Read s.now (8 * q) 40 result }
{
    u64::from_be_bytes([0, 0, 0, s[q], s[q + 1], s[q + 2], s[q + 3], s[q + 4]])
}

// The field of 32 bits that stands in the five bytes at a place.
fn take_five(s: &[u8], p: Place) -> Field<u64>
    requires { (p.bit < 8) × (p.byte + 5 ≤ length s.now) }
    ensures { result ≡ taken_at s.now p 32 }
{
    let value = part(five_at(s, p.byte), 8 - p.bit, 32);
    Field {
        value,
        next: Place {
            byte: p.byte + 4,
            bit: p.bit,
        },
    }
}

// The field of 32 bits at a place, at once where five bytes are there.
pub fn take_u32(s: &[u8], p: Place) -> Field<u32>
    ensures { result ≡ taken_at s.now p 32 }
{
    let five = p.bit < 8 && 5 <= s.len() && p.byte <= s.len() - 5;
    let Field { value, next } = if five {
        take_five(s, p)
    } else {
        take(s, p, 32)
    };
    // 32 bits fit, so that `try_from` would need a case for what never is.
    Field {
        value: value as u32,
        next,
    }
}
