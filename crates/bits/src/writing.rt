// Fields written at a place: over what stands there. The buffer and the place stay two parameters in all that writes, here and in the crates above. In
// a struct, which was tried, each function would promise besides that its buffer is still the same one, and a place that is kept for later would stand
// outside it anyway.
ghost use Rattle.std.specs.Prelude.{◌≡◌, ◌+◌, ◌-◌, ◌*◌, ◌/◌, ◌%◌, ◌^◌, ◌<◌, ◌≤◌};
ghost use Rattle.definition.specs.Bits.{enc};
ghost use Rattle.definition.specs.Format.{field, flag};
ghost use Rattle.bits.specs.Steps.{Laid, Puts, Pads};

use crate::places::{place_after, room};
use crate::shifts::{joined, part, to_byte};
use crate::{PAST, Place};

// The byte whose r first bits are those of old, the next k those of x, the rest those of old.
fn mix(old: u64, r: usize, k: usize, x: u64) -> u8
    requires { (r + k ≤ 8) × (old < 256) × (x < 2 ^ k) }
    ensures { result ≡ (old / 2 ^ (8 - r) * 2 ^ k + x) * 2 ^ (8 - r - k) + old % 2 ^ (8 - r - k) }
{
    let low = part(old, 0, 8 - r - k);
    let top = joined(old >> (8 - r), k, x);
    // Below 256, so that `try_from` would need a case for what never is.
    joined(top, 8 - r - k, low) as u8
}

// Writes the `width` low bits of v over those at a place, and nothing else. The place behind them.
pub fn overwrite(out: &mut [u8], p: Place, width: usize, v: u64) -> Place
    requires { width ≤ 64 }
    ensures { Laid out.old p (enc width v) out.new result }
{
    if !room(out.len(), p, width) {
        return PAST;
    }
    let mut q = p;
    let mut left = width;
    // A `while`, as in `take`: 8 bits at a time, and fewer at the ends.
    while 0 < left {
        let k = left.min(8 - q.bit);
        let b = mix(u64::from(out[q.byte]), q.bit, k, part(v, left - k, k));
        out[q.byte] = b;
        q = place_after(q, k);
        left -= k;
    }
    q
}

// Writes the `width` low bits of v at a place, and says where the next field goes.
// It is `overwrite` with the promise of a step: steps follow one another, and say nothing of what stands further on.
pub fn put(out: &mut [u8], p: Place, width: usize, v: u64) -> Place
    requires { width ≤ 64 }
    ensures { Puts (field width) v out.old p out.new result }
{
    overwrite(out, p, width, v)
}

// A flag of 1 bit.
pub fn put_flag(out: &mut [u8], p: Place, b: bool) -> Place
    ensures { Puts flag b out.old p out.new result }
{
    put(out, p, 1, u64::from(b))
}

// Zero bits up to a whole byte.
pub fn pad(out: &mut [u8], p: Place) -> Place
    ensures { Pads out.old p out.new result }
{
    overwrite(out, p, to_byte(p.bit), 0)
}
