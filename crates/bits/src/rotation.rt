// Two runs of bits that stand side by side change places. The loops here go from the end, 64 bits at a time and then what is left: places, and no range.
ghost use Rattle.std.specs.Prelude.{◌≡◌, ◌+◌, ◌-◌, ◌*◌, ◌<◌, ◌≤◌, length};
ghost use Rattle.definition.specs.Bits.{bits_of};
ghost use Rattle.bits.specs.Places.{at};
ghost use Rattle.bits.specs.Moves.{Order, moved, rotated, Rotates};

use crate::Place;
use crate::places::{in_order, place_after, place_before, run_length};
use crate::reading::take;
use crate::writing::overwrite;

// The bytes from m to e go before those from a to m: each part reversed, then both. No `rotate_left`, so that a C host need bring no memmove
// or memcpy.
fn rotate_bytes(out: &mut [u8], a: usize, m: usize, e: usize)
    requires { (a ≤ m) × (m ≤ e) × (e ≤ length out.old) }
    ensures { (length out.new ≡ length out.old) × (out.new ≡ rotated a m e out.old) }
{
    out[a..m].reverse();
    out[m..e].reverse();
    out[a..e].reverse();
}

// Moves the bits from a to e up by k, over what stands there.
fn shift_up(out: &mut [u8], a: Place, e: Place, k: usize)
    requires { (a.bit < 8) × (e.bit < 8) × (at a ≤ at e) × (k ≤ 64) × (at e + k ≤ 8 * length out.old) }
    ensures { (length out.new ≡ length out.old) × (bits_of out.new ≡ moved (at a) (at a + k) (at e - at a) (bits_of out.old)) }
{
    let mut p = e;
    let mut n = run_length(a, p);
    while 0 < n {
        p = place_before(p, n);
        let f = take(out, p, n);
        overwrite(out, place_after(p, k), n, f.value);
        n = run_length(a, p);
    }
}

// The last k bits before e go before those from a on.
fn rotate_last(out: &mut [u8], a: Place, e: Place, k: usize)
    requires { (a.bit < 8) × (e.bit < 8) × (k ≤ 64) × (at a + k ≤ at e) × (at e ≤ 8 * length out.old) }
    ensures { (length out.new ≡ length out.old) × (bits_of out.new ≡ rotated (at a) (at e - k) (at e) (bits_of out.old)) }
{
    let m = place_before(e, k);
    let f = take(out, m, k);
    shift_up(out, a, m, k);
    overwrite(out, a, k, f.value);
}

// The bits from m to e go before those from a to m, 64 at a time.
fn rotate_bits(out: &mut [u8], a: Place, m: Place, e: Place)
    requires { Order (length out.old) a m e }
    ensures { (length out.new ≡ length out.old) × (bits_of out.new ≡ rotated (at a) (at m) (at e) (bits_of out.old)) }
{
    let mut t = e;
    let mut n = run_length(m, t);
    while 0 < n {
        rotate_last(out, a, e, n);
        t = place_before(t, n);
        n = run_length(m, t);
    }
}

// The bits from m to e go before those from a to m, by bytes where all three places are whole bytes. Where they are not in order, nothing
// changes.
pub fn rotate(out: &mut [u8], a: Place, m: Place, e: Place)
    ensures { Rotates a m e out.old out.new }
{
    if !in_order(out.len(), a, m, e) {
        return;
    }
    if a.bit == 0 && m.bit == 0 && e.bit == 0 {
        rotate_bytes(out, a.byte, m.byte, e.byte);
        return;
    }
    rotate_bits(out, a, m, e);
}
