// Bits that stand in a buffer written again further on.
ghost use Rattle.std.specs.Prelude.{◌*◌, ◌<◌, ◌≤◌, length};
ghost use Rattle.bits.specs.Places.{at};
ghost use Rattle.bits.specs.Steps.{Step};
ghost use Rattle.laws.specs.Buf.{◌▷◌};
ghost use Rattle.bits.specs.Moves.{Order, bits_from, Copies};

use crate::places::{in_order, place_after, run_length};
use crate::reading::take;
use crate::writing::overwrite;
use crate::{PAST, Place};

// Writes the bits from one place to another again at p: from the front, as they do not overlap; `shift_up` goes from the end, as they do. A `while`, as
// there: 64 bits at a time and then what is left, so a place moves and no index.
fn copy_all(out: &mut [u8], from: Place, to: Place, p: Place) -> Place
    requires { Order (length out.old) from to p }
    ensures { Step out.old p (λ b. b ▷ bits_from (at from) (at to) out.old) out.new result }
{
    let mut q = from;
    let mut r = p;
    let mut n = run_length(q, to);
    while 0 < n {
        let f = take(out, q, n);
        r = overwrite(out, r, n, f.value);
        q = place_after(q, n);
        n = run_length(q, to);
    }
    r
}

// Writes the bits from one place to another, both before p, again at p. Where these are not in order, nothing changes.
pub fn copy_bits(out: &mut [u8], from: Place, to: Place, p: Place) -> Place
    ensures { Copies from to out.old p out.new result }
{
    if !in_order(out.len(), from, to, p) {
        return PAST;
    }
    copy_all(out, from, to, p)
}
