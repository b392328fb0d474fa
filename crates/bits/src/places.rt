// Places: whether bits fit from one on, which of two comes first, and a place so many bits before or behind another.
ghost use Rattle.std.specs.Prelude.{◌≡◌, ◌+◌, ◌^◌, ◌<◌, ◌≤◌};
ghost use Rattle.bits.specs.Places.{at, room, inside, up_to};
ghost use Rattle.bits.specs.Moves.{ordered};

use crate::Place;

// Whether n bytes have `width` bits from a place on. That a width is at most 64 stands in each contract: it is a number from a format, and a type for it
// would be taken apart in each line.
pub(crate) fn room(n: usize, p: Place, width: usize) -> bool
    requires { width ≤ 64 }
    ensures { result ≡ room n p width }
{
    p.bit < 8 && p.byte <= n && (p.bit + width).div_ceil(8) <= n - p.byte
}

// Whether a place stands in n bytes or at their end: what was written up to it fitted. A length, as the bytes may be lent for writing.
pub fn inside(n: usize, p: Place) -> bool
    ensures { result ≡ inside n p }
{
    room(n, p, 0)
}

// Whether a place is not behind another, by the derived order of places whose bits are below 8; names has one for any bits, which no order tells.
fn up_to(p: Place, q: Place) -> bool
    requires { q.bit < 8 }
    ensures { result ≡ up_to p q }
{
    p.bit < 8 && p <= q
}

// Whether three places stand in n bytes one after another.
pub(crate) fn in_order(n: usize, a: Place, m: Place, e: Place) -> bool
    ensures { result ≡ ordered n a m e }
{
    inside(n, e) && up_to(m, e) && up_to(a, m)
}

// The place k bits before another, and the place k bits behind it. That a bit is below 8 stands in each contract and not in a type of its own:
// what is read or written at a place may lead past the end, so each such place would be turned from one type into the other.
pub(crate) fn place_before(p: Place, k: usize) -> Place
    requires { (p.bit < 8) × (k ≤ 64) × (k ≤ at p) }
    ensures { (result.bit < 8) × (at result + k ≡ at p) }
{
    if k <= p.bit {
        return Place {
            byte: p.byte,
            bit: p.bit - k,
        };
    }
    let d = (k - p.bit).div_ceil(8);
    Place {
        byte: p.byte - d,
        bit: p.bit + 8 * d - k,
    }
}

pub(crate) fn place_after(p: Place, k: usize) -> Place
    requires { (p.bit < 8) × (k ≤ 64) × (at p + k < 2 ^ 67) }
    ensures { (result.bit < 8) × (at result ≡ at p + k) }
{
    Place {
        byte: p.byte + (p.bit + k) / 8,
        bit: (p.bit + k) % 8,
    }
}

// How many bits stand from a place to another, 64 at most. Two parameters: one of the places moves at each turn of a loop, so that a struct of both
// would be made anew for it.
pub(crate) fn run_length(a: Place, e: Place) -> usize
    requires { (a.bit < 8) × (e.bit < 8) × (at a ≤ at e) }
    ensures { (result ≤ 64) × (at a + result ≤ at e) × (result ≡ 0 → at e ≡ at a) }
{
    let n = e.byte - a.byte;
    if 8 < n {
        return 64;
    }
    (8 * n + e.bit - a.bit).min(64)
}
