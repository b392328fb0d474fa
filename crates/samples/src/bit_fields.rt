// A field of bits, put and taken: the bit at which it begins (one byte), its width (one byte), its value (eight bytes), and the bytes that it
// leaves, zero bits behind it, where ones stood.
ghost use Rattle.std.specs.Prelude.{◌≤◌};

use crate::parts;
use bits::Place;

fn field_agrees(room: &mut [u8], p: Place, width: usize, value: u64, s: &[u8]) -> bool
    requires { width ≤ 64 }
{
    let end = bits::put(room, p, width, value);
    bits::pad(room, end);
    let t = bits::take(room, p, width);
    t.value == value && parts::first(room, s.len()) == s
}

pub fn agrees(body: &[u8]) -> bool {
    let p = Place {
        byte: 0,
        bit: usize::from(parts::byte(body)),
    };
    let width = usize::from(parts::byte(parts::behind(body, 1)));
    if 64 < width {
        return false;
    }
    let mut room = [0xFF; 16];
    field_agrees(
        &mut room,
        p,
        width,
        parts::word(parts::behind(body, 2)),
        parts::behind(body, 10),
    )
}
