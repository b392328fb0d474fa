// Signed fields, in two's complement. Each is one call: one function for both widths, over a trait of signed numbers, would be longer.
ghost use Rattle.std.specs.Prelude.{◌≡◌};
ghost use Rattle.definition.specs.Bits.{twos};
ghost use Rattle.definition.specs.Format.{field};
ghost use Rattle.bits.specs.Reads.{int32_at};
ghost use Rattle.bits.specs.Steps.{Puts};

use crate::reading::take_u32;
use crate::writing::put;
use crate::{Field, Place};

// A signed field of 64 bits, written.
pub fn put_i64(out: &mut [u8], p: Place, v: i64) -> Place
    ensures { Puts (field 64) (twos 64 v) out.old p out.new result }
{
    put(out, p, 64, v.cast_unsigned())
}

// One of 32 bits, written.
pub fn put_i32(out: &mut [u8], p: Place, v: i32) -> Place
    ensures { Puts (field 32) (twos 32 v) out.old p out.new result }
{
    put(out, p, 32, u64::from(v.cast_unsigned()))
}

// One of 32 bits, read.
pub fn take_i32(s: &[u8], p: Place) -> Field<i32>
    ensures { result ≡ int32_at s.now p }
{
    let Field { value, next } = take_u32(s, p);
    Field {
        value: value.cast_signed(),
        next,
    }
}
