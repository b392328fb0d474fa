// A reader over a lent model that knows its bit position. It goes by value: a method takes it apart, calls the function of `bits` on the
// slice and the place, and answers the value with the reader behind it.
#![tactic(auto)]

ghost use Rattle.std.specs.Prelude.{◌≡◌, ◌≤◌};
ghost use Rattle.reader.specs.Read.{first, took};

use bits::{Field, Place};

// A lent model, and the place of the next field.
#[derive(Clone, Copy)]
pub struct Reader<'a> {
    pub model: &'a [u8],
    pub place: Place,
}

impl<'a> Reader<'a> {
    // A reader at the first bit.
    pub fn new(model: &'a [u8]) -> Reader<'a>
        ensures { result ≡ first model.entry }
    {
        Reader {
            model,
            place: Place { byte: 0, bit: 0 },
        }
    }

    // The field of so many bits, and the reader behind it.
    // take_u32 is this around another function of bits: one over both would take it as a closure, and be no shorter.
    pub fn take(self, width: usize) -> Field<u64, Reader<'a>>
        requires { width ≤ 64 }
        ensures { result ≡ took self.entry width }
    {
        let Field { value, next } = bits::take(self.model, self.place, width);
        Field {
            value,
            next: Reader {
                place: next,
                ..self
            },
        }
    }

    // The field of 32 bits, as a number of 32.
    pub fn take_u32(self) -> Field<u32, Reader<'a>>
        ensures { result ≡ took self.entry 32 }
    {
        let Field { value, next } = bits::take_u32(self.model, self.place);
        Field {
            value,
            next: Reader {
                place: next,
                ..self
            },
        }
    }
}
