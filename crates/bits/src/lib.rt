// Fields of any width at any bit of a buffer: read, written, moved. A place is a byte and a bit, so that no buffer is too long for it; what
// does not fit leads to a place past every end, where nothing fits any more.
#![tactic(auto)]

mod copying; // runs of bits written again
mod places; // what fits, and which place comes first
mod reading; // fields read
mod rotation; // runs of bits that change places
mod shifts; // some bits of a number
mod signs; // signed fields
mod texts; // bytes and texts
mod writing; // fields written
mod zeros; // one value from an index on

pub use copying::copy_bits;
pub use places::inside;
pub use reading::{take, take_flag, take_pad, take_u32};
pub use rotation::rotate;
pub use signs::{put_i32, put_i64, take_i32};
pub use texts::{put_bytes, put_text, take_text};
pub use writing::{overwrite, pad, put, put_flag};
pub use zeros::fill_from;

// A place in a buffer: so many whole bytes and so many bits stand before it. A bit of 8 or more is past every end; the derived order is that
// of places where both bits are below 8. The buffer goes beside it, as places are kept while others are written; the crate reader has the two in one.
#[derive(Clone, Copy, Debug, PartialEq, Eq, PartialOrd, Ord)]
pub struct Place {
    pub byte: usize,
    pub bit: usize,
}

// The place of what does not fit. Each later field does not fit there either, so that a chain of fields is tested once, at its end: with an Option
// for a place, each field of a record would be tested.
// Callers test `7 < p.bit` for it, which is what their clauses say of a place: a method would be one more name for that.
pub const PAST: Place = Place { byte: 0, bit: 8 };

// A field that was read, and where the next one is read: from a place, or by a reader.
#[derive(Clone, Copy)]
pub struct Field<T, P = Place> {
    pub value: T,
    pub next: P,
}

// Where the bytes of a text stand, and the place behind them. No slice, as the buffer may be lent for writing next; and no Field of a pair, whose two
// numbers would have no names.
#[derive(Clone, Copy, Debug, PartialEq, Eq)]
pub struct Span {
    pub start: usize,
    pub len: usize,
    pub next: Place,
}
