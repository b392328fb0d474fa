// Texts: trimming, parts, whole numbers, comparing, UTF-8. A text is bytes, as a tree and a model hold it, and whether it is UTF-8 is tested here:
// so no `&str`.
#![tactic(auto)]

mod compare;
mod parts;
mod utf8;
mod white;
mod whole;

pub use compare::{is_yes, same};
pub use parts::{before, byte_at, cut_at, place};
pub use utf8::is_utf8;
pub use white::trim;
pub use whole::{Whole, whole_of, without_sign};
