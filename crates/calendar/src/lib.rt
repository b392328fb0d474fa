// What the elements of a calendar say, each value by itself: an element in, a value out.
#![tactic(auto)]

mod base;
mod exception;
mod hours;
mod week;

pub use base::has_base;
pub use exception::skipped;
pub use hours::{WorkingTime, working_time};
pub use week::{day_place, day_working, is_old_exception, week_of, works};
