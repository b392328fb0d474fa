// Number texts, durations and times of day, as `f64`, minutes and minutes of a day; and the texts of durations and times.
#![tactic(auto)]

mod decimal;
mod duration;
mod time;
mod whole;
mod write;

pub use decimal::number_of;
pub use duration::duration_of;
pub use time::time_of;
pub use whole::{hundredths, nearest_whole};
pub use write::{duration_text, time_text};
