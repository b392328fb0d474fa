// The days of a calendar: its hours and its lists of days, kept rising while they are the last thing written, over those of its base.
#![tactic(auto)]

mod base;
mod dates;
mod days;
mod exceptions;
mod hours;
mod list;
mod noted;
mod notes;
mod own;
mod pass;
mod reach;
mod span;
mod wanted;
mod whole;

pub use hours::put_periods;
pub use whole::put_days;
