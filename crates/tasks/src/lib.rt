// What a task and a link say, each value by itself: an element in, a value out.
#![tactic(auto)]

mod format;
mod link;
mod task;
mod value;

pub use link::{Lag, LinkKind, is_across, link_kind, link_lag};
pub use task::{
    Constraint, DurationType, Parts, constraint_of, duration_parts, duration_type, is_elapsed,
    is_fractional, is_kept, level_of, milestone, per_day, percent_of, remaining_of,
};
