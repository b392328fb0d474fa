// Calendars written, one over another, and the two that no file gives.
#![tactic(auto)]

mod built;
mod plain;
mod record;

pub use built::put_calendars;
