// The days of an exception, one after the other. What is right is said in the crate definition, specs/Recurrence.antt.
#![tactic(auto)]

mod element;
mod kind;
mod position;
mod scale;
mod sequence;

use definition::Date;
pub use element::{days_of, rule_of};
pub use sequence::{RuleDays, days, next, start};

// A rule, as definition's Recurrence.antt has it, in whole numbers. The day is held to 32, the item to 10 and the position to 5, at which
// and past which nothing fits; of the weekdays the seven low bits are held. probe's Fields have numbers for its dates and its month, for C.
#[derive(Clone, Copy, Debug, PartialEq, Eq)]
pub struct Rule {
    // a number, since callers may pass any, and `next` refuses those that no kind has
    pub kind: u32,
    pub from: Date,
    pub last: Date,
    pub most: u32,
    pub period: u32,
    // from 1; 0 and those past 12 are none
    pub month: Option<u32>,
    pub day: u32,
    pub item: u32,
    pub position: u32,
    pub weekdays: u32,
}

// From which day on the days of a rule are still to come, and how many at most.
#[derive(Clone, Copy, Debug, PartialEq, Eq)]
pub struct Cursor {
    pub at: Date,
    pub left: u32,
}

// The next day, with the cursor behind it; no day; no rule. Three outcomes with names: a `Result` of an `Option` is no plainer.
#[derive(Clone, Copy, Debug, PartialEq, Eq)]
pub enum Step {
    Day(Date, Cursor),
    Done,
    Skipped,
}

// Days in a row. What probe gives for C has numbers in their place.
#[derive(Clone, Copy, Debug, PartialEq, Eq)]
pub struct Range {
    pub first: Date,
    pub count: u32,
}
