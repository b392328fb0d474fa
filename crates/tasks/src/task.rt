// The values of a Task. What is right is said in the crate definition, specs/Task.antt.
ghost use Rattle.std.specs.Prelude.{◌≡◌};
ghost use Rattle.definition.specs.Field.{yes_in};
ghost use Rattle.definition.specs.Answer.{date_meaning};
ghost use Rattle.definition.specs.Task.{level_of, is_kept, is_elapsed, is_fractional, per_day_from, per_day_of};
ghost use Rattle.definition.specs.Task.{constraint_from, constraint_of, duration_type_of, duration_days, duration_minutes};
ghost use Rattle.definition.specs.Task.{under_way, remaining_of, percent_from, percent_of};
ghost use Rattle.tree.specs.Place.{meaning};
ghost use Rattle.tree.specs.Root.{root_at};
ghost use Rattle.tasks.specs.Task.{code_and_day, constraint_means, day_numbered, duration_type_code};

use crate::format::format_of;
use crate::value::quotient;
use definition::Date;
use tree::{Element, Root};

#[derive(Clone, Copy, Debug, PartialEq, Eq)]
pub enum Constraint {
    AsLateAsPossible,
    StartOn(Date),
    FinishOn(Date),
    StartOnOrAfter(Date),
    StartOnOrBefore(Date),
    FinishOnOrAfter(Date),
    FinishOnOrBefore(Date),
}

impl Constraint {
    // MSPDI's code, which is the model's.
    pub fn code(self) -> u32
        ensures { result ≡ (code_and_day self).0 }
    {
        match self {
            Constraint::AsLateAsPossible => 1,
            Constraint::StartOn(_) => 2,
            Constraint::FinishOn(_) => 3,
            Constraint::StartOnOrAfter(_) => 4,
            Constraint::StartOnOrBefore(_) => 5,
            Constraint::FinishOnOrAfter(_) => 6,
            Constraint::FinishOnOrBefore(_) => 7,
        }
    }

    #[tactic(auto, unfolding(definition::specs::Answer::date_meaning))]
    pub fn date(self) -> Option<Date>
        ensures { date_meaning result ≡ (code_and_day self).1 }
    {
        match self {
            Constraint::AsLateAsPossible => None,
            Constraint::StartOn(d)
            | Constraint::FinishOn(d)
            | Constraint::StartOnOrAfter(d)
            | Constraint::StartOnOrBefore(d)
            | Constraint::FinishOnOrAfter(d)
            | Constraint::FinishOnOrBefore(d) => Some(d),
        }
    }
}

// What stays as it is when a task's duration changes.
#[derive(Clone, Copy, Debug, PartialEq, Eq)]
pub enum DurationType {
    FixedDurationAndRate = 0,
    FixedRate = 2,
    FixedUnits = 3,
}

// The model's codes.
impl From<DurationType> for u32 {
    ghost from_gives = { λ kind n. n ≡ duration_type_code kind };

    fn from(kind: DurationType) -> u32 {
        kind as u32
    }
}

// Minutes as days, rounded up, and the minutes themselves where they are not whole days.
#[derive(Clone, Copy, Debug, PartialEq, Eq)]
pub struct Parts {
    pub days: i64,
    pub minutes: Option<i64>,
}

// ---- the kept tasks

// OutlineLevel, 1 where none is read and 0 for one below 0.
#[tactic(auto, using(fields::specs::Answers::unsigned_or_0), unfolding(definition::specs::Task::level_of, definition::specs::Field::int_in))]
pub fn level_of(task: Element<'_>) -> u64
    ensures { result ≡ level_of (meaning task.entry) }
{
    fields::unsigned_in(task, b"OutlineLevel", 0, 1)
}

// A UID other than `0`, and a level of at least 1.
pub fn is_kept(task: Element<'_>) -> bool
    ensures { result ≡ is_kept (meaning task.entry) }
{
    fields::own_uid(task) & (1 <= level_of(task))
}

// ---- the duration as it is told

// Elapsed time, where a day has 1440 minutes.
#[tactic(auto, unfolding(definition::specs::Task::is_elapsed, definition::specs::Field::int_in))]
pub fn is_elapsed(task: Element<'_>) -> bool
    ensures { result ≡ is_elapsed (meaning task.entry) }
{
    format_of(task, b"DurationFormat").is_elapsed()
}

// A Duration that gives minutes and was not whole. A name for one call, like `is_across`.
#[tactic(auto, unfolding(definition::specs::Task::is_fractional))]
pub fn is_fractional(task: Element<'_>) -> bool
    ensures { result ≡ is_fractional (meaning task.entry) }
{
    fields::fraction_in(task, b"Duration")
}

// ---- the day

fn day_from(m: f64) -> Option<u64>
    ensures { result ≡ per_day_from m }
{
    (1.0..=1440.0)
        .contains(&m)
        .then(|| number::nearest_whole(m).unsigned_abs())
}

// MinutesPerDay of the root, from 1 to 1440; else 480.
pub fn per_day(root: Root<'_>) -> u64
    ensures { result ≡ per_day_of (root_at root.entry) }
{
    fields::number_at(root.part(root.minutes))
        .and_then(day_from)
        .unwrap_or(480)
}

// ---- a constraint

#[tactic(auto, unfolding(crate::specs::Task::constraint_means, definition::specs::Answer::date_meaning))]
fn constraint_by(kind: u64, a: Option<Date>) -> Option<Constraint>
    ensures { constraint_means result ≡ constraint_from kind (date_meaning a) }
{
    match kind {
        1 => Some(Constraint::AsLateAsPossible),
        2 => a.map(Constraint::StartOn),
        3 => a.map(Constraint::FinishOn),
        4 => a.map(Constraint::StartOnOrAfter),
        5 => a.map(Constraint::StartOnOrBefore),
        6 => a.map(Constraint::FinishOnOrAfter),
        7 => a.map(Constraint::FinishOnOrBefore),
        _ => None,
    }
}

// 1 is as late as possible and has no date; 2 to 7 need theirs.
pub fn constraint_of(task: Element<'_>) -> Option<Constraint>
    ensures { constraint_means result ≡ day_numbered (constraint_of (meaning task.entry)) }
{
    let kind = fields::unsigned_in(task, b"ConstraintType", 0, 0);
    constraint_by(kind, fields::date_in(task, b"ConstraintDate"))
}

// ---- the duration

#[tactic(auto, unfolding(definition::specs::Field::int_in))]
pub fn duration_type(task: Element<'_>) -> DurationType
    ensures { duration_type_code result ≡ duration_type_of (meaning task.entry) }
{
    match fields::int_in(task, b"Type") {
        Some(0) => DurationType::FixedRate,
        Some(2) => DurationType::FixedUnits,
        _ => DurationType::FixedDurationAndRate,
    }
}

pub fn duration_parts(minutes: u32, day: u64) -> Parts
    ensures { (result.days ≡ duration_days minutes day) × (result.minutes ≡ duration_minutes minutes day) }
{
    let n = u64::from(minutes);
    let whole = quotient(n, day).cast_signed();
    if n.is_multiple_of(day) {
        return Parts {
            days: whole,
            minutes: None,
        };
    }
    Parts {
        days: whole + 1,
        minutes: Some(i64::from(minutes)),
    }
}

// ---- progress

// Begun and not ended.
fn under_way(task: Element<'_>) -> bool
    ensures { result ≡ under_way (meaning task.entry) }
{
    let begun = fields::date_in(task, b"ActualStart").is_some();
    let ended = fields::date_in(task, b"ActualFinish").is_some();
    begun & !ended
}

// The minutes left, of a task that is under way.
#[tactic(auto, unfolding(definition::specs::Field::minutes_in, definition::specs::Field::date_in))]
pub fn remaining_of(task: Element<'_>) -> Option<i64>
    ensures { result ≡ remaining_of (meaning task.entry) }
{
    if !under_way(task) {
        return None;
    }
    fields::minutes_in(task, b"RemainingDuration").map(i64::from)
}

// Open below, which no `..` writes and a pair of Bounds would write longer.
fn percent_from(p: f64) -> Option<i64>
    ensures { result ≡ percent_from p }
{
    ((0.0 < p) & (p <= 100.0)).then(|| number::hundredths(p))
}

// Hundredths of PhysicalPercentComplete, of one above 0 and up to 100.
pub fn percent_of(task: Element<'_>) -> Option<i64>
    ensures { result ≡ percent_of (meaning task.entry) }
{
    fields::number_in(task, b"PhysicalPercentComplete").and_then(percent_from)
}

#[tactic(auto, unfolding(definition::specs::Field::yes_in))]
pub fn milestone(task: Element<'_>) -> bool
    ensures { result ≡ yes_in (meaning task.entry) "Milestone" }
{
    fields::yes_in(task, b"Milestone")
}
