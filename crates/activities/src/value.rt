// What an activity's record holds, each value from the task in the tree.
ghost use Rattle.std.specs.Prelude.{◌≡◌};
ghost use Rattle.definition.specs.Task.{wanted_id};
ghost use Rattle.links.specs.Fates.{found_by, is_entered};
ghost use Rattle.names.specs.Context.{context_at};
ghost use Rattle.pack.specs.Record.{activity_kind_code};
ghost use Rattle.pack.specs.Value.{given_by, starred};
ghost use Rattle.tree.specs.Place.{meaning};
ghost use Rattle.tree.specs.Root.{root_at};
ghost use Rattle.activities.specs.Values.{kind_by, day_by, calendar_in, PlanOf, DatesOf, ProgressOf};

use crate::own::Section;
use links::TaskFinder;
use pack::{ActivityKind, Dates, Plan, Progress, Starred};
use tree::Element;

// WBS, else ID, else UID: a loop over the three names would be longer.
pub(crate) fn wanted_id(task: Element<'_>) -> &[u8]
    ensures { result.now ≡ wanted_id (meaning task.entry) }
{
    // Each is looked up in any case: of a closure that gives a slice, for `or_else`, the proof learns nothing.
    fields::text_in(task, b"WBS")
        .or(fields::text_in(task, b"ID"))
        .unwrap_or(task.text_of(b"UID"))
}

// The name of the calendar that the task wants, where it has a name. Whether it is elapsed is asked once for a task: the minutes of its day need it too.
pub(crate) fn calendar_for<'a>(
    out: &[u8],
    words: &[u32],
    section: Section<'a>,
    task: Element<'_>,
    elapsed: bool,
) -> Option<Starred<'a>>
    ensures { given_by starred result ≡ calendar_in (context_at out.now section.entry.calendars (root_at section.entry.root)) section.entry.root.tree.now words.now section.entry.own.calendars elapsed (meaning task.entry) }
{
    let root = section.root;
    let c = section.calendars;
    let table = section.own.calendars;
    if elapsed {
        let name = names::elapsed_in(out, c, root, words, table);
        return Starred::named(names::ELAPSED, name);
    }
    // By text::same: of `!=` in this closure the check does not get to the definition's word.
    let uid = fields::text_in(task, b"CalendarUID").filter(|u| !text::same(u, b"-1"))?;
    let name = names::calendar_in(out, c, root, words, table, uid)?;
    Some(name.starred())
}

// ---- what an activity is

// The minutes of a day of the task: the flag is what the task says, and chooses a number, no code.
pub(crate) fn day_of(elapsed: bool, per_day: u64) -> u64
    ensures { result ≡ day_by elapsed per_day }
{
    if elapsed { 1440 } else { per_day }
}

// A finish milestone is one that a kept link enters.
fn kind_of(task: Element<'_>, find: TaskFinder<'_>) -> ActivityKind
    ensures { activity_kind_code result ≡ kind_by (is_entered (found_by find.entry) (meaning task.entry)) (meaning task.entry) }
{
    if !tasks::milestone(task) {
        return ActivityKind::Task;
    }
    if links::is_entered(task, find) {
        return ActivityKind::FinishMilestone;
    }
    ActivityKind::StartMilestone
}

// With its parent, and the minutes of its day.
pub(crate) fn plan_of(
    task: Element<'_>,
    find: TaskFinder<'_>,
    day: u64,
    parent: Option<u32>,
) -> Plan
    ensures { PlanOf day parent (is_entered (found_by find.entry) (meaning task.entry)) (meaning task.entry) result }
{
    let minutes = fields::minutes_in(task, b"Duration").unwrap_or(0);
    Plan {
        kind: u32::from(kind_of(task, find)),
        duration: tasks::duration_parts(minutes, day),
        parent,
    }
}

// ---- its dates, and how far it is

pub(crate) fn dates_of(task: Element<'_>) -> Dates
    ensures { DatesOf (meaning task.entry) result }
{
    Dates {
        constraint: tasks::constraint_of(task),
        deadline: fields::date_in(task, b"Deadline"),
        start: fields::date_in(task, b"ActualStart"),
        finish: fields::date_in(task, b"ActualFinish"),
    }
}

pub(crate) fn progress_of(task: Element<'_>) -> Progress
    ensures { ProgressOf (meaning task.entry) result }
{
    Progress {
        percent: tasks::percent_of(task),
        duration_type: u32::from(tasks::duration_type(task)),
        remaining: tasks::remaining_of(task),
    }
}
