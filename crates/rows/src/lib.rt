// Look-ups in the tree: the row of a UID by a scan or by a table in lent words, the nearest lower level, a calendar by its UID; and the walks over
// the elements that count. What is right is said in the crate definition, specs/Task.antt, specs/Resource.antt and specs/Calendar.antt.
#![tactic(auto)]

mod bytes; // what proofs know of a tree
mod built; // calendars, in the order in which they are built
mod kept; // the kept tasks
mod resource; // cost resources
mod section; // elements of a section that pass a test
mod table; // rows by their UIDs, from tables in lent words

pub use built::{
    CalendarsInOrder, calendar_with, calendars, first_calendar, main_calendar, next_calendar,
};
pub use bytes::are_bytes;
pub use kept::{
    KeptTasks, MOST_TASKS, any_elapsed, count_fractional, first_kept, kept_tasks, next_kept,
    parent_row,
};
pub use section::first_in;
pub use table::{ListElements, Listed, cost_with, elements, index_rows, row_with, seek};
