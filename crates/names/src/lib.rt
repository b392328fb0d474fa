// Names and ids as they stand in a buffer that is being written: which are taken, and the name of a calendar's UID.
#![tactic(auto)]

mod calendars; // the calendars of a tree, and their names in the buffer
mod ids; // ids by tables in lent words
mod named; // a calendar's name by its UID, from a table in lent words
mod records; // records by their rows, and the texts at their fronts
mod stars; // texts with `*` behind them
mod uids; // calendars by their UIDs, from a table in lent words

pub use calendars::{ELAPSED, calendar_text, calendars_before, count_calendars, wanted_name};
pub use ids::{Ids, end_of_ids, ids_for, note_stars, place_in, stars_for};
pub use named::{CalendarName, calendar_in, elapsed_in, index_calendars};
pub use records::{place_of_row, raw_text};
pub use uids::{CalendarTable, calendar_by, index_uids};
