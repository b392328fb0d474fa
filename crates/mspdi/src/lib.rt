// The entries that a host calls; mspdi_c exports them to C. Each returns 0, or the number of the refusal; on a refusal all that is lent is zeros.
// Numbers and lent results, and no Result, for C.
#![tactic(auto)]

ghost use Rattle.std.specs.Prelude.{◌≡◌, List, ℕ, length, replicate};
ghost use Rattle.definition.specs.Answer.{answer_number, answer_length};
ghost use Rattle.definition.specs.Refusal.{read_answer, check_answer, duration_answer, time_answer, outline_answer, day_sheet_answer};
ghost use Rattle.mspdi.specs.Outcome.{leaves, from_zero};
ghost use Rattle.mspdi.specs.Outlines.{outline_leaves};
ghost use Rattle.mspdi.specs.Reads.{read_leaves};

use definition::{Date, Refusal};

// n, or the largest number where n is below 0.
fn from_zero(n: i64) -> u64
    ensures { result ≡ from_zero n }
{
    u64::try_from(n).unwrap_or(u64::MAX)
}

// The number of an answer.
fn number_of<T: Copy>(a: Result<T, Refusal>) -> u32
    ensures { result ≡ answer_number a }
{
    match a {
        Ok(_) => 0,
        Err(e) => u32::from(e),
    }
}

// The number of an answer, and how long its result is.
fn told(a: Result<usize, Refusal>, written: &mut u64) -> u32
    ensures { (result ≡ answer_number a) × (written.new ≡ answer_length a) }
{
    // There is no From from usize to u64.
    *written = a.unwrap_or(0) as u64;
    number_of(a)
}

// The text of minutes from 0 to 1,000,000,000, as `PT8H30M0S`.
pub fn mspdi_duration(minutes: i64, text: &mut [u8], written: &mut u64) -> u32
    ensures { (result, text.new, written.new) ≡ leaves (length text.old) (duration_answer minutes (length text.old)) }
{
    let a = number::duration_text(from_zero(minutes), text);
    told(a, written)
}

// The text of a time of day from 0 to 1440 minutes, as `08:30:00`.
pub fn mspdi_time(minutes: u32, text: &mut [u8], written: &mut u64) -> u32
    ensures { (result, text.new, written.new) ≡ leaves (length text.old) (time_answer minutes (length text.old)) }
{
    let a = number::time_text(u64::from(minutes), text);
    told(a, written)
}

// The check of a model: 0, or 6 or 7. The work slice may have any length; it is zeros at exit.
pub fn mspdi_check(model: &[u8], work: &mut [u32]) -> u32
    ensures { ◌≡◌ {A = ℕ × List ℕ} (result, work.new) (check_answer model.now, replicate (length work.old) 0) }
{
    number_of(model_check::check(model, work))
}

// The outline of a model: rows of (activity, level from 1), two words each, and how many there are. rows needs 2 words an activity, work 4.
pub fn mspdi_outline(model: &[u8], rows: &mut [u32], work: &mut [u32], count: &mut u64) -> u32
    ensures { (result, rows.new, work.new, count.new) ≡ outline_leaves (length rows.old) (length work.old) (outline_answer model.now (length rows.old) (length work.old)) }
{
    let a = outline::outline(model, rows, work);
    *count = u64::from(a.unwrap_or(0));
    number_of(a)
}

// The day sheet of a date, by its day number, in the calendar of a row.
pub fn mspdi_day_sheet(
    model: &[u8],
    calendar: u32,
    date: i32,
    sheet: &mut [u8],
    written: &mut u64,
) -> u32
    ensures { (result, sheet.new, written.new) ≡ leaves (length sheet.old) (day_sheet_answer model.now calendar date (length sheet.old)) }
{
    let day = day_sheet::day_sheet(model, calendar, Date(date), sheet);
    told(day, written)
}

// The model of a tree: 0, or 1 to 5 or 9. The work slice may have any length; it is zeros at exit.
pub fn mspdi_read(tree: &[u8], model: &mut [u8], work: &mut [u32], written: &mut u64) -> u32
    ensures { (result, model.new, work.new, written.new) ≡ read_leaves (length model.old) (length work.old) (read_answer tree.now (length model.old)) }
{
    let a = read::read(tree, model, work);
    told(a, written)
}
