// What a C host links: each export is the function of mspdi of that name, with its contract. Each returns 0, or the number of the refusal; on a
// refusal all that is lent is zeros. A crate is either a library or a static library. mspdi is a library, as samples uses it; so the exports stand here.
#![tactic(auto)]

ghost use Rattle.std.specs.Prelude.{◌≡◌, List, ℕ, length, replicate};
ghost use Rattle.definition.specs.Refusal.{read_answer, check_answer, duration_answer, time_answer, outline_answer, day_sheet_answer};
ghost use Rattle.mspdi.specs.Outcome.{leaves};
ghost use Rattle.mspdi.specs.Outlines.{outline_leaves};
ghost use Rattle.mspdi.specs.Reads.{read_leaves};

// The text of minutes from 0 to 1,000,000,000, as `PT8H30M0S`.
#[unsafe(no_mangle)]
pub extern "C" fn mspdi_duration(minutes: i64, text: &mut [u8], written: &mut u64) -> u32
    ensures { (result, text.new, written.new) ≡ leaves (length text.old) (duration_answer minutes (length text.old)) }
{
    mspdi::mspdi_duration(minutes, text, written)
}

// The text of a time of day from 0 to 1440 minutes, as `08:30:00`.
#[unsafe(no_mangle)]
pub extern "C" fn mspdi_time(minutes: u32, text: &mut [u8], written: &mut u64) -> u32
    ensures { (result, text.new, written.new) ≡ leaves (length text.old) (time_answer minutes (length text.old)) }
{
    mspdi::mspdi_time(minutes, text, written)
}

// The check of a model: 0, or 6 or 7. The work slice may have any length; it is zeros at exit.
#[unsafe(no_mangle)]
pub extern "C" fn mspdi_check(model: &[u8], work: &mut [u32]) -> u32
    ensures { ◌≡◌ {A = ℕ × List ℕ} (result, work.new) (check_answer model.now, replicate (length work.old) 0) }
{
    mspdi::mspdi_check(model, work)
}

// The outline of a model: rows of (activity, level from 1), two words each, and how many there are. rows needs 2 words an activity, work 4.
#[unsafe(no_mangle)]
pub extern "C" fn mspdi_outline(
    model: &[u8],
    rows: &mut [u32],
    work: &mut [u32],
    count: &mut u64,
) -> u32
    ensures { (result, rows.new, work.new, count.new) ≡ outline_leaves (length rows.old) (length work.old) (outline_answer model.now (length rows.old) (length work.old)) }
{
    mspdi::mspdi_outline(model, rows, work, count)
}

// The day sheet of a date, by its day number, in the calendar of a row.
#[unsafe(no_mangle)]
pub extern "C" fn mspdi_day_sheet(
    model: &[u8],
    calendar: u32,
    date: i32,
    sheet: &mut [u8],
    written: &mut u64,
) -> u32
    ensures { (result, sheet.new, written.new) ≡ leaves (length sheet.old) (day_sheet_answer model.now calendar date (length sheet.old)) }
{
    mspdi::mspdi_day_sheet(model, calendar, date, sheet, written)
}

// The model of a tree: 0, or 1 to 5 or 9. The work slice may have any length; it is zeros at exit.
#[unsafe(no_mangle)]
pub extern "C" fn mspdi_read(
    tree: &[u8],
    model: &mut [u8],
    work: &mut [u32],
    written: &mut u64,
) -> u32
    ensures { (result, model.new, work.new, written.new) ≡ read_leaves (length model.old) (length work.old) (read_answer tree.now (length model.old)) }
{
    mspdi::mspdi_read(tree, model, work, written)
}
