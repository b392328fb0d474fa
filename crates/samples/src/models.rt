// A model and what the entries answer for it: the model behind its length (four bytes); the number that the check returns (one byte); the outline's
// rows behind their length, an activity's row and a level of four bytes each; then the sheets: the calendar's row (four bytes), the date (four), the
// number that the call returns (one), the sheet's length (one), the sheet.
ghost use Rattle.std.specs.Prelude.{◌≤◌};

use crate::parts;
use crate::parts::Told;
use definition::Refusal;

// ---- the check

// Whether the check answers a number, and leaves zeros in work.
pub fn check_agrees(model: &[u8], answer: u32) -> bool {
    let mut work = [0xFFFF_FFFF; 3];
    let a = mspdi::mspdi_check(model, &mut work);
    (a == answer) & parts::words_are(&work, &[])
}

// ---- the outline

// Words of rows and of work, for 256 activities.
const ROWS: usize = 512;

const WORK: usize = 1024;

// Whether the outline in these slices answers so, and leaves zeros behind the rows and in work.
fn outline_into(model: &[u8], rows: &mut [u32], work: &mut [u32], told: Told<'_>) -> bool {
    let mut count: u64 = 0xFFFF_FFFF;
    let a = mspdi::mspdi_outline(model, rows, work, &mut count);
    (a == told.answer)
        & (count == (told.bytes.len() / 8) as u64)
        & parts::words_are(rows, told.bytes)
        & parts::words_are(work, &[])
}

// The same in so many words that are not zeros.
fn outline_is(model: &[u8], rows: usize, work: usize, told: Told<'_>) -> bool {
    let mut row_words = [0xFFFF_FFFF; ROWS];
    let mut work_words = [0xFFFF_FFFF; WORK];
    let r = rows.min(ROWS);
    let w = work.min(WORK);
    outline_into(model, &mut row_words[0..r], &mut work_words[0..w], told)
}

// In just the words that are needed, in more, and in one word less of either.
fn outline_fits(model: &[u8], s: &[u8]) -> bool {
    let n = parts::number(parts::behind(model, 4)) as usize;
    let all = Told {
        answer: 0,
        bytes: s,
    };
    let none = Told {
        answer: u32::from(Refusal::NoRoom),
        bytes: &[],
    };
    let right = outline_is(model, 2 * n, 4 * n, all) & outline_is(model, ROWS, WORK, all);
    if n == 0 {
        return right;
    }
    right & outline_is(model, 2 * n - 1, 4 * n, none) & outline_is(model, 2 * n, 4 * n - 1, none)
}

fn outline_agrees(model: &[u8], checked: u32, s: &[u8]) -> bool {
    if checked == u32::from(Refusal::NoModel) {
        let told = Told {
            answer: checked,
            bytes: s,
        };
        return outline_is(model, ROWS, WORK, told);
    }
    outline_fits(model, s)
}

// ---- the day sheet

const SHEET: usize = 256;

// Whether the sheet that is asked for answers so, and leaves zeros behind it.
fn sheet_is(model: &[u8], asked: &[u8], sheet: &mut [u8], told: Told<'_>) -> bool {
    let calendar = parts::number(asked);
    let date = parts::signed(parts::behind(asked, 4));
    let mut written: u64 = 0xFFFF_FFFF;
    let a = mspdi::mspdi_day_sheet(model, calendar, date, sheet, &mut written);
    (a == told.answer) & (written == told.bytes.len() as u64) & parts::bytes_are(sheet, told.bytes)
}

fn sheet_agrees(model: &[u8], asked: &[u8]) -> bool {
    let told = Told {
        answer: u32::from(parts::byte(parts::behind(asked, 8))),
        bytes: parts::behind(asked, 10),
    };
    parts::fits(
        &mut [0; SHEET],
        told,
        |sheet, t| sheet_is(model, asked, sheet, t),
    )
}

fn sheet_end(s: &[u8]) -> usize
    ensures { 10 ≤ result }
{
    10 + usize::from(parts::byte(parts::behind(s, 9)))
}

// A loop by hand, since sheets have different lengths.
fn sheets_agree(model: &[u8], s: &[u8]) -> bool {
    let mut rest = s;
    while !rest.is_empty() {
        let Some((sheet, more)) = rest.split_at_checked(sheet_end(rest)) else {
            return false;
        };
        if !sheet_agrees(model, sheet) {
            return false;
        }
        rest = more;
    }
    true
}

pub fn agrees(body: &[u8]) -> bool {
    let (model, answers) = parts::piece(body);
    let checked = u32::from(parts::byte(answers));
    let (rows, sheets) = parts::piece(parts::behind(answers, 1));
    check_agrees(model, checked)
        & outline_agrees(model, checked, rows)
        & sheets_agree(model, sheets)
}
