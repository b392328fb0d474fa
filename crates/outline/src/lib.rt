// The outline of a model: its activities' parents are put into the work slice, four words an activity, and the rows are written in one pass
// over lists of children that are built there. What the words of a row hold is said in specs/Steps.antt.
#![tactic(auto)]

mod parents; // the parents of a model's activities

ghost use Rattle.std.specs.Prelude.{◌≡◌, ◌+◌, ◌*◌, ◌<◌, ◌≤◌, length, get_or, set, ◌||◌, ltb};
ghost use Rattle.outline.specs.Answers.{Gives};
ghost use Rattle.outline.specs.Words.{Outlined};
ghost use Rattle.outline.specs.Steps.{Empty, Linked, Walked, Wrote, pushed, link_of, visit_of, climb_of, step_of};

use crate::parents::walk_model;
use bits::fill_from;
use definition::Refusal;
use model::{sections_of, take_counts};

// A word that names no row, as the lent words hold it.
const NONE: u32 = 0xFFFF_FFFF;

// The words of a row in the lent slice, as offsets that are added to its place. Rows name each other by number there: no heap holds nodes. A row becomes
// an index by `as`, as there is no From from u32 to usize.
const PARENT: u32 = 0;

const CHILD: u32 = 1;

const NEXT: u32 = 2;

const TOP: u32 = 3;

// A row that is visited, and how many rows it is below.
#[derive(Clone, Copy)]
struct Visit {
    row: u32,
    depth: u32,
}

fn field(work: &[u32], row: u32, word: u32) -> u32
    ensures { result ≡ get_or work.now (4 * row + word) 0 }
{
    index::word(work, 4 * (row as usize), word as usize)
}

fn set_field(work: &mut [u32], row: u32, word: u32, value: u32)
    ensures { work.new ≡ set work.old (4 * row + word) value }
{
    index::set_word(work, 4 * (row as usize), word as usize, value);
}

// Empties the lists of n rows. Here and below the number goes beside the words: a struct over both would hold the words lent.
fn empty_lists(n: u32, work: &mut [u32])
    requires { 4 * n ≤ length work.old }
    ensures { Empty n work.old work.new }
{
    for i in 0..n {
        set_field(work, i, CHILD, NONE);
        set_field(work, i, TOP, NONE);
    }
}

// Puts row i in front of the list that begins at a word of row p.
fn push(work: &mut [u32], i: u32, p: u32, word: u32)
    ensures { work.new ≡ pushed work.old i p word }
{
    set_field(work, i, PARENT, p);
    let first = field(work, p, word);
    set_field(work, i, NEXT, first);
    set_field(work, p, word, i);
}

// Puts row i into the list of its parent, or of the top.
fn link(n: u32, i: u32, work: &mut [u32])
    ensures { work.new ≡ link_of n i work.old }
{
    let p = field(work, i, PARENT);
    if n <= p || p == i {
        push(work, i, 0, TOP);
    } else {
        push(work, i, p, CHILD);
    }
}

// Links all rows, the last first, so that each list rises.
fn link_rows(n: u32, work: &mut [u32])
    requires { 4 * n ≤ length work.old }
    ensures { Linked n work.old work.new }
{
    for i in (0..n).rev() {
        link(n, i, work);
    }
}

// The row that a word of a row names, at a depth, if it names one.
fn named(work: &[u32], row: u32, word: u32, depth: u32) -> Option<Visit>
    ensures { result ≡ visit_of (get_or work.now (4 * row + word) 0) depth }
{
    let row = field(work, row, word);
    (row != NONE).then_some(Visit { row, depth })
}

// The row that follows a row and all below it.
fn climb(work: &[u32], at: Visit) -> Option<Visit>
    ensures { result ≡ climb_of work.now at.depth at.row }
{
    let mut r = at.row;
    for d in (0..at.depth).rev() {
        if let Some(next) = named(work, r, NEXT, d + 1) {
            return Some(next);
        }
        r = field(work, r, PARENT);
    }
    named(work, r, NEXT, 0)
}

// The row that follows a row.
fn step(n: u32, work: &[u32], at: Visit) -> Option<Visit>
    requires { at.depth < n }
    ensures { result ≡ step_of n work.now at.row at.depth }
{
    match named(work, at.row, CHILD, at.depth + 1) {
        Some(child) if child.depth < n => Some(child),
        _ => climb(work, at),
    }
}

// Writes row k: two words, as a C host reads them.
fn put_row(rows: &mut [u32], k: u32, row: u32, level: u32)
    requires { 2 * k + 1 < length rows.old }
    ensures { rows.new ≡ set (set rows.old (2 * k) row) (2 * k + 1) level }
{
    let i = 2 * (k as usize);
    rows[i] = row;
    rows[i + 1] = level;
}

// Writes the rows that the lists give, and says how many.
fn walk(n: u32, rows: &mut [u32], work: &[u32]) -> u32
    requires { 2 * n ≤ length rows.old }
    ensures { Walked n rows.old work.now rows.new result }
{
    let mut at = named(work, 0, TOP, 0);
    for k in 0..n {
        let Some(v) = at else {
            return k;
        };
        put_row(rows, k, v.row, v.depth + 1);
        at = step(n, work, v);
    }
    n
}

fn write_rows(n: u32, rows: &mut [u32], work: &mut [u32]) -> u32
    requires { (2 * n ≤ length rows.old) × (4 * n ≤ length work.old) }
    ensures { Wrote n rows.old work.old rows.new work.new result }
{
    empty_lists(n, work);
    link_rows(n, work);
    walk(n, rows, work)
}

// The rows of the outline of n activities: row and level of each, with zeros behind, and zeros in work. Word 4 * i of work names the parent
// of activity i; 0xFFFFFFFF, or any other row out of range, stands for none. Says how many rows there are.
fn outline_rows(n: u32, rows: &mut [u32], work: &mut [u32]) -> u32
    requires { (2 * n ≤ length rows.old) × (4 * n ≤ length work.old) }
    ensures { Outlined n rows.old work.old rows.new work.new result }
{
    let count = write_rows(n, rows, work);
    fill_from(rows, 2 * (count as usize), 0);
    work.fill(0);
    count
}

// Whether rows or work has less than n activities need: two tests, as the order of pairs asks for the second only where the first are equal.
fn is_short(n: u32, rows: usize, work: usize) -> bool
    ensures { result ≡ (ltb rows (2 * n) || ltb work (4 * n)) }
{
    (rows < 2 * (n as usize)) | (work < 4 * (n as usize))
}

// The outline of a model's bytes: row and level of each activity, with zeros behind, and zeros in work; zeros alone where there are no rows to give.
pub fn outline(s: &[u8], rows: &mut [u32], work: &mut [u32]) -> Result<u32, Refusal>
    ensures { Gives s.now rows.old work.old rows.new work.new result }
{
    let counts = take_counts(s);
    let places = walk_model(s, counts, work);
    let refusal = match sections_of(s.len(), counts, places) {
        None => Refusal::NoModel,
        Some(m) if is_short(m.activities.count, rows.len(), work.len()) => Refusal::NoRoom,
        Some(m) => return Ok(outline_rows(m.activities.count, rows, work)),
    };
    rows.fill(0);
    work.fill(0);
    Err(refusal)
}
