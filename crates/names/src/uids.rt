// Calendars by their UIDs, from a table in lent words. The rows are the calendars in the order in which they are built, from the last to the first, so
// that the first one with a UID is found: its UID by its hash, and where its element stands in the tree. Behind the table there is a word for each row, and
// one more, for what is to be noted of them. A row or a word is made a place by `as usize`, which has no From<u32>. The words and their table go side by
// side, as in `rows`.
ghost use Rattle.std.specs.Prelude.{◌≡◌, suc, ◌+◌, ◌-◌, ◌≤◌, max, length, IfSome};
ghost use Rattle.definition.specs.Base.{◌>>=◌ as bind};
ghost use Rattle.index.specs.Law.{Fits};
ghost use Rattle.rows.specs.Rows.{calendar_meaning};
ghost use Rattle.tree.specs.Root.{root_at};
ghost use Rattle.names.specs.Named.{name_at};
ghost use Rattle.names.specs.Uids.{how_many, made_in, names_end, Stays, Ripe, Stand, Chained, MakesUids, row_found, calendar_by};

use crate::calendars::count_calendars;
use index::Table;
use tree::{Element, MOST_ELEMENTS, Root};

// Where the word of a row's name stands, from where the table begins. That of the row past the last is the elapsed calendar's.
pub(crate) fn name_at(t: Table, row: u32) -> usize
    ensures { t.at + result ≡ name_at t row }
{
    3 * (t.rows as usize) + row as usize
}

// ---- the table is made

// Room for a table of all calendars, 4 words for each and one more, where 32 bits hold each position in the tree.
fn room_for(root: Root<'_>, len: usize, at: usize) -> Option<Table>
    ensures { result ≡ made_in root.entry.tree.now (root_at root.entry) len at }
{
    u32::try_from(root.tree.len()).ok()?;
    let n = count_calendars(root);
    if MOST_ELEMENTS < n {
        return None;
    }
    // One row at least: a table of no rows would be none. By `as`: 5,000,000 are the most here, so that `try_from` would have an error that cannot occur.
    let rows = (n as u32).max(1);
    if len <= rows as usize {
        return None;
    }
    index::table_at(len - (rows as usize) - 1, at, rows)
}

// Where each calendar stands. Answers how many there are.
fn note_places(root: Root<'_>, words: &mut [u32], t: Table) -> u32
    requires { Ripe root.tree.now (root_at root) t (length words.old) }
    ensures { (result ≡ how_many (root_at root.entry)) × Stand root.entry.tree.now (root_at root.entry) t 0 words.new × Stays t.at (names_end t) words.old words.new }
{
    // The row is counted by hand: it falls from the last one on, and where it ends gives the answer.
    let mut left = t.rows;
    for e in rows::calendars(root) {
        left -= 1;
        // `as`, as in `rows`: 32 bits hold each position.
        index::set_word(
            words,
            t.at,
            2 * (t.rows as usize) + left as usize,
            e.at as u32,
        );
    }
    t.rows - left
}

// The first so many rows into the chains of their UIDs.
fn chain_rows(tree: &[u8], words: &mut [u32], t: Table, count: u32)
    requires { Fits t (length words.old) × (count ≤ t.rows) }
    ensures { Chained tree.now t count words.old words.new }
{
    t.clear(words);
    for row in 0..count {
        let place = t.place(words, row);
        let at = place as usize;
        let hash = index::hash_of(Element { tree, at }.text_of(b"UID"));
        t.put(words, row, hash, place);
    }
}

// A table, and where the words behind it begin: a position and no slice, as the words are lent anew at each call.
#[derive(Clone, Copy, Debug, PartialEq, Eq)]
pub struct CalendarTable {
    pub table: Option<Table>,
    pub end: usize,
}

// A table of the calendars in the words from a place on, where there is room for it.
pub fn index_uids(root: Root<'_>, words: &mut [u32], at: usize) -> CalendarTable
    ensures { MakesUids root.entry.tree.now (root_at root.entry) at words.old words.new result }
{
    let Some(t) = room_for(root, words.len(), at) else {
        return CalendarTable {
            table: None,
            end: at,
        };
    };
    let count = note_places(root, words, t);
    chain_rows(root.tree, words, t, count);
    CalendarTable {
        table: Some(t),
        end: t.at + name_at(t, t.rows) + 1,
    }
}

// ---- a calendar by it

// The row in the order in which they are built.
fn order_row(rows: u32, row: u32) -> usize
    ensures { result ≡ rows - suc row }
{
    rows.saturating_sub(1).saturating_sub(row) as usize
}

fn in_order<'a>(
    root: Root<'a>,
    words: &[u32],
    t: Table,
    row: Option<u32>,
) -> Option<(usize, Element<'a>)>
    ensures is { calendar_meaning result ≡ bind row (row_found root.entry.tree.now words.now t) }
    ensures there { IfSome result (λ x. x.1.tree.now ≡ root.entry.tree.now) }
{
    let r = row?;
    Some((order_row(t.rows, r), root.part(t.place(words, r) as usize)))
}

// The first calendar with a UID in the order in which they are built, by a table in the words; by a scan where there is none.
pub fn calendar_by<'a>(
    root: Root<'a>,
    words: &[u32],
    table: Option<Table>,
    uid: &[u8],
) -> Option<(usize, Element<'a>)>
    ensures is { calendar_meaning result ≡ calendar_by root.entry.tree.now (root_at root.entry) words.now table uid.now }
    ensures there { IfSome result (λ x. x.1.tree.now ≡ root.entry.tree.now) }
{
    // One way needs the words, the other the tree alone: as in `row_with` of rows.
    match table {
        Some(t) => in_order(root, words, t, rows::seek(root.tree, words, t, uid)),
        None => rows::calendar_with(root, uid),
    }
}
