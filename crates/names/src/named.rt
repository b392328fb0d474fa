// The name of a calendar by its UID, from a table in lent words: behind that of the UIDs each row has a word for its name in the buffer, 0 where it is
// the main calendar's, else how many `*` it has behind the wanted name, plus 1. A last word is for the elapsed calendar's name.
ghost use Rattle.std.specs.Prelude.{◌≡◌, ◌+◌, ◌^◌, ◌≤◌, ◌<◌, length, IfSome};
ghost use Rattle.definition.specs.Calendar.{elapsed_name};
ghost use Rattle.definition.specs.Text.{Text};
ghost use Rattle.index.specs.Chains.{end_of};
ghost use Rattle.tree.specs.Root.{root_at};
ghost use Rattle.pack.specs.Value.{given_by, starred, name_meaning};
ghost use Rattle.names.specs.Context.{context_at};
ghost use Rattle.names.specs.Named.{name_word, name_by, name_of_row, named_by, named_in, elapsed_in, calendar_name, main_text, NotesName, NamesNoted, Calendars, Makes};
ghost use Rattle.names.specs.Uids.{names_end, Stays, Uids};

use crate::calendars::{CalendarNames, ELAPSED, calendar_text, stars_at};
use crate::stars::same_starred;
use crate::uids::{CalendarTable, index_uids, name_at};
use bits::Place;
use index::Table;
use model::records::{Kind, skip_record};
use pack::Starred;
use tree::{Element, Root};

// ---- the words of the names: numbers, as words are lent. Rows are cast, as usize has no From<u32>.

// The main calendar: its row in the order in which they are built, the name that it wants, and how many `*` its name has behind that.
#[derive(Clone, Copy)]
pub(crate) struct Main<'a> {
    pub row: usize,
    pub name: &'a [u8],
    pub stars: u32,
}

fn word_of(text: &[u8], stars: u32, main: Main<'_>) -> u32
    requires { stars + 1 < 2 ^ 32 }
    ensures { result ≡ name_word (main_text main.entry) text.now stars }
{
    if same_starred(text, stars, main.name, main.stars) {
        return 0;
    }
    stars + 1
}

// The word of a row, counted from the first calendar. The main one's record stands at c, those of the others from q on; answers where the next stands.
// The parameters go side by side, here and in `note_names`: the words are written at each row, and a struct of the others would serve these two alone.
fn note_name(
    out: &[u8],
    c: Place,
    q: Place,
    tree: &[u8],
    words: &mut [u32],
    t: Table,
    row: u32,
    main: Main<'_>,
) -> Place
    requires { row < t.rows }
    ensures { NotesName out.now c q tree.now t row main.entry words.old words.new result }
{
    let r = t.rows - 1 - row;
    let at = t.place(words, r) as usize;
    let e = Element { tree, at };
    let first = row as usize == main.row;
    let p = if first { c } else { q };
    let stars = stars_at(out, p, e);
    let word = word_of(calendar_text(e), stars, main);
    index::set_word(words, t.at, name_at(t, r), word);
    if first {
        return q;
    }
    skip_record(out, q, Kind::Calendars, false)
}

fn note_names(out: &[u8], c: Place, tree: &[u8], words: &mut [u32], t: Table, main: Main<'_>)
    requires { names_end t ≤ length words.old }
    ensures { NamesNoted out.now c tree.now t main.entry t.rows words.old words.new }
{
    let mut q = skip_record(out, c, Kind::Calendars, false);
    for row in 0..t.rows {
        q = note_name(out, c, q, tree, words, t, row, main);
    }
}

impl<'a, 'b> CalendarNames<'a, 'b> {
    // Notes all of them; where there is no calendar, the main one is the default one.
    fn note_all(self, words: &mut [u32], t: Table)
        requires { Uids self.root.tree.now (root_at self.root) t words.old }
        ensures { Calendars self.entry.out.now self.entry.start self.entry.root.tree.now (root_at self.entry.root) t words.new × Stays (end_of t) (names_end t) words.old words.new }
    {
        let Some((row, e)) = rows::main_calendar(self.root) else {
            index::set_word(words, t.at, name_at(t, t.rows), 1);
            return;
        };
        let main = Main {
            row,
            name: calendar_text(e),
            stars: self.stars_of(row, e),
        };
        note_names(self.out, self.start, self.root.tree, words, t, main);
        let elapsed = word_of(ELAPSED, 0, main);
        index::set_word(words, t.at, name_at(t, t.rows), elapsed);
    }

    // The first calendar with a UID and its name, by a scan.
    fn scan(self, uid: &[u8]) -> Option<CalendarName<'a>>
        ensures is { given_by calendar_name result ≡ named_by (context_at self.entry.out.now self.entry.start (root_at self.entry.root)) uid.now }
        ensures there { IfSome result (λ x. x.calendar.tree.now ≡ self.entry.root.tree.now) }
    {
        let (row, calendar) = rows::calendar_with(self.root, uid)?;
        let text = calendar_text(calendar);
        let stars = self.stars_of(row, calendar);
        let stars = self.unless_main(text, stars)?;
        Some(CalendarName { calendar, stars })
    }
}

// A table of the calendars, which stand at `start`, in the words from a place on, where there is room for it.
pub fn index_calendars(
    out: &[u8],
    start: Place,
    root: Root<'_>,
    words: &mut [u32],
    at: usize,
) -> CalendarTable
    ensures { Makes out.now start root.entry.tree.now (root_at root.entry) at words.old words.new result }
{
    let made = index_uids(root, words, at);
    if let Some(t) = made.table {
        CalendarNames { out, root, start }.note_all(words, t);
    }
    made
}

// ---- a calendar and its name

// A calendar, and how many `*` its name has behind its wanted name.
#[derive(Clone, Copy, Debug, PartialEq, Eq)]
pub struct CalendarName<'a> {
    pub calendar: Element<'a>,
    pub stars: u32,
}

impl<'a> CalendarName<'a> {
    // The name.
    pub fn starred(self) -> Starred<'a>
        ensures { starred result ≡ calendar_name self.entry }
    {
        Starred {
            text: calendar_text(self.calendar),
            stars: self.stars,
        }
    }
}

// ---- names by the table. The buffer, the root, the words and their table go side by side, as in `rows`, which says why; the two public functions take root
// and start apart, as their callers have them.

// What a word says of a name.
fn by_word(word: u32) -> Option<u32>
    ensures { (text : Text) → name_meaning text result ≡ name_by text word }
{
    word.checked_sub(1)
}

fn name_of<'a>(
    root: Root<'a>,
    words: &[u32],
    t: Table,
    row: Option<u32>,
) -> Option<CalendarName<'a>>
    ensures is { given_by calendar_name result ≡ name_of_row root.entry.tree.now words.now t row }
    ensures there { IfSome result (λ x. x.calendar.tree.now ≡ root.entry.tree.now) }
{
    let r = row?;
    let stars = by_word(index::word(words, t.at, name_at(t, r)))?;
    let calendar = root.part(t.place(words, r) as usize);
    Some(CalendarName { calendar, stars })
}

// The first calendar with a UID and its name, unless that is the main one's, by a table in the words; by a scan where there is none. The calendars stand
// at `start`.
pub fn calendar_in<'a>(
    out: &[u8],
    start: Place,
    root: Root<'a>,
    words: &[u32],
    table: Option<Table>,
    uid: &[u8],
) -> Option<CalendarName<'a>>
    ensures is { given_by calendar_name result ≡ named_in (context_at out.now start (root_at root.entry)) root.entry.tree.now words.now table uid.now }
    ensures there { IfSome result (λ x. x.calendar.tree.now ≡ root.entry.tree.now) }
{
    // One way needs the words, the other the buffer: a trait over both is no plainer.
    match table {
        Some(t) => name_of(root, words, t, rows::seek(root.tree, words, t, uid)),
        None => CalendarNames { out, root, start }.scan(uid),
    }
}

// The elapsed calendar's name, unless it is the main one's, by the same table.
pub fn elapsed_in(
    out: &[u8],
    start: Place,
    root: Root<'_>,
    words: &[u32],
    table: Option<Table>,
) -> Option<u32>
    ensures { name_meaning elapsed_name result ≡ elapsed_in (context_at out.now start (root_at root.entry)) words.now table }
{
    // as in `calendar_in`
    match table {
        Some(t) => by_word(index::word(words, t.at, name_at(t, t.rows))),
        None => CalendarNames { out, root, start }.elapsed_named(),
    }
}
