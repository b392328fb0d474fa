// All calendars. What is right is said in the crate definition, specs/Calendar.antt and specs/Read.antt.
ghost use Rattle.std.specs.Prelude.{◌≡◌, ◌%◌, ◌&&◌, length, ◌==◌, nat_le};
ghost use Rattle.bits.specs.Clear.{cleared};
ghost use Rattle.definition.specs.Format.{whole};
ghost use Rattle.definition.specs.Pack.{calendar};
ghost use Rattle.definition.specs.Refusal.{most_elements};
ghost use Rattle.definition.specs.Task.{context_of};
ghost use Rattle.definition.specs.Calendar.{calendar_elements};
ghost use Rattle.definition.specs.Read.{calendars_of};
ghost use Rattle.tree.specs.Place.{meaning};
ghost use Rattle.tree.specs.Root.{root_at};
ghost use Rattle.pack.specs.Writes.{WritesIf};
ghost use Rattle.calendars.specs.Built.{AtRow, BaseOf, AddsOne, AddsEach, AddsDefault, PutsBuilt, Turns, TurnsMain, AddsElapsed};

use crate::plain::{EVERY_DAY, WHOLE_DAY, WORKDAYS, put_plain_calendar};
use crate::record::Entry;
use bits::{PAST, Place};
use index::Table;
use model::parts::CalendarPlaces;
use model::records::Kind;
use names::Ids;
use pack::Records;
use tree::{Element, MOST_ELEMENTS, Root};

// ---- the section

// The project, where its calendars begin in the buffer, the calendars by their UIDs and the names that are taken in lent words, and where the words behind
// them begin. Places in the words and no slices: they are lent anew to each record.
#[derive(Clone, Copy)]
pub(crate) struct Section<'a> {
    pub root: Root<'a>,
    pub start: Place,
    pub uids: Option<Table>,
    pub ids: Option<Ids>,
    pub from: usize,
}

impl Section<'_> {
    // The calendar of a row, if it is one of the first `count`.
    fn base_at(self, out: &[u8], words: &[u32], count: u32, row: usize) -> Option<CalendarPlaces>
        ensures { AtRow row self.entry.ids self.entry.start count out.now words.now result }
    {
        let row = u32::try_from(row).ok()?;
        if count <= row {
            return None;
        }
        let p = names::place_in(
            out,
            Kind::Calendars,
            self.start,
            words,
            self.ids,
            count,
            row,
        );
        Some(model::parts::calendar_places(out, p))
    }

    // The first calendar with the UID of a Calendar's base, if it is one of the first `count`.
    fn base_of(
        self,
        out: &[u8],
        words: &[u32],
        count: u32,
        e: Element<'_>,
    ) -> Option<CalendarPlaces>
        ensures { BaseOf self.entry (meaning e.entry) count out.now words.now result }
    {
        if !calendar::has_base(e) {
            return None;
        }
        let uid = e.text_of(b"BaseCalendarUID");
        let (row, _) = names::calendar_by(self.root, words, self.uids, uid)?;
        self.base_at(out, words, count, row)
    }

    // One calendar more.
    fn put_one(self, out: &mut [u8], words: &mut [u32], done: Records, e: Element<'_>) -> Records
        ensures { AddsOne self.entry (meaning e.entry) out.old words.old done out.new words.new result }
    {
        let count = done.count;
        let p = done.next;
        let name = names::calendar_text(e);
        let stars = names::stars_for(
            out,
            Kind::Calendars,
            self.start,
            p,
            words,
            self.ids,
            count,
            name,
        );
        let entry = Entry {
            calendar: e,
            base: self.base_of(out, words, count, e),
            stars,
        };
        let next = entry.put(out, p, words, self.from);
        names::note_stars(words, self.ids, count, name, stars, p);
        done.more(next)
    }

    // Those without a base, then the others.
    fn put(self, out: &mut [u8], words: &mut [u32]) -> Records
        ensures { AddsEach self.entry out.old words.old out.new words.new result }
    {
        let mut done = Records::none(self.start);
        for e in rows::calendars(self.root) {
            done = self.put_one(out, words, done, e);
        }
        done
    }
}

// The default calendar where none was built.
fn or_default(out: &mut [u8], done: Records) -> Records
    ensures { AddsDefault out.old done out.new result }
{
    if done.count == 0 {
        let next = put_plain_calendar(out, done.next, b"Standard", WORKDAYS, None);
        return done.more(next);
    }
    done
}

// From a place in the words on, and not in a slice of them, since tables count from the front of the words.
fn put_built(
    out: &mut [u8],
    p: Place,
    root: Root<'_>,
    words: &mut [u32],
    at: usize,
    rows: u32,
) -> Records
    ensures built { PutsBuilt (root_at root.entry) out.old p out.new result }
    ensures kept { cleared at words.new ≡ cleared at words.old }
{
    let made = names::index_uids(root, words, at);
    let ids = names::ids_for(out.len(), p, words, made.end, rows);
    let section = Section {
        root,
        start: p,
        uids: made.table,
        ids,
        from: names::end_of_ids(ids, made.end, words.len()),
    };
    let done = section.put(out, words);
    or_default(out, done)
}

// ---- the main one to the front

// The calendar of a row before those from `start` on.
fn turn(out: &mut [u8], start: Place, row: usize)
    ensures { Turns row start out.old out.new }
{
    // No row is as high, since no calendars are put then; so row + 1 is one too.
    if MOST_ELEMENTS <= row {
        return;
    }
    let m = names::place_of_row(out, start, Kind::Calendars, row);
    let e = names::place_of_row(out, start, Kind::Calendars, row + 1);
    bits::rotate(out, start, m, e);
}

fn turn_main(out: &mut [u8], start: Place, root: Root<'_>)
    ensures { TurnsMain (root_at root.entry) start out.old out.new }
{
    if let Some((row, _)) = rows::main_calendar(root) {
        turn(out, start, row);
    }
}

fn put_elapsed(out: &mut [u8], done: Records, root: Root<'_>) -> Records
    ensures { AddsElapsed (root_at root.entry) out.old done out.new result }
{
    if rows::any_elapsed(root) {
        let next = put_plain_calendar(out, done.next, names::ELAPSED, EVERY_DAY, Some(WHOLE_DAY));
        return done.more(next);
    }
    done
}

// The main calendar, then the others, then the elapsed one where a kept task is elapsed; none where there are more than 5,000,000, or where the
// place is not at a whole byte. The words from `at` on are used, and are 0 in the end.
pub fn put_calendars(
    out: &mut [u8],
    p: Place,
    root: Root<'_>,
    words: &mut [u32],
    at: usize,
) -> Records
    ensures written { WritesIf (nat_le (length (calendar_elements (root_at root.entry))) most_elements && p.bit % 8 == 0) (whole calendar) (calendars_of (context_of (root_at root.entry))) out.old p out.new result }
    ensures clears { words.new ≡ cleared at words.old }
{
    // For proofs alone: says that a tree is bytes.
    rows::are_bytes(root.tree);
    let n = names::count_calendars(root);
    if MOST_ELEMENTS < n || p.bit % 8 != 0 {
        bits::fill_from(words, at, 0);
        return Records::none(PAST);
    }
    // `u32::try_from` would have an error that cannot occur.
    let done = put_built(out, p, root, words, at, n as u32);
    bits::fill_from(words, at, 0);
    turn_main(out, p, root);
    put_elapsed(out, done, root)
}
