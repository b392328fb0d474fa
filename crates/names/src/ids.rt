// Which ids are taken, by tables in lent words, so that a new id asks no record before it but those of its chain. One table has the rows by their ids,
// and for each row the byte where its record stands; the id is the text there. The other has them by the texts that they wanted, and for each row how
// many `*` its id has behind that text, so that the next of the same text begins behind them. No maps: there is no heap.
// A row or a word is made a place by `as usize`, which has no From<u32>.
ghost use Rattle.std.specs.Prelude.{◌≡◌, ◌%◌, ◌^◌, length};
ghost use Rattle.pack.specs.Value.{starred_by};
ghost use Rattle.names.specs.Ids.{ids_of, no_ids, noted, id_at, taken_in, stars_from, behind, free_in, ids_for, begun, end_ids, starred_in, place_in, noted_by};

use crate::records::{free_stars, place_of_row, raw_text};
use crate::stars::same_starred;
use bits::Place;
use index::Table;
use model::records::Kind;

#[derive(Clone, Copy, Debug, PartialEq, Eq)]
pub struct Ids {
    pub ids: Table,
    pub wanted: Table,
}

// ---- both tables

// Tables of so many rows in the words from a place on, where there is room for both.
fn ids_at(len: usize, at: usize, rows: u32) -> Option<Ids>
    ensures { result ≡ ids_of len at rows }
{
    let ids = index::table_at(len, at, rows)?;
    let wanted = index::table_at(len, at + 3 * (rows as usize), rows)?;
    Some(Ids { ids, wanted })
}

// One more, unless there are that many; an `if` says that plainer than a sum with `u32::from`.
fn behind(stars: u32, count: u32) -> u32
    ensures { result ≡ behind stars count }
{
    if stars < count { stars + 1 } else { stars }
}

impl Ids {
    // Empties both.
    fn clear(self, words: &mut [u32])
        ensures { words.new ≡ no_ids words.old self }
    {
        self.ids.clear(words);
        self.wanted.clear(words);
    }

    // Puts a row into both: its id is the wanted text with so many `*`, and stands at a byte.
    fn note(self, words: &mut [u32], row: u32, wanted: &[u8], stars: u32, place: u32)
        ensures { words.new ≡ noted words.old self row wanted.now stars place }
    {
        let id = index::hash_starred(wanted, stars);
        self.ids.put(words, row, id, place);
        let hash = index::hash_of(wanted);
        self.wanted.put(words, row, hash, stars);
    }

    // The id of a row, as it stands in the buffer.
    fn id_of<'a>(self, out: &'a [u8], words: &[u32], row: u32) -> &'a [u8]
        ensures { result.now ≡ id_at out.now words.now self row }
    {
        let byte = self.ids.place(words, row) as usize;
        raw_text(out, Place { byte, bit: 0 })
    }

    // Whether a text with so many `*` is the id of a row.
    fn is_taken(self, out: &[u8], words: &[u32], wanted: &[u8], stars: u32) -> bool
        ensures { result ≡ taken_in out.now words.now self wanted.now stars }
    {
        self.ids
            .chain(words, index::hash_starred(wanted, stars))
            .any(|r| same_starred(wanted, stars, self.id_of(out, words, r), 0))
    }

    // The stars behind those of the last row that wanted a text, none where no row did.
    fn stars_from(self, out: &[u8], words: &[u32], count: u32, wanted: &[u8]) -> u32
        ensures { result ≡ stars_from out.now words.now self count wanted.now }
    {
        self.wanted
            .chain(words, index::hash_of(wanted))
            .find(|r| {
                let stars = self.wanted.place(words, *r);
                same_starred(wanted, stars, self.id_of(out, words, *r), 0)
            })
            .map_or(0, |r| behind(self.wanted.place(words, r), count))
    }

    // How many `*` a text needs so that it is the id of none of so many rows.
    fn free(self, out: &[u8], words: &[u32], count: u32, wanted: &[u8]) -> u32
        ensures { result ≡ free_in out.now words.now self count wanted.now }
    {
        let first = self.stars_from(out, words, count, wanted);
        (first..count)
            .find(|stars| !self.is_taken(out, words, wanted, *stars))
            .unwrap_or(first.max(count))
    }
}

// ---- the ids of a section that is written, with tables or with none

// Tables for a section that begins at p in a buffer of so many bytes, none noted yet: where there is room in the words from a place on, each record begins
// at a whole byte, and 32 bits hold where.
pub fn ids_for(len: usize, p: Place, words: &mut [u32], at: usize, rows: u32) -> Option<Ids>
    ensures { (result ≡ ids_for len p (length words.old) at rows) × (words.new ≡ begun words.old result) }
{
    if p.bit != 0 || u32::try_from(len).is_err() {
        return None;
    }
    let ids = ids_at(words.len(), at, rows)?;
    ids.clear(words);
    Some(ids)
}

// Where the words behind them begin, the place itself where there are none.
pub fn end_of_ids(ids: Option<Ids>, at: usize, len: usize) -> usize
    ensures { result ≡ end_ids ids at len }
{
    ids.map_or(at, |t| index::end_of(Some(t.wanted), len))
}

// How many `*` an id needs that is wanted for the row at p: by the tables, or by a look at all records where these have no words for so many. The section
// begins at `start`. Once the room is spent nothing is tried.
// Start and tables go side by side, here and in `place_in`: each section has them in a struct of its own, that its clauses name. The kind is a value: a
// caller may have it only as it runs.
pub fn stars_for(
    out: &[u8],
    kind: Kind,
    start: Place,
    p: Place,
    words: &[u32],
    ids: Option<Ids>,
    row: u32,
    wanted: &[u8],
) -> u32
    ensures { starred_by wanted.now result ≡ starred_in kind out.now start p words.now ids row wanted.now }
{
    if !bits::inside(out.len(), p) {
        return 0;
    }
    // One way needs the words, the other the kind: a `match`, as in `row_with` of rows.
    match ids {
        Some(t) if row <= t.ids.rows => t.free(out, words, row, wanted),
        _ => free_stars(out, start, kind, row, wanted),
    }
}

// Where the record of a row stands among so many, likewise.
pub fn place_in(
    out: &[u8],
    kind: Kind,
    start: Place,
    words: &[u32],
    ids: Option<Ids>,
    count: u32,
    row: u32,
) -> Place
    ensures { result ≡ place_in kind out.now start words.now ids count row }
{
    // as in `stars_for`
    match ids {
        Some(t) if count <= t.ids.rows => Place {
            byte: t.ids.place(words, row) as usize,
            bit: 0,
        },
        _ => place_of_row(out, start, kind, row as usize),
    }
}

// Notes the id of a row: a text with so many `*`, that stands at p. By `as`: 32 bits hold where records stand, or there are no tables.
pub fn note_stars(
    words: &mut [u32],
    ids: Option<Ids>,
    row: u32,
    wanted: &[u8],
    stars: u32,
    p: Place,
)
    ensures { words.new ≡ noted_by words.old ids row wanted.now stars (p.byte % 2 ^ 32) }
{
    if let Some(t) = ids {
        t.note(words, row, wanted, stars, (p.byte % 4294967296) as u32);
    }
}
