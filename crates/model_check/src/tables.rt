// Keys in tables of lent words: each row's key by its hash, and the byte at which its record stands. Casts by `as`: the low 32 bits of a row and of a
// byte's place, by a remainder since `as` asks that the value fits, and a word to an index, for which there is no From.
// KeyTable is a premise and no invariant of KeyIndex: a table is filled before it is known that the bytes decode, so there may be no keys to speak of.
ghost use Rattle.std.specs.Prelude.{◌≡◌, List, map, ℕ, ◌<◌, ◌≤◌, ◌^◌, length, get_or, take};
ghost use Rattle.definition.specs.Base.{given, find, some?};
ghost use Rattle.definition.specs.Check.{distinct};
ghost use Rattle.index.specs.Chains.{up_to, chain};
ghost use Rattle.model.specs.Sections.{Holds};
ghost use Rattle.model_check.specs.Kinds.{Item, format_of};
ghost use Rattle.model_check.specs.Keys.{Key, key_of, no_key, same_key, hash_key, Keyed};
ghost use Rattle.model_check.specs.Tables.{Emptied, EmptyAt, KeyTable, Put, TableFor};

use crate::keys::{KeyBytes, Records, distinct, has_key, key_at, next_record};
use bits::Place;
use index::Table;
use model::Section;

// That of assignments is over texts in a buffer that is being written, and adds the row as it is: what each table holds is said by its own.
fn hash_key(key: KeyBytes) -> u32
    ensures { result ≡ hash_key (key_of key.entry) }
{
    ((key.row % 4294967296) as u32)
        .wrapping_mul(2654435761)
        .wrapping_add(index::hash_of(key.name))
}

// Puts the record of a row, at a place, into a table by its key. The low 32 bits are its byte: a model of more bytes has no table.
pub(crate) fn put_key<K: Records>(s: &[u8], p: Place, row: u32, words: &mut [u32], t: Table)
    ensures { Put K.LEAD s.now p row t words.old words.new }
{
    let byte = (p.byte % 4294967296) as u32;
    t.put(words, row, hash_key(key_at::<K>(s, p)), byte);
}

// Puts the records of a section into an empty table of as many rows. The walk of walk.rt tests each besides: what the two share is `put_key`.
fn fill<K: Records>(s: &[u8], x: Section, words: &mut [u32], t: Table)
    ensures { length s.now < 2 ^ 32 → t.rows ≡ x.count → Emptied t words.old → (of : Item K.KIND → Key) → Keyed K.KIND K.LEAD s.now of → (xs : List (Item K.KIND)) (end : ℕ) → Holds (format_of K.KIND) s.now x xs end → KeyTable K.LEAD s.now (map of xs) t words.new }
{
    let mut q = Place { byte: x.at, bit: 0 };
    for i in 0..t.rows {
        put_key::<K>(s, q, i, words, t);
        q = next_record::<K>(s, q);
    }
}

// An empty table of so many rows in the words from a place on, where there is room for it and 32 bits hold each position in the model.
pub(crate) fn empty_table(s: &[u8], words: &mut [u32], at: usize, rows: u32) -> Option<Table>
    ensures { EmptyAt s.now at rows words.old words.new result }
{
    u32::try_from(s.len()).ok()?;
    let t = index::table_at(words.len(), at, rows)?;
    t.clear(words);
    Some(t)
}

// A table of the keys of a section.
pub(crate) fn index_keys<K: Records>(s: &[u8], x: Section, words: &mut [u32]) -> Option<Table>
    ensures { (of : Item K.KIND → Key) → Keyed K.KIND K.LEAD s.now of → (xs : List (Item K.KIND)) (end : ℕ) → Holds (format_of K.KIND) s.now x xs end → TableFor K.LEAD s.now (map of xs) result words.new }
{
    let t = empty_table(s, words, 0, x.count)?;
    fill::<K>(s, x, words, t);
    Some(t)
}

// A table of keys that is filled, and the words that hold it, for those that only read them: those that fill a table write the words, and have both
// apart.
#[derive(Clone, Copy)]
pub(crate) struct KeyIndex<'a> {
    pub(crate) table: Table,
    pub(crate) words: &'a [u32],
}

// Whether a row of a chain has a key.
fn chain_has_key<K: Records>(
    s: &[u8],
    index: KeyIndex<'_>,
    from: Option<u32>,
    key: KeyBytes,
) -> bool
    ensures { (ks : List Key) → KeyTable K.LEAD s.now ks index.entry.table index.entry.words.now → up_to from ≤ length ks → result ≡ given (find (λ (r : ℕ). same_key (key_of key.entry) (get_or ks r no_key)) (chain index.entry.words.now index.entry.table from)) }
{
    let KeyIndex { table, words } = index;
    table.chain_from(words, from).any(|r| {
        let byte = table.place(words, r) as usize;
        has_key::<K>(s, Place { byte, bit: 0 }, key)
    })
}

// Whether a record in the table has a key.
pub(crate) fn table_has_key<K: Records>(s: &[u8], index: KeyIndex<'_>, key: KeyBytes) -> bool
    ensures { (ks : List Key) → KeyTable K.LEAD s.now ks index.entry.table index.entry.words.now → result ≡ some? (same_key (key_of key.entry)) ks }
{
    let from = index.table.first(index.words, hash_key(key));
    chain_has_key::<K>(s, index, from, key)
}

// Whether a record before that of a row has its key.
fn has_twin<K: Records>(s: &[u8], index: KeyIndex<'_>, own: u32) -> bool
    ensures { (ks : List Key) → KeyTable K.LEAD s.now ks index.entry.table index.entry.words.now → own < length ks → result ≡ some? (same_key (get_or ks own no_key)) (take own ks) }
{
    let from = index.table.next(index.words, own);
    if from.is_none() {
        return false;
    }
    let byte = index.table.place(index.words, own) as usize;
    let key = key_at::<K>(s, Place { byte, bit: 0 });
    chain_has_key::<K>(s, index, from, key)
}

// Whether no two records in the table have the same key. The last row first: where all rows stand in one chain, and the last two have the same key, one
// look tells.
fn table_distinct<K: Records>(s: &[u8], index: KeyIndex<'_>) -> bool
    ensures { (ks : List Key) → KeyTable K.LEAD s.now ks index.entry.table index.entry.words.now → result ≡ distinct same_key ks }
{
    for i in (0..index.table.rows).rev() {
        if has_twin::<K>(s, index, i) {
            return false;
        }
    }
    true
}

// Whether no two records of a section have the same key, by a table in the words; by scans where there is none: a `match`, as in rules.rt.
pub(crate) fn all_distinct<K: Records>(s: &[u8], x: Section, words: &mut [u32]) -> bool
    ensures { (of : Item K.KIND → Key) → Keyed K.KIND K.LEAD s.now of → (xs : List (Item K.KIND)) (end : ℕ) → Holds (format_of K.KIND) s.now x xs end → result ≡ distinct (λ (x y : Item K.KIND). same_key (of x) (of y)) xs }
{
    match index_keys::<K>(s, x, words) {
        Some(table) => table_distinct::<K>(s, KeyIndex { table, words }),
        None => distinct::<K>(s, x),
    }
}

// The same, by a table that is filled; by another one where there is none.
pub(crate) fn distinct_in<K: Records>(
    s: &[u8],
    x: Section,
    words: &mut [u32],
    made: Option<Table>,
) -> bool
    ensures { (of : Item K.KIND → Key) → Keyed K.KIND K.LEAD s.now of → (xs : List (Item K.KIND)) (end : ℕ) → Holds (format_of K.KIND) s.now x xs end → TableFor K.LEAD s.now (map of xs) made words.old → result ≡ distinct (λ (x y : Item K.KIND). same_key (of x) (of y)) xs }
{
    match made {
        Some(table) => table_distinct::<K>(s, KeyIndex { table, words }),
        None => all_distinct::<K>(s, x, words),
    }
}
