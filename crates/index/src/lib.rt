// Chains of rows by bucket in lent words, so that the last row with a key is found without a look at all rows. A table of n rows is 3n words: a
// head for each of n buckets, then for each row the one before it in its chain, then for each row a place, where what it stands for is found. A head
// names the last row of its bucket: 0 for none, else the row plus 1, as does the word of a row. Words past the end read as 0 and store nothing.
// What the words mean is said in specs/. The words are lent, as there is no heap for a map, and a column of heads, of rows and of places stands in
// them. Casts by `as`: 32 bits to an index and a length to 64, for which there is no From, and `try_from` would need a case for what never is; and the
// low 32 bits of a hash.
#![tactic(auto)]

ghost use Rattle.std.specs.Prelude.{◌≡◌, ◌+◌, ◌-◌, ◌*◌, ◌%◌, ◌^◌, ◌≤◌, ◌<◌, min, ◌++◌, length, get_or, set, replicate};
ghost use Rattle.std.specs.Iterator.{YieldsFirst, item_count};
ghost use Rattle.index.specs.Hash.{quad_at, mixed, hash_after, hash_of};
ghost use Rattle.laws.specs.Stars.{starred_by};
ghost use Rattle.index.specs.Chains.{zeros, added, first_of, next_of, place_of, chain, chain_of, table_of, row_below, end_in, rows_left};

// Where its words begin, and how many rows there may be. A span of marks and a section of a model are numbers of the same kinds and mean other things.
#[derive(Clone, Copy, Debug, PartialEq, Eq)]
pub struct Table {
    pub at: usize,
    pub rows: u32,
}

const LOW: u64 = 0x1_0000_0000;

// Four bytes as a number, the first the least.
fn quad(s: &[u8], i: usize) -> u32
    requires { i + 4 ≤ length s.now }
    ensures { result ≡ quad_at s.now i }
{
    u32::from_le_bytes([s[i], s[i + 1], s[i + 2], s[i + 3]])
}

// A byte of a text with so many `*` behind it; past its end 0 and no Option, as the hash takes zeros there. Text and number go side by side in the
// four functions of the hash: names alone has stars, and has them apart from the text, so that a struct would be made at each call and taken apart in
// each body. A text is bytes: whether it is UTF-8 is for others to test.
fn starred(s: &[u8], stars: u32, i: usize) -> u8
    ensures { result ≡ get_or (starred_by s.now stars) i 0 }
{
    match s.get(i) {
        Some(b) => *b,
        None if i - s.len() < stars as usize => b'*',
        None => 0,
    }
}

// Four of its bytes.
fn starred_quad(s: &[u8], stars: u32, i: usize) -> u32
    requires { i + 4 < 2 ^ 64 }
    ensures { result ≡ quad_at (starred_by s.now stars) i }
{
    if i + 4 <= s.len() {
        return quad(s, i);
    }
    let a = starred(s, stars, i);
    let b = starred(s, stars, i + 1);
    let c = starred(s, stars, i + 2);
    let d = starred(s, stars, i + 3);
    u32::from_le_bytes([a, b, c, d])
}

// Eight bytes more. Each half of the state is multiplied by a number of 32 bits, so that nothing is lost.
fn mix(h: u64, a: u32, b: u32) -> u64
    ensures { result ≡ mixed h a b }
{
    let x = (h % LOW) ^ u64::from(a);
    let y = (h / LOW) ^ u64::from(b);
    let z = (x * 2654435761) ^ (y * 2246822519);
    z ^ (z / LOW)
}

// The first so many times eight bytes.
fn mix_all(s: &[u8], stars: u32, rounds: usize) -> u64
    requires { 8 * rounds ≤ length s.now + stars }
    ensures { result ≡ hash_after (starred_by s.now stars) rounds }
{
    let mut h = (s.len() + stars as usize) as u64;
    for k in 0..rounds {
        h = mix(
            h,
            starred_quad(s, stars, 8 * k),
            starred_quad(s, stars, 8 * k + 4),
        );
    }
    h
}

// The hash of a text with so many `*` behind it.
pub fn hash_starred(s: &[u8], stars: u32) -> u32
    ensures { result ≡ hash_of (s.now ++ replicate stars 42) }
{
    let n = s.len() + (stars as usize);
    let h = mix_all(s, stars, n.saturating_sub(1) / 8);
    let a = starred_quad(s, stars, n.saturating_sub(8));
    let b = starred_quad(s, stars, n.saturating_sub(4));
    (mix(h, a, b) % LOW) as u32
}

// That of a text alone, a name for no stars: its many callers have none.
pub fn hash_of(s: &[u8]) -> u32
    ensures { result ≡ hash_of s.now }
{
    hash_starred(s, 0)
}

// A word from a place on; 0 past the end and no Option, as 0 is an empty head and slot.
pub fn word(words: &[u32], from: usize, i: usize) -> u32
    ensures { result ≡ get_or words.now (from + i) 0 }
{
    let Some(k) = from.checked_add(i) else {
        return 0;
    };
    words.get(k).copied().unwrap_or(0)
}

// By index: what is written through a slice's `get_mut` is not known to a proof.
pub fn set_word(words: &mut [u32], from: usize, i: usize, value: u32)
    ensures { words.new ≡ set words.old (from + i) value }
{
    let Some(k) = from.checked_add(i) else {
        return;
    };
    if k < words.len() {
        words[k] = value;
    }
}

// With no bucket the hash itself, as the remainder is defined.
fn bucket(hash: u32, buckets: u32) -> usize
    ensures { result ≡ hash % buckets }
{
    hash.checked_rem(buckets).unwrap_or(hash) as usize
}

// The row that a word names, if it is below a bound.
fn row_below(bound: u32, word: u32) -> Option<u32>
    ensures { result ≡ row_below bound word }
{
    word.checked_sub(1).filter(|r| *r < bound)
}

// A table of so many rows in the words from a place on. It needs a row at least, and its words.
pub fn table_at(len: usize, at: usize, rows: u32) -> Option<Table>
    ensures { result ≡ table_of len at rows }
{
    if rows == 0 || len.saturating_sub(at) < 3 * (rows as usize) {
        return None;
    }
    Some(Table { at, rows })
}

// How many of n words from a place on there are.
pub fn reach(len: usize, from: usize, n: usize) -> usize
    ensures { result ≡ min n (len - from) }
{
    len.saturating_sub(from).min(n)
}

// Zeros in n words from a place on.
pub fn clear_words(words: &mut [u32], from: usize, n: usize)
    ensures { words.new ≡ zeros words.old from n }
{
    let m = reach(words.len(), from, n);
    if 0 < m {
        words[from..from + m].fill(0);
    }
}

impl Table {
    // Empties all chains.
    pub fn clear(self, words: &mut [u32])
        ensures { words.new ≡ zeros words.old self.at self.rows }
    {
        clear_words(words, self.at, self.rows as usize);
    }

    // Puts a row in front of the chain of its bucket, with its place; nothing where the table has no such row.
    pub fn put(self, words: &mut [u32], row: u32, hash: u32, place: u32)
        ensures { words.new ≡ added words.old self row hash place }
    {
        if self.rows <= row {
            return;
        }
        let n = self.rows as usize;
        let r = row as usize;
        let b = bucket(hash, self.rows);
        let head = word(words, self.at, b);
        set_word(words, self.at, n + r, head);
        set_word(words, self.at, b, row + 1);
        set_word(words, self.at, 2 * n + r, place);
    }

    // The last row of a hash's bucket.
    pub fn first(self, words: &[u32], hash: u32) -> Option<u32>
        ensures { result ≡ first_of words.now self hash }
    {
        let b = bucket(hash, self.rows);
        let head = word(words, self.at, b);
        row_below(self.rows, head)
    }

    // The row before a row in its chain. It is smaller, whatever the words hold, so that every walk ends. `first` reads another word, with another bound.
    pub fn next(self, words: &[u32], row: u32) -> Option<u32>
        ensures { result ≡ next_of words.now self row }
    {
        let w = word(words, self.at, self.rows as usize + row as usize);
        row_below(row, w)
    }

    // All rows of a hash's bucket, the last first.
    pub fn chain<'a>(self, words: &'a [u32], hash: u32) -> Chain<'a>
        ensures { rows_left result ≡ chain_of words.now self hash }
    {
        self.chain_from(words, self.first(words, hash))
    }

    // The rows of a chain from one on; none from none.
    pub fn chain_from<'a>(self, words: &'a [u32], row: Option<u32>) -> Chain<'a>
        ensures { rows_left result ≡ chain words.now self row }
    {
        Chain {
            table: self,
            words,
            next: row,
        }
    }

    // The place of a row.
    pub fn place(self, words: &[u32], row: u32) -> u32
        ensures { result ≡ place_of words.now self row }
    {
        word(words, self.at, 2 * (self.rows as usize) + row as usize)
    }
}

// The rows of a chain from one on.
#[derive(Clone, Copy, Debug, PartialEq, Eq)]
pub struct Chain<'a> {
    table: Table,
    words: &'a [u32],
    next: Option<u32>,
}

impl<'a> Iterator for Chain<'a> {
    type Item = u32;

    ghost next_gives = { YieldsFirst rows_left };

    ghost remaining = { item_count rows_left };

    fn next(&mut self) -> Option<u32> {
        let r = self.next?;
        self.next = self.table.next(self.words, r);
        Some(r)
    }
}

// Where a table ends, no more than the length of the words; 0 where there is none, so that what comes next begins at the start.
pub fn end_of(made: Option<Table>, len: usize) -> usize
    ensures { result ≡ min (end_in made) len }
{
    let Some(t) = made else {
        return 0;
    };
    t.at.saturating_add(3 * (t.rows as usize)).min(len)
}
