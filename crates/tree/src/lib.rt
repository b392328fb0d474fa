// A lent tree: elements in document order, a record each.
// Functions take bytes and a position, and the two iterators hold them: an Element is what they find, and a walk ends where none stands.
#![tactic(auto)]

ghost use Rattle.std.specs.Prelude.{◌≡◌, ◌+◌, ◌<◌, [], length, drop, MatchOption};
ghost use Rattle.std.specs.Iterator.{YieldsFirstBy, item_count};
ghost use Rattle.definition.specs.Tree.{right_at, size, level};
ghost use Rattle.tree.specs.Walks.{heads_left, siblings_left, GivesSiblings};
ghost use Rattle.tree.specs.Place.{IsWord, IsHead, record_by, verdict, records_at, under, named, Starts};

mod element; // an element of a tree
mod refusal;
mod root; // where the parts of a project stand

pub use element::{Children, Element};
pub use refusal::{MOST_ELEMENTS, judge};
pub use root::{Root, root_of};

// The bytes of a record's head.
const HEAD: usize = 4;

// A record, and where the next begins.
#[derive(Clone, Copy)]
struct Head<'a> {
    depth: usize,
    name: &'a [u8],
    text: &'a [u8],
    next: usize,
}

// Two bytes, the first the more significant.
fn word_at(s: &[u8], i: usize) -> usize
    requires { i + 1 < length s.now }
    ensures { IsWord s.now i result }
{
    usize::from(u16::from_be_bytes([s[i], s[i + 1]]))
}

// The head at a position: 7 bits of depth, 9 of the name's length, 16 of the text's. By positions and not by `split_at_checked`, as `next` is one.
// Two tests and no `saturating_sub`, as a walk asks the first of them once.
fn read_head(s: &[u8], at: usize) -> Option<Head<'_>>
    ensures { MatchOption result (records_at s.now at ≡ []) (IsHead s.now at) }
{
    if s.len() < HEAD || s.len() - HEAD < at {
        return None;
    }
    let w = word_at(s, at);
    let t = word_at(s, at + 2);
    let text_at = at + HEAD + (w & 511);
    let next = text_at + t;
    if s.len() < next {
        return None;
    }
    Some(Head {
        depth: w >> 9,
        name: &s[at + HEAD..text_at],
        text: &s[text_at..next],
        next,
    })
}

// The heads from a position on.
#[derive(Clone, Copy)]
struct Heads<'a> {
    tree: &'a [u8],
    at: usize,
}

impl<'a> Iterator for Heads<'a> {
    type Item = Head<'a>;

    ghost next_gives = { YieldsFirstBy record_by heads_left };

    ghost remaining = { item_count heads_left };

    fn next(&mut self) -> Option<Head<'a>> {
        let h = read_head(self.tree, self.at)?;
        self.at = h.next;
        Some(h)
    }
}

// Whether a record of depth d and t bytes of text may follow one of depth p.
fn right_at(p: usize, d: usize, t: usize) -> bool
    ensures { result ≡ right_at p d t }
{
    if !(1..=65).contains(&d) || p < d - 1 {
        return false;
    }
    d < 65 || t == 0
}

// Walks all records once. By `while let`, as it asks where it ended: a `for` over `Heads` was tried, whose `next` promises the record and those that are
// left, as `all` and `any` need it, and not where the next one begins.
fn layout(s: &[u8]) -> Option<usize>
    ensures { result ≡ verdict s.now }
{
    let mut at: usize = 0;
    let mut prev: usize = 0;
    let mut count: usize = 0;
    while let Some(h) = read_head(s, at) {
        if !right_at(prev, h.depth, h.text.len()) {
            return None;
        }
        prev = h.depth;
        at = h.next;
        count += 1;
    }
    (at == s.len()).then_some(count)
}

// The position of the first record from `from` on that is not deeper than d. Children are passed over one after the other, and what stands below a child
// is skipped by a call for its level: document 01 asks for skipping by recursion, and a loop would do. `Heads` would stand behind the head that ends it.
fn skip(s: &[u8], from: usize, d: usize) -> usize
    ensures { result ≡ from + size (under d (records_at s.now from)) }
{
    let mut p = from;
    while let Some(h) = read_head(s, p) {
        if h.depth <= d {
            return p;
        }
        p = h.next;
        if d + 1 < h.depth {
            p = skip(s, h.next, d + 1);
        }
    }
    p
}

// The elements of a depth among the records from a position on, before any of less depth; each with its name, so that `find` reads no head twice.
#[derive(Clone, Copy)]
struct Siblings<'a> {
    tree: &'a [u8],
    at: usize,
    depth: usize,
}

impl<'a> Iterator for Siblings<'a> {
    type Item = (Element<'a>, &'a [u8]);

    ghost next_gives = { GivesSiblings };

    ghost remaining = { item_count siblings_left };

    fn next(&mut self) -> Option<(Element<'a>, &'a [u8])> {
        while let Some(h) = read_head(self.tree, self.at) {
            if h.depth < self.depth {
                return None;
            }
            if h.depth == self.depth {
                let e = Element {
                    tree: self.tree,
                    at: self.at,
                };
                self.at = h.next;
                return Some((e, h.name));
            }
            self.at = skip(self.tree, h.next, self.depth);
        }
        None
    }
}

// The first record of depth w and of the name from `from` on, before any of less depth.
fn find<'a>(s: &'a [u8], from: usize, w: usize, name: &[u8]) -> Option<Element<'a>>
    ensures { Starts s.now name.now (named name.now (level w (records_at s.now from))) from result }
{
    Siblings {
        tree: s,
        at: from,
        depth: w,
    }
    .find(|(_, n)| *n == name)
    .map(|(e, _)| e)
}

// As `find`, which goes with no count, the one behind the first n. By `for`: the library's lemma for `nth` tells the element alone, and not what its later
// siblings are.
fn find_nth<'a>(s: &'a [u8], from: usize, w: usize, name: &[u8], n: usize) -> Option<Element<'a>>
    ensures { Starts s.now name.now (drop n (named name.now (level w (records_at s.now from)))) from result }
{
    let siblings = Siblings {
        tree: s,
        at: from,
        depth: w,
    };
    let mut left = n;
    for (e, m) in siblings {
        if m == name {
            let Some(less) = left.checked_sub(1) else {
                return Some(e);
            };
            left = less;
        }
    }
    None
}
