// Tables of the elements that have a UID, in lent words: the hash of each UID, and where its element stands in the tree.
// A row or a word is made a place by `as usize`, which has no From<u32>. The root, the words and their table go side by side: most callers write in the
// words between two looks, and would make a struct over the three anew for each. Links look in words that stay, and have one, TaskFinder.
ghost use Rattle.std.specs.Prelude.{◌≡◌, ◌^◌, ◌<◌, length, IfSome};
ghost use Rattle.std.specs.Iterator.{item_count};
ghost use Rattle.tree.specs.Root.{root_at};
ghost use Rattle.rows.specs.Rows.{found_meaning};
ghost use Rattle.rows.specs.Walks.{Gives};
ghost use Rattle.rows.specs.Tables.{listed, row_in32, sought_in, row_in, cost_in, elements_left, ElementsOf, found_in, Makes};

use crate::kept::{KeptTasks, kept_tasks};
use crate::resource::cost_resource;
use crate::section::{Cost, Work, first_which, next_which};
use index::Table;
use tree::{Element, Root};

// The kept tasks, the work resources, the cost resources.
// An enum, where `section` has a trait: the contracts of the crates above name the list as a value.
#[derive(Clone, Copy, Debug, PartialEq, Eq)]
pub enum Listed {
    Tasks,
    Work,
    Cost,
}

// ---- the elements of a list, one after another

// What is left of a list.
#[derive(Clone, Copy, Debug, PartialEq, Eq)]
enum Rest<'a> {
    Tasks(KeptTasks<'a>),
    Work(Option<Element<'a>>),
    Cost(Option<Element<'a>>),
}

// The elements of a list.
#[derive(Clone, Copy, Debug, PartialEq, Eq)]
pub struct ListElements<'a> {
    rest: Rest<'a>,
}

impl<'a> Iterator for ListElements<'a> {
    type Item = Element<'a>;

    ghost next_gives = { Gives ElementsOf elements_left };

    ghost remaining = { item_count elements_left };

    fn next(&mut self) -> Option<Element<'a>> {
        match &mut self.rest {
            Rest::Tasks(tasks) => tasks.next(),
            Rest::Work(next) => {
                let e = (*next)?;
                *next = next_which::<Work>(e, b"Resource");
                Some(e)
            }
            Rest::Cost(next) => {
                let e = (*next)?;
                *next = next_which::<Cost>(e, b"Resource");
                Some(e)
            }
        }
    }
}

pub fn elements(root: Root<'_>, list: Listed) -> ListElements<'_>
    ensures is { elements_left result ≡ listed list (root_at root.entry) }
    ensures of { ElementsOf result root.entry.tree.now }
{
    let resources = root.part(root.resources);
    let rest = match list {
        Listed::Tasks => Rest::Tasks(kept_tasks(root)),
        Listed::Work => Rest::Work(first_which::<Work>(resources, b"Resource")),
        Listed::Cost => Rest::Cost(first_which::<Cost>(resources, b"Resource")),
    };
    ListElements { rest }
}

// ---- a table is made

// How many there are: 32 bits hold it, so that `as` loses nothing.
fn count_items(items: ListElements<'_>) -> u32
    requires { length (elements_left items) < 2 ^ 32 }
    ensures { result ≡ length (elements_left items.entry) }
{
    items.count() as u32
}

// A table of a list, in the words from a place on, where there is room for it and 32 bits hold each position in the tree. The elements are made once, as
// the first resource may stand far behind.
pub fn index_rows(root: Root<'_>, list: Listed, words: &mut [u32], at: usize) -> Option<Table>
    ensures { Makes root.entry.tree.now (root_at root.entry) list at words.old words.new result }
{
    u32::try_from(root.tree.len()).ok()?;
    let items = elements(root, list);
    let n = count_items(items);
    // A table of no rows would be none.
    let t = index::table_at(words.len(), at, n.max(1))?;
    t.clear(words);
    for (row, e) in (0..t.rows).zip(items) {
        let hash = index::hash_of(e.text_of(b"UID"));
        // `u32::try_from` would have an error that cannot occur: 32 bits hold each position.
        t.put(words, row, hash, e.at as u32);
    }
    Some(t)
}

// ---- the last with a UID

// The first row of a chain whose element has the UID.
pub fn seek(tree: &[u8], words: &[u32], t: Table, uid: &[u8]) -> Option<u32>
    ensures { result ≡ sought_in tree.now words.now t uid.now }
{
    t.chain(words, index::hash_of(uid)).find(|r| {
        let at = t.place(words, *r) as usize;
        fields::text_is(Element { tree, at }, b"UID", uid)
    })
}

// The row of the last of a list with a UID, as 32 bits hold it, by a look at all of them.
fn scan(root: Root<'_>, list: Listed, uid: &[u8]) -> Option<u32>
    ensures { result ≡ row_in32 list (root_at root.entry) uid.now }
{
    let mut found = None;
    for (n, e) in elements(root, list).enumerate() {
        // As 32 bits hold it: a cast is proved to lose nothing, so the rest is taken before it.
        let row = (n % 4294967296) as u32;
        let named = fields::text_is(e, b"UID", uid).then_some(row);
        found = named.or(found);
    }
    found
}

// The row of the last of a list with a UID, by a table in the words; by a scan where there is none.
pub fn row_with(
    root: Root<'_>,
    list: Listed,
    words: &[u32],
    made: Option<Table>,
    uid: &[u8],
) -> Option<u32>
    ensures { result ≡ row_in root.entry.tree.now (root_at root.entry) list words.now made uid.now }
{
    // One way needs the words, the other the tree alone: a closure for each is no plainer.
    match made {
        Some(t) => seek(root.tree, words, t, uid),
        None => scan(root, list, uid),
    }
}

// The element of a row.
fn element_of<'a>(root: Root<'a>, words: &[u32], t: Table, row: Option<u32>) -> Option<Element<'a>>
    ensures is { found_meaning result ≡ found_in root.entry.tree.now words.now t row }
    ensures there { IfSome result (λ e. e.tree.now ≡ root.entry.tree.now) }
{
    Some(root.part(t.place(words, row?) as usize))
}

// The last cost resource with a UID, by a table in the words; by a scan where there is none.
pub fn cost_with<'a>(
    root: Root<'a>,
    words: &[u32],
    made: Option<Table>,
    uid: &[u8],
) -> Option<Element<'a>>
    ensures is { found_meaning result ≡ cost_in root.entry.tree.now (root_at root.entry) words.now made uid.now }
    ensures there { IfSome result (λ e. e.tree.now ≡ root.entry.tree.now) }
{
    // as in `row_with`
    match made {
        Some(t) => element_of(root, words, t, seek(root.tree, words, t, uid)),
        None => cost_resource(root, uid),
    }
}
