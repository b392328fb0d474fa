// The kept tasks: those among the first 100,000 that have a UID other than `0` and a level of at least 1.
ghost use Rattle.std.specs.Prelude.{◌≡◌, ◌≤◌, map, length, take};
ghost use Rattle.std.specs.Iterator.{item_count};
ghost use Rattle.definition.specs.Base.{keep, some?};
ghost use Rattle.definition.specs.Ascii.{bytes};
ghost use Rattle.definition.specs.Task.{level_of, most_tasks, is_kept, kept_tasks, parent_of, is_elapsed, is_fractional};
ghost use Rattle.tree.specs.Place.{later, Past};
ghost use Rattle.tree.specs.Root.{root_at};
ghost use Rattle.rows.specs.Walks.{Gives, kept_by, place_in, room, KeptFrom, kept_left, KeptOf};

use tree::{Element, Root};

// The most tasks that are kept: the definition's most_tasks.
pub const MOST_TASKS: u32 = 100_000;

// The first of at most `most` tasks, from where a list of tasks starts, and how many after it are still to be looked at.
// By hand: what `children` promises is what its elements mean, and not where they stand in the tree, which `Past` says below.
fn kept_from(start: Option<Element<'_>>, most: u32) -> Option<(Element<'_>, u32)>
    ensures { KeptFrom start.entry most result }
{
    let mut next = start;
    let mut left = most;
    while let Some(task) = next {
        if left == 0 {
            return None;
        }
        left -= 1;
        if tasks::is_kept(task) {
            return Some((task, left));
        }
        next = task.next(b"Task");
    }
    None
}

// The first kept task.
pub fn first_kept(root: Root<'_>) -> Option<(Element<'_>, u32)>
    ensures is { kept_tasks (root_at root.entry) ≡ kept_by result }
    ensures there { Past root.entry.tree.now 0 (place_in result) }
    ensures few { room result ≤ most_tasks }
{
    kept_from(root.part(root.tasks).child(b"Task"), MOST_TASKS)
}

// The next one, of at most `left` tasks after another.
pub fn next_kept(task: Element<'_>, left: u32) -> Option<(Element<'_>, u32)>
    ensures is { keep is_kept (take left (later (bytes "Task") task.entry)) ≡ kept_by result }
    ensures there { Past task.entry.tree.now 0 (place_in result) }
    ensures few { room result ≤ left }
{
    kept_from(task.next(b"Task"), left)
}

// The kept tasks, one after another: those behind the last one given, beside which stands how many after it are still to be looked at; all where none
// was. The next one is found only as it is asked for, as in `built`.
#[derive(Clone, Copy, Debug, PartialEq, Eq)]
pub struct KeptTasks<'a> {
    root: Root<'a>,
    last: Option<(Element<'a>, u32)>,
}

impl<'a> KeptTasks<'a> {
    // The one that comes next.
    fn following(self) -> Option<(Element<'a>, u32)>
        ensures is { kept_left self.entry ≡ kept_by result }
        ensures there { Past self.entry.root.tree.now 0 (place_in self.entry.last) → Past self.entry.root.tree.now 0 (place_in result) }
    {
        match self.last {
            None => first_kept(self.root),
            Some((task, left)) => next_kept(task, left),
        }
    }
}

impl<'a> Iterator for KeptTasks<'a> {
    type Item = Element<'a>;

    ghost next_gives = { Gives KeptOf kept_left };

    ghost remaining = { item_count kept_left };

    fn next(&mut self) -> Option<Element<'a>> {
        let (task, left) = self.following()?;
        self.last = Some((task, left));
        Some(task)
    }
}

pub fn kept_tasks(root: Root<'_>) -> KeptTasks<'_>
    ensures is { kept_left result ≡ kept_tasks (root_at root.entry) }
    ensures of { KeptOf result root.entry.tree.now }
{
    KeptTasks { root, last: None }
}

// The nearest kept task of a lower level before the task of a row.
pub fn parent_row(root: Root<'_>, row: u32, level: u64) -> Option<u32>
    ensures { result ≡ parent_of (map level_of (take row (kept_tasks (root_at root.entry)))) level }
{
    // The last by hand, as `cost_resource` says: the definition's parent is a find_last too.
    let mut found = None;
    for (n, task) in (0..row).zip(kept_tasks(root)) {
        let lower = (tasks::level_of(task) < level).then_some(n);
        found = lower.or(found);
    }
    found
}

pub fn any_elapsed(root: Root<'_>) -> bool
    ensures { result ≡ some? is_elapsed (kept_tasks (root_at root.entry)) }
{
    // A function of a module of another crate has no contract as a value, so that it stands in a closure.
    kept_tasks(root).any(|task| tasks::is_elapsed(task))
}

// How many kept tasks have a Duration that gives minutes and was not whole. By `as`: 100,000 are the most.
pub fn count_fractional(root: Root<'_>) -> u32
    ensures { result ≡ length (keep is_fractional (kept_tasks (root_at root.entry))) }
{
    kept_tasks(root)
        .filter(|task| tasks::is_fractional(*task))
        .count() as u32
}
