// Activities: the kept tasks, one after another. What is right is said in the crate definition, specs/Task.antt.
#![tactic(auto)]

ghost use Rattle.std.specs.Prelude.{◌≡◌, true};
ghost use Rattle.definition.specs.Format.{whole};
ghost use Rattle.definition.specs.Pack.{activity};
ghost use Rattle.definition.specs.Task.{context_of, activities as activities_of};
ghost use Rattle.definition.specs.Link.{entered};
ghost use Rattle.bits.specs.Clear.{cleared};
ghost use Rattle.index.specs.Below.{SameBelow};
ghost use Rattle.index.specs.Chains.{end_in};
ghost use Rattle.links.specs.Fates.{task_in, links_by};
ghost use Rattle.tree.specs.Root.{root_at};
ghost use Rattle.pack.specs.Writes.{Writes, WritesIf};
ghost use Rattle.names.specs.Context.{context_at, calendars_before};
ghost use Rattle.activities.specs.Own.{SectionRoom};

use crate::own::{Section, own_for};
use crate::record::put_row;
use bits::{PAST, Place};
use index::Table;
use pack::Records;
use tree::Root;

mod own; // words for calendars, parents and ids
mod parents; // the parent of a row
mod record;
mod value;

// All of them.
fn put_tasks(out: &mut [u8], words: &mut [u32], section: Section<'_>) -> Records
    requires { (calendars_before out.old section.calendars (root_at section.root) section.start ≡ true) × SectionRoom section out.old words.old }
    ensures { Writes (whole activity) (activities_of (context_at out.old section.entry.calendars (root_at section.entry.root)) (entered (links_by (task_in section.entry.root words.old section.entry.tasks) (context_of (root_at section.entry.root))))) out.old section.entry.start out.new result × SameBelow (end_in section.entry.tasks) words.old words.new }
{
    let mut done = Records::none(section.start);
    // The row of a task is how many stand before it.
    for task in rows::kept_tasks(section.root) {
        done = done.more(put_row(out, done.next, words, section, task, done.count));
    }
    done
}

// The calendars stand at c in the same buffer, before p; their names are read there. Where they do not, nothing is written. The words behind the
// table of the kept tasks are used, and cleared. Resources begin with the like test, and calendars with one of their
// own: to share it would lend the buffer and the words through a closure.
pub fn put_activities(
    out: &mut [u8],
    p: Place,
    root: Root<'_>,
    c: Place,
    words: &mut [u32],
    tasks: Option<Table>,
) -> Records
    ensures { WritesIf (calendars_before out.old c (root_at root.entry) p) (whole activity) (activities_of (context_at out.old c (root_at root.entry)) (entered (links_by (task_in root.entry words.old tasks) (context_of (root_at root.entry))))) out.old p out.new result × (words.new ≡ cleared (end_in tasks) words.old) }
{
    let end = index::end_of(tasks, words.len());
    if !names::calendars_before(out, c, root, p) {
        bits::fill_from(words, end, 0);
        return Records::none(PAST);
    }
    let section = Section {
        root,
        start: p,
        calendars: c,
        tasks,
        own: own_for(out, p, root, c, words, tasks),
        per_day: tasks::per_day(root),
    };
    let r = put_tasks(out, words, section);
    bits::fill_from(words, end, 0);
    r
}
