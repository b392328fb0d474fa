// The expenses: of two with equal activity and name the first is kept. What is right is said in the crate definition, specs/Resource.antt.
ghost use Rattle.std.specs.Prelude.{◌≡◌, ◌%◌, ◌^◌, Some, length};
ghost use Rattle.std.specs.Option.{option_map};
ghost use Rattle.definition.specs.Ascii.{bytes};
ghost use Rattle.definition.specs.Format.{whole};
ghost use Rattle.definition.specs.Pack.{expense};
ghost use Rattle.definition.specs.Tree.{all};
ghost use Rattle.bits.specs.Clear.{cleared};
ghost use Rattle.index.specs.Chains.{table_of};
ghost use Rattle.tree.specs.Place.{meaning};
ghost use Rattle.tree.specs.Root.{root_at};
ghost use Rattle.assignments.specs.Section.{WritesIn};
ghost use Rattle.assignments.specs.Finders.{expense_for, expenses_by};
ghost use Rattle.assignments.specs.Records.{finders_at, ends_at, is_expense_at, Tells};
ghost use Rattle.assignments.specs.Charged.{charged};
ghost use Rattle.assignments.specs.InUse.{key_of, is_used, emptied, noted_by, InUse, Notes, WroteBeside};

use crate::section::{Done, Tables};
use bits::Place;
use index::Table;
use model::records::Kind;
use pack::{Expense, Records};
use tree::Element;

// What is written, and a table of it by activity and name, with the byte of each record; none once one does not fit there. A table in
// lent words and no map: there is no heap.
#[derive(Clone, Copy)]
struct Used {
    done: Done,
    made: Option<Table>,
}

// What tells expenses apart: the activity's row and the name. No PartialEq: the other one is bits in the lent buffer. model_check has keys of its own, in a
// model that was opened: neither crate uses the other.
#[derive(Clone, Copy)]
struct Key<'a> {
    activity: u32,
    name: &'a [u8],
}

// What gives an expense: its task's row, its cost resource and the Assignment. No Expense: its money and accrual are looked up where it is new.
#[derive(Clone, Copy)]
struct Charge<'a> {
    activity: u32,
    resource: Element<'a>,
    assignment: Element<'a>,
}

// ---- those that stand in the buffer

impl<'a> Key<'a> {
    // Whether the expense at a place has it.
    fn is_at(self, out: &[u8], p: Place) -> bool
        ensures { result ≡ is_expense_at out.now p self.entry.activity self.entry.name.now }
    {
        let row = bits::take(out, p, 32);
        u64::from(self.activity) == row.value && self.name == names::raw_text(out, row.next)
    }

    // Whether one of so many from a place on has it, where they stand there. No walk for this and names' `taken`: the test would be a closure that reads the
    // buffer at a place, and its clause and the two promises, there of any bytes and here of records that stand, would be longer than the loop.
    fn is_there(self, out: &[u8], p: Place, count: usize) -> bool
        ensures { Tells out.now p count self.entry.activity self.entry.name.now result }
    {
        let mut q = p;
        for _ in 0..count {
            let next = model::records::skip_record(out, q, Kind::Expenses, false);
            if self.is_at(out, q) {
                return true;
            }
            q = next;
        }
        false
    }

    // A hash of 32 bits for index's chains, which std's Hash would not give.
    fn hash(self) -> u32
        ensures { result ≡ key_of self.entry.activity self.entry.name.now }
    {
        index::hash_of(self.name).wrapping_add(self.activity)
    }

    // Whether one in its chain has it.
    fn seek(self, out: &[u8], words: &[u32], t: Table) -> bool
        ensures { result ≡ is_used out.now words.now t self.entry.activity self.entry.name.now }
    {
        t.chain(words, self.hash()).any(|r| {
            // `as`: usize has no `From<u32>`.
            let byte = t.place(words, r) as usize;
            self.is_at(out, Place { byte, bit: 0 })
        })
    }

    // Whether one that was written has it, where they stand in the buffer; past its end nothing more is written.
    fn in_use(self, out: &[u8], start: Place, used: Used, words: &[u32]) -> bool
        ensures { InUse start out.now used words.now self.entry.activity self.entry.name.now result }
    {
        if 7 < used.done.next.bit {
            return true;
        }
        // One way needs the words, the other the number of records: a trait over both is no plainer.
        match used.made {
            Some(t) => self.seek(out, words, t),
            None => self.is_there(out, start, used.done.count),
        }
    }
}

// ---- the table

// One more at a place, where the table has a row for it and 32 bits hold its byte; else no table from here on.
#[tactic(auto, unfolding(crate::specs::InUse::noted_by))]
fn note(words: &mut [u32], made: Option<Table>, row: usize, p: Place, key: u32) -> Option<Table>
    ensures { (result ≡ (noted_by words.old made row p key).0) × (words.new ≡ (noted_by words.old made row p key).1) }
{
    let t = made?;
    let row = u32::try_from(row).ok()?;
    let byte = u32::try_from(p.byte).ok()?;
    if p.bit != 0 || t.rows <= row {
        return None;
    }
    t.put(words, row, key, byte);
    Some(t)
}

// A table of so many rows behind a place, with none in it.
fn table_behind(words: &mut [u32], end: usize, rows: u32) -> Option<Table>
    ensures { (result ≡ table_of (length words.old) end rows) × (words.new ≡ emptied words.old result) }
{
    let t = index::table_at(words.len(), end, rows)?;
    t.clear(words);
    Some(t)
}

// How many Assignments there are, as 32 bits hold it.
fn count_assignments(section: Element<'_>) -> u32
    ensures { result ≡ length (all (meaning section.entry) (bytes "Assignment")) % 2 ^ 32 }
{
    // `u32::try_from` would refuse what 32 bits hold in part; a cast is proved to lose nothing, so the rest is taken before it.
    (section.children(b"Assignment").count() % 4294967296) as u32
}

// ---- one after another

// What an element gives: its task has a row, and its cost resource is there.
fn charge_of<'a>(tables: Tables<'a>, words: &[u32], e: Element<'a>) -> Option<Charge<'a>>
    ensures { option_map charged result ≡ expense_for (finders_at words.now tables.entry) (meaning e.entry) }
{
    let activity = tables.task_of(words, e)?;
    let resource = tables.cost_of(words, e)?;
    Some(Charge {
        activity,
        resource,
        assignment: e,
    })
}

// One more, unless it is there.
fn put_new(out: &mut [u8], start: Place, used: Used, words: &mut [u32], charge: Charge<'_>) -> Used
    ensures { Notes start (Some (charged charge.entry)) out.old used words.old out.new result words.new }
{
    let key = Key {
        activity: charge.activity,
        name: charge.resource.text_of(b"Name"),
    };
    if key.in_use(out, start, used, words) {
        return used;
    }
    let x = Expense {
        activity: key.activity,
        name: key.name,
        cost: resources::cost(charge.assignment),
        accrual: u32::from(resources::accrual_of(charge.resource)),
    };
    let p = used.done.next;
    let next = x.put(out, p);
    Used {
        made: note(words, used.made, used.done.count, p, key.hash()),
        done: used.done.more(next),
    }
}

// Those of all.
fn put_all(out: &mut [u8], p: Place, tables: Tables<'_>, words: &mut [u32]) -> Done
    ensures { WroteBeside (ends_at tables.entry) (expenses_by (finders_at words.old tables.entry) (root_at tables.entry.root)) out.old p words.old out.new result words.new }
{
    // For proofs alone: says that a tree is bytes.
    rows::are_bytes(tables.root.tree);
    let section = tables.root.part(tables.root.assignments);
    let end = tables.end(words.len());
    let made = table_behind(words, end, count_assignments(section));
    let mut used = Used {
        done: Done::none(p),
        made,
    };
    for e in section.children(b"Assignment") {
        if let Some(charge) = charge_of(tables, words, e) {
            used = put_new(out, p, used, words, charge);
        }
    }
    used.done
}

// The expenses, one after another; tasks and cost resources by tables in the words, behind which the words are lent too, and cleared.
pub fn put_expenses(out: &mut [u8], p: Place, tables: Tables<'_>, words: &mut [u32]) -> Records
    ensures { WritesIn (whole expense) (expenses_by (finders_at words.old tables.entry) (root_at tables.entry.root)) out.old p out.new result × (words.new ≡ cleared (ends_at tables.entry) words.old) }
{
    let done = put_all(out, p, tables, words);
    bits::fill_from(words, tables.end(words.len()), 0);
    Records::from(done)
}
