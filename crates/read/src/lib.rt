// A tree read into a model: crate definition, specs/Read.antt and specs/Pack.antt. Six counts are left open, then the project and the sections
// are put one after another, then the counts are closed; what stands behind is zeros, and all is zeros where the tree is refused or the model does
// not fit. Tables of the kept tasks and of the resources stand in the lent words; where they find no room, each row is sought by a scan.
#![tactic(auto)]

mod assigned; // resources, assignments and expenses
mod project; // the project's record
mod sections; // all records, and the counts

ghost use Rattle.std.specs.Prelude.{length};
ghost use Rattle.definition.specs.Refusal.{read_answer};
ghost use Rattle.read.specs.Answers.{Leaves, Gives, Fills};

use crate::sections::{close_counts, put_all};
use definition::Refusal;
use tree::Element;

// The model of a tree that is not refused.
fn put_model(tree: &[u8], model: &mut [u8], work: &mut [u32]) -> Result<usize, Refusal>
    ensures { Fills tree.now model.old model.new result }
{
    let root = tree::root_of(Element { tree, at: 0 });
    let n = put_all(model, root, work);
    let end = n.next;
    let room = model.len();
    if !bits::inside(room, end) {
        model.fill(0);
        return Err(Refusal::NoRoom);
    }
    close_counts(model, n.counts);
    bits::fill_from(model, end.byte, 0);
    Ok(end.byte)
}

// The model of a tree, with zeros behind it; zeros alone where there is none. Any words are left in work.
fn answer(tree: &[u8], model: &mut [u8], work: &mut [u32]) -> Result<usize, Refusal>
    ensures { Leaves (length model.old) (read_answer tree.now (length model.old)) result model.new }
{
    // A `match`: `?` would answer before the zeros are written.
    match tree::judge(tree) {
        Ok(()) => put_model(tree, model, work),
        Err(refusal) => {
            model.fill(0);
            Err(refusal)
        }
    }
}

// The model of a tree, with zeros behind it, and zeros in work; zeros alone where there is none.
pub fn read(tree: &[u8], model: &mut [u8], work: &mut [u32]) -> Result<usize, Refusal>
    ensures { Gives tree.now model.old work.old model.new work.new result }
{
    let r = answer(tree, model, work);
    work.fill(0);
    r
}
