// The project's own record: what its element says, how many exceptions and links were left out, and how many kept tasks have a duration that was
// not whole minutes.
ghost use Rattle.std.specs.Prelude.{◌≡◌, []};
ghost use Rattle.definition.specs.Base.{◌or◌, ◌or_else◌};
ghost use Rattle.definition.specs.Date.{epoch};
ghost use Rattle.definition.specs.Field.{text_in, date_in};
ghost use Rattle.definition.specs.Format.{whole};
ghost use Rattle.definition.specs.Pack.{project};
ghost use Rattle.definition.specs.Read.{project_of};
ghost use Rattle.definition.specs.Task.{context_of};
ghost use Rattle.tree.specs.Root.{root_at};
ghost use Rattle.bits.specs.Steps.{Puts};
ghost use Rattle.pack.specs.Value.{date_by};
ghost use Rattle.read.specs.Project.{Skipped};
ghost use Rattle.read.specs.Tables.{Tasked};

use bits::Place;
use definition::Date;
use links::TaskFinder;
use pack::{Project, Skips};
use tree::Root;

// The title, else the name: as assignments' wanted_id, which says why each stands alone, over parts of the root.
fn project_name(root: Root<'_>) -> &[u8]
    ensures { result.now ≡ ((text_in (root_at root.entry) "Title" or_else text_in (root_at root.entry) "Name") or []) }
{
    let title = root.part(root.title).own_text();
    if title.is_empty() {
        root.part(root.name).own_text()
    } else {
        title
    }
}

// 1 January 1970 where no start is given.
fn start_of(root: Root<'_>) -> Date
    ensures { date_by result.0 ≡ (date_in (root_at root.entry) "StartDate" or epoch) }
{
    fields::date_at(root.part(root.start)).unwrap_or(Date(0))
}

// Tasked, as in sections.rt: a TaskFinder is links', and may hold any words and table.
fn skips_of(tasks: TaskFinder<'_>) -> Skips
    requires { Tasked tasks.root tasks.words.now tasks.table }
    ensures { Skipped (root_at tasks.entry.root) result }
{
    let fates = links::count_fates(tasks);
    Skips {
        skipped: calendar::skipped(tasks.root),
        dangling: fates.dangling,
        across: fates.across,
        fractional: rows::count_fractional(tasks.root),
    }
}

pub(crate) fn put_project(out: &mut [u8], p: Place, tasks: TaskFinder<'_>) -> Place
    requires { Tasked tasks.root tasks.words.now tasks.table }
    ensures { Puts (whole project) (project_of (context_of (root_at tasks.entry.root)) (root_at tasks.entry.root)) out.old p out.new result }
{
    let root = tasks.root;
    let record = Project {
        name: project_name(root),
        start: start_of(root),
        currency: root.part(root.currency).own_text(),
        skips: skips_of(tasks),
        data_date: fields::date_at(root.part(root.status)),
    };
    record.put(out, p)
}
