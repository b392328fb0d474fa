// One activity's record.
ghost use Rattle.std.specs.Prelude.{◌≡◌, true, map, ◌%◌, ◌^◌, length, take};
ghost use Rattle.definition.specs.Format.{whole};
ghost use Rattle.definition.specs.Pack.{activity};
ghost use Rattle.definition.specs.Task.{level_of, kept_tasks, wanted_id, parent_of, activity_of};
ghost use Rattle.bits.specs.Places.{inside};
ghost use Rattle.bits.specs.Steps.{Puts};
ghost use Rattle.links.specs.Fates.{task_in, is_entered};
ghost use Rattle.names.specs.Texts.{texts_at};
ghost use Rattle.names.specs.Context.{context_at};
ghost use Rattle.model.specs.declared.records.Kind.TheVariants.{Activities};
ghost use Rattle.pack.specs.Record.{activity_by};
ghost use Rattle.pack.specs.Value.{given_by, starred};
ghost use Rattle.tree.specs.Place.{meaning};
ghost use Rattle.tree.specs.Root.{root_at};
ghost use Rattle.activities.specs.Own.{RowReady, RowNoted};
ghost use Rattle.activities.specs.Values.{activity_planned};

use crate::own::Section;
use crate::parents::parent_of;
use crate::value::{calendar_for, dates_of, day_of, plan_of, progress_of, wanted_id};
use bits::Place;
use links::TaskFinder;
use model::records::Kind;
use pack::{Activity, Plan, Starred};
use tree::Element;

// A task with its id, its plan and its calendar's name.
fn record_of<'a>(
    task: Element<'a>,
    id: Starred<'a>,
    plan: Plan,
    calendar: Option<Starred<'a>>,
) -> Activity<'a>
    ensures { activity_by result ≡ activity_planned (given_by starred calendar.entry) (starred id.entry) plan (meaning task.entry) }
{
    Activity {
        id,
        name: task.text_of(b"Name"),
        plan,
        notes: task.text_of(b"Notes"),
        calendar,
        dates: dates_of(task),
        progress: progress_of(task),
        uid: task.text_of(b"UID"),
    }
}

// The task of a row.
pub(crate) fn put_row(
    out: &mut [u8],
    p: Place,
    words: &mut [u32],
    section: Section<'_>,
    task: Element<'_>,
    row: u32,
) -> Place
    requires { RowReady section task row p out.old words.old }
    ensures { Puts (whole activity) (activity_of (context_at out.old section.entry.calendars (root_at section.entry.root)) (texts_at Kind.Activities out.old section.entry.start row) (map level_of (take row (kept_tasks (root_at section.entry.root)))) (is_entered (task_in section.entry.root words.new section.entry.tasks) (meaning task.entry)) (meaning task.entry)) out.old p out.new result × RowNoted section.entry.own row task.entry.at (parent_of (map level_of (take row (kept_tasks (root_at section.entry.root)))) (level_of (meaning task.entry))) (wanted_id (meaning task.entry)) (p.byte % 2 ^ 32) (texts_at Kind.Activities out.old section.entry.start row) (inside (length out.old) p) words.old words.new }
{
    let ids = section.own.ids;
    let elapsed = tasks::is_elapsed(task);
    let calendar = calendar_for(out, words, section, task, elapsed);
    let parent = parent_of(section.root, task, words, section.own.columns, row);
    let text = wanted_id(task);
    let stars = names::stars_for(
        out,
        Kind::Activities,
        section.start,
        p,
        words,
        ids,
        row,
        text,
    );
    names::note_stars(words, ids, row, text, stars, p);
    let find = TaskFinder {
        root: section.root,
        words,
        table: section.tasks,
    };
    let plan = plan_of(task, find, day_of(elapsed, section.per_day), parent);
    record_of(task, Starred { text, stars }, plan, calendar).put(out, p)
}
