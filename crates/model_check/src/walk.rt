// The walk that decodes a model, with the calendars' names in a table, and each activity tested and put into a table as it is passed.
ghost use Rattle.std.specs.Prelude.{◌≡◌};
ghost use Rattle.model_check.specs.Walk.{Noted, JudgedAll, ModelWalked};

use crate::keys::{Activities, Calendars};
use crate::rules::{Names, judge_activity};
use crate::tables::{empty_table, index_keys, put_key};
use bits::{Field, Place};
use index::Table;
use model::{Counts, Places, Section, walk_behind, walk_head};

// The tables of the calendars' names and of the activities' ids, where there are any.
#[derive(Clone, Copy)]
pub(crate) struct Tables {
    pub(crate) names: Option<Table>,
    pub(crate) ids: Option<Table>,
}

// Puts the id of the activity of a row, at a place, into a table, if there is one.
fn note_id(s: &[u8], p: Place, row: u32, words: &mut [u32], ids: Option<Table>)
    ensures { Noted s.now p row ids words.old words.new }
{
    if let Some(t) = ids {
        put_key::<Activities>(s, p, row, words, t);
    }
}

// Passes over so many activities, and puts the id of each into a table: whether all are right, and the place behind. It ends at the first that
// is refused. No walk for this and outline's `fill`: their steps write other things into the words, and a clause that says so of a closure would be
// longer than either loop.
fn judge_activities(
    s: &[u8],
    p: Place,
    count: u32,
    calendars: Section,
    words: &mut [u32],
    tables: Tables,
) -> Field<bool>
    ensures { JudgedAll s.now p count calendars tables.names tables.ids words.old words.new result }
{
    let mut q = p;
    let mut right = true;
    for i in 0..count {
        note_id(s, q, i, words, tables.ids);
        let a = judge_activity(
            s,
            q,
            i,
            Names {
                section: calendars,
                table: tables.names,
                words,
            },
        );
        right &= a.value;
        q = a.next;
        if 7 < q.bit {
            return Field {
                value: right,
                next: q,
            };
        }
    }
    Field {
        value: right,
        next: q,
    }
}

// The places between the sections, as model::open finds them; the tables; whether all activities are right, which says nothing of the others.
#[derive(Clone, Copy)]
pub(crate) struct Walked {
    pub(crate) places: Places,
    pub(crate) tables: Tables,
    pub(crate) right: bool,
}

pub(crate) fn walk_model(s: &[u8], n: Counts, words: &mut [u32]) -> Walked
    ensures { ModelWalked s.now n words.old words.new result }
{
    let head = walk_head(s, n);
    let calendars = Section {
        count: n.value.calendars,
        at: head.calendars.byte,
    };
    let names = index_keys::<Calendars>(s, calendars, words);
    let ids = empty_table(
        s,
        words,
        index::end_of(names, words.len()),
        n.value.activities,
    );
    let tables = Tables { names, ids };
    let a = judge_activities(
        s,
        head.activities,
        n.value.activities,
        calendars,
        words,
        tables,
    );
    let places = walk_behind(s, n, head, a.next);
    let right = a.value;
    Walked {
        places,
        tables,
        right,
    }
}
