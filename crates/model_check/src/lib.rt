// The check of a model's bytes: whether they decode, and whether the model keeps the check's list. Keys are looked up in tables in the lent words;
// where these are too few for a table, in the sections themselves.
#![tactic(auto)]

mod keys; // records told apart by their keys
mod rules; // each record by itself
mod tables; // keys in tables
mod walk; // decoding, with the activities looked at on the way

ghost use Rattle.std.specs.Prelude.{◌≡◌, List, ℕ, length, replicate};
ghost use Rattle.definition.specs.Model.{Model};
ghost use Rattle.definition.specs.Check.{keeps_list};
ghost use Rattle.definition.specs.Refusal.{check_answer};
ghost use Rattle.definition.specs.Answer.{answer_number};
ghost use Rattle.model.specs.Sections.{Decoded};
ghost use Rattle.model_check.specs.Walk.{Looked};

use crate::keys::{Activities, Expenses, Resources};
use crate::rules::{Names, every_right, resource_right, row_below, rows_below};
use crate::tables::{all_distinct, distinct_in};
use crate::walk::{Tables, walk_model};
use definition::Refusal;
use model::records::Kind;
use model::{Sections, sections_of, take_counts};

// What is left once the activities are looked at. The tables stand in the words until the records are looked at; then the keys of each section in turn.
fn keeps_list(s: &[u8], w: Sections, words: &mut [u32], tables: Tables, activities: bool) -> bool
    ensures { (m : Model) → Decoded s.now m w → Looked s.now m tables.names tables.ids activities words.old → result ≡ keeps_list m }
{
    let calendars = Names {
        section: w.calendars,
        table: tables.names,
        words,
    };
    let n = w.activities.count;
    let m = w.resources.count;
    let resources = every_right(
        s,
        Kind::Resources,
        w.resources,
        |p| resource_right(s, p, calendars),
    );
    let links = every_right(s, Kind::Links, w.links, |p| rows_below(s, p, n, n));
    let assignments = every_right(
        s,
        Kind::Assignments,
        w.assignments,
        |p| rows_below(s, p, n, m),
    );
    let expenses = every_right(s, Kind::Expenses, w.expenses, |p| row_below(s, p, n));
    let ids_differ = distinct_in::<Activities>(s, w.activities, words, tables.ids);
    let resource_ids = all_distinct::<Resources>(s, w.resources, words);
    let expenses_differ = all_distinct::<Expenses>(s, w.expenses, words);
    ids_differ
        & activities
        & resource_ids
        & resources
        & links
        & assignments
        & expenses
        & expenses_differ
}

// Refused are bytes that do not decode, and a model that breaks the list.
fn answer(s: &[u8], words: &mut [u32]) -> Result<(), Refusal>
    ensures { answer_number result ≡ check_answer s.now }
{
    let counts = take_counts(s);
    let walked = walk_model(s, counts, words);
    let w = sections_of(s.len(), counts, walked.places).ok_or(Refusal::NoModel)?;
    if !keeps_list(s, w, words, walked.tables, walked.right) {
        return Err(Refusal::ListBroken);
    }
    Ok(())
}

// The work slice may have any length; it is zeros at exit.
pub fn check(s: &[u8], work: &mut [u32]) -> Result<(), Refusal>
    ensures { ◌≡◌ {A = ℕ × List ℕ} (answer_number result, work.new) (check_answer s.now, replicate (length work.old) 0) }
{
    let r = answer(s, work);
    work.fill(0);
    r
}
