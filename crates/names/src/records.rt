// Records by their rows, and the texts at their fronts. No text is tested for UTF-8.
// The buffer, the kind and the place go side by side: records are put into the buffer between the calls, so that a struct over it would be made anew for
// each. The kind is a value, any of the six: a caller may have it only as it runs.
ghost use Rattle.std.specs.Prelude.{◌≡◌, []};
ghost use Rattle.definition.specs.Base.{◌or◌, some?, same};
ghost use Rattle.definition.specs.Calendar.{free};
ghost use Rattle.model.specs.Answers.{read_at};
ghost use Rattle.model.specs.Parts.{raw};
ghost use Rattle.pack.specs.Value.{starred_by};
ghost use Rattle.names.specs.Texts.{place_of_row, texts_at};

use crate::stars::same_starred;
use bits::{PAST, Place};
use model::parts::text_in;
use model::records::{Kind, skip_record, skip_records};

// The place of the record of a row, past every end where there is none. Nothing keeps the places, as there is no memory for them.
// PAST and no Option: a read at it gives nothing by itself, as everywhere in `bits`.
pub fn place_of_row(out: &[u8], p: Place, kind: Kind, row: usize) -> Place
    ensures { result ≡ place_of_row kind out.now p row }
{
    let q = skip_records(out, p, kind, row, false);
    if bits::inside(out.len(), q) {
        return q;
    }
    PAST
}

// The text at a place, whatever its bytes are; no text where there is none. `text_at` of model_check has this body, and says why it stands there.
pub fn raw_text(out: &[u8], p: Place) -> &[u8]
    ensures { result.now ≡ ((read_at raw out.now p).0 or []) }
{
    text_in(out, bits::take_text(out, p))
}

// Whether one of so many records at a place has the text with so many `*` at its front.
fn taken(out: &[u8], p: Place, kind: Kind, count: u32, wanted: &[u8], stars: u32) -> bool
    ensures { result ≡ some? (same (starred_by wanted.now stars)) (texts_at kind out.now p count) }
{
    let mut q = p;
    for _ in 0..count {
        if same_starred(wanted, stars, raw_text(out, q), 0) {
            return true;
        }
        q = skip_record(out, q, kind, false);
    }
    false
}

// How many `*` a text needs so that none of so many records at a place has it at its front.
pub(crate) fn free_stars(out: &[u8], p: Place, kind: Kind, count: u32, wanted: &[u8]) -> u32
    ensures { starred_by wanted.now result ≡ free (texts_at kind out.now p count) wanted.now }
{
    (0..count)
        .find(|stars| !taken(out, p, kind, count, wanted, *stars))
        .unwrap_or(count)
}
