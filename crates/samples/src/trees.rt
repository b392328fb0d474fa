// A tree and what the Rust reads from it: the refusal or 0 (one byte), the tree behind its length (four bytes), the model, none where the tree is
// refused. A model that was read passes the check.
use crate::parts::Told;
use crate::{models, parts};
use definition::Refusal;

// ---- the read

const ROOM: usize = 8192;

// Whether the read into this slice answers so, and leaves zeros behind the model and in work.
fn read_is(s: &[u8], out: &mut [u8], told: Told<'_>) -> bool {
    let mut work = [0xFFFF_FFFF; 3];
    let mut written: u64 = 0xFFFF_FFFF;
    let a = mspdi::mspdi_read(s, out, &mut work, &mut written);
    (a == told.answer)
        & (written == told.bytes.len() as u64)
        & parts::bytes_are(out, told.bytes)
        & parts::words_are(&work, &[])
}

// ---- the check

// What the check answers for the model of a tree: no bytes are no model.
fn check_number(refusal: u32) -> u32 {
    if refusal == 0 {
        0
    } else {
        u32::from(Refusal::NoModel)
    }
}

pub fn agrees(body: &[u8]) -> bool {
    let answer = u32::from(parts::byte(body));
    let (tree, model) = parts::piece(parts::behind(body, 1));
    let told = Told {
        answer,
        bytes: model,
    };
    parts::fits(&mut [0; ROOM], told, |out, t| read_is(tree, out, t))
        & models::check_agrees(model, check_number(answer))
}
