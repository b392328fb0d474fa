// Replays cases, each with the answer of the Rust, or of document 01 as compare/ has it in Rust, and says of each kind how many agree. The cases
// are standard input, made by compare/make-samples. A case is its kind (one byte), the length of its body (four bytes) and the body; the file of a
// kind says what its body holds. Kinds 0 to 10 are texts, 11 a tree, 12 a rule, 13 a model, 14 a field of bits.
#![tactic(auto)]

mod bit_fields;
mod models;
mod parts;
mod rules;
mod texts;
mod trees;

use std::io;
use std::io::Read;
use texts::Reading;

// No list has more cases, and no case a longer body.
const CASES: u32 = 100000;

const MOST: usize = 65536;

// ---- kinds

#[derive(Clone, Copy)]
enum Kind {
    Reading(Reading),
    Trim,
    Utf8,
    Tree,
    Rule,
    Model,
    Field,
}

// By their numbers.
const KINDS: [(Kind, &str); 15] = [
    (Kind::Reading(Reading::Date), "date"),
    (Kind::Reading(Reading::Time), "time"),
    (Kind::Reading(Reading::Duration), "duration"),
    (Kind::Reading(Reading::Number), "number"),
    (Kind::Reading(Reading::I64), "i64"),
    (Kind::Reading(Reading::U64), "u64"),
    (Kind::Reading(Reading::U32), "u32"),
    (Kind::Reading(Reading::U16), "u16"),
    (Kind::Reading(Reading::I32), "i32"),
    (Kind::Trim, "trim"),
    (Kind::Utf8, "utf8"),
    (Kind::Tree, "tree"),
    (Kind::Rule, "rule"),
    (Kind::Model, "model"),
    (Kind::Field, "field"),
];

// ---- taking a case

// A case is cut, or longer than the room.
#[derive(Clone, Copy)]
struct Cut;

// The next case's kind, and its body, which goes to the front of the room.
fn take_case<'a, R: Read>(
    input: &mut R,
    room: &'a mut [u8],
) -> Result<Option<(u8, &'a [u8])>, Cut> {
    let mut kind = [0u8; 1];
    // No byte, at the end or as a read fails, ends the cases.
    if input.read_exact(&mut kind).is_err() {
        return Ok(None);
    }
    let mut length = [0u8; 4];
    input.read_exact(&mut length).map_err(|_| Cut)?;
    let n = u32::from_be_bytes(length) as usize;
    let body = room.get_mut(..n).ok_or(Cut)?;
    input.read_exact(body).map_err(|_| Cut)?;
    Ok(Some((kind[0], body)))
}

// ---- replaying it

fn agrees(number: u8, body: &[u8]) -> bool {
    let Some((kind, _)) = KINDS.get(usize::from(number)) else {
        return false;
    };
    match kind {
        Kind::Reading(reading) => texts::reading_agrees(*reading, body),
        Kind::Trim => texts::trim_agrees(body),
        Kind::Utf8 => texts::utf8_agrees(body),
        Kind::Tree => trees::agrees(body),
        Kind::Rule => rules::agrees(body),
        Kind::Model => models::agrees(body),
        Kind::Field => bit_fields::agrees(body),
    }
}

// How many cases of a kind agree, and how many there are.
#[derive(Clone, Copy, Default)]
struct Tally {
    agreed: u32,
    all: u32,
}

fn replay<R: Read>(input: &mut R, tallies: &mut [Tally; 256]) -> Result<(), Cut> {
    let mut room = [0u8; MOST];
    for _ in 0..CASES {
        let Some((kind, body)) = take_case(input, &mut room)? else {
            break;
        };
        let t = &mut tallies[usize::from(kind)];
        t.all = t.all.saturating_add(1);
        t.agreed = t.agreed.saturating_add(u32::from(agrees(kind, body)));
    }
    Ok(())
}

// ---- the tally

fn name_of(number: usize) -> &'static str {
    KINDS.get(number).map_or("no kind", |k| k.1)
}

fn put_tallies(rt: &impl Print, tallies: &[Tally; 256]) -> io::Result<()> {
    for (number, t) in tallies.iter().enumerate() {
        if t.all > 0 {
            println!(rt; "{:<9}{} of {} agree", name_of(number), t.agreed, t.all)?;
        }
    }
    Ok(())
}

// A write that fails ends the program, which says nothing of it.
fn main(rt: HostRuntime) {
    let mut tallies = [Tally::default(); 256];
    if replay(&mut rt.reader(), &mut tallies).is_err() && println!(rt; "a case is cut").is_err() {
        return;
    }
    let _ = put_tallies(&rt, &tallies);
}
