// A text and what its reading gives: a tag (one byte), a value (eight bytes), the text. Tags: 0 absent, 1 the value, 2 the number -1 - value, 3
// a number that is too long. A duration's value is its minutes, with 2^32 added where the sum was not whole. A float's value is its bits; a trimmed
// text begins at value / 65536 and is value % 65536 bytes long.
use crate::parts;
use definition::{Duration, Unread};

#[derive(Clone, Copy)]
pub enum Reading {
    Date,
    Time,
    Duration,
    Number,
    I64,
    U64,
    U32,
    U16,
    I32,
}

// ---- cases

#[derive(Clone, Copy)]
struct Case<'a> {
    tag: u8,
    value: u64,
    text: &'a [u8],
}

fn case_of(body: &[u8]) -> Option<Case<'_>> {
    if body.len() < 9 {
        return None;
    }
    Some(Case {
        tag: body[0],
        value: parts::word(&body[1..]),
        text: &body[9..],
    })
}

// What a case expects of a reading.
fn expected(tag: u8, value: u64) -> Option<Result<i128, Unread>> {
    match tag {
        0 => Some(Err(Unread::Absent)),
        1 => Some(Ok(i128::from(value))),
        2 => Some(Ok(-1 - i128::from(value))),
        3 => Some(Err(Unread::Long)),
        _ => None,
    }
}

// ---- readings

// A whole number, a date's or a time's.
fn whole<T: Copy + Into<i128>>(a: Option<T>) -> Result<i128, Unread> {
    a.map(|n| n.into()).ok_or(Unread::Absent)
}

fn duration_value(d: Duration) -> i128 {
    i128::from(u64::from(d.minutes) + (u64::from(!d.whole) << 32))
}

// No case expects what stands for NaN, which may have any bits.
fn float_value(x: f64) -> i128 {
    if x.is_nan() {
        i128::MIN
    } else {
        i128::from(x.to_bits())
    }
}

fn read(kind: Reading, s: &[u8]) -> Result<i128, Unread> {
    match kind {
        Reading::Date => whole(date::date_of(s).map(|d| d.0)),
        Reading::Time => whole(number::time_of(s)),
        Reading::Duration => number::duration_of(s).map(duration_value),
        Reading::Number => number::number_of(s).map(float_value),
        Reading::I64 => whole(text::whole_of::<i64>(s)),
        Reading::U64 => whole(text::whole_of::<u64>(s)),
        Reading::U32 => whole(text::whole_of::<u32>(s)),
        Reading::U16 => whole(text::whole_of::<u16>(s)),
        Reading::I32 => whole(text::whole_of::<i32>(s)),
    }
}

pub fn reading_agrees(kind: Reading, body: &[u8]) -> bool {
    let Some(case) = case_of(body) else {
        return false;
    };
    expected(case.tag, case.value) == Some(read(kind, case.text))
}

// ---- texts

pub fn trim_agrees(body: &[u8]) -> bool {
    let Some(case) = case_of(body) else {
        return false;
    };
    let from = (case.value / 65536) as usize;
    let count = (case.value % 65536) as usize;
    let trimmed = text::trim(case.text);
    let part = parts::first(parts::behind(case.text, from), count);
    trimmed.len() == count && trimmed == part
}

pub fn utf8_agrees(body: &[u8]) -> bool {
    let Some(case) = case_of(body) else {
        return false;
    };
    case.value == u64::from(text::is_utf8(case.text))
}
