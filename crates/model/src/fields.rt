// Fields: how each is passed over, and what is read of it where the next field depends on it. The bytes and the place stay two parameters, here, in
// lists, parts and records, and in model_check, outline and day_sheet: a function gives the place alone, as a Reader that came back would need a promise
// that its bytes are the same ones, in each contract. Two functions of lib.rt have it, for its walk from section to section. A code is the number that
// the format has: what it means is for the crates that write it.
ghost use Rattle.std.specs.Prelude.{◌≡◌, ◌≤◌, false};
ghost use Rattle.definition.specs.Format.{field, code, optional, date, period};
ghost use Rattle.definition.specs.Pack.{constraint};
ghost use Rattle.model.specs.Passes.{Passes};
ghost use Rattle.model.specs.Rising.{Finds, PeriodKey, DayKey};
ghost use Rattle.definition.specs.Pack.{lag_kind};
ghost use Rattle.model.specs.Parts.{text_by};
ghost use Rattle.model.specs.Passes.{Flagged, Repeated};
ghost use Rattle.model.specs.Places.{text_in};

use crate::parts::take_date;
use bits::{Field, PAST, Place, Span};

// Nothing can be read. No Option: 0 is below every item, so a list's one test of its order refuses it too.
const NOTHING: Field<u64> = Field {
    value: 0,
    next: PAST,
};

// The place behind so many bits. Both ends are tested, before the sum and after it, so `bits::take` is not needed, which reads the bits
// too; `place_after` of that crate asks for a bit below 8, and is private to it.
pub(crate) fn skip(s: &[u8], p: Place, width: usize) -> Place
    requires { width ≤ 64 }
    ensures { Passes (field width) s.now p result }
{
    if !bits::inside(s.len(), p) {
        return PAST;
    }
    let end = p.bit + width;
    let q = Place {
        byte: p.byte + end / 8,
        bit: end % 8,
    };
    if !bits::inside(s.len(), q) {
        return PAST;
    }
    q
}

// A code from lo to hi.
pub(crate) fn skip_code(s: &[u8], p: Place, lo: u64, hi: u64) -> Place
    ensures { Passes (code lo hi) s.now p result }
{
    let k = bits::take(s, p, 4);
    if (lo..=hi).contains(&k.value) {
        return k.next;
    }
    PAST
}

// The bytes that a span tells, as far as there are such.
pub fn text_in(s: &[u8], t: Span) -> &[u8]
    ensures { result.now ≡ text_in s.now (t.start, t.len) }
{
    let behind = &s[t.start.min(s.len())..];
    &behind[..t.len.min(behind.len())]
}

// A text. It is tested for UTF-8 where CHECK says so: a model that was opened needs no test.
pub(crate) fn skip_text<const CHECK: bool>(s: &[u8], p: Place) -> Place
    ensures { Passes (text_by CHECK) s.now p result }
{
    let t = bits::take_text(s, p);
    if !CHECK {
        return t.next;
    }
    if !text::is_utf8(text_in(s, t)) {
        return PAST;
    }
    t.next
}

// A date by its number, counted from the year -10000; 0, and a place past every end, where it is outside the years.
pub fn take_date_key(s: &[u8], p: Place) -> Field<u64>
    ensures { Finds date (DayKey false) s.now p result }
{
    let d = take_date(s, p);
    Field {
        value: d.value.map_or(0, |x| u64::from(date::count_of(x))),
        next: d.next,
    }
}

pub(crate) fn skip_date(s: &[u8], p: Place) -> Place
    ensures { Passes date s.now p result }
{
    take_date_key(s, p).next
}

// A period by one number: 2048 times from, and to; 0, and a place past every end, where none is.
pub fn take_period_key(s: &[u8], p: Place) -> Field<u64>
    ensures { Finds period PeriodKey s.now p result }
{
    let from = bits::take(s, p, 11);
    let to = bits::take(s, from.next, 11);
    if to.value <= from.value || 1440 < to.value {
        return NOTHING;
    }
    let next = to.next;
    Field {
        value: from.value * 2048 + to.value,
        next,
    }
}

// ---- what stands several times

// Calls a function that passes over one value so many times. It ends at the first that is refused.
pub(crate) fn skip_times<F: Fn(Place) -> Place>(p: Place, count: usize, skip: F) -> Place
    requires { F.IsAlwaysCallable skip }
    ensures { Repeated (λ q r. F.post skip q r) p count result }
{
    let mut q = p;
    for _ in 0..count {
        q = skip(q);
        if 7 < q.bit {
            return q;
        }
    }
    q
}

// ---- what may be missing

// Behind a flag, passed over by a function where the flag is set.
// By `take` and not `take_flag`: Flagged, on which those below build, speaks of the field of one bit.
fn skip_flagged<F: Fn(&[u8], Place) -> Place>(s: &[u8], p: Place, skip: F) -> Place
    requires { F.IsAlwaysCallable skip }
    ensures { Flagged s.now p result (λ q. F.post skip s.entry q result) }
{
    let f = bits::take(s, p, 1);
    if f.value == 1 {
        return skip(s, f.next);
    }
    f.next
}

// A number or a row.
pub(crate) fn skip_optional(s: &[u8], p: Place, width: usize) -> Place
    requires { width ≤ 64 }
    ensures { Passes (optional (field width)) s.now p result }
{
    skip_flagged(s, p, |s, q| skip(s, q, width))
}

pub(crate) fn skip_optional_date(s: &[u8], p: Place) -> Place
    ensures { Passes (optional date) s.now p result }
{
    skip_flagged(s, p, skip_date)
}

pub(crate) fn skip_optional_text<const CHECK: bool>(s: &[u8], p: Place) -> Place
    ensures { Passes (optional (text_by CHECK)) s.now p result }
{
    skip_flagged(s, p, skip_text::<CHECK>)
}

pub(crate) fn skip_optional_constraint(s: &[u8], p: Place) -> Place
    ensures { Passes (optional constraint) s.now p result }
{
    skip_flagged(s, p, skip_constraint)
}

// ---- codes that a value follows

// A date unless the code is 1.
fn skip_constraint(s: &[u8], p: Place) -> Place
    ensures { Passes constraint s.now p result }
{
    let k = bits::take(s, p, 4);
    match k.value {
        1 => k.next,
        2..=7 => skip_date(s, k.next),
        _ => PAST,
    }
}

// A number if the code is 2.
pub(crate) fn skip_lag_kind(s: &[u8], p: Place) -> Place
    ensures { Passes lag_kind s.now p result }
{
    let k = bits::take(s, p, 4);
    match k.value {
        0 | 1 => k.next,
        2 => skip(s, k.next, 64),
        _ => PAST,
    }
}
