// Leaves that the boundary does not export, exported by probe_c for compare/ alone, which sets each beside the Rust on the same texts. The answer of a
// leaf is 0 where there is a value, which `out` then holds, 1 where there is none and 2 where document 01 refuses a number as too long, with 0 in `out`.
// A duration has two values, its minutes and 1 where the sum was whole. Numbers and lent results, no Option, and a function for each type, for C.
#![tactic(auto)]

use definition::{Date, Duration, Unread};

mod days; // rules and their days

ghost use Rattle.std.specs.Prelude.{◌≡◌, eqb, length};
ghost use Rattle.definition.specs.Base.{same, given};
ghost use Rattle.definition.specs.Text.{trim, is_utf8, unsigned_of, signed_of};
ghost use Rattle.definition.specs.Date.{date_of};
ghost use Rattle.definition.specs.Number.{number_of as number_text};
ghost use Rattle.definition.specs.Duration.{duration_of};
ghost use Rattle.definition.specs.Time.{time_of};
ghost use Rattle.definition.specs.Refusal.{tree_refusal};
ghost use Rattle.definition.specs.Pack.{decode};
ghost use Rattle.definition.specs.Answer.{date_meaning, day_number_of};
ghost use Rattle.model.specs.Sections.{opened_number};
ghost use Rattle.probe.specs.Answer.{Put, Whole, Signed, Minutes, Number, code_read, one};

pub use days::{probe_next, probe_rule, probe_week_day};

// ---- whole numbers

// What there is goes to `out`, else the zero.
fn put<T: Copy>(a: Option<T>, zero: T, out: &mut T) -> u32
    ensures { Put zero a result out.new }
{
    *out = a.unwrap_or(zero);
    u32::from(a.is_none())
}

pub fn probe_u64(s: &[u8], out: &mut u64) -> u32
    ensures { Whole (unsigned_of 64 s.now) result out.new }
{
    put(text::whole_of(s), 0, out)
}

pub fn probe_u32(s: &[u8], out: &mut u32) -> u32
    ensures { Whole (unsigned_of 32 s.now) result out.new }
{
    put(text::whole_of(s), 0, out)
}

pub fn probe_u16(s: &[u8], out: &mut u16) -> u32
    ensures { Whole (unsigned_of 16 s.now) result out.new }
{
    put(text::whole_of(s), 0, out)
}

pub fn probe_i64(s: &[u8], out: &mut i64) -> u32
    ensures { Signed (signed_of 64 s.now) result out.new }
{
    put(text::whole_of(s), 0, out)
}

pub fn probe_i32(s: &[u8], out: &mut i32) -> u32
    ensures { Signed (signed_of 32 s.now) result out.new }
{
    put(text::whole_of(s), 0, out)
}

// ---- texts

// How long the trimmed text is.
pub fn probe_trim(s: &[u8]) -> usize
    ensures { result ≡ length (trim s.now) }
{
    text::trim(s).len()
}

// Whether the trimmed text is t.
#[tactic(auto, using(text::proofs::Equal::same_is))]
pub fn probe_trimmed(s: &[u8], t: &[u8]) -> u32
    ensures { result ≡ one (same (trim s.now) t.now) }
{
    u32::from(text::trim(s) == t)
}

pub fn probe_utf8(s: &[u8]) -> u32
    ensures { result ≡ one (is_utf8 s.now) }
{
    u32::from(text::is_utf8(s))
}

// ---- dates

fn number_by(a: Option<Date>) -> Option<i32>
    ensures { result ≡ date_meaning a }
{
    a.map(|d| d.0)
}

pub fn probe_date(s: &[u8], out: &mut i32) -> u32
    ensures { Signed (day_number_of (date_of s.now)) result out.new }
{
    put(number_by(date::date_of(s)), 0, out)
}

// ---- numbers, durations, times

// The answer of a leaf that may refuse a number.
fn answer_of<T: Copy>(a: Result<T, Unread>) -> u32
    ensures { result ≡ code_read a }
{
    match a {
        Ok(_) => 0,
        Err(Unread::Absent) => 1,
        Err(Unread::Long) => 2,
    }
}

pub fn probe_time(s: &[u8], out: &mut u16) -> u32
    ensures { Whole (time_of s.now) result out.new }
{
    put(number::time_of(s), 0, out)
}

pub fn probe_duration(s: &[u8], minutes: &mut u32, whole: &mut u32) -> u32
    ensures { Minutes (duration_of s.now) result minutes.new whole.new }
{
    let a = number::duration_of(s);
    let d = a.unwrap_or(Duration {
        minutes: 0,
        whole: false,
    });
    *minutes = d.minutes;
    *whole = u32::from(d.whole);
    answer_of(a)
}

pub fn probe_number(s: &[u8], out: &mut f64) -> u32
    ensures { Number (number_text s.now) result out.new }
{
    let a = number::number_of(s);
    *out = a.unwrap_or(0.0);
    answer_of(a)
}

// ---- trees

// The refusal of a tree, 0 for none. mspdi has number_of for answers of any type, and stands apart: this is its one use here.
pub fn probe_tree(s: &[u8]) -> u32
    ensures { result ≡ tree_refusal s.now }
{
    match tree::judge(s) {
        Ok(()) => 0,
        Err(e) => u32::from(e),
    }
}

// ---- models

// Whether a model decodes.
pub fn probe_model(s: &[u8]) -> u32
    ensures { result ≡ one (given (decode s.now)) }
{
    u32::from(model::open(s).is_some())
}
