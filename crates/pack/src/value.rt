// The fields of a record, and values that may be missing.
ghost use Rattle.std.specs.Prelude.{ℕ, ℤ, ◌≡◌, refl, Bool, Option, Some, None};
ghost use Rattle.definition.specs.Date.{day_number, Date as DateOf};
ghost use Rattle.definition.specs.Format.{Format, depending, ◌⊗◌, count, row, code, number, date, optional};
ghost use Rattle.definition.specs.Pack.{constraint};
ghost use Rattle.bits.specs.Steps.{Puts};
ghost use Rattle.definition.specs.Pack.{lag_kind};
ghost use Rattle.pack.specs.Value.{lag_fields, lag_values, date_by, date_given, date_none, date_some, constraint_by, constraint_given, constraint_none, constraint_some};

use bits::Place;
use definition::Date;
use tasks::{Constraint, Lag};

// A count or a row. `bits::put` by a name for the width, as put_code and calendars' put_week: each clause names a format, which no width tells.
pub fn put_count(out: &mut [u8], p: Place, n: u32) -> Place
    ensures { Puts count n out.old p out.new result }
{
    bits::put(out, p, 32, u64::from(n))
}

// A code, whatever its range.
pub(crate) fn put_code(out: &mut [u8], p: Place, v: u32) -> Place
    ensures { (lo hi : ℕ) → Puts (code lo hi) v out.old p out.new result }
{
    bits::put(out, p, 4, u64::from(v))
}

pub(crate) fn put_number(out: &mut [u8], p: Place, v: i64) -> Place
    ensures { Puts number v out.old p out.new result }
{
    bits::put_i64(out, p, v)
}

// The number of a day in the years; for any other that of 1 January of the year -10000, which no model holds: a Date may hold any number, and a
// writer cannot fail.
fn day_number(d: Date) -> i32
    ensures { result ≡ day_number (date_by d.0) }
{
    date::from_days(d.0).unwrap_or(date::ORIGIN).0
}

pub fn put_date(out: &mut [u8], p: Place, d: Date) -> Place
    ensures { Puts date (date_by d.0) out.old p out.new result }
{
    bits::put_i32(out, p, day_number(d))
}

// ---- values that may be missing

// A value of a record that may be missing: its format, and what it means.
pub(crate) trait Put {
    ghost Meant: { Type 0 };

    ghost format: { Format Meant };

    ghost means: { Self → Meant };

    ghost given: { Option Self → Option Meant };

    fn put(self, out: &mut [u8], p: Place) -> Place
        ensures { Puts format (means self) out.old p out.new result };

    ghost of_none: { given None ≡ None };

    ghost of_some: { (x : Self) → given (Some x) ≡ Some (means x) };
}

impl Put for i64 {
    ghost Meant = { ℤ };

    ghost format = { number };

    ghost means = { λ x. x };

    ghost given = { λ x. x };

    ghost of_none = { refl };

    ghost of_some = { λ x. refl };

    fn put(self, out: &mut [u8], p: Place) -> Place {
        put_number(out, p, self)
    }
}

// A row.
impl Put for u32 {
    ghost Meant = { ℕ };

    ghost format = { row };

    ghost means = { λ x. x };

    ghost given = { λ x. x };

    ghost of_none = { refl };

    ghost of_some = { λ x. refl };

    fn put(self, out: &mut [u8], p: Place) -> Place {
        put_count(out, p, self)
    }
}

impl Put for Date {
    ghost Meant = { DateOf };

    ghost format = { date };

    ghost means = { λ x. date_by x.0 };

    ghost given = { date_given };

    ghost of_none = { date_none };

    ghost of_some = { date_some };

    fn put(self, out: &mut [u8], p: Place) -> Place {
        put_date(out, p, self)
    }
}

pub(crate) fn put_optional<T: Put>(out: &mut [u8], p: Place, v: Option<T>) -> Place
    ensures { Puts (optional T.format) (T.given v) out.old p out.new result }
{
    match v {
        Some(v) => {
            let q = bits::put_flag(out, p, true);
            v.put(out, q)
        }
        None => bits::put_flag(out, p, false),
    }
}

// ---- constraints and lags

// A code, and behind it a value where there is one.
fn put_coded<T: Put>(out: &mut [u8], p: Place, k: u32, v: Option<T>) -> Place
    ensures { (lo hi : ℕ) (has : ℕ → Bool) → Puts (depending (code lo hi) has T.format) (k, T.given v) out.old p out.new result }
{
    let q = put_code(out, p, k);
    match v {
        Some(v) => v.put(out, q),
        None => q,
    }
}

impl Put for Constraint {
    ghost Meant = { ℕ × Option DateOf };

    ghost format = { constraint };

    ghost means = { constraint_by };

    ghost given = { constraint_given };

    ghost of_none = { constraint_none };

    ghost of_some = { constraint_some };

    fn put(self, out: &mut [u8], p: Place) -> Place {
        put_coded(out, p, self.code(), self.date())
    }
}

// A lag as the format has it: the days and the minutes, and the code of its kind, 0 working time, 1 elapsed time, 2 a share of the predecessor's
// duration, with that share. The code is a number, as record.rt says: any four values may be put.
#[derive(Clone, Copy, Debug, PartialEq, Eq)]
pub struct LagFields {
    pub days: i64,
    pub minutes: Option<i64>,
    pub kind: u32,
    pub share: Option<i64>,
}

impl From<Lag> for LagFields {
    ghost from_gives = { λ lag r. lag_fields r ≡ lag_values lag };

    fn from(lag: Lag) -> LagFields {
        let (days, minutes, kind, share) = match lag {
            Lag::Days(days) => (days, None, 0, None),
            Lag::Minutes(minutes) => (0, Some(minutes), 0, None),
            Lag::Elapsed(minutes) => (0, Some(minutes), 1, None),
            Lag::Share(share) => (0, None, 2, Some(share)),
        };
        LagFields {
            days,
            minutes,
            kind,
            share,
        }
    }
}

pub(crate) fn put_lag(out: &mut [u8], p: Place, lag: LagFields) -> Place
    ensures { Puts (number ⊗ optional number ⊗ lag_kind) (lag_fields lag) out.old p out.new result }
{
    let a = put_number(out, p, lag.days);
    let b = put_optional(out, a, lag.minutes);
    put_coded(out, b, lag.kind, lag.share)
}
