// The values of an Assignment. What is right is said in the crate definition, specs/Resource.antt.
ghost use Rattle.std.specs.Prelude.{◌≡◌, ◌^◌, ◌≤◌, nat_abs};
ghost use Rattle.definition.specs.Base.{◌>>=◌ as bind};
ghost use Rattle.definition.specs.Resource.{left_of, other_than, hours_from, hours_in, money_from, money_in, rate_of};
ghost use Rattle.tree.specs.Place.{meaning};
ghost use Rattle.fields.specs.Said.{number_said, minutes_said};
ghost use Rattle.resources.specs.Assignment.{Small, Means};

use crate::resource::units;
use tree::Element;

// Hundredths: of an hour for an assignment, of the currency for an expense.
#[derive(Clone, Copy, Debug, PartialEq, Eq)]
pub struct Amounts {
    pub planned: i64,
    pub actual: i64,
    pub remaining: Option<i64>,
}

// Planned less actual, at least 0. That an amount is at most 10 ^ 18 stands in clauses, here and below: a struct with a ghost field for it would need a
// file of its own, as no definition over it may stand in a specs file that its own file uses, and the clauses a map from it to the number.
fn left(planned: i64, actual: i64) -> i64
    requires planned_small { nat_abs planned ≤ 10 ^ 18 }
    requires actual_small { nat_abs actual ≤ 10 ^ 18 }
    ensures { result ≡ left_of planned actual }
{
    (planned - actual).max(0)
}

// The number, unless it is z.
fn other_than(z: i64, a: Option<i64>) -> Option<i64>
    ensures { result ≡ other_than z a }
{
    a.filter(|y| *y != z)
}

// 0 for a missing one; a remaining that is what is left is dropped.
fn amounts_of(planned: Option<i64>, actual: Option<i64>, remaining: Option<i64>) -> Amounts
    requires planned_small { Small planned }
    requires actual_small { Small actual }
    ensures { Means result planned actual remaining }
{
    let planned = planned.unwrap_or(0);
    let actual = actual.unwrap_or(0);
    Amounts {
        planned,
        actual,
        remaining: other_than(left(planned, actual), remaining),
    }
}

// ---- hours

// Minutes as hundredths of an hour.
fn hours(e: Element<'_>, name: &[u8]) -> Option<i64>
    ensures is { result ≡ bind (minutes_said (meaning e.entry) name.now) hours_from }
    ensures small { Small result }
{
    Some(i64::from(fields::minutes_in(e, name)?) * 100 / 60)
}

#[tactic(auto, unfolding(definition::specs::Field::minutes_in))]
pub fn work(e: Element<'_>) -> Amounts
    ensures { Means result (hours_in (meaning e.entry) "Work") (hours_in (meaning e.entry) "ActualWork") (hours_in (meaning e.entry) "RemainingWork") }
{
    amounts_of(
        hours(e, b"Work"),
        hours(e, b"ActualWork"),
        hours(e, b"RemainingWork"),
    )
}

// Hundredths of Units, of one from 0 to 1,000,000, unless they are 100.
#[tactic(auto, unfolding(definition::specs::Field::number_in))]
pub fn rate(e: Element<'_>) -> Option<i64>
    ensures { result ≡ rate_of (meaning e.entry) }
{
    other_than(100, units(e, b"Units"))
}

// ---- money

// Not inlined, for the reason at units_from (resource.rt).
#[inline(never)]
fn money_from(m: f64) -> Option<i64>
    ensures { result ≡ money_from m }
{
    ((-1e13 < m) & (m < 1e13)).then(|| number::hundredths(m))
}

// Hundredths of an amount below 10,000,000,000,000 either way.
fn money(e: Element<'_>, name: &[u8]) -> Option<i64>
    ensures is { result ≡ bind (number_said (meaning e.entry) name.now) money_from }
    ensures small { Small result }
{
    fields::number_in(e, name).and_then(money_from)
}

// Not one function with `work`: it would take the reader as a closure, with a promise that what it reads is small, and three names.
#[tactic(auto, unfolding(definition::specs::Field::number_in))]
pub fn cost(e: Element<'_>) -> Amounts
    ensures { Means result (money_in (meaning e.entry) "Cost") (money_in (meaning e.entry) "ActualCost") (money_in (meaning e.entry) "RemainingCost") }
{
    amounts_of(
        money(e, b"Cost"),
        money(e, b"ActualCost"),
        money(e, b"RemainingCost"),
    )
}
