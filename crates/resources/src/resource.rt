// The values of a Resource. What is right is said in the crate definition, specs/Resource.antt.
ghost use Rattle.std.specs.Prelude.{◌≡◌};
ghost use Rattle.definition.specs.Base.{◌>>=◌ as bind};
ghost use Rattle.definition.specs.Resource.{is_resource, is_cost, resource_kind, units_from, max_units, price_from, price_of, accrual_of};
ghost use Rattle.tree.specs.Place.{meaning};
ghost use Rattle.fields.specs.Said.{number_said};
ghost use Rattle.resources.specs.Resource.{resource_kind_code, accrual_code};

use tree::Element;

#[derive(Clone, Copy, Debug, PartialEq, Eq)]
pub enum ResourceKind {
    Labor = 0,
    Material = 2,
}

// The model's codes.
impl From<ResourceKind> for u32 {
    ghost from_gives = { λ kind n. n ≡ resource_kind_code kind };

    fn from(kind: ResourceKind) -> u32 {
        kind as u32
    }
}

// When the cost of a resource falls due.
#[derive(Clone, Copy, Debug, PartialEq, Eq)]
pub enum Accrual {
    AtStart = 0,
    AtEnd = 1,
    Evenly = 2,
}

// The model's codes.
impl From<Accrual> for u32 {
    ghost from_gives = { λ accrual n. n ≡ accrual_code accrual };

    fn from(accrual: Accrual) -> u32 {
        accrual as u32
    }
}

// A UID other than `0`, and a name.
pub fn is_resource(e: Element<'_>) -> bool
    ensures { result ≡ is_resource (meaning e.entry) }
{
    fields::own_uid(e) & fields::given(e, b"Name")
}

#[tactic(auto, unfolding(definition::specs::Field::int_in))]
pub fn is_cost(e: Element<'_>) -> bool
    ensures { result ≡ is_cost (meaning e.entry) }
{
    fields::int_in(e, b"Type") == Some(2)
}

#[tactic(auto, unfolding(definition::specs::Field::int_in))]
pub fn resource_kind(e: Element<'_>) -> ResourceKind
    ensures { resource_kind_code result ≡ resource_kind (meaning e.entry) }
{
    match fields::int_in(e, b"Type") {
        Some(0) => ResourceKind::Material,
        _ => ResourceKind::Labor,
    }
}

// A test and then hundredths, here and in price_from, money_from and tasks::percent_from: each has its own bounds, and the others' are open below, which
// no `..` writes and a pair of Bounds would write longer. Those of this crate are not inlined: the compiler lays a function's constants side by side,
// and of these bounds, powers of ten, no two are to stand in a row.
#[inline(never)]
fn units_from(u: f64) -> Option<i64>
    ensures { result ≡ units_from u }
{
    (0.0..=1000000.0)
        .contains(&u)
        .then(|| number::hundredths(u))
}

// Hundredths of a number from 0 to 1,000,000.
pub(crate) fn units(e: Element<'_>, name: &[u8]) -> Option<i64>
    ensures { result ≡ bind (number_said (meaning e.entry) name.now) units_from }
{
    fields::number_in(e, name).and_then(units_from)
}

// Hundredths of MaxUnits, of one from 0 to 1,000,000; else 100.
#[tactic(auto, unfolding(definition::specs::Field::number_in))]
pub fn max_units(e: Element<'_>) -> i64
    ensures { result ≡ max_units (meaning e.entry) }
{
    units(e, b"MaxUnits").unwrap_or(100)
}

#[inline(never)]
fn price_from(p: f64) -> Option<i64>
    ensures { result ≡ price_from p }
{
    ((0.0 < p) & (p < 1e13)).then(|| number::hundredths(p))
}

// Hundredths of StandardRate, of one above 0 and below 10,000,000,000,000.
#[tactic(auto, unfolding(definition::specs::Field::number_in))]
pub fn price(e: Element<'_>) -> Option<i64>
    ensures { result ≡ price_of (meaning e.entry) }
{
    fields::number_in(e, b"StandardRate").and_then(price_from)
}

#[tactic(auto, unfolding(definition::specs::Field::int_in))]
pub fn accrual_of(e: Element<'_>) -> Accrual
    ensures { accrual_code result ≡ accrual_of (meaning e.entry) }
{
    match fields::int_in(e, b"AccrueAt") {
        Some(1) => Accrual::AtStart,
        Some(2) => Accrual::AtEnd,
        _ => Accrual::Evenly,
    }
}
