// The values of a PredecessorLink. What is right is said in the crate definition, specs/Link.antt.
ghost use Rattle.std.specs.Prelude.{ℕ, ◌≡◌, ◌^◌, ◌<◌, nat_abs};
ghost use Rattle.definition.specs.Field.{yes_in};
ghost use Rattle.definition.specs.Link.{working_lag, lag_of, link_lag, link_kind};
ghost use Rattle.tree.specs.Place.{meaning};
ghost use Rattle.tasks.specs.Format.{IsFormat};
ghost use Rattle.tasks.specs.Link.{lag_means, link_kind_code};

use crate::format::{Format, format_of};
use crate::value::quotient;
use tree::Element;

// How long after its predecessor a successor comes.
#[derive(Clone, Copy, Debug, PartialEq, Eq)]
pub enum Lag {
    // Working time: in days, or in minutes where they are not whole days.
    Days(i64),
    Minutes(i64),
    // Elapsed time, in minutes.
    Elapsed(i64),
    // A share of the predecessor's duration, in hundredths of a percent.
    Share(i64),
}

// Which end of the predecessor the link leaves, and which end of the successor it enters.
#[derive(Clone, Copy, Debug, PartialEq, Eq)]
pub enum LinkKind {
    FinishToStart = 0,
    StartToStart = 1,
    FinishToFinish = 2,
    StartToFinish = 3,
}

// The model's codes.
impl From<LinkKind> for u32 {
    ghost from_gives = { λ kind n. n ≡ link_kind_code kind };

    fn from(kind: LinkKind) -> u32 {
        kind as u32
    }
}

// ---- the lag

fn working_lag(per_day: u64, minutes: i64) -> Lag
    requires { nat_abs minutes < 2 ^ 63 }
    ensures { lag_means result ≡ working_lag per_day minutes }
{
    let size = minutes.unsigned_abs();
    if size.is_multiple_of(per_day) {
        let days = quotient(size, per_day).cast_signed();
        return Lag::Days(days * minutes.signum());
    }
    Lag::Minutes(minutes)
}

// A lag in tenths of a minute, or of a percent.
fn lag_of(per_day: u64, format: Format, tenths: i64) -> Lag
    ensures { (code : ℕ) → IsFormat code format → lag_means result ≡ lag_of per_day code tenths }
{
    match format {
        Format::Percent | Format::ElapsedPercent => {
            Lag::Share(tenths.clamp(-1000000, 1000000) * 10)
        }
        Format::Elapsed => Lag::Elapsed(tenths / 10),
        Format::Working => working_lag(per_day, tenths / 10),
    }
}

// The lag of a link, with so many minutes a day. LinkLag is held to -100,000,000,000 to 100,000,000,000, and 0 where there is none.
pub fn link_lag(link: Element<'_>, per_day: u64) -> Lag
    ensures { lag_means result ≡ link_lag per_day (meaning link.entry) }
{
    let tenths = fields::int_in(link, b"LinkLag")
        .unwrap_or(0)
        .clamp(-100000000000, 100000000000);
    let format = format_of(link, b"LagFormat");
    lag_of(per_day, format, tenths)
}

// ---- the kind

#[tactic(auto, unfolding(definition::specs::Field::int_in))]
pub fn link_kind(link: Element<'_>) -> LinkKind
    ensures { link_kind_code result ≡ link_kind (meaning link.entry) }
{
    match fields::int_in(link, b"Type") {
        Some(0) => LinkKind::FinishToFinish,
        Some(2) => LinkKind::StartToFinish,
        Some(3) => LinkKind::StartToStart,
        _ => LinkKind::FinishToStart,
    }
}

// Across projects. A name for a yes under another name, like `milestone`: what they share is `fields::yes_in`.
#[tactic(auto, unfolding(definition::specs::Field::yes_in))]
pub fn is_across(link: Element<'_>) -> bool
    ensures { result ≡ yes_in (meaning link.entry) "CrossProject" }
{
    fields::yes_in(link, b"CrossProject")
}
