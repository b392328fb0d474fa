// The hours of a WorkingTime. What is right is said in the crate definition, specs/Calendar.antt.
ghost use Rattle.std.specs.Prelude.{if◌then◌else◌, ◌≡◌, nat_eq};
ghost use Rattle.definition.specs.Answer.{period_meaning};
ghost use Rattle.definition.specs.Calendar.{working_time};
ghost use Rattle.tree.specs.Place.{meaning};
ghost use Rattle.calendar.specs.Hours.{time_said, time_by};

use definition::Period;
use tree::Element;

// What a WorkingTime says, under the name that a plan has for it.
pub type WorkingTime = Period;

// As the readers of `fields`.
fn time_in(e: Element<'_>, name: &[u8]) -> Option<u16>
    ensures { result ≡ time_said (meaning e.entry) name.now }
{
    number::time_of(e.text_of(name))
}

// 00:00 at the end means 24:00; no word of the library says so.
fn end_of(t: u16) -> u16
    ensures { result ≡ (if nat_eq t 0 then 1440 else t) }
{
    if t == 0 {
        return 1440;
    }
    t
}

fn time_by(from: Option<u16>, until: Option<u16>) -> Option<Period>
    ensures { period_meaning result ≡ time_by from until }
{
    let from = from?;
    let until = until?;
    let to = end_of(until);
    if from < to {
        return Some(Period { from, to });
    }
    None
}

// FromTime to ToTime.
pub fn working_time(e: Element<'_>) -> Option<Period>
    ensures { period_meaning result ≡ working_time (meaning e.entry) }
{
    let from = time_in(e, b"FromTime");
    time_by(from, time_in(e, b"ToTime"))
}
