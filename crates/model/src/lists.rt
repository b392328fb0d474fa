// Lists: periods, days, a week's hours. A list ends at the first item that is refused, whatever its count says.
ghost use Rattle.std.specs.Prelude.{Bool, false, true, ℕ};
ghost use Rattle.definition.specs.Format.{Format, Period as Minutes, period, earlier, list_of, periods, times};
ghost use Rattle.model.specs.Passes.{Passes};
ghost use Rattle.model.specs.Rising.{Finds, Keys, PeriodKey, DayOf, DayKey, day_of, day_before, days_of, by_period, by_day_lem};

use crate::fields::skip_times;
pub use crate::fields::{take_date_key, take_period_key};
use bits::{Field, PAST, Place};
use definition::{Date, Period};

// What a list holds in rising order, each item above the one before by a number of its own.
trait Item {
    ghost Value: { Type 0 };

    ghost format: { Format Value };

    ghost before: { Value → Value → Bool };

    ghost key: { Value → ℕ → Type 0 };

    // The number of the item at a place, and the place behind it; 0, and a place past every end, where none is.
    fn take(s: &[u8], p: Place) -> Field<u64>
        ensures { Finds format key s.now p result };

    ghost keys: { Keys before key };
}

impl Item for Period {
    ghost Value = { Minutes };

    ghost format = { period };

    ghost before = { earlier };

    ghost key = { PeriodKey };

    fn take(s: &[u8], p: Place) -> Field<u64> {
        take_period_key(s, p)
    }

    ghost keys = { by_period };
}

impl Item for Date {
    ghost Value = { DayOf false };

    ghost format = { day_of false };

    ghost before = { day_before false };

    ghost key = { DayKey false };

    fn take(s: &[u8], p: Place) -> Field<u64> {
        take_date_key(s, p)
    }

    ghost keys = { by_day_lem false };
}

// A date with its periods: the name alone, as no value holds both.
struct WorkingDay;

impl Item for WorkingDay {
    ghost Value = { DayOf true };

    ghost format = { day_of true };

    ghost before = { day_before true };

    ghost key = { DayKey true };

    fn take(s: &[u8], p: Place) -> Field<u64> {
        let d = take_date_key(s, p);
        let next = skip_periods(s, d.next);
        Field {
            value: d.value,
            next,
        }
    }

    ghost keys = { by_day_lem true };
}

// The items stand in bits one behind the other, so there is no slice for `is_sorted`.
fn skip_list<T: Item>(s: &[u8], p: Place) -> Place
    ensures { Passes (list_of T.before T.format) s.now p result }
{
    let n = bits::take_u32(s, p);
    let mut q = n.next;
    let mut last = 0;
    for _ in 0..n.value {
        let item = T::take(s, q);
        if item.value <= last {
            return PAST;
        }
        last = item.value;
        q = item.next;
    }
    q
}

// Periods.
pub fn skip_periods(s: &[u8], p: Place) -> Place
    ensures { Passes periods s.now p result }
{
    skip_list::<Period>(s, p)
}

// Dates, each with its periods or alone. The flag is a value, as a caller may have it only as it runs; inside it is the type of the item.
pub fn skip_days(s: &[u8], p: Place, hours: bool) -> Place
    ensures { Passes (days_of hours) s.now p result }
{
    if hours {
        skip_list::<WorkingDay>(s, p)
    } else {
        skip_list::<Date>(s, p)
    }
}

// So many lists of periods: a week's, or those of the days before one.
pub fn skip_hours(s: &[u8], p: Place, count: usize) -> Place
    ensures { Passes (times count periods) s.now p result }
{
    skip_times(p, count, |q| skip_periods(s, q))
}
