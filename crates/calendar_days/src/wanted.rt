// Which days of a calendar's exceptions are wanted for a list: holidays, extra days or days with hours.
ghost use Rattle.std.specs.Prelude.{◌≡◌, Bool, true, not};
ghost use Rattle.definition.specs.Tree.{Element as Said};
ghost use Rattle.definition.specs.Date.{Date as DateOf};
ghost use Rattle.definition.specs.Calendar.{works};
ghost use Rattle.tree.specs.Place.{meaning};
ghost use Rattle.calendar.specs.Week.{flags_in};
ghost use Rattle.pack.specs.Value.{date_by};
ghost use Rattle.calendar_days.specs.Exceptions.{such_off, such_on, such_hours};

use crate::exceptions::has_periods;
use crate::span::YearDate;
use tree::Element;

// What a list wants.
pub(crate) trait Wanted: Copy {
    ghost such: { Said → Bool };

    ghost test: { Self → DateOf → Bool };

    // Whether the days of a WeekDay or an Exception are such.
    fn are_such(e: Element<'_>) -> bool
        ensures { result ≡ such (meaning e.entry) };

    // Whether one of them counts, by its weekday.
    fn counts(self, d: YearDate) -> bool
        ensures { result ≡ test self (date_by d.date.0) };
}

// Holidays: days off, on the working weekdays of a week.
#[derive(Clone, Copy)]
pub(crate) struct Holidays {
    pub(crate) week: u32,
}

// Extra days: days worked without hours, on the other weekdays.
#[derive(Clone, Copy)]
pub(crate) struct ExtraDays {
    pub(crate) week: u32,
}

// Days worked with hours, all of them.
#[derive(Clone, Copy)]
pub(crate) struct WithHours;

impl Wanted for Holidays {
    ghost such = { such_off };

    ghost test = { λ h. works (flags_in h.week) };

    #[tactic(auto, using(crate::proofs::Loops::off_is))]
    fn are_such(e: Element<'_>) -> bool {
        !calendar::day_working(e)
    }

    fn counts(self, d: YearDate) -> bool {
        calendar::works(self.week, d.date)
    }
}

impl Wanted for ExtraDays {
    ghost such = { such_on };

    ghost test = { λ h d. not (works (flags_in h.week) d) };

    #[tactic(auto, using(crate::proofs::Loops::on_worked, crate::proofs::Loops::on_off))]
    fn are_such(e: Element<'_>) -> bool {
        calendar::day_working(e) && !has_periods(e)
    }

    fn counts(self, d: YearDate) -> bool {
        !calendar::works(self.week, d.date)
    }
}

impl Wanted for WithHours {
    ghost such = { such_hours };

    ghost test = { λ h d. true };

    #[tactic(auto, using(crate::proofs::Loops::hours_worked, crate::proofs::Loops::hours_off))]
    fn are_such(e: Element<'_>) -> bool {
        calendar::day_working(e) && has_periods(e)
    }

    fn counts(self, _d: YearDate) -> bool {
        true
    }
}
