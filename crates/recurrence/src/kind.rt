// The first day that fits a rule, from a day on, kind by kind: daily, yearly, monthly, weekly. It may lie past the last day. The kind is chosen by
// the Type.
ghost use Rattle.std.specs.Prelude.{◌≡◌, ◌+◌, ◌≤◌};
ghost use Rattle.definition.specs.Date.{last_date};
ghost use Rattle.definition.specs.Recurrence.{fits};
ghost use Rattle.recurrence.specs.Sequence.{FirstFound};
ghost use Rattle.recurrence.specs.Scale.{IsMonth};
ghost use Rattle.recurrence.specs.Kind.{UpTo, Ready, daily_fits, yearly_fits, monthly_fits, weekly_fits, WeekDay, on_mask, IsKind, Chosen};
ghost use Rattle.recurrence.specs.Meaning.{as_rule};

use crate::Rule;
use crate::position::{ByDay, ByPosition, Candidate, sunday_first};
use crate::scale::{Scaled, month_at, year_of};

// How many steps reach n.
fn steps_up(n: u32, step: u32) -> u32
    requires days { n ≤ last_date + 1 }
    requires step { 1 ≤ step }
    requires most { step ≤ 1000 }
    ensures { UpTo n step result }
{
    n.div_ceil(step)
}

// The first day from d on in a week that counts. Weeks begin on the day `sunday`.
fn week_day_from(sunday: u32, step: u32, d: u32) -> u32
    requires sunday { sunday ≤ d }
    requires day { d ≤ last_date + 1 }
    requires step { 1 ≤ step }
    requires most { step ≤ 1000 }
    ensures { WeekDay sunday step d result }
{
    let q = steps_up((d - sunday) / 7, step);
    d.max(sunday + q * step * 7)
}

// Bit 0 for Sunday.
fn on_weekday(weekdays: u32, d: u32) -> bool
    ensures { result ≡ on_mask weekdays d }
{
    (weekdays >> sunday_first(d)) % 2 == 1
}

// The kinds of a rule, by its Type, the yearly ones with their month. An enum and no trait: a rule chooses one by its numbers, at each call.
#[derive(Clone, Copy, Debug, PartialEq, Eq)]
pub(crate) enum Kind {
    Daily,
    YearlyByDay(u32),
    YearlyByPosition(u32),
    MonthlyByDay,
    MonthlyByPosition,
    Weekly,
}

// A Type chooses among the six; any other and, in 2 and 3, a bad Month give no rule.
pub(crate) fn kind_of(r: Rule) -> Option<Kind>
    ensures { Chosen r.kind r.month result }
{
    let month = r.month.filter(|m| (1..=12).contains(m));
    match r.kind {
        1 => Some(Kind::Daily),
        2 => Some(Kind::YearlyByDay(month?)),
        3 => Some(Kind::YearlyByPosition(month?)),
        4 => Some(Kind::MonthlyByDay),
        5 => Some(Kind::MonthlyByPosition),
        6 => Some(Kind::Weekly),
        _ => None,
    }
}

// A rule, and the day from which on a day that fits is looked for.
#[derive(Clone, Copy, Debug, PartialEq, Eq)]
pub(crate) struct Search {
    pub(crate) r: Scaled,
    pub(crate) at: u32,
    ghost ready: { Ready r at },
}

impl Search {
    fn daily(self) -> Option<u32>
        ensures { FirstFound (daily_fits self.r) self.r.last self.at result }
    {
        let q = steps_up(self.at - self.r.from, self.r.rule.period);
        if q < 5000 {
            return Some(self.r.from + q * self.r.rule.period);
        }
        None
    }

    // A candidate a year, 200 years on at most. By `for`, here and in `monthly`: `candidate_in` asks for a year and a month that there are, which the loop
    // knows at each turn; a closure in `find_map` would have to ask for them itself.
    fn yearly<C: Candidate>(self, month: u32) -> Option<u32>
        requires { IsMonth month }
        ensures { FirstFound (yearly_fits C.positioned self.r month) self.r.last self.at result }
    {
        let end = year_of(self.r.last).min(year_of(self.r.from) + 200) + 1;
        for y in year_of(self.at)..end {
            if let Some(x) = C::candidate_in(self.r, y, month) {
                if self.at <= x {
                    return Some(x);
                }
            }
        }
        None
    }

    // A candidate every Period-th month, 2,400 steps on at most.
    fn monthly<C: Candidate>(self) -> Option<u32>
        ensures { FirstFound (monthly_fits C.positioned self.r) self.r.last self.at result }
    {
        let first = month_at(self.r.from);
        let end = month_at(self.r.last);
        for q in steps_up(month_at(self.at) - first, self.r.rule.period)..2400 {
            let k = first + q * self.r.rule.period;
            if end < k {
                return None;
            }
            if let Some(x) = C::candidate_in(self.r, k / 12, k % 12 + 1) {
                if self.at <= x {
                    return Some(x);
                }
            }
        }
        None
    }

    fn weekly(self) -> Option<u32>
        ensures { FirstFound (weekly_fits self.r) self.r.last self.at result }
    {
        let sunday = self.r.from - sunday_first(self.r.from);
        let end = self.r.last.min(self.r.from + 36600);
        let mut d = self.at;
        // no `for`: d leaps over the weeks that do not count
        loop {
            let g = week_day_from(sunday, self.r.rule.period, d);
            if end < g {
                return None;
            }
            if on_weekday(self.r.rule.weekdays, g) {
                return Some(g);
            }
            d = g + 1;
        }
    }

    // The first day from the day on that fits, of a rule of that kind.
    pub(crate) fn first_fit(self, kind: Kind) -> Option<u32>
        requires { IsKind self.r.rule.kind self.r.rule.month kind }
        ensures { FirstFound (fits (as_rule self.r)) self.r.last self.at result }
    {
        match kind {
            Kind::Daily => self.daily(),
            Kind::YearlyByDay(month) => self.yearly::<ByDay>(month),
            Kind::YearlyByPosition(month) => self.yearly::<ByPosition>(month),
            Kind::MonthlyByDay => self.monthly::<ByDay>(),
            Kind::MonthlyByPosition => self.monthly::<ByPosition>(),
            Kind::Weekly => self.weekly(),
        }
    }
}
