// The exceptions of a calendar, one by one: its WeekDays, of which those of DayType 0 are exceptions in the old form, and its Exceptions. What
// is right is said in the crate definition, specs/Calendar.antt.
ghost use Rattle.std.specs.Prelude.{◌≡◌, ◌+◌, ◌≤◌, ◌<◌, ◌^◌, Some, not, length, drop};
ghost use Rattle.std.specs.Iterator.{YieldsFirstBy, item_count};
ghost use Rattle.std.specs.Option.{option_map};
ghost use Rattle.definition.specs.Base.{some?};
ghost use Rattle.definition.specs.Ascii.{bytes};
ghost use Rattle.definition.specs.Tree.{all};
ghost use Rattle.definition.specs.Calendar.{periods_of, is_empty};
ghost use Rattle.tree.specs.Place.{meaning};
ghost use Rattle.calendar_days.specs.declared.exceptions.Exception.TheVariants.{WeekDay, Recurring};
ghost use Rattle.calendar_days.specs.Exceptions.{placed, item_of, items_of, items_left, items_from, ItemsOf, GivesItems, old_days, days_at, days_in, daily as daily_by, days_left, day_of, such_days, is_time};

use crate::span::YearDate;
use crate::wanted::Wanted;
use recurrence::{Cursor, Range, Rule, Step};
use tree::Element;

// ---- the elements

// An exception of a calendar: a WeekDay, which has days where it is of DayType 0, or an Exception.
#[derive(Clone, Copy)]
pub(crate) enum Exception<'a> {
    WeekDay(Element<'a>),
    Recurring(Element<'a>),
}

impl<'a> Exception<'a> {
    #[tactic(auto, unfolding(crate::specs::Exceptions::placed))]
    pub(crate) fn element(self) -> Element<'a>
        ensures { result ≡ placed self.entry }
    {
        match self {
            Exception::WeekDay(e) => e,
            Exception::Recurring(e) => e,
        }
    }

    // The rule of its days; none where there are no days.
    pub(crate) fn rule(self) -> Option<Rule>
        ensures { days_in result ≡ days_at (item_of self.entry) }
    {
        match self {
            Exception::WeekDay(e) => old_rule(e),
            Exception::Recurring(e) => recurrence::rule_of(e),
        }
    }

    // The one behind the first n of the next ones of its own list.
    fn nth_next(self, n: usize) -> Option<Exception<'a>>
        ensures { items_from result ≡ drop (n + 1) (items_from (Some self.entry)) }
    {
        match self {
            Exception::WeekDay(e) => e.nth_next(b"WeekDay", n).map(Exception::WeekDay),
            Exception::Recurring(e) => e.nth_next(b"Exception", n).map(Exception::Recurring),
        }
    }
}

// The rule of a WeekDay's days.
fn old_rule(e: Element<'_>) -> Option<Rule>
    ensures { days_in result ≡ old_days (meaning e.entry) }
{
    if !calendar::is_old_exception(e) {
        return None;
    }
    recurrence::days_of(e).map(daily)
}

// The exceptions of a calendar, the WeekDays first.
#[derive(Clone, Copy)]
pub(crate) struct Exceptions<'a> {
    week_day: Option<Element<'a>>,
    recurring: Option<Element<'a>>,
}

impl<'a> Exceptions<'a> {
    pub(crate) fn of(calendar: Element<'a>) -> Exceptions<'a>
        ensures are { items_left result ≡ items_of (meaning calendar.entry) }
        ensures of { ItemsOf result calendar.entry.tree.now }
        ensures few { length (items_left result) ≤ length calendar.entry.tree.now + length calendar.entry.tree.now }
    {
        Exceptions {
            week_day: rows::first_in(calendar, b"WeekDays", b"WeekDay"),
            recurring: rows::first_in(calendar, b"Exceptions", b"Exception"),
        }
    }

    // Where each of the two lists begins.
    pub(crate) fn lists(self) -> (Option<Exception<'a>>, Option<Exception<'a>>)
        ensures week_days { result.0 ≡ option_map WeekDay self.entry.week_day }
        ensures recurring { result.1 ≡ option_map Recurring self.entry.recurring }
    {
        (
            self.week_day.map(Exception::WeekDay),
            self.recurring.map(Exception::Recurring),
        )
    }
}

impl<'a> Iterator for Exceptions<'a> {
    type Item = Exception<'a>;

    ghost next_gives = { GivesItems };

    ghost remaining = { item_count items_left };

    fn next(&mut self) -> Option<Exception<'a>> {
        if let Some(e) = self.week_day {
            self.week_day = e.next(b"WeekDay");
            return Some(Exception::WeekDay(e));
        }
        let e = self.recurring?;
        self.recurring = e.next(b"Exception");
        Some(Exception::Recurring(e))
    }
}

// ---- one list by itself, from one of its elements on

// How many there are. By hand: `count` would want an iterator over one list, which nothing else has a use for.
pub(crate) fn count_of(first: Option<Exception<'_>>) -> usize
    requires { length (items_from first) < 2 ^ 64 }
    ensures { result ≡ length (items_from first.entry) }
{
    let mut n = 0;
    let mut next = first;
    while let Some(x) = next {
        n += 1;
        next = x.nth_next(0);
    }
    n
}

// The one behind the first n.
pub(crate) fn nth_of(first: Option<Exception<'_>>, n: usize) -> Option<Exception<'_>>
    ensures { items_from result ≡ drop n (items_from first.entry) }
{
    let Some(k) = n.checked_sub(1) else {
        return first;
    };
    first?.nth_next(k)
}

// ---- the days

// The kind of a daily rule: a number, as recurrence's Rule has it, since callers of that crate may pass any.
pub(crate) const DAILY: u32 = 1;

// Days in a row, as a rule. Not From<Range> for Rule: both types are recurrence's, which has no use for it.
fn daily(r: Range) -> Rule
    ensures { result ≡ daily_by r }
{
    let from = r.first;
    Rule {
        kind: DAILY,
        from,
        last: date::at_count(date::LAST),
        most: r.count,
        period: 1,
        month: None,
        day: 0,
        item: 0,
        position: 0,
        weekdays: 0,
    }
}

// The days of a rule, one after another; none where there is no rule.
#[derive(Clone, Copy)]
pub(crate) struct Days {
    left: Option<(Rule, Cursor)>,
}

impl Days {
    pub(crate) fn of(rule: Option<Rule>) -> Days
        ensures { days_left result ≡ days_in rule }
    {
        Days {
            left: rule.map(|r| (r, recurrence::start(r))),
        }
    }
}

impl Iterator for Days {
    type Item = YearDate;

    ghost next_gives = { YieldsFirstBy day_of days_left };

    ghost remaining = { item_count days_left };

    fn next(&mut self) -> Option<YearDate> {
        let (rule, cursor) = self.left?;
        match recurrence::next(rule, cursor) {
            Step::Day(day, after) => {
                self.left = Some((rule, after));
                Some(YearDate { date: day })
            }
            Step::Done | Step::Skipped => None,
        }
    }
}

// The days of an exception, if they are such; else none.
pub(crate) fn such_days<W: Wanted>(x: Exception<'_>) -> Days
    ensures { days_left result ≡ such_days W.such (item_of x.entry) }
{
    if !W::are_such(x.element()) {
        return Days::of(None);
    }
    Days::of(x.rule())
}

// ---- the hours

fn is_time(t: Element<'_>) -> bool
    ensures { result ≡ is_time (meaning t.entry) }
{
    calendar::working_time(t).is_some()
}

// Whether a WorkingTimes has a time.
fn any_time(times: Element<'_>) -> bool
    ensures { result ≡ some? is_time (all (meaning times.entry) (bytes "WorkingTime")) }
{
    times.children(b"WorkingTime").any(is_time)
}

// Whether a WeekDay or an Exception names hours.
pub(crate) fn has_periods(e: Element<'_>) -> bool
    ensures { result ≡ not (is_empty (periods_of (meaning e.entry))) }
{
    e.child(b"WorkingTimes").is_some_and(any_time)
}
