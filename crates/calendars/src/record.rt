// One calendar over its base. What is right is said in the crate definition, specs/Calendar.antt.
ghost use Rattle.std.specs.Prelude.{◌≡◌};
ghost use Rattle.definition.specs.Base.{find_last};
ghost use Rattle.definition.specs.Format.{periods};
ghost use Rattle.definition.specs.Calendar.{week_days};
ghost use Rattle.tree.specs.Place.{meaning};
ghost use Rattle.bits.specs.Clear.{cleared};
ghost use Rattle.bits.specs.Steps.{Puts};
ghost use Rattle.rows.specs.Rows.{found_meaning};
ghost use Rattle.calendars.specs.Base.{days_place};
ghost use Rattle.calendars.specs.Record.{on_place, hours_of, WeekRead, CopiesHours, BaseHours, PutsHours, PutsWeekHours, PutsCalendar};

use crate::plain::{WORKDAYS, put_week};
use bits::{PAST, Place};
use calendar_days::{put_days, put_periods};
use model::parts::CalendarPlaces;
use pack::{Starred, put_count};
use tree::Element;

// ---- the week

// The base's week, as a word.
fn base_week(out: &[u8], base: Option<CalendarPlaces>) -> u32
    ensures { WeekRead base out.now result }
{
    // `map_or` was tried: the proof learns too little of what the closure gives. `u32::try_from` would have an error that cannot occur.
    match base {
        Some(c) => bits::take(out, c.week, 7).value as u32,
        None => WORKDAYS,
    }
}

// ---- the hours: of each day the last WeekDay of its place decides

// Whether a WeekDay is of a day, 0 for Monday.
fn is_of(e: Element<'_>, day: u32) -> bool
    ensures { result ≡ on_place day (meaning e.entry) }
{
    calendar::day_place(e) == Some(day)
}

// The last WeekDay of a Calendar for a day.
fn last_day(e: Element<'_>, day: u32) -> Option<Element<'_>>
    ensures { found_meaning result ≡ find_last (on_place day) (week_days (meaning e.entry)) }
{
    // The last by hand: `.filter(..).last()` was tried, and the search finds no way from `last` to find_last.
    let mut found = None;
    for d in e.child(b"WeekDays")?.children(b"WeekDay") {
        let named = is_of(d, day).then_some(d);
        found = named.or(found);
    }
    found
}

// The hours of a WeekDay, none where it is not worked.
fn put_own_hours(out: &mut [u8], p: Place, e: Element<'_>) -> Place
    ensures { Puts periods (hours_of (meaning e.entry)) out.old p out.new result }
{
    if calendar::day_working(e) {
        put_periods(out, p, e)
    } else {
        put_count(out, p, 0)
    }
}

// The base's hours of a day, from the place of its hours, written again.
fn copy_hours(out: &mut [u8], p: Place, hours: Place, day: u32) -> Place
    ensures { CopiesHours day hours out.old p out.new result }
{
    // `as`: usize has no `From<u32>`.
    let from = model::parts::skip_hours(out, hours, day as usize);
    let to = model::parts::skip_periods(out, from);
    bits::copy_bits(out, from, to, p)
}

fn put_base_hours(out: &mut [u8], p: Place, base: Option<CalendarPlaces>, day: u32) -> Place
    ensures { BaseHours base day out.old p out.new result }
{
    // Both arms write, so that a closure would borrow what the other writes.
    match base {
        Some(c) => copy_hours(out, p, c.hours, day),
        None => put_count(out, p, 0),
    }
}

// ---- the whole

// Where the base's lists of days stand; nowhere, past every end, where there is none: `put_days` finds no list there, as where the base's do not fit.
#[tactic(auto, unfolding(crate::specs::Base::days_place))]
fn days_place(base: Option<CalendarPlaces>) -> Place
    ensures { result ≡ days_place base }
{
    base.map_or(PAST, |c| c.holidays)
}

// A Calendar that is written over its base, its name with so many `*` behind it.
#[derive(Clone, Copy)]
pub(crate) struct Entry<'a> {
    pub calendar: Element<'a>,
    pub base: Option<CalendarPlaces>,
    pub stars: u32,
}

impl Entry<'_> {
    fn put_hours_of(self, out: &mut [u8], p: Place, day: u32) -> Place
        ensures { PutsHours (week_days (meaning self.entry.calendar)) day self.entry.base out.old p out.new result }
    {
        match last_day(self.calendar, day) {
            Some(d) => put_own_hours(out, p, d),
            None => put_base_hours(out, p, self.base, day),
        }
    }

    fn put_hours(self, out: &mut [u8], p: Place) -> Place
        ensures { PutsWeekHours (week_days (meaning self.entry.calendar)) self.entry.base out.old p out.new result }
    {
        let mut q = p;
        for day in 0..7 {
            q = self.put_hours_of(out, q, day);
        }
        q
    }

    // The words from `from` on are free; a place and no slice, as in built.rt.
    pub(crate) fn put(self, out: &mut [u8], p: Place, words: &mut [u32], from: usize) -> Place
        ensures written { PutsCalendar (meaning self.entry.calendar) self.entry.stars self.entry.base out.old p out.new result }
        ensures kept { cleared from words.new ≡ cleared from words.old }
    {
        let e = self.calendar;
        let name = Starred {
            text: names::calendar_text(e),
            stars: self.stars,
        };
        let a = name.put(out, p);
        let week = calendar::week_of(e, base_week(out, self.base));
        let b = put_week(out, a, week);
        let c = self.put_hours(out, b);
        let d = put_days(out, c, e, week, days_place(self.base), words, from);
        bits::pad(out, d)
    }
}
