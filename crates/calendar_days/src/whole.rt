// The three lists of a calendar's days. What is right is said in the crate definition, specs/Calendar.antt.
ghost use Rattle.std.specs.Prelude.{◌≡◌};
ghost use Rattle.bits.specs.Clear.{cleared};
ghost use Rattle.bits.specs.Steps.{Puts};
ghost use Rattle.tree.specs.Place.{meaning};
ghost use Rattle.calendar.specs.Week.{flags_in};
ghost use Rattle.calendar_days.specs.Over.{Over};
ghost use Rattle.calendar_days.specs.Lists.{day_lists, days_over, lists_at, BaseLists};

use crate::base::{Lists, base_at};
use crate::dates::{put_extra_days, put_holidays};
use crate::days::put_exceptions;
use crate::reach::Source;
use bits::Place;
use tree::Element;

// Holidays, extra days and days with hours of a Calendar, whose week is given, over its base's. The buffer and the words are parameters of their own
// in this crate: they are lent apart, and a struct of them would be lent as a whole to each call.
fn put_lists(
    out: &mut [u8],
    p: Place,
    own: Source<'_>,
    week: u32,
    base: Option<Lists>,
    words: &mut [u32],
) -> Place
    ensures { Over day_lists (BaseLists base) (days_over (meaning own.entry.calendar) (flags_in week)) out.old p out.new result }
{
    let a = put_holidays(out, p, own, week, base, words);
    let b = put_extra_days(out, a, own, week, base, words);
    put_exceptions(out, b, own, base, words)
}

// The same, over the lists that stand from `base` on and end before p, or over none where there are none. The words from `from` on are free.
// Seven parameters: the caller's words go with a place in them, since tables before it count from their front.
pub fn put_days(
    out: &mut [u8],
    p: Place,
    calendar: Element<'_>,
    week: u32,
    base: Place,
    words: &mut [u32],
    from: usize,
) -> Place
    ensures puts { Puts day_lists (days_over (meaning calendar.entry) (flags_in week) (lists_at out.old base p)) out.old p out.new result }
    ensures kept { cleared from words.new ≡ cleared from words.old }
{
    let found = base_at(out, base, p);
    let own = Source::of(calendar);
    let free = from.min(words.len());
    put_lists(out, p, own, week, found, &mut words[free..])
}
