// The day sheet of a model's calendar: the weekday of a date, whether it stands in the holidays and in the extra days, and its periods.
#![tactic(auto)]

ghost use Rattle.std.specs.Prelude.{◌≡◌, List, eqb, length};
ghost use Rattle.definition.specs.Base.{◌or◌, some?};
ghost use Rattle.definition.specs.Date.{Date as DateOf, weekday as weekday_of, from_days};
ghost use Rattle.definition.specs.Format.{Period as PeriodOf, period, periods, dates, times, whole};
ghost use Rattle.definition.specs.Model.{Calendar};
ghost use Rattle.definition.specs.Pack.{calendar as calendar_format};
ghost use Rattle.definition.specs.Calendar.{default_periods, or_hours, hours_on};
ghost use Rattle.definition.specs.DaySheet.{sheet as sheet_format};
ghost use Rattle.definition.specs.Refusal.{day_sheet_answer};
ghost use Rattle.definition.specs.Answer.{answer_length, period_meaning};
ghost use Rattle.bits.specs.Clear.{cleared};
ghost use Rattle.bits.specs.Steps.{Puts};
ghost use Rattle.model.specs.Splits.{Stands};
ghost use Rattle.model.specs.Lists.{Ahead};
ghost use Rattle.day_sheet.specs.Days.{exceptions, Listed, ListedAt, DayIs, day_value};
ghost use Rattle.day_sheet.specs.Answer.{start, Found, leaves, left_by};

use bits::Place;
use definition::{Date, Refusal};
use model::parts::{
    Period, calendar_places, put_period, skip_hours, skip_periods, take_date, take_period,
};
use model::records::{Kind, skip_records};

// ---- what a calendar says of a date. That the day lies in the years is a premise: Date is any number, and the entry refuses those outside

// Whether a list of dates has a day. A scan, once a sheet: the items stand in bits at places that only the one before gives, and are no slice.
fn has_date(s: &[u8], p: Place, day: Date) -> bool
    ensures { (d : DateOf) → from_days day.0 ≡ Some d → (l : List DateOf) → Stands dates s.now p l → result ≡ some? (eqb d) l }
{
    let n = bits::take_u32(s, p);
    let mut q = n.next;
    for _ in 0..n.value {
        let t = take_date(s, q);
        if t.value == Some(day) {
            return true;
        }
        q = t.next;
    }
    false
}

// Where the periods of a day stand among the exceptions, if it is one.
// has_date is this loop over dates alone: one over both would take the step as a closure, and promise of two formats.
fn exception_place(s: &[u8], p: Place, day: Date) -> Option<Place>
    ensures { (d : DateOf) → from_days day.0 ≡ Some d → (l : List (DateOf × List PeriodOf)) → Stands exceptions s.now p l → ListedAt s.now result (hours_on l d) }
{
    let n = bits::take_u32(s, p);
    let mut q = n.next;
    for _ in 0..n.value {
        let t = take_date(s, q);
        if t.value == Some(day) {
            return Some(t.next);
        }
        q = skip_periods(s, t.next);
    }
    None
}

// The place of a day's own periods, or of its weekday's where it has none.
fn first_given(s: &[u8], own: Option<Place>, usual: Place) -> Place
    ensures { (a b : List PeriodOf) → ListedAt s.now own a → Listed s.now usual b → Listed s.now result (or_hours a b) }
{
    match own {
        Some(p) if bits::take_u32(s, p).value != 0 => p,
        _ => usual,
    }
}

// A day in a calendar: where the periods stand that it or its weekday has. The weekday is a number, as the sheet holds it and weeks count with it.
#[derive(Clone, Copy)]
struct Day {
    weekday: u32,
    holiday: bool,
    extra: bool,
    hours: Place,
}

// Of the calendar whose record stands at a place.
fn day_of(s: &[u8], p: Place, day: Date, weekday: u32) -> Day
    ensures { (d : DateOf) → from_days day.0 ≡ Some d → weekday ≡ weekday_of d → (c : Calendar) → Stands (whole calendar_format) s.now p c → DayIs s.now c d result }
{
    let c = calendar_places(s, p);
    let holiday = has_date(s, c.holidays, day);
    let extra = has_date(s, c.extra, day);
    let own = exception_place(s, c.exceptions, day);
    // There is no From from u32 to usize.
    let usual = skip_hours(s, c.hours, weekday as usize);
    let hours = first_given(s, own, usual);
    Day {
        weekday,
        holiday,
        extra,
        hours,
    }
}

// The day in the calendar of a row.
fn find_day(s: &[u8], calendar: u32, date: Date) -> Result<Day, Refusal>
    ensures { Found s.now calendar date.0 result }
{
    let m = model::open(s).ok_or(Refusal::NoModel)?;
    let weekday = date::weekday(date).ok_or(Refusal::Outside)?;
    let calendars = m.calendars;
    if calendars.count <= calendar {
        return Err(Refusal::Outside);
    }
    let first = Place {
        byte: calendars.at,
        bit: 0,
    };
    let p = skip_records(s, first, Kind::Calendars, calendar as usize, false);
    Ok(day_of(s, p, date, weekday))
}

// ---- the sheet written

// The hours of a working day that names none.
fn put_default(out: &mut [u8], p: Place) -> Place
    ensures { Puts periods default_periods out.old p out.new result }
{
    let a = bits::put(out, p, 32, 2);
    let b = put_period(out, a, 480, 720);
    put_period(out, b, 780, 1020)
}

// A period that was taken; from 0 to 0 where there is none, which never is: an opened model holds its periods.
#[tactic(auto, unfolding(definition::specs::Answer::period_meaning))]
fn put_taken(out: &mut [u8], p: Place, t: Option<Period>) -> Place
    ensures { Puts period (period_meaning t or (0, 0)) out.old p out.new result }
{
    let x = t.unwrap_or(Period { from: 0, to: 0 });
    put_period(out, p, u64::from(x.from), u64::from(x.to))
}

// So many periods of the model, one after another.
fn copy_periods(s: &[u8], from: Place, count: u32, out: &mut [u8], p: Place) -> Place
    ensures { (l : List PeriodOf) → Ahead period s.now from count 0 l → Puts (times count period) l out.old p out.new result }
{
    let mut q = from;
    let mut at = p;
    for _ in 0..count {
        let t = take_period(s, q);
        at = put_taken(out, at, t.value);
        q = t.next;
    }
    at
}

// The list of periods at a place of the model, or the default one where that is empty.
fn put_periods(s: &[u8], q: Place, out: &mut [u8], p: Place) -> Place
    ensures { (l : List PeriodOf) → Listed s.now q l → Puts periods (or_hours l default_periods) out.old p out.new result }
{
    let n = bits::take_u32(s, q);
    if n.value == 0 {
        return put_default(out, p);
    }
    let a = bits::put(out, p, 32, u64::from(n.value));
    copy_periods(s, n.next, n.value, out, a)
}

// The sheet of a day, from the first byte on.
fn put_day(s: &[u8], d: Day, out: &mut [u8]) -> Place
    ensures { (l : List PeriodOf) → Listed s.now d.hours l → Puts sheet_format (day_value d l) out.old start out.new result }
{
    let a = bits::put(out, Place { byte: 0, bit: 0 }, 4, u64::from(d.weekday));
    let b = bits::put_flag(out, a, d.holiday);
    let c = bits::put_flag(out, b, d.extra);
    let e = put_periods(s, d.hours, out, c);
    bits::pad(out, e)
}

// The sheet of a day in the calendar of a row, from the first byte on, and where it ends. The caller clears what stands behind it, and
// all where there is no sheet.
fn put_sheet(s: &[u8], calendar: u32, date: Date, out: &mut [u8]) -> Result<usize, Refusal>
    ensures { leaves result (cleared (answer_length result) out.new) ≡ left_by (length out.old) (day_sheet_answer s.now calendar date.0 (length out.old)) }
{
    let d = find_day(s, calendar, date)?;
    let end = put_day(s, d, out);
    if bits::inside(out.len(), end) {
        Ok(end.byte)
    } else {
        Err(Refusal::NoRoom)
    }
}

// The day sheet of a day in the calendar of a row.
pub fn day_sheet(s: &[u8], calendar: u32, date: Date, sheet: &mut [u8]) -> Result<usize, Refusal>
    ensures { leaves result sheet.new ≡ left_by (length sheet.old) (day_sheet_answer s.now calendar date.0 (length sheet.old)) }
{
    let end = put_sheet(s, calendar, date, sheet);
    bits::fill_from(sheet, end.unwrap_or(0), 0);
    end
}
