// Rules and their days. A rule goes out and comes in by its fields; a day goes as its count from 1 January of the
// year -10000 on, 0 for none, and what lies past 31 December 9999 comes in as the day behind that; a month goes by
// its number, 13 for none. Fields, Run and what `told` answers are numbers for C.
ghost use Rattle.std.specs.Prelude.{◌≡◌, Some};
ghost use Rattle.definition.specs.Base.{◌or◌};
ghost use Rattle.definition.specs.Recurrence.{rule_of, days_of};
ghost use Rattle.tree.specs.Place.{element_at};
ghost use Rattle.recurrence.specs.Meaning.{step_of};
ghost use Rattle.recurrence.specs.Element.{rule_by, range_by};
ghost use Rattle.probe.specs.Fields.{day_at, month_at, fields_of, run_of, Told, rule, cursor};

use date::{LAST, at_count, count_of};
use definition::Date;
use recurrence::{Cursor, Range, Rule, Step};
use tree::Element;

// ---- days

fn day_at(n: u32) -> Date
    ensures { result ≡ day_at n }
{
    at_count(n.min(LAST + 1))
}

// ---- a month, 13 for none

fn month_at(n: u32) -> Option<u32>
    ensures { result ≡ month_at n }
{
    (n != 13).then_some(n)
}

// ---- a rule

#[derive(Clone, Copy, Default)]
struct Fields {
    kind: u32,
    from: u32,
    last: u32,
    most: u32,
    period: u32,
    month: u32,
    day: u32,
    item: u32,
    position: u32,
    weekdays: u32,
}

impl From<Rule> for Fields {
    ghost from_gives = { λ r f. f ≡ fields_of (Some r) };

    fn from(r: Rule) -> Fields {
        Fields {
            kind: r.kind,
            from: count_of(r.from),
            last: count_of(r.last),
            most: r.most,
            period: r.period,
            month: r.month.unwrap_or(13),
            day: r.day,
            item: r.item,
            position: r.position,
            weekdays: r.weekdays,
        }
    }
}

impl From<Fields> for Rule {
    ghost from_gives = { λ f r. r ≡ rule f.kind f.from f.last f.most f.period f.month f.day f.item f.position f.weekdays };

    fn from(f: Fields) -> Rule {
        Rule {
            kind: f.kind,
            from: day_at(f.from),
            last: day_at(f.last),
            most: f.most,
            period: f.period,
            month: month_at(f.month),
            day: f.day,
            item: f.item,
            position: f.position,
            weekdays: f.weekdays,
        }
    }
}

// The rule of a tree whose root is an Exception; zeros where there is none.
pub fn probe_rule(
    s: &[u8],
    kind: &mut u32,
    from: &mut u32,
    last: &mut u32,
    most: &mut u32,
    period: &mut u32,
    month: &mut u32,
    day: &mut u32,
    item: &mut u32,
    position: &mut u32,
    weekdays: &mut u32,
)
    ensures { record { kind = kind.exit.now; from = from.new; last = last.new; most = most.new; period = period.new; month = month.new; day = day.new; item = item.new; position = position.new; weekdays = weekdays.new } ≡ fields_of (rule_by (rule_of (element_at s.now 0))) }
{
    let f = recurrence::rule_of(Element { tree: s, at: 0 })
        .map(Fields::from)
        .unwrap_or_default();
    *kind = f.kind;
    *from = f.from;
    *last = f.last;
    *most = f.most;
    *period = f.period;
    *month = f.month;
    *day = f.day;
    *item = f.item;
    *position = f.position;
    *weekdays = f.weekdays;
}

// ---- a step

fn told(s: Step, at: &mut u32, left: &mut u32, day: &mut u32) -> u32
    ensures { Told s at.old left.old result day.new at.new left.new }
{
    match s {
        Step::Day(d, c) => {
            *at = count_of(c.at);
            *left = c.left;
            *day = count_of(d);
            0
        }
        Step::Done => {
            *day = 0;
            1
        }
        Step::Skipped => {
            *day = 0;
            2
        }
    }
}

// The next day of a rule: 0 with the day and what is to come, 1 where no day is left, 2 where it is no rule.
pub fn probe_next(
    kind: u32,
    from: u32,
    last: u32,
    most: u32,
    period: u32,
    month: u32,
    monthday: u32,
    item: u32,
    position: u32,
    weekdays: u32,
    at: &mut u32,
    left: &mut u32,
    day: &mut u32,
) -> u32
    ensures { Told (step_of (rule kind from last most period month monthday item position weekdays) (cursor at.old left.old)) at.old left.old result day.new at.new left.new }
{
    let r = Rule::from(Fields {
        kind,
        from,
        last,
        most,
        period,
        month,
        day: monthday,
        item,
        position,
        weekdays,
    });
    let c = Cursor {
        at: day_at(*at),
        left: *left,
    };
    told(recurrence::next(r, c), at, left, day)
}

// ---- days in a row

#[derive(Clone, Copy, Default)]
struct Run {
    first: u32,
    count: u32,
}

impl From<Range> for Run {
    ghost from_gives = { λ r n. n ≡ run_of (Some r) };

    fn from(r: Range) -> Run {
        Run {
            first: count_of(r.first),
            count: r.count,
        }
    }
}

// The days of a tree whose root is a WeekDay: the first, and how many.
pub fn probe_week_day(s: &[u8], first: &mut u32, count: &mut u32)
    ensures { record { first = first.exit.now; count = count.new } ≡ run_of (range_by (days_of (element_at s.now 0))) }
{
    let r = recurrence::days_of(Element { tree: s, at: 0 })
        .map(Run::from)
        .unwrap_or_default();
    *first = r.first;
    *count = r.count;
}
