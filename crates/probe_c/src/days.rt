// Rules and their days.
ghost use Rattle.std.specs.Prelude.{◌≡◌};
ghost use Rattle.definition.specs.Recurrence.{rule_of, days_of};
ghost use Rattle.tree.specs.Place.{element_at};
ghost use Rattle.recurrence.specs.Meaning.{step_of};
ghost use Rattle.recurrence.specs.Element.{rule_by, range_by};
ghost use Rattle.probe.specs.Fields.{fields_of, run_of, Told, rule, cursor};

// The rule of a tree whose root is an Exception; zeros where there is none.
#[unsafe(no_mangle)]
pub extern "C" fn probe_rule(
    s: &[u8],
    kind: &mut u32,
    from: &mut u32,
    last: &mut u32,
    most: &mut u32,
    period: &mut u32,
    month: &mut u32,
    day: &mut u32,
    item: &mut u32,
    position: &mut u32,
    weekdays: &mut u32,
)
    ensures { record { kind = kind.exit.now; from = from.new; last = last.new; most = most.new; period = period.new; month = month.new; day = day.new; item = item.new; position = position.new; weekdays = weekdays.new } ≡ fields_of (rule_by (rule_of (element_at s.now 0))) }
{
    probe::probe_rule(
        s, kind, from, last, most, period, month, day, item, position, weekdays,
    );
}

// The next day of a rule: 0 with the day and what is to come, 1 where no day is left, 2 where it is no rule.
#[unsafe(no_mangle)]
pub extern "C" fn probe_next(
    kind: u32,
    from: u32,
    last: u32,
    most: u32,
    period: u32,
    month: u32,
    monthday: u32,
    item: u32,
    position: u32,
    weekdays: u32,
    at: &mut u32,
    left: &mut u32,
    day: &mut u32,
) -> u32
    ensures { Told (step_of (rule kind from last most period month monthday item position weekdays) (cursor at.old left.old)) at.old left.old result day.new at.new left.new }
{
    probe::probe_next(
        kind, from, last, most, period, month, monthday, item, position, weekdays, at, left, day,
    )
}

// The days of a tree whose root is a WeekDay: the first, and how many.
#[unsafe(no_mangle)]
pub extern "C" fn probe_week_day(s: &[u8], first: &mut u32, count: &mut u32)
    ensures { record { first = first.exit.now; count = count.new } ≡ run_of (range_by (days_of (element_at s.now 0))) }
{
    probe::probe_week_day(s, first, count);
}
