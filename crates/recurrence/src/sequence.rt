// The days of a rule, one after the other.
ghost use Rattle.std.specs.Prelude.{◌≡◌, [], IsTrue, MatchOption};
ghost use Rattle.std.specs.Iterator.{YieldsFirstBy, item_count};
ghost use Rattle.definition.specs.Base.{◌or◌};
ghost use Rattle.recurrence.specs.Days.{days_left, day_of};
ghost use Rattle.recurrence.specs.Kind.{IsKind};
ghost use Rattle.recurrence.specs.Meaning.{sound, days_by, coming, Comes, to_come, said, start_of, step_of};

use crate::kind::{Kind, Search, kind_of};
use crate::scale::{Scaled, to_scale};
use crate::{Cursor, Rule, Step};
use date::{FIRST, LAST, at_count, count_of};
use definition::Date;

// Its dates are such, and its Period is held.
fn is_sound(r: Scaled) -> bool
    ensures { result ≡ sound r }
{
    (FIRST..=LAST).contains(&r.from) & ((r.last <= LAST) & (1..=1000).contains(&r.rule.period))
}

// The first of the days to come.
fn day_from(kind: Kind, r: Scaled, c: Cursor) -> Option<u32>
    requires sound { IsTrue (sound r) }
    requires kind { IsKind r.rule.kind r.rule.month kind }
    ensures { MatchOption result (coming r c ≡ []) (λ x. Comes r c x) }
{
    let at = r.from.max(count_of(c.at));
    if c.left == 0 || r.last < at {
        return None;
    }
    Search { r, at }.first_fit(kind).filter(|x| *x <= r.last)
}

// The cursor that leaves all days to come.
pub fn start(r: Rule) -> Cursor
    ensures { (result ≡ start_of r) × (to_come r result ≡ days_by r) }
{
    let at = r.from;
    Cursor { at, left: r.most }
}

// The next day, with the cursor that leaves the rest to come.
pub fn next(r: Rule, c: Cursor) -> Step
    ensures { (result ≡ step_of r c) × (said r result ≡ to_come r c) }
{
    let t = to_scale(r);
    if !is_sound(t) {
        return Step::Skipped;
    }
    let Some(kind) = kind_of(r) else {
        return Step::Skipped;
    };
    let Some(x) = day_from(kind, t, c) else {
        return Step::Done;
    };
    let behind = Cursor {
        at: at_count(x + 1),
        left: c.left - 1,
    };
    Step::Day(at_count(x), behind)
}

// The days of a rule as an iterator; none where the rule is none.
#[derive(Clone, Copy, Debug, PartialEq, Eq)]
pub struct RuleDays {
    rule: Rule,
    cursor: Cursor,
}

// Not `Days`: a function and a type whose names differ only in case cannot stand together.
pub fn days(r: Rule) -> RuleDays
    ensures { days_left result ≡ (days_by r or []) }
{
    RuleDays {
        rule: r,
        cursor: start(r),
    }
}

impl Iterator for RuleDays {
    type Item = Date;

    ghost next_gives = { YieldsFirstBy day_of days_left };

    ghost remaining = { item_count days_left };

    fn next(&mut self) -> Option<Date> {
        let Step::Day(day, after) = next(self.rule, self.cursor) else {
            return None;
        };
        self.cursor = after;
        Some(day)
    }
}
