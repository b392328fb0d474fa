// The records, each from the values in it, with zero bits up to a whole byte.
ghost use Rattle.std.specs.Prelude.{◌≡◌, ◌+◌, ◌%◌, ◌^◌};
ghost use Rattle.definition.specs.Format.{whole};
ghost use Rattle.definition.specs.Pack.{project, activity, link, resource, assignment, expense, counts};
ghost use Rattle.bits.specs.Steps.{Puts};
ghost use Rattle.pack.specs.Record.{link_by, assignment_by, expense_by, project_by, resource_by, activity_by, activity_kind_code, schedule_fields, schedule_of, counts_by};

use crate::stars::Starred;
use crate::value::{LagFields, put_code, put_count, put_date, put_lag, put_number, put_optional};
use bits::Place;
use definition::{Date, PerKind};
use resources::Amounts;
use tasks::{Constraint, Parts};

// How many exceptions were skipped, how many links dangle or go across, and how many kept tasks have a duration
// that was not whole minutes. Four counts side by side: the crate links, which counts two of them, stands above.
#[derive(Clone, Copy, Debug, PartialEq, Eq)]
pub struct Skips {
    pub skipped: u32,
    pub dangling: u32,
    pub across: u32,
    pub fractional: u32,
}

#[derive(Clone, Copy, Debug, PartialEq, Eq)]
pub enum ActivityKind {
    Task = 0,
    StartMilestone = 1,
    FinishMilestone = 2,
}

// The model's codes.
impl From<ActivityKind> for u32 {
    ghost from_gives = { λ kind n. n ≡ activity_kind_code kind };

    fn from(kind: ActivityKind) -> u32 {
        kind as u32
    }
}

// What an activity is: its kind, its duration in days, with the minutes where they are not whole days, and its parent's row. The kind is a number, as is
// the duration type of Progress: a writer takes any, and an enum would ask more of its callers.
#[derive(Clone, Copy, Debug, PartialEq, Eq)]
pub struct Plan {
    pub kind: u32,
    pub duration: Parts,
    pub parent: Option<u32>,
}

#[derive(Clone, Copy, Debug, PartialEq, Eq)]
pub struct Dates {
    pub constraint: Option<Constraint>,
    pub deadline: Option<Date>,
    pub start: Option<Date>,
    pub finish: Option<Date>,
}

#[derive(Clone, Copy, Debug, PartialEq, Eq)]
pub struct Progress {
    pub percent: Option<i64>,
    pub duration_type: u32,
    pub remaining: Option<i64>,
}

// How many records of each kind there are.
pub type Counts = PerKind<u32>;

// The records of a section: how many there are, and the place behind them. The buffer is not in it: it is lent again for each record.
#[derive(Clone, Copy, PartialEq, Eq)]
pub struct Records {
    pub count: u32,
    pub next: Place,
}

impl Records {
    // None, from a place on. A section that is not written has PAST, and no Option: nothing fits behind it either, so that the end is tested once.
    pub fn none(next: Place) -> Records
        ensures { result ≡ record { count = 0; next = next } }
    {
        Records { count: 0, next }
    }

    // One more, behind which `next` stands. The count wraps, since no `requires` bounds it.
    pub fn more(self, next: Place) -> Records
        ensures { result ≡ record { count = (self.count + 1) % 2 ^ 32; next = next } }
    {
        Records {
            count: self.count.wrapping_add(1),
            next,
        }
    }
}

// ---- the records. Codes are numbers here too, for that reason; the enums which turn into them are ActivityKind above, and those of tasks and resources.

#[derive(Clone, Copy, Debug, PartialEq, Eq)]
pub struct Link {
    pub predecessor: u32,
    pub successor: u32,
    pub kind: u32,
    pub lag: LagFields,
}

impl Link {
    pub fn put(self, out: &mut [u8], p: Place) -> Place
        ensures { Puts (whole link) (link_by self) out.old p out.new result }
    {
        let a = put_count(out, p, self.predecessor);
        let b = put_count(out, a, self.successor);
        let c = put_code(out, b, self.kind);
        let d = put_lag(out, c, self.lag);
        bits::pad(out, d)
    }
}

#[derive(Clone, Copy, Debug, PartialEq, Eq)]
pub struct Assignment {
    pub activity: u32,
    pub resource: u32,
    pub work: Amounts,
    pub rate: Option<i64>,
}

impl Assignment {
    pub fn put(self, out: &mut [u8], p: Place) -> Place
        ensures { Puts (whole assignment) (assignment_by self) out.old p out.new result }
    {
        let a = put_count(out, p, self.activity);
        let b = put_count(out, a, self.resource);
        let c = put_number(out, b, self.work.planned);
        let d = put_number(out, c, self.work.actual);
        let e = put_optional(out, d, self.work.remaining);
        let f = put_optional(out, e, self.rate);
        bits::pad(out, f)
    }
}

#[derive(Clone, Copy)]
pub struct Expense<'a> {
    pub activity: u32,
    pub name: &'a [u8],
    pub cost: Amounts,
    pub accrual: u32,
}

impl Expense<'_> {
    pub fn put(self, out: &mut [u8], p: Place) -> Place
        ensures { Puts (whole expense) (expense_by self.entry) out.old p out.new result }
    {
        let a = put_count(out, p, self.activity);
        let b = bits::put_text(out, a, self.name);
        let c = put_number(out, b, self.cost.planned);
        let d = put_number(out, c, self.cost.actual);
        let e = put_optional(out, d, self.cost.remaining);
        let f = put_code(out, e, self.accrual);
        bits::pad(out, f)
    }
}

#[derive(Clone, Copy)]
pub struct Project<'a> {
    pub name: &'a [u8],
    pub start: Date,
    pub currency: &'a [u8],
    pub skips: Skips,
    pub data_date: Option<Date>,
}

impl Project<'_> {
    pub fn put(self, out: &mut [u8], p: Place) -> Place
        ensures { Puts (whole project) (project_by self.entry) out.old p out.new result }
    {
        let a = bits::put_text(out, p, self.name);
        let b = put_date(out, a, self.start);
        let c = bits::put_text(out, b, self.currency);
        let d = put_count(out, c, self.skips.skipped);
        let e = put_count(out, d, self.skips.dangling);
        let f = put_count(out, e, self.skips.across);
        let g = put_count(out, f, self.skips.fractional);
        let h = put_optional(out, g, self.data_date);
        bits::pad(out, h)
    }
}

#[derive(Clone, Copy)]
pub struct Resource<'a> {
    pub id: Starred<'a>,
    pub name: &'a [u8],
    pub kind: u32,
    pub unit: &'a [u8],
    pub max_units: i64,
    pub calendar: Option<Starred<'a>>,
    pub price: Option<i64>,
}

impl Resource<'_> {
    pub fn put(self, out: &mut [u8], p: Place) -> Place
        ensures { Puts (whole resource) (resource_by self.entry) out.old p out.new result }
    {
        let a = self.id.put(out, p);
        let b = bits::put_text(out, a, self.name);
        let c = put_code(out, b, self.kind);
        let d = bits::put_text(out, c, self.unit);
        let e = put_number(out, d, self.max_units);
        let f = put_optional(out, e, self.calendar);
        let g = put_optional(out, f, self.price);
        bits::pad(out, g)
    }
}

#[derive(Clone, Copy)]
pub struct Activity<'a> {
    pub id: Starred<'a>,
    pub name: &'a [u8],
    pub plan: Plan,
    pub notes: &'a [u8],
    pub calendar: Option<Starred<'a>>,
    pub dates: Dates,
    pub progress: Progress,
    pub uid: &'a [u8],
}

impl Activity<'_> {
    // The fields from the notes on.
    fn put_schedule(self, out: &mut [u8], p: Place) -> Place
        ensures { Puts schedule_fields (schedule_of (activity_by self.entry)) out.old p out.new result }
    {
        let a = bits::put_text(out, p, self.notes);
        let b = put_optional(out, a, self.calendar);
        let c = put_optional(out, b, self.dates.constraint);
        let d = put_optional(out, c, self.dates.deadline);
        let e = put_optional(out, d, self.dates.start);
        let f = put_optional(out, e, self.dates.finish);
        let g = put_optional(out, f, self.progress.percent);
        let h = put_code(out, g, self.progress.duration_type);
        let i = put_optional(out, h, self.progress.remaining);
        bits::put_text(out, i, self.uid)
    }

    pub fn put(self, out: &mut [u8], p: Place) -> Place
        ensures { Puts (whole activity) (activity_by self.entry) out.old p out.new result }
    {
        let a = self.id.put(out, p);
        let b = bits::put_text(out, a, self.name);
        let c = put_code(out, b, self.plan.kind);
        let d = put_number(out, c, self.plan.duration.days);
        let e = put_optional(out, d, self.plan.duration.minutes);
        let f = put_optional(out, e, self.plan.parent);
        let g = self.put_schedule(out, f);
        bits::pad(out, g)
    }
}

// ---- counts

pub fn put_counts(out: &mut [u8], p: Place, n: Counts) -> Place
    ensures { Puts counts (counts_by n) out.old p out.new result }
{
    let mut next = p;
    for count in n.each() {
        next = put_count(out, next, count);
    }
    next
}
