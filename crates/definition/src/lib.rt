// The types that the definitions and the code share. What they mean is said in specs/.
#![tactic(auto)]

ghost use Rattle.std.specs.Prelude.{◌≡◌};
ghost use Rattle.std.specs.Prelude.{Some};
ghost use Rattle.definition.specs.Answer.{refusal_number, refusal_text, each_of};

use std::error::Error;
use std::fmt;

// The four figures of a duration text.
#[derive(Clone, Copy)]
pub struct Figures {
    pub days: f64,
    pub hours: f64,
    pub minutes: f64,
    pub seconds: f64,
}

// The minutes of a duration text, and whether the sum was whole before it was rounded.
#[derive(Clone, Copy, Debug, PartialEq, Eq)]
pub struct Duration {
    pub minutes: u32,
    // No Option of the minutes: they stand, rounded, where the sum was not whole too.
    pub whole: bool,
}

// Why a text gives no value: it is none, or a number in it is too long to be read exactly, which refuses the tree.
#[derive(Clone, Copy, Debug, PartialEq, Eq)]
pub enum Unread {
    Absent,
    Long,
}

// A day of the calendar: year, month from 1, day from 1.
#[derive(Clone, Copy, Debug, PartialEq, Eq, PartialOrd, Ord)]
pub struct Ymd {
    pub year: i32,
    pub month: u32,
    pub day: u32,
}

// A day: its number, 0 for 1 January 1970.
#[derive(Clone, Copy, Debug, PartialEq, Eq, PartialOrd, Ord)]
pub struct Date(pub i32);

// Minutes of a day, from one to another. What is read of a tree or of a model has the second after the first.
#[derive(Clone, Copy, Debug, PartialEq, Eq)]
pub struct Period {
    pub from: u16,
    pub to: u16,
}

// A value for each of the six kinds of records.
#[derive(Clone, Copy, Debug, Default, PartialEq, Eq)]
pub struct PerKind<T> {
    pub calendars: T,
    pub activities: T,
    pub links: T,
    pub resources: T,
    pub assignments: T,
    pub expenses: T,
}

impl<T: Copy> PerKind<T> {
    // One by one, as a model has them.
    pub fn each(self) -> [T; 6]
        ensures { result ≡ each_of self }
    {
        [
            self.calendars,
            self.activities,
            self.links,
            self.resources,
            self.assignments,
            self.expenses,
        ]
    }
}

// Why a call is refused.
#[derive(Clone, Copy, Debug, PartialEq, Eq)]
pub enum Refusal {
    Layout = 1,
    Utf8 = 2,
    TooMany = 3,
    NoProject = 4,
    TooLong = 5,
    NoModel = 6,
    ListBroken = 7,
    Outside = 8,
    NoRoom = 9,
}

// The numbers that a host sees.
impl From<Refusal> for u32 {
    ghost from_gives = { λ e n. n ≡ refusal_number e };

    fn from(e: Refusal) -> u32 {
        e as u32
    }
}

impl fmt::Display for Refusal {
    ghost output = { λ e. Some (refusal_text e) };

    fn fmt<W: fmt::Write>(&self, f: &mut fmt::Formatter<W>) -> fmt::Result {
        f.write_str(match self {
            Refusal::Layout => "the tree breaks the layout",
            Refusal::Utf8 => "a name or a text is not UTF-8",
            Refusal::TooMany => "the tree has over 5,000,000 elements",
            Refusal::NoProject => "the root is not a Project",
            Refusal::TooLong => "a number is too long",
            Refusal::NoModel => "the model does not decode",
            Refusal::ListBroken => "the model does not keep the list of the check",
            Refusal::Outside => "a value is asked for outside its range",
            Refusal::NoRoom => "the result is longer than its buffer",
        })
    }
}

impl Error for Refusal {}
