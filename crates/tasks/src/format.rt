// Formats of durations and lags. What is right is said in the crate definition, specs/Task.antt.
ghost use Rattle.std.specs.Prelude.{◌≡◌, pos};
ghost use Rattle.definition.specs.Base.{◌or◌};
ghost use Rattle.definition.specs.Task.{not_below0, unmarked};
ghost use Rattle.tree.specs.Place.{meaning};
ghost use Rattle.fields.specs.Said.{whole_said};
ghost use Rattle.tasks.specs.Format.{IsFormat, of_elapsed};

use tree::Element;

// How a duration or a lag is told. An elapsed percentage is both.
#[derive(Clone, Copy, Debug, PartialEq, Eq)]
pub(crate) enum Format {
    Working,
    Elapsed,
    Percent,
    ElapsedPercent,
}

// By MSPDI's code.
impl From<u64> for Format {
    ghost from_gives = { IsFormat };

    fn from(code: u64) -> Format {
        match code {
            4 | 6 | 8 | 10 | 12 => Format::Elapsed,
            19 => Format::Percent,
            20 => Format::ElapsedPercent,
            _ => Format::Working,
        }
    }
}

impl Format {
    pub(crate) fn is_elapsed(self) -> bool
        ensures { result ≡ of_elapsed self }
    {
        matches!(self, Format::Elapsed | Format::ElapsedPercent)
    }
}

// 35 to 52 are 3 to 20 with the mark of an estimate.
fn without_mark(code: u64) -> u64
    ensures { result ≡ unmarked code }
{
    if (35..=52).contains(&code) {
        return code - 32;
    }
    code
}

// Of the format that a child of the name says; its code is 0 where there is none.
pub(crate) fn format_of(e: Element<'_>, name: &[u8]) -> Format
    ensures { IsFormat (unmarked (not_below0 (whole_said (meaning e.entry) name.now or pos 0))) result }
{
    Format::from(without_mark(fields::unsigned_in(e, name, 0, 0)))
}
