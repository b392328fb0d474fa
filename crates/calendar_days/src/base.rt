// The lists of days of the calendar that another one is based on.
ghost use Rattle.std.specs.Prelude.{◌≡◌};
ghost use Rattle.calendar_days.specs.Days.{holidays_in, extra_days_in, exceptions_in};
ghost use Rattle.calendar_days.specs.Lists.{lists_at, BaseLists};

use bits::Place;

// Where its holidays, its extra days and its days with hours stand, and where those end. Not model's CalendarPlaces, which has a calendar's week and
// hours too: these are read alone, behind those.
#[derive(Clone, Copy)]
pub(crate) struct Lists {
    pub(crate) holidays: Place,
    pub(crate) extra: Place,
    pub(crate) exceptions: Place,
    pub(crate) end: Place,
}

// Where a list stands: from a place to another.
#[derive(Clone, Copy)]
pub(crate) struct Stretch {
    pub(crate) from: Place,
    pub(crate) to: Place,
}

impl Lists {
    pub(crate) fn holidays(self) -> Stretch
        ensures { result ≡ holidays_in self }
    {
        Stretch {
            from: self.holidays,
            to: self.extra,
        }
    }

    pub(crate) fn extra_days(self) -> Stretch
        ensures { result ≡ extra_days_in self }
    {
        Stretch {
            from: self.extra,
            to: self.exceptions,
        }
    }

    pub(crate) fn exceptions(self) -> Stretch
        ensures { result ≡ exceptions_in self }
    {
        Stretch {
            from: self.exceptions,
            to: self.end,
        }
    }
}

// The lists that stand from a place on, if they end before p.
pub(crate) fn base_at(s: &[u8], from: Place, p: Place) -> Option<Lists>
    ensures { BaseLists result s.now p (lists_at s.now from p) }
{
    let extra = model::lists::skip_days(s, from, false);
    let exceptions = model::lists::skip_days(s, extra, false);
    let end = model::lists::skip_days(s, exceptions, true);
    if !bits::inside(s.len(), end) || p < end {
        return None;
    }
    Some(Lists {
        holidays: from,
        extra,
        exceptions,
        end,
    })
}
