// A rule and its days: how many there are, FFFFFFFF where it is skipped (four bytes), a checksum of them (four bytes), and the tree, whose
// root is an Exception. The checksum goes on by check * 31 + day modulo 4294967291, a day being counted from 1 January of the year -9999.
use crate::parts;
use definition::Date;
use recurrence::{Rule, Step};
use tree::Element;

// How many days there are, and their checksum.
#[derive(Clone, Copy, PartialEq, Eq)]
struct Sum {
    days: u32,
    check: u64,
}

// As the cases have it.
const SKIPPED: Sum = Sum {
    days: 4294967295,
    check: 0,
};

// 1 January of the year -9999 is 0.
fn from_first(d: Date) -> u64 {
    u64::from(date::days_between(Date(-4371587), d))
}

fn with_day(check: u64, day: u64) -> u64 {
    (check % 4294967296 * 31 + day % 4294967296) % 4294967291
}

// No rule has more than 5,000 days; one turn more would find another. A loop over `next`: recurrence's
// `days` ends alike where no day is left and where it is no rule, which are told apart here.
fn sum_of(r: Rule) -> Sum {
    let mut cursor = recurrence::start(r);
    let mut t = Sum { days: 0, check: 0 };
    for days in 1..=5001 {
        match recurrence::next(r, cursor) {
            Step::Day(d, after) => {
                cursor = after;
                t = Sum {
                    days,
                    check: with_day(t.check, from_first(d)),
                };
            }
            Step::Done => return t,
            Step::Skipped => return SKIPPED,
        }
    }
    t
}

pub fn agrees(body: &[u8]) -> bool {
    let expected = Sum {
        days: parts::number(body),
        check: u64::from(parts::number(parts::behind(body, 4))),
    };
    let tree = parts::behind(body, 8);
    let a = recurrence::rule_of(Element { tree, at: 0 });
    a.map_or(SKIPPED, sum_of) == expected
}
