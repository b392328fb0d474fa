// A value in a child.
// Each reader has its own answer, and a name that callers read: one generic function would need a trait over the answers, which is no plainer.
ghost use Rattle.std.specs.Prelude.{◌≡◌, []};
ghost use Rattle.std.specs.Option.{option_map};
ghost use Rattle.definition.specs.Base.{◌>>=◌ as bind, same, ◌or◌, given as present};
ghost use Rattle.definition.specs.Tree.{text_of};
ghost use Rattle.definition.specs.Date.{date_of};
ghost use Rattle.definition.specs.Number.{number_of, found};
ghost use Rattle.definition.specs.Answer.{date_meaning, day_number_of};
ghost use Rattle.definition.specs.Task.{own_uid};
ghost use Rattle.definition.specs.Field.{not_whole};
ghost use Rattle.tree.specs.Place.{meaning};
ghost use Rattle.tree.specs.Root.{own_text};
ghost use Rattle.fields.specs.Answers.{other_text, unsigned_or};
ghost use Rattle.fields.specs.Said.{yes_said, whole_said, date_said, number_said, duration_said, minutes_said};

use crate::value::{minutes_of, not_whole, unsigned_or};
use definition::Date;
use tree::Element;

// The text; an empty one counts as absent.
pub fn text_in<'a>(e: Element<'a>, name: &[u8]) -> Option<&'a [u8]>
    ensures { option_map (λ t. t.now) result ≡ text_of (meaning e.entry) name.now }
{
    let text = e.text_of(name);
    (!text.is_empty()).then_some(text)
}

// Whether there is a text. Not by `text_in`: the test is as short.
pub fn given(e: Element<'_>, name: &[u8]) -> bool
    ensures { result ≡ present (text_of (meaning e.entry) name.now) }
{
    !e.text_of(name).is_empty()
}

// Whether the text is `value`; a missing one is empty.
pub fn text_is(e: Element<'_>, name: &[u8], value: &[u8]) -> bool
    ensures { result ≡ same (text_of (meaning e.entry) name.now or []) value.now }
{
    e.text_of(name) == value
}

// Whether there is a text other than `value`.
pub fn other_than(e: Element<'_>, name: &[u8], value: &[u8]) -> bool
    ensures { result ≡ other_text (text_of (meaning e.entry) name.now) value.now }
{
    text_in(e, name).is_some_and(|t| t != value)
}

// A UID other than `0`.
pub fn own_uid(e: Element<'_>) -> bool
    ensures { result ≡ own_uid (meaning e.entry) }
{
    other_than(e, b"UID", b"0")
}

pub fn yes_in(e: Element<'_>, name: &[u8]) -> bool
    ensures { result ≡ yes_said (meaning e.entry) name.now }
{
    text::is_yes(e.text_of(name))
}

// A whole number of 64 bits.
pub fn int_in(e: Element<'_>, name: &[u8]) -> Option<i64>
    ensures { result ≡ whole_said (meaning e.entry) name.now }
{
    text::whole_of(e.text_of(name))
}

// The same, with what stands for one below 0 and for a missing one.
pub fn unsigned_in(e: Element<'_>, name: &[u8], below: u64, absent: u64) -> u64
    ensures { result ≡ unsigned_or below absent (whole_said (meaning e.entry) name.now) }
{
    unsigned_or(int_in(e, name), below, absent)
}

pub fn date_in(e: Element<'_>, name: &[u8]) -> Option<Date>
    ensures { date_meaning result ≡ day_number_of (date_said (meaning e.entry) name.now) }
{
    date::date_of(e.text_of(name))
}

// One that is too long gives none: a tree with it is refused as a whole.
pub fn number_in(e: Element<'_>, name: &[u8]) -> Option<f64>
    ensures { result ≡ number_said (meaning e.entry) name.now }
{
    number::number_of(e.text_of(name)).ok()
}

pub fn minutes_in(e: Element<'_>, name: &[u8]) -> Option<u32>
    ensures { result ≡ minutes_said (meaning e.entry) name.now }
{
    minutes_of(number::duration_of(e.text_of(name)))
}

// Whether there is a duration that gives minutes and whose sum was not whole.
pub fn fraction_in(e: Element<'_>, name: &[u8]) -> bool
    ensures { result ≡ not_whole (duration_said (meaning e.entry) name.now) }
{
    not_whole(number::duration_of(e.text_of(name)))
}

// What an element says itself.
pub fn date_at(e: Element<'_>) -> Option<Date>
    ensures { date_meaning result ≡ day_number_of (bind (own_text (meaning e.entry)) date_of) }
{
    date::date_of(e.own_text())
}

pub fn number_at(e: Element<'_>) -> Option<f64>
    ensures { result ≡ bind (own_text (meaning e.entry)) (λ t. found (number_of t)) }
{
    number::number_of(e.own_text()).ok()
}
