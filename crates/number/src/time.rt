// Times of day, as minutes.
ghost use Rattle.std.specs.Prelude.{◌≡◌};
ghost use Rattle.definition.specs.Text.{unsigned_of};
ghost use Rattle.definition.specs.Time.{is_colon, time_parts, time_of};
ghost use Rattle.text.specs.Cut.{place_of};
ghost use Rattle.number.specs.Time.{time_at, joined};

// h hours and m minutes.
fn time_at(h: u16, m: u16) -> Option<u16>
    ensures { result ≡ time_at h m }
{
    if h > 24 || m >= 60 {
        return None;
    }
    let t = h * 60 + m;
    (t <= 1440).then_some(t)
}

// Hours and minutes, 0 minutes where there is no colon.
fn time_parts(s: &[u8]) -> Option<u16>
    ensures { result ≡ time_parts s.now }
{
    let (hours, rest) = text::cut_at(s, b':').unwrap_or((s, b"0"));
    time_at(
        text::whole_of(hours)?,
        text::whole_of(text::before(rest, b':'))?,
    )
}

// The time of day that s is. A function and no TryFrom: a text is bytes and a time a u16, and neither type is of this crate.
pub fn time_of(s: &[u8]) -> Option<u16>
    ensures { result ≡ time_of s.now }
{
    time_parts(text::trim(s))
}
