// Duration texts, as minutes, and whether the sum was whole before it was rounded.
ghost use Rattle.std.specs.Prelude.{◌≡◌, T, [], position};
ghost use Rattle.definition.specs.Duration.{is_unit, set_unit, not_below_zero, piece_of, ◌then◌, time_figures, days_of, day_figures, figures_of, total_of, duration_from, duration_of};
ghost use Rattle.number.specs.Duration.{not_below, none_below};

use definition::{Duration, Figures, Unread};

fn not_below_zero(n: Result<f64, Unread>) -> Result<f64, Unread>
    ensures { result ≡ not_below_zero n }
{
    let x = n?;
    if 0.0 <= x { Ok(x) } else { Err(Unread::Absent) }
}

// A piece without its unit.
fn piece_of(s: &[u8]) -> Result<f64, Unread>
    ensures { result ≡ piece_of s.now }
{
    not_below_zero(crate::decimal::number_of(s))
}

// The figures with that of a unit set. The unit is the byte that it is in the text, and what is neither H nor M is S, as the definition has it.
fn set_unit(unit: u8, x: f64, f: Figures) -> Figures
    ensures { result ≡ set_unit unit x f }
{
    match unit {
        b'H' => Figures { hours: x, ..f },
        b'M' => Figures { minutes: x, ..f },
        _ => Figures { seconds: x, ..f },
    }
}

// Where the first unit stands: `H`, `M` or `S`.
fn first_unit(s: &[u8]) -> Option<usize>
    ensures { result ≡ position is_unit s.now }
{
    s.iter().position(|b| matches!(*b, b'H' | b'M' | b'S'))
}

// The figures that a time part sets, one piece after the other. By the place of the next unit and no `split_inclusive`, in whose last piece it would be
// asked again whether a unit ends it.
fn time_figures(s: &[u8], start: Figures) -> Result<Figures, Unread>
    ensures { result ≡ time_figures s.now [] start }
{
    let mut f = start;
    let mut rest = s;
    while let Some(u) = first_unit(rest) {
        f = set_unit(rest[u], piece_of(&rest[..u])?, f);
        rest = &rest[u + 1..];
    }
    if rest.is_empty() {
        Ok(f)
    } else {
        Err(Unread::Absent)
    }
}

// The part before `T`.
fn days_of(s: &[u8]) -> Result<f64, Unread>
    ensures { result ≡ days_of s.now }
{
    if s.is_empty() {
        return Ok(0.0);
    }
    let Some((days, rest)) = text::cut_at(s, b'D') else {
        return Err(Unread::Absent);
    };
    if rest.is_empty() {
        return piece_of(days);
    }
    Err(Unread::Absent)
}

// So many days and nothing else.
fn day_figures(days: f64) -> Figures
    ensures { result ≡ day_figures days }
{
    Figures {
        days,
        hours: 0.0,
        minutes: 0.0,
        seconds: 0.0,
    }
}

fn figures_of(s: &[u8]) -> Result<Figures, Unread>
    ensures { result ≡ figures_of s.now }
{
    let [b'P', rest @ ..] = s else {
        return Err(Unread::Absent);
    };
    let (days, time) = text::cut_at(rest, b'T').unwrap_or((rest, &[]));
    time_figures(time, day_figures(days_of(days)?))
}

// days × 1440 + hours × 60 + minutes + seconds / 60, summed left to right.
fn total_of(f: Figures) -> f64
    ensures { result ≡ total_of f }
{
    f.days * 1440.0 + f.hours * 60.0 + f.minutes + f.seconds / 60.0
}

fn duration_from(f: Figures) -> Result<Duration, Unread>
    requires { T (not_below f) }
    ensures { result ≡ duration_from f }
{
    let total = total_of(f);
    if total <= 1e9 {
        // It fits, as the total is at most 10^9.
        let minutes = crate::whole::half_away(total) as u32;
        let rounded = f64::from(minutes);
        return Ok(Duration {
            minutes,
            whole: total == rounded,
        });
    }
    Err(Unread::Absent)
}

// The minutes that s is as a duration, and whether the sum was whole.
pub fn duration_of(s: &[u8]) -> Result<Duration, Unread>
    ensures { result ≡ duration_of s.now }
{
    duration_from(figures_of(text::trim(s))?)
}
