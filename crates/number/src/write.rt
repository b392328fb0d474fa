// The texts of durations and times, written into a lent buffer. Byte by byte: what `write!` leaves in a String or a Vec is known to a proof, what it
// leaves in a slice or a Cursor over one is not. The buffer and the place are no struct, for the reason that bits gives in writing.rt.
ghost use Rattle.std.specs.Prelude.{◌≡◌, ◌+◌, ◌%◌, ◌<◌, ◌≤◌, [], ◌∷◌, ◌++◌, length};
ghost use Rattle.std.specs.Result.{IfOk};
ghost use Rattle.definition.specs.Duration.{decimal, duration_text};
ghost use Rattle.definition.specs.Time.{two_digits, time_text};
ghost use Rattle.number.specs.Written.{Put, Gives, answer_by, minutes_answer};
ghost use Rattle.definition.specs.Refusal.{time_answer};

use definition::Refusal;

// The byte b at a place, and the next place; none where the buffer is full.
fn put(out: &mut [u8], at: usize, b: u8) -> Option<usize>
    requires { at ≤ length out.old }
    ensures { Put (b ∷ []) out.old at out.new result }
{
    if at == out.len() {
        return None;
    }
    out[at] = b;
    Some(at + 1)
}

fn digit(n: u64) -> u8
    ensures { result ≡ n % 10 + 48 }
{
    // Below 10.
    b'0' + (n % 10) as u8
}

// The number n in decimal.
fn put_decimal(out: &mut [u8], at: usize, n: u64) -> Option<usize>
    requires { at ≤ length out.old }
    ensures { Put (decimal n) out.old at out.new result }
{
    if n < 10 {
        return put(out, at, digit(n));
    }
    let next = put_decimal(out, at, n / 10)?;
    put(out, next, digit(n))
}

// Zeros behind what was written, and zeros alone on a refusal.
fn finish(out: &mut [u8], end: Result<usize, Refusal>) -> Result<usize, Refusal>
    requires { IfOk end (λ n. n ≤ length out.old) }
    ensures { Gives (answer_by out.old end) (length out.old) result out.new }
{
    out[end.unwrap_or(0)..].fill(0);
    end
}

fn put_duration(out: &mut [u8], n: u64) -> Option<usize>
    ensures { Put (duration_text n) out.old 0 out.new result }
{
    let a = put(out, 0, b'P')?;
    let b = put(out, a, b'T')?;
    let c = put_decimal(out, b, n / 60)?;
    let d = put(out, c, b'H')?;
    let e = put_decimal(out, d, n % 60)?;
    let f = put(out, e, b'M')?;
    let g = put(out, f, b'0')?;
    put(out, g, b'S')
}

// The text of minutes up to 1,000,000,000.
pub fn duration_text(minutes: u64, out: &mut [u8]) -> Result<usize, Refusal>
    ensures { Gives (minutes_answer minutes (length out.old)) (length out.old) result out.new }
{
    if minutes > 1_000_000_000 {
        return finish(out, Err(Refusal::Outside));
    }
    let end = put_duration(out, minutes).ok_or(Refusal::NoRoom);
    finish(out, end)
}

fn put_two(out: &mut [u8], at: usize, n: u64) -> Option<usize>
    requires room { at ≤ length out.old }
    requires two { n < 100 }
    ensures { Put (two_digits n) out.old at out.new result }
{
    let next = put(out, at, digit(n / 10))?;
    put(out, next, digit(n))
}

fn put_time(out: &mut [u8], t: u64) -> Option<usize>
    requires { t ≤ 1440 }
    ensures { Put (time_text t) out.old 0 out.new result }
{
    let a = put_two(out, 0, t / 60)?;
    let b = put(out, a, b':')?;
    let c = put_two(out, b, t % 60)?;
    let d = put(out, c, b':')?;
    let e = put(out, d, b'0')?;
    put(out, e, b'0')
}

// The text of a time of day up to 1440 minutes. `duration_text` is these lines with another bound and another text: a function over both would take a
// number and a closure, and leave two functions that call it.
pub fn time_text(minutes: u64, out: &mut [u8]) -> Result<usize, Refusal>
    ensures { Gives (time_answer minutes (length out.old)) (length out.old) result out.new }
{
    if minutes > 1440 {
        return finish(out, Err(Refusal::Outside));
    }
    let end = put_time(out, minutes).ok_or(Refusal::NoRoom);
    finish(out, end)
}
