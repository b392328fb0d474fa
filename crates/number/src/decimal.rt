// Number texts, as Rust's `str::parse::<f64>` reads them, in one pass. By hand: a number too long to be exact refuses a tree, so it is told apart from
// a text that is no number, which `parse` does not say; and a text is bytes, no `str`.
ghost use Rattle.std.specs.Prelude.{◌≡◌, ◌+◌, ◌-◌, ◌*◌, ◌^◌, ◌<◌, ◌≤◌, min, false, length, drop};
ghost use Rattle.std.specs.Float.{binary64};
ghost use Rattle.std.specs.Float.Ieee.{round};
ghost use Rattle.std.specs.Float.Ieee.Exact.{HasValue};
ghost use Rattle.definition.specs.Number.{decimal_of, magnitude, number_of};
ghost use Rattle.number.specs.Number.{limit, Ran, power_of, power_at, decimal, scaled_by, Begins};

use definition::Unread;

// A power of ten, or of a tenth.
#[derive(Clone, Copy)]
enum Power {
    Up(usize),
    Down(usize),
}

// Digits that were passed over: their number, held to a limit, and the place behind them.
#[derive(Clone, Copy)]
struct Passed {
    value: usize,
    end: usize,
}

// What a number begins with: its digits, how many, how many of them after the dot, and the place behind them. A place and no rest of the text, in
// both structs, as the count and the places are told by it.
#[derive(Clone, Copy)]
struct Mantissa {
    value: usize,
    count: usize,
    places: usize,
    end: usize,
}

const LIMIT: usize = 10_000_000_000_000_000_000;

// The digit b written after those of n; a number past the limit stays there. A digit is its low four bits: with `b - b'0'`, which `run` has for its
// test, LLVM makes no branch of the `if`, and each digit waits a cycle longer for the one before. A test, and no `saturating_mul`, `saturating_add`
// and `min`, with which a text of 100,000 digits takes 1.3 times as long.
fn with_digit(n: usize, b: u8) -> usize
    requires { (48 ≤ b) × (b ≤ 57) }
    ensures { result ≡ min (n * 10 + (b - 48)) limit }
{
    if n < LIMIT / 10 {
        return n * 10 + usize::from(b % 16);
    }
    LIMIT
}

// The digits from a place on, written after those of v.
fn run(s: &[u8], from: usize, v: usize) -> Passed
    requires inside { from ≤ length s.now }
    requires held { v ≤ limit }
    ensures { Ran s.now from v result.value result.end }
{
    let mut value = v;
    for end in from..s.len() {
        if !s[end].is_ascii_digit() {
            return Passed { value, end };
        }
        value = with_digit(value, s[end]);
    }
    Passed {
        value,
        end: s.len(),
    }
}

// What follows an `e`.
fn power_of(s: &[u8]) -> Option<Power>
    ensures { result ≡ power_of s.now }
{
    let t = text::without_sign(s);
    let digits = run(t, 0, 0);
    if digits.end == 0 || digits.end < t.len() {
        return None;
    }
    if text::byte_at(s, 0) == b'-' {
        return Some(Power::Down(digits.value));
    }
    Some(Power::Up(digits.value))
}

// The power of ten that stands behind the digits: none where the text ends there.
fn power_at(s: &[u8]) -> Option<Power>
    ensures { result ≡ power_at s.now }
{
    match s {
        [] => Some(Power::Up(0)),
        [b'e' | b'E', rest @ ..] => power_of(rest),
        _ => None,
    }
}

// 10 ^ k, exactly, as each power of ten up to the 22nd is a float.
fn ten(k: usize) -> f64
    requires { k ≤ 22 }
    ensures { HasValue result false (10 ^ k) 1 }
{
    let mut power = 1.0;
    for _ in 0..k {
        power *= 10.0;
    }
    power
}

// The float nearest to v * 10 ^ up / 10 ^ down: one exact multiplication or division, rounded once.
fn short(v: usize, up: usize, down: usize) -> f64
    requires few { v < 10 ^ 15 }
    requires not_high { up ≤ 22 + down }
    requires not_low { down ≤ 22 + up }
    ensures { result ≡ round binary64 false (v * 10 ^ up) (10 ^ down) }
{
    // There is no From from usize to f64; below 10^15 the float is exact.
    let x = v as f64;
    if down <= up {
        x * ten(up - down)
    } else {
        x / ten(down - up)
    }
}

// The number v * 10 ^ up / 10 ^ down, where it is short.
fn judge(v: usize, up: usize, down: usize) -> Result<f64, Unread>
    ensures { result ≡ magnitude (Some (decimal v up down)) }
{
    if v == 0 {
        return Ok(0.0);
    }
    if v >= 1_000_000_000_000_000 {
        return Err(Unread::Long);
    }
    if up.abs_diff(down) > 22 {
        return Err(Unread::Long);
    }
    Ok(short(v, up, down))
}

// The digits v, of which `places` stand after the dot, times the power p of ten; of a tenth's powers 23 are as good as all.
fn scale(v: usize, places: usize, p: Power) -> Result<f64, Unread>
    requires { places < 2 ^ 63 }
    ensures { result ≡ scaled_by v places p }
{
    match p {
        Power::Up(n) => judge(v, n, places),
        Power::Down(n) => judge(v, 0, places + n.min(23)),
    }
}

// Digits with a dot or none.
fn mantissa_of(s: &[u8]) -> Mantissa
    ensures { Begins s.now result }
{
    let whole = run(s, 0, 0);
    if text::byte_at(s, whole.end) == b'.' {
        let all = run(s, whole.end + 1, whole.value);
        return Mantissa {
            value: all.value,
            count: all.end - 1,
            places: all.end - whole.end - 1,
            end: all.end,
        };
    }
    Mantissa {
        value: whole.value,
        count: whole.end,
        places: 0,
        end: whole.end,
    }
}

// A number with no sign.
fn unsigned(s: &[u8]) -> Result<f64, Unread>
    ensures { result ≡ magnitude (decimal_of s.now) }
{
    let m = mantissa_of(s);
    if m.count == 0 {
        return Err(Unread::Absent);
    }
    let power = power_at(&s[m.end..]).ok_or(Unread::Absent)?;
    scale(m.value, m.places, power)
}

// The number that s is.
pub fn number_of(s: &[u8]) -> Result<f64, Unread>
    ensures { result ≡ number_of s.now }
{
    let x = unsigned(text::without_sign(s))?;
    if text::byte_at(s, 0) == b'-' {
        return Ok(-x);
    }
    Ok(x)
}
