// Floats to whole numbers, a half away from zero.
ghost use Rattle.std.specs.Prelude.{◌≡◌, T};
ghost use Rattle.std.specs.Float.{binary64};
ghost use Rattle.std.specs.Float.Ieee.{mul, le};
ghost use Rattle.definition.specs.Number.{float, zero_float, half_away};
ghost use Rattle.number.specs.Whole.{half_within, whole_within, most};

// x from 0 to 10 ^ 18 to the nearest whole number.
pub(crate) fn half_away(x: f64) -> u64
    requires low { T (le zero_float x) }
    requires high { T (le x most) }
    ensures { result ≡ half_away x }
{
    std::num::truncating_f64_to_u64(x.round())
}

// The same, and 0 for any other x. No Option: those who call nearest_whole and hundredths from other crates test the range before.
fn half_within(x: f64) -> u64
    ensures { result ≡ half_within x }
{
    if (0.0..=1e18).contains(&x) {
        return half_away(x);
    }
    0
}

// x from -10 ^ 18 to 10 ^ 18 to the nearest whole number, a half away from zero. 0 for any other x.
pub fn nearest_whole(x: f64) -> i64
    ensures { result ≡ whole_within x }
{
    if x < 0.0 {
        return -half_within(-x).cast_signed();
    }
    half_within(x).cast_signed()
}

// x × 100, to the nearest whole number.
pub fn hundredths(x: f64) -> i64
    ensures { result ≡ whole_within (mul binary64 x (float 100)) }
{
    nearest_whole(x * 100.0)
}
