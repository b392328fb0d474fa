// Division by any number.
ghost use Rattle.std.specs.Prelude.{◌≡◌, ◌/◌};

// Division by 0 gives 0.
pub(crate) fn quotient(n: u64, d: u64) -> u64
    ensures { result ≡ n / d }
{
    n.checked_div(d).unwrap_or(0)
}
