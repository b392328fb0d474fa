// Some bits of a number, by shifts and masks.
ghost use Rattle.std.specs.Prelude.{◌≡◌, ◌+◌, ◌-◌, ◌*◌, ◌/◌, ◌%◌, ◌^◌, ◌<◌};

// k bits of v, above the `skip` low ones.
pub(crate) fn part(v: u64, skip: usize, k: usize) -> u64
    requires { (skip < 64) × (k < 64) }
    ensures { result ≡ v / 2 ^ skip % 2 ^ k }
{
    (v >> skip) & ((1 << k) - 1)
}

// k bits more below hi.
pub(crate) fn joined(hi: u64, k: usize, lo: u64) -> u64
    requires { (k < 64) × (lo < 2 ^ k) × (hi * 2 ^ k + lo < 2 ^ 64) }
    ensures { result ≡ hi * 2 ^ k + lo }
{
    (hi << k) | lo
}

// How many bits there are from a bit of a byte to the next byte.
pub(crate) fn to_byte(bit: usize) -> usize
    ensures { result ≡ (8 - bit) % 8 }
{
    8usize.saturating_sub(bit) % 8
}
