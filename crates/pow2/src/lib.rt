// Powers of two: the test by the count of ones, and the height by the count of trailing zeros.
#![tactic(auto)]

ghost use Rattle.std.specs.Prelude.{◌≡◌};
ghost use Rattle.pow2.specs.Power.{is_power, height, power_between};

// Whether exactly one bit is set.
pub fn is_power_of_two(n: u64) -> bool
    ensures { result ≡ is_power n }
{
    n.count_ones() == 1
}

// The height of a power of two.
pub fn log2(n: u64) -> u32
    ensures { result ≡ height n }
{
    n.trailing_zeros()
}

// Whether a number is a power of two from `low` to `high`.
pub fn is_power_between(n: u64, low: u64, high: u64) -> bool
    ensures { result ≡ power_between low high n }
{
    low <= n && n <= high && is_power_of_two(n)
}
