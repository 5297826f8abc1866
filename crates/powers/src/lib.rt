// Powers of two and their logarithms, from the count of leading zeros.
// Each is proved equal to its definition, the first power of two that is not below the number, for every number.
#![tactic(auto)]

ghost use Rattle.std.specs.Prelude.{◌≡◌};
ghost use Rattle.powers.specs.Powers.{ceil_log, ceil_power};

// The logarithm of the smallest power of two not below k: the bits of k - 1.
// Kept: a count of leading zeros, and no ilog2 and next_power_of_two: document 01 names this form.
pub fn ceil_log(k: u32) -> u32
    ensures { result ≡ ceil_log k }
{
    u32::BITS - k.saturating_sub(1).leading_zeros()
}

// The smallest power of two not below k: document 01's K of k.
pub fn ceil_power(k: u32) -> u64
    ensures { result ≡ ceil_power k }
{
    1u64 << ceil_log(k)
}
