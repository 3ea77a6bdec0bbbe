//! Quotients by a number that stays the same: one product with its inverse, corrected by at most 1.
ghost use Rattle.std.specs.Prelude.{◌≡◌, ◌-◌, ◌/◌, ◌^◌, ◌<◌};

/// Returns what `quotient` multiplies by in place of a division by this number.
pub fn inverse(by: u128) -> u64
    ensures { result ≡ (2 ^ 64 - 1) / by }
{
    if by == 0 {
        return 0;
    }
    (u64::MAX as u128 / by) as u64
}

/// Returns the quotient, rounded down, without a division: the product gives it, or 1 less.
#[inline(always)]
pub fn quotient(number: u64, by: u64, inverse: u64) -> u64
    requires divides { 0 < by }
    requires inverse { inverse ≡ (2 ^ 64 - 1) / by }
    ensures { result ≡ number / by }
{
    let guess = (number as u128 * inverse as u128 >> 64) as u64;
    let rest = number - guess * by;
    guess + u64::from(rest >= by)
}
