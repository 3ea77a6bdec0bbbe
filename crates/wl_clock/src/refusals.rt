//! What keeps rates from making a clock.
ghost use Rattle.std.specs.Prelude.{◌≡◌};
ghost use Rattle.std.specs.List.{list_any};
ghost use Rattle.wl_clock.specs.Timing.{has_zero_den, is_too_fast, is_too_slow, has_big_den, has_bad_from, begin_after, in_order};

use crate::Rate;
use wl_limits::Limits;

const SLOWEST_RATE: u128 = 1_048_576;

const LARGEST_DENOMINATOR: u64 = 1_000_000;

/// True if some denominator is 0.
pub fn any_zero_den(rates: &[Rate]) -> bool
    ensures { result ≡ list_any has_zero_den rates.now }
{
    rates.iter().any(|r| r.den == 0)
}

/// True if some rate is below one tick per quantum.
pub fn any_too_fast(rates: &[Rate]) -> bool
    ensures { result ≡ list_any is_too_fast rates.now }
{
    rates.iter().any(|r| r.num < r.den as u128)
}

/// True if some rate is above 2^20 ticks per quantum.
pub fn any_too_slow(rates: &[Rate]) -> bool
    ensures { result ≡ list_any is_too_slow rates.now }
{
    rates.iter().any(|r| r.num > SLOWEST_RATE * r.den as u128)
}

/// True if some denominator is above 1,000,000.
pub fn any_big_den(rates: &[Rate]) -> bool
    ensures { result ≡ list_any has_big_den rates.now }
{
    rates.iter().any(|r| r.den > LARGEST_DENOMINATOR)
}

/// True if some rate begins later than the limits allow.
pub fn any_bad_from(limits: Limits, rates: &[Rate]) -> bool
    ensures { result ≡ list_any (has_bad_from limits) rates.now }
{
    let latest = limits.from_limit();
    rates.iter().any(|r| r.from > latest)
}

/// True if the first rate begins with quantum 0, and each other one after the one before it.
pub fn in_order(rates: &[Rate]) -> bool
    ensures { result ≡ in_order rates.now }
{
    match rates {
        [] => true,
        [first, later @ ..] => first.from == 0 && begin_after(first.from, later),
    }
}

/// True if the first rate begins after a quantum, and each other one after the one before it.
fn begin_after(from: u64, rates: &[Rate]) -> bool
    ensures { result ≡ begin_after from rates.now }
{
    match rates {
        [] => true,
        [first, later @ ..] => from < first.from && begin_after(first.from, later),
    }
}
