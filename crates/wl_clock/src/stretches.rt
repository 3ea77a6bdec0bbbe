//! Stretches of quanta that go at one rate each.
ghost use Rattle.std.specs.Prelude.{◌≡◌, ℕ, ◌+◌, ◌-◌, ◌*◌, ◌/◌, ◌^◌, ◌<◌, ◌≤◌, IsTrue, All, ◌∷◌};
ghost use Rattle.wl_clock.specs.Timing.{IsRate, begin_after, slowest_rate, ticks_at_rate, ticks_after};
ghost use Rattle.wl_limits.specs.Limits.{most_run_quanta};

use crate::Rate;
use crate::quotients::quotient;

/// Returns how many ticks quantum `k` begins after the first quantum of a rate, at that rate.
fn stretch(rate: &Rate, k: u64) -> u64
    requires rate { IsRate rate.now }
    requires begun { rate.now.from ≤ k }
    requires near { k ≤ most_run_quanta }
    ensures ticks { result ≡ ticks_at_rate rate.now k }
    ensures high { result ≤ (k - rate.now.from) * slowest_rate }
{
    let quanta = k - rate.from;
    match quanta.checked_mul(rate.num as u64) {
        Some(parts) => parts / rate.den,
        None => (quanta as u128 * rate.num / rate.den as u128) as u64,
    }
}

/// Returns the least quantum that begins at least this many ticks after the first quantum of a rate, at that rate.
fn first_at(rate: &Rate, ticks: u64) -> u64
    requires rate { IsRate rate.now }
    requires some { 0 < ticks }
    requires near { ticks < 2 ^ 48 }
    ensures reached { ticks ≤ ticks_at_rate rate.now result }
    ensures least { (k : ℕ) → k < result → ticks_at_rate rate.now k < ticks }
    ensures soon { result ≤ rate.now.from + ticks }
{
    let wanted = ticks as u128 * rate.den as u128;
    rate.from + wanted.div_ceil(rate.num) as u64
}

/// Returns what `stretch` does; the inverse is that of the denominator.
pub fn quick_stretch(rate: &Rate, inverse: u64, k: u64) -> u64
    requires rate { IsRate rate.now }
    requires inverse { inverse ≡ (2 ^ 64 - 1) / rate.now.den }
    requires begun { rate.now.from ≤ k }
    requires near { k ≤ most_run_quanta }
    ensures ticks { result ≡ ticks_at_rate rate.now k }
    ensures high { result ≤ (k - rate.now.from) * slowest_rate }
{
    match (k - rate.from).checked_mul(rate.num as u64) {
        Some(parts) => quotient(parts, rate.den, inverse),
        None => stretch(rate, k),
    }
}

/// Returns what `first_at` does; the inverse is that of the numerator.
pub fn quick_first(rate: &Rate, inverse: u64, ticks: u64) -> u64
    requires rate { IsRate rate.now }
    requires inverse { inverse ≡ (2 ^ 64 - 1) / rate.now.num }
    requires some { 0 < ticks }
    requires near { ticks ≤ 2 ^ 44 }
    ensures reached { ticks ≤ ticks_at_rate rate.now result }
    ensures least { (k : ℕ) → k < result → ticks_at_rate rate.now k < ticks }
    ensures soon { result ≤ rate.now.from + ticks }
{
    rate.from + quotient(ticks * rate.den - 1, rate.num as u64, inverse) + 1
}

/// Returns how many ticks quantum `k` begins after the first quantum of a rate, if later rates follow.
pub fn ticks_after(rate: &Rate, later: &[Rate], k: u64) -> u64
    requires rates { All IsRate (rate.now ∷ later.now) }
    requires order { IsTrue (begin_after rate.now.from later.now) }
    requires begun { rate.now.from ≤ k }
    requires near { k ≤ most_run_quanta }
    ensures ticks { result ≡ ticks_after rate.now later.now k }
    ensures high { result ≤ (k - rate.now.from) * slowest_rate }
{
    match later {
        [next, rest @ ..] if next.from < k => stretch(rate, next.from) + ticks_after(next, rest, k),
        _ => stretch(rate, k),
    }
}

/// Returns the least quantum that begins at least this many ticks after the first quantum of a rate, if later rates follow.
pub fn first_from(rate: &Rate, later: &[Rate], ticks: u64) -> u64
    requires rates { All IsRate (rate.now ∷ later.now) }
    requires order { IsTrue (begin_after rate.now.from later.now) }
    requires some { 0 < ticks }
    requires near { ticks < 2 ^ 48 }
    ensures reached { ticks ≤ ticks_after rate.now later.now result }
    ensures least { (k : ℕ) → k < result → ticks_after rate.now later.now k < ticks }
    ensures soon { result ≤ rate.now.from + ticks }
{
    if let [next, rest @ ..] = later {
        let passed = stretch(rate, next.from);
        if passed < ticks {
            return first_from(next, rest, ticks - passed);
        }
    }
    first_at(rate, ticks)
}
