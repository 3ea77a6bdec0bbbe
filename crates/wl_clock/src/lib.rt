//! Drifting clocks: the tick at which each quantum of a node begins.
//!
//! The world has one row of whole ticks. A node counts time in quanta, and its oscillator decides how many ticks one takes: a rate
//! `num / den` of 1 to 2^20 ticks per quantum, which need not be whole. Quantum 0 begins at the clock's offset. A quantum that would begin
//! between two ticks begins at the earlier one. A clock may have up to 16 rates, each from a quantum of its own on: an oscillator that
//! warms up, ages or jumps. Offsets, rates and their limits are this project's profile.
#![tactic(auto)]

ghost use Rattle.std.specs.Prelude.{◌≡◌, ℕ, ◌+◌, ◌*◌, ◌^◌, ◌<◌, ◌≤◌, pos, unsigned_abs, length};
ghost use Rattle.wl_clock.specs.Timing.{Timing, IsTiming, tick_of, timing_of, timing_of_rates, timing_within, timing_of_ppm, rate_of_ppm, millionths, most_rates, slowest_rate};
ghost use Rattle.wl_clock.specs.Padded.{padded_rates};
ghost use Rattle.wl_limits.specs.Limits.{most_run_quanta};

mod laws;
mod quotients;
mod refusals;
mod stretches;

pub use laws::ticks_increase;
use quotients::inverse;
use refusals::{any_bad_from, any_big_den, any_too_fast, any_too_slow, any_zero_den, in_order};
use std::marker::Model;
use stretches::{first_from, quick_first, quick_stretch, ticks_after};
use thiserror::Error;
use wl_limits::Limits;

/// Why an offset and rates make no clock.
#[derive(Clone, Copy, Debug, PartialEq, Eq, Error)]
pub enum ClockFault {
    /// The denominator is 0.
    #[error("ZeroDen")]
    ZeroDen,
    /// A quantum would take less than one tick.
    #[error("TooFast")]
    TooFast,
    /// A quantum would take more than 2^20 ticks.
    #[error("TooSlow")]
    TooSlow,
    /// Quantum 0 would begin after tick 2^20, by the wide limits after tick 2^34.
    #[error("BigOffset")]
    BigOffset,
    /// The denominator is above 1,000,000.
    #[error("BigDen")]
    BigDen,
    /// The deviation is outside -100,000 to 100,000 ppm.
    #[error("BadPpm")]
    BadPpm,
    /// There is no rate.
    #[error("NoRates")]
    NoRates,
    /// There are more than 16 rates.
    #[error("TooManyRates")]
    TooManyRates,
    /// The first rate does not begin with quantum 0, or a later one does not begin after the one before it.
    #[error("RateOrder")]
    RateOrder,
    /// A rate begins after quantum 2^20, by the wide limits after quantum 2^30.
    #[error("BadFrom")]
    BadFrom,
}

const LARGEST_DEVIATION: u64 = 100_000;

const MILLION: u64 = 1_000_000;

const MOST_RATES: usize = 16;

/// Up to this many ticks, 2^44, a product with a denominator fits 64 bits.
const QUICK_TICKS: u64 = 17_592_186_044_416;

/// A rate of `num / den` ticks per quantum, from quantum `from` on.
///
/// Any numbers can be written down; `Clock::with_rates` says which ones make a clock.
#[derive(Clone, Copy, Debug, PartialEq, Eq)]
pub struct Rate {
    /// The first quantum at this rate, counted from 0.
    pub from: u64,
    /// The numerator, in ticks.
    pub num: u128,
    /// The denominator, in quanta.
    pub den: u64,
}

/// What is held after the last rate of a clock.
const SPARE: Rate = Rate {
    from: 0,
    num: 1,
    den: 1,
};

impl Rate {
    /// Returns the rate of a nominal quantum of `quantum` ticks and a deviation from it in parts per million, from a quantum on.
    ///
    /// A positive `ppm` is a slow clock: a quantum takes `quantum * (1000000 + ppm) / 1000000` ticks. Refused as `BadPpm` if `ppm` is
    /// outside -100,000 to 100,000.
    pub fn from_ppm(from: u64, quantum: u64, ppm: i64) -> Result<Rate, ClockFault>
        ensures { result ≡ rate_of_ppm from quantum ppm }
    {
        if ppm.unsigned_abs() > LARGEST_DEVIATION {
            return Err(ClockFault::BadPpm);
        }
        Ok(Rate {
            from,
            num: quantum as u128 * parts_per_million(ppm) as u128,
            den: MILLION,
        })
    }
}

/// A clock whose quantum 0 begins at its offset.
///
/// At a rate that begins with quantum f, quantum k begins `(k - f) * num / den` ticks, rounded down, after quantum f; so does the next
/// rate's first quantum. Two clocks are equal if their offsets and rates are. Rates are compared as they were given, and not in lowest
/// terms.
#[derive(Clone, Copy, Debug)]
pub struct Clock {
    offset: u64,
    count: usize,
    rates: [Rate; MOST_RATES],
    /// What `quotient` multiplies by in place of a division by the first rate's denominator, and by its numerator.
    inverse_of_den: u64,
    inverse_of_num: u64,
}

impl Model for Clock {
    ghost use Rattle.wl_clock.specs.Timing.{Timing};

    ghost Value = { Timing };

    ghost use Rattle.wl_clock.specs.Held.{timing, inside_of_timing, IsHeld, held_timing};

    ghost view = { timing };

    ghost invariant = { IsHeld };

    ghost inverse = { inside_of_timing };

    ghost inverse_ok = { held_timing };
}

impl Clock {
    /// Returns the clock whose quantum 0 begins at tick `offset`, with `num / den` ticks per quantum.
    ///
    /// Refused as `ZeroDen`, `TooFast` (below 1 tick per quantum), `TooSlow` (above 2^20), `BigOffset` (above 2^20 ticks) or `BigDen`
    /// (above 1,000,000); if several apply, the first of them in this order.
    pub fn new(offset: u64, num: u64, den: u64) -> Result<Clock, ClockFault>
        ensures { result ≡ timing_of offset num den }
    {
        Clock::with_rates(
            offset,
            &[Rate {
                from: 0,
                num: num as u128,
                den,
            }],
        )
    }

    /// Returns the clock of a nominal quantum of `quantum` ticks and a deviation from it in parts per million.
    ///
    /// A positive `ppm` is a slow clock: a quantum takes `quantum * (1000000 + ppm) / 1000000` ticks. Refused as `BadPpm` if `ppm` is
    /// outside -100,000 to 100,000, whatever else holds. Else it is refused as `new` refuses that rate.
    pub fn from_ppm(offset: u64, quantum: u64, ppm: i64) -> Result<Clock, ClockFault>
        ensures { result ≡ timing_of_ppm offset quantum ppm }
    {
        let rate = match Rate::from_ppm(0, quantum, ppm) {
            Ok(rate) => rate,
            Err(fault) => return Err(fault),
        };
        Clock::with_rates(offset, &[rate])
    }

    /// Returns the clock whose quantum 0 begins at tick `offset`, and which goes at each rate from its first quantum on.
    ///
    /// Refused as `new` refuses, if some rate has that fault. Then, as `NoRates`; `TooManyRates` (above 16); `RateOrder` (the first rate
    /// does not begin with quantum 0, or a later one not after the one before it); `BadFrom` (a rate begins after quantum 2^20). If several
    /// apply, it is the first of them in this order.
    pub fn with_rates(offset: u64, rates: &[Rate]) -> Result<Clock, ClockFault>
        ensures { result ≡ timing_of_rates offset rates.now }
    {
        Clock::within(Limits::Narrow, offset, rates)
    }

    /// Does the same by these limits: `BigOffset` and `BadFrom` come by them.
    pub fn within(limits: Limits, offset: u64, rates: &[Rate]) -> Result<Clock, ClockFault>
        ensures { result ≡ timing_within limits offset rates.now }
    {
        wl_limits::wide_limits_hold();
        if any_zero_den(rates) {
            return Err(ClockFault::ZeroDen);
        }
        if any_too_fast(rates) {
            return Err(ClockFault::TooFast);
        }
        if any_too_slow(rates) {
            return Err(ClockFault::TooSlow);
        }
        if offset > limits.offset_limit() {
            return Err(ClockFault::BigOffset);
        }
        if any_big_den(rates) {
            return Err(ClockFault::BigDen);
        }
        if rates.is_empty() {
            return Err(ClockFault::NoRates);
        }
        if rates.len() > MOST_RATES {
            return Err(ClockFault::TooManyRates);
        }
        if !in_order(rates) {
            return Err(ClockFault::RateOrder);
        }
        if any_bad_from(limits, rates) {
            return Err(ClockFault::BadFrom);
        }
        Ok(Clock {
            offset,
            count: rates.len(),
            rates: filled(rates),
            inverse_of_den: inverse(rates[0].den as u128),
            inverse_of_num: inverse(rates[0].num),
        })
    }

    /// Returns the rates, 1 to 16, in the order of their quanta.
    fn rates(&self) -> &[Rate]
        ensures rates { result.now ≡ self.now.rates }
        ensures timing { IsTiming self.now }
    {
        &self.rates[..self.count]
    }

    /// Returns the tick at which quantum `k` begins, for `k` up to 2^31.
    pub fn at(&self, k: u64) -> u64
        requires { k ≤ most_run_quanta }
        ensures tick { result ≡ tick_of self.now k }
        ensures timing { IsTiming self.now }

        // So the tick is below 2^52.
        ensures low { self.now.offset + k ≤ result }
        ensures high { result ≤ self.now.offset + k * slowest_rate }
    {
        let rates = self.rates();
        if rates.len() == 1 {
            return quick_stretch(&rates[0], self.inverse_of_den, k) + self.offset;
        }
        ticks_after(&rates[0], &rates[1..], k) + self.offset
    }

    /// Returns the least quantum that begins at tick `t` or later, for `t` below 2^48.
    ///
    /// It is also how many quanta begin before `t`.
    pub fn first_not_before(&self, t: u64) -> u64
        requires { t < 2 ^ 48 }
        ensures reached { t ≤ tick_of self.now result }
        ensures least { (k : ℕ) → k < result → tick_of self.now k < t }
        ensures near { result ≤ t }
        ensures timing { IsTiming self.now }
    {
        if t <= self.offset {
            return 0;
        }
        let rates = self.rates();
        let ticks = t - self.offset;
        if rates.len() == 1 && ticks <= QUICK_TICKS {
            return quick_first(&rates[0], self.inverse_of_num, ticks);
        }
        first_from(&rates[0], &rates[1..], ticks)
    }
}

impl PartialEq for Clock {
    ghost use Rattle.std.specs.Prelude.{◌≡◌, ◌↔◌, IsTrue};
    ghost use Rattle.wl_clock.specs.Same.{same_timing, same_timing_laws};

    ghost eq = { same_timing };

    ghost laws = { same_timing_laws };

    /// True if the offsets and the rates of two clocks are equal.
    fn eq(&self, other: &Clock) -> bool
        ensures value { result ≡ same_timing self.now other.now }
        ensures same { IsTrue result ↔ (self.now ≡ other.now) }
    {
        self.offset == other.offset && self.rates() == other.rates()
    }
}

impl Eq for Clock {
    ghost use Rattle.wl_clock.specs.Same.{same_timing_equiv};

    ghost laws = { same_timing_equiv };
}

/// Returns how many millionths of its nominal length a quantum lasts at a deviation in parts per million.
fn parts_per_million(ppm: i64) -> u64
    requires { unsigned_abs ppm ≤ 100000 }
    ensures parts { result ≡ millionths ppm }
    ensures small { result ≤ 1100000 }
{
    let deviation = ppm.unsigned_abs();
    if ppm < 0 {
        MILLION - deviation
    } else {
        MILLION + deviation
    }
}

/// Returns the rates with spare ones after them.
fn filled(rates: &[Rate]) -> [Rate; MOST_RATES]
    requires { length rates.now ≤ most_rates }
    ensures { result ≡ padded_rates rates.now }
{
    let mut held = [SPARE; MOST_RATES];
    held[..rates.len()].copy_from_slice(rates);
    held
}
