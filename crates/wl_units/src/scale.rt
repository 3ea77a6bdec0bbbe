//! The length of a tick and of a unit of length, and what texts say by them.
ghost use Rattle.std.specs.Prelude.{◌≡◌, ◌≤◌, ◌*◌, IfSome, true};
ghost use Rattle.wl_units.specs.Units.{IsQuantity};
ghost use Rattle.wl_units.specs.Scales.{in_small_units, is_scale, number_said, over, scaled, tick_said, times, unit_said, up_to};

use crate::quantity::{Measure, Quantity, quantity_of};
use crate::ratio::{LARGEST_WHOLE, whole};

/// The longest tick, in femtoseconds: 1 ms.
pub const LONGEST_TICK: u64 = 1_000_000_000_000;

/// The longest unit of length, in micrometres: 100 m.
pub const LONGEST_UNIT: u64 = 100_000_000;

/// The micrometres of a metre, which is the unit of length if a text says no other.
pub const MICROMETRES: u64 = 1_000_000;

/// How long a tick and a unit of length are.
#[derive(Clone, Copy, Debug, PartialEq, Eq)]
pub struct Scale {
    /// The femtoseconds of a tick, from 1 to `LONGEST_TICK`. With others no text says a number.
    pub tick: u64,
    /// The micrometres of a unit of length, from 1 to `LONGEST_UNIT`. With others no text says a number.
    pub unit: u64,
}

/// Returns a whole number, if it is from 1 to the greatest.
fn up_to(most: u64, n: u64) -> Option<u64>
    ensures { result ≡ up_to most n }
{
    if 1 <= n && n <= most { Some(n) } else { None }
}

/// Returns the product of three numbers.
fn product(a: u64, b: u64, c: u64) -> u128
    requires a { a ≤ 1000000000000000 }
    requires b { b ≤ 1000000000000000 }
    requires c { c ≤ 100000000 }
    ensures { result ≡ a * b * c }
{
    a as u128 * b as u128 * c as u128
}

impl Quantity {
    /// Returns it in whole numbers of what it is counted in.
    fn in_small_units(self) -> Option<u64>
        requires { IsQuantity self }
        ensures { result ≡ in_small_units self }
    {
        let num = self.number.mantissa as u128 * self.factor as u128;
        whole(num, self.number.divisor as u128 * self.divisor as u128)
    }

    /// Returns it in ticks, units of length, ticks a unit, Hz or bit/s, if it is a whole number of them.
    fn scaled(self, measure: Measure, scale: Scale) -> Option<u64>
        requires quantity { IsQuantity self }
        requires scale { is_scale scale ≡ true }
        ensures scaled { result ≡ scaled measure scale self }
        ensures most { IfSome result (λ n. n ≤ LARGEST_WHOLE) }
    {
        let num = product(self.number.mantissa, self.factor, scale.times(measure));
        let den = long_product(self.number.divisor, self.divisor, scale.over(measure));
        whole(num, den)
    }
}

/// Returns the product of three numbers.
fn long_product(a: u64, b: u64, c: u64) -> u128
    requires a { a ≤ 1000000000000000 }
    requires b { b ≤ 1000000000 }
    requires c { c ≤ 1000000000000 }
    ensures { result ≡ a * b * c }
{
    a as u128 * b as u128 * c as u128
}

impl Scale {
    /// True if both lengths are within their bounds.
    fn is_sound(self) -> bool
        ensures { result ≡ is_scale self }
    {
        1 <= self.tick && self.tick <= LONGEST_TICK && 1 <= self.unit && self.unit <= LONGEST_UNIT
    }

    /// Returns by what a quantity of this measure is multiplied.
    fn times(self, measure: Measure) -> u64
        requires { is_scale self ≡ true }
        ensures value { result ≡ times measure self }
        ensures most { result ≤ 100000000 }
    {
        match measure {
            Measure::PerLength => self.unit,
            Measure::Time | Measure::Length | Measure::Frequency | Measure::BitRate => 1,
        }
    }

    /// Returns by what a quantity of this measure is divided.
    fn over(self, measure: Measure) -> u64
        requires { is_scale self ≡ true }
        ensures value { result ≡ over measure self }
        ensures most { result ≤ 1000000000000 }
    {
        match measure {
            Measure::Time | Measure::PerLength => self.tick,
            Measure::Length => self.unit,
            Measure::Frequency | Measure::BitRate => 1,
        }
    }

    /// Returns the number that a text says: ticks of a time, units of a length, ticks a unit, Hz or bit/s. `None` if the text says nothing
    /// of this measure, or if it isn't whole in them or above 2^48 - 1.
    pub fn number_said(self, measure: Measure, text: &str) -> Option<u64>
        ensures number { result ≡ number_said measure self text.now }
        ensures most { IfSome result (λ n. n ≤ LARGEST_WHOLE) }
    {
        if !self.is_sound() {
            return None;
        }
        quantity_of(measure, text)?.scaled(measure, self)
    }
}

/// Returns the length of a tick in femtoseconds, as a text says it; at most 1 ms.
pub fn tick_said(text: &str) -> Option<u64>
    ensures { result ≡ tick_said text.now }
{
    up_to(
        LONGEST_TICK,
        quantity_of(Measure::Time, text)?.in_small_units()?,
    )
}

/// Returns the length of a unit of length in micrometres, as a text says it; at most 100 m.
pub fn unit_said(text: &str) -> Option<u64>
    ensures { result ≡ unit_said text.now }
{
    up_to(
        LONGEST_UNIT,
        quantity_of(Measure::Length, text)?.in_small_units()?,
    )
}
