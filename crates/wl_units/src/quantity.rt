//! Numbers with a unit.
ghost use Rattle.std.specs.Prelude.{◌≡◌, ◌≤◌, ◌<◌, IfSome, option_map};
ghost use Rattle.wl_units.specs.Units.{IsQuantity, factors_of, over_one, quantity_of};

use crate::decimal::{Decimal, decimal_in};
use crate::words::{
    behind_space, bit_rate_factor, frequency_factor, length_factor, per_length_factors, time_factor,
};

/// What a number with a unit measures.
#[derive(Clone, Copy, Debug, PartialEq, Eq)]
pub enum Measure {
    /// A time: fs, ps, ns, us, ms or s.
    Time,
    /// A length: um, mm, cm, m or km.
    Length,
    /// A time along a length: ns/m and the like.
    PerLength,
    /// A frequency: Hz, kHz or MHz.
    Frequency,
    /// A bit rate: bit/s, kbit/s or Mbit/s, also k or M.
    BitRate,
}

/// A number with a unit: the number times the factor, over the divisor, in femtoseconds, micrometres, femtoseconds a micrometre, Hz or
/// bit/s.
#[derive(Clone, Copy, Debug)]
pub struct Quantity {
    /// The number as it is written.
    pub number: Decimal,
    /// By what it is multiplied.
    pub factor: u64,
    /// By what it is divided.
    pub divisor: u64,
}

/// Returns a factor over 1.
fn over_one(factor: Option<u64>) -> Option<(u64, u64)>
    ensures { result ≡ option_map over_one factor }
{
    match factor {
        Some(factor) => Some((factor, 1)),
        None => None,
    }
}

/// Returns the factor and the divisor of a unit of a measure.
fn factors_of(measure: Measure, word: &[u8]) -> Option<(u64, u64)>
    ensures factors { result ≡ factors_of measure word.now }
    ensures factor { IfSome result (λ f. f.0 ≤ 1000000000000000) }
    ensures some { IfSome result (λ f. 0 < f.1) }
    ensures divisor { IfSome result (λ f. f.1 ≤ 1000000000) }
{
    match measure {
        Measure::Time => over_one(time_factor(word)),
        Measure::Length => over_one(length_factor(word)),
        Measure::PerLength => per_length_factors(word),
        Measure::Frequency => over_one(frequency_factor(word)),
        Measure::BitRate => over_one(bit_rate_factor(word)),
    }
}

/// Returns what a text says: a decimal number, a space or none, and a unit of the measure. `None` if it says nothing of the kind.
pub fn quantity_of(measure: Measure, text: &str) -> Option<Quantity>
    ensures quantity { result ≡ quantity_of measure text.now }
    ensures is { IfSome result IsQuantity }
{
    let (number, rest) = decimal_in(text.as_bytes())?;
    let (factor, divisor) = factors_of(measure, behind_space(rest))?;
    Some(Quantity {
        number,
        factor,
        divisor,
    })
}
