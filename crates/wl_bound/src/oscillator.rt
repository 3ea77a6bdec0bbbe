//! What an oscillator may do.
ghost use Rattle.std.specs.Prelude.{◌≡◌, ◌+◌, ◌-◌, ◌*◌, ◌/◌, ◌^◌, ◌<◌, ◌≤◌, ◌∷◌, length, All, if◌then◌else◌};
ghost use Rattle.std.specs.Int.{div_ceil};
ghost use Rattle.std.specs.Bool.{OnTrue};
ghost use Rattle.std.specs.Result.{is_ok};
ghost use Rattle.wl_clock.specs.Timing.{IsRate, most_rates, timing_within};
ghost use Rattle.wl_limits.specs.declared.Limits.TheVariants.{Wide};
ghost use Rattle.wl_bound.specs.Limits.{fast_limit, slow_limit};
ghost use Rattle.wl_bound.specs.Oscillators.{IsOscillator, Pace, fastest_of, greatest_tolerance, is_faster, longest_of, oscillator_of, shortest_of, slowest_of};

use std::marker::Model;
use wl_clock::{Clock, Rate};
use wl_limits::Limits;

/// The greatest tolerance, in parts per million.
pub(crate) const GREATEST_TOLERANCE: u32 = 100_000;

const MILLION: u128 = 1_000_000;

/// The rates of an oscillator, and its tolerance: by how many parts per million it may deviate from each of them, either way.
#[derive(Clone, Copy, Debug)]
pub struct Oscillator {
    fastest: Rate,
    slowest: Rate,
    tolerance: u32,
    /// How often the rate changes.
    turns: u8,
    /// Its shortest quantum and its longest one, which are asked for again and again.
    shortest: u128,
    longest: u128,
}

impl Model for Oscillator {
    ghost Value = { Pace };

    ghost view = { λ o. record {
      fastest = o.fastest;
      slowest = o.slowest;
      tolerance = o.tolerance;
      turns = o.turns;
    } };

    ghost inverse = { λ p. record {
      fastest = p.fastest;
      slowest = p.slowest;
      tolerance = p.tolerance;
      turns = p.turns;
      shortest = shortest_of p 0;
      longest = longest_of p 0;
    } };

    ghost invariant = { λ o. IsOscillator o.shortest o.longest (record {
      fastest = o.fastest;
      slowest = o.slowest;
      tolerance = o.tolerance;
      turns = o.turns;
    }) };
}

impl Oscillator {
    /// Returns the oscillator of the rates of a clock and a tolerance of 0 to 100,000 ppm.
    ///
    /// `None` if the tolerance is above, or if the rates make no clock by the wide limits (`Clock::within`).
    pub fn new(rates: &[Rate], tolerance: u32) -> Option<Oscillator>
        ensures { result ≡ oscillator_of rates.now tolerance }
    {
        if !make_a_clock(rates) || tolerance > GREATEST_TOLERANCE {
            return None;
        }
        match rates {
            [] => None,
            [first, later @ ..] => {
                let fastest = fastest(*first, later);
                let slowest = slowest(*first, later);
                Some(Oscillator {
                    fastest,
                    slowest,
                    tolerance,
                    turns: later.len() as u8,
                    shortest: shortest_at(&fastest, tolerance as u128),
                    longest: longest_at(&slowest, tolerance as u128),
                })
            }
        }
    }

    /// Returns the shortest quantum, in millionths of a tick, rounded down.
    pub fn shortest(&self) -> u128
        ensures value { result ≡ shortest_of self.now 0 }
        ensures most { result < fast_limit }
    {
        self.shortest_by(0)
    }

    /// Returns the longest quantum, in millionths of a tick, rounded up.
    pub fn longest(&self) -> u128
        ensures value { result ≡ longest_of self.now 0 }
        ensures most { result < slow_limit }
    {
        self.longest_by(0)
    }

    /// Returns the tolerance, in parts per million: 0 to 100,000.
    pub fn tolerance(&self) -> u32
        ensures value { result ≡ self.now.tolerance }
        ensures small { result ≤ greatest_tolerance }
    {
        self.tolerance
    }

    /// Returns how often the rate changes.
    pub(crate) fn turns(&self) -> u8
        ensures { result ≡ self.now.turns }
    {
        self.turns
    }

    /// Returns the shortest quantum with a tolerance wider by some ppm, in millionths of a tick, rounded down.
    pub(crate) fn shortest_by(&self, wider: u32) -> u128
        ensures value { result ≡ shortest_of self.now wider }
        ensures most { result < fast_limit }
    {
        if wider == 0 {
            return self.shortest;
        }
        shortest_at(&self.fastest, self.tolerance as u128 + wider as u128)
    }

    /// Returns the longest one, rounded up.
    pub(crate) fn longest_by(&self, wider: u32) -> u128
        ensures value { result ≡ longest_of self.now wider }
        ensures most { result < slow_limit }
    {
        if wider == 0 {
            return self.longest;
        }
        longest_at(&self.slowest, self.tolerance as u128 + wider as u128)
    }
}

/// Returns the shortest quantum of a rate that may deviate by this many parts per million, in millionths of a tick, rounded down.
fn shortest_at(fastest: &Rate, deviation: u128) -> u128
    requires rate { IsRate fastest.now }
    ensures value { result ≡ fastest.now.num * (1000000 - deviation) / fastest.now.den }
    ensures most { result < fast_limit }
{
    let parts = MILLION.saturating_sub(deviation);
    fastest.num * parts / fastest.den as u128
}

/// Returns the longest one, rounded up.
fn longest_at(slowest: &Rate, deviation: u128) -> u128
    requires rate { IsRate slowest.now }
    requires few { deviation < 2 ^ 33 }
    ensures value { result ≡ div_ceil (slowest.now.num * (1000000 + deviation)) slowest.now.den }
    ensures most { result < slow_limit }
{
    let parts = MILLION + deviation;
    (slowest.num * parts).div_ceil(slowest.den as u128)
}

/// True if the rates make a clock by the wide limits.
fn make_a_clock(rates: &[Rate]) -> bool
    ensures value { result ≡ is_ok (timing_within Wide 0 rates.now) }
    ensures rates { OnTrue result (All IsRate rates.now) }
    ensures few { OnTrue result (length rates.now ≤ most_rates) }
{
    match Clock::within(Limits::Wide, 0, rates) {
        Ok(clock) => {
            let _start = clock.at(0);
            true
        }
        Err(_) => false,
    }
}

/// True if a quantum of the first rate is shorter.
fn is_faster(one: &Rate, other: &Rate) -> bool
    requires one { IsRate one.now }
    requires other { IsRate other.now }
    ensures { result ≡ is_faster one.now other.now }
{
    one.num * (other.den as u128) < other.num * one.den as u128
}

/// Returns the second rate if its quanta are shorter, else the first.
fn faster(one: Rate, other: Rate) -> Rate
    requires one { IsRate one }
    requires other { IsRate other }
    ensures value { result ≡ (if is_faster other one then other else one) }
    ensures rate { IsRate result }
{
    if is_faster(&other, &one) { other } else { one }
}

/// Returns the second rate if its quanta are longer, else the first.
fn slower(one: Rate, other: Rate) -> Rate
    requires one { IsRate one }
    requires other { IsRate other }
    ensures value { result ≡ (if is_faster one other then other else one) }
    ensures rate { IsRate result }
{
    if is_faster(&one, &other) { other } else { one }
}

/// Returns the first of the fastest.
fn fastest(first: Rate, later: &[Rate]) -> Rate
    requires first { IsRate first }
    requires later { All IsRate later.now }
    ensures value { result ≡ fastest_of first later.now }
    ensures rate { IsRate result }
{
    match later {
        [] => first,
        [next, rest @ ..] => fastest(faster(first, *next), rest),
    }
}

/// Returns the first of the slowest.
fn slowest(first: Rate, later: &[Rate]) -> Rate
    requires first { IsRate first }
    requires later { All IsRate later.now }
    ensures value { result ≡ slowest_of first later.now }
    ensures rate { IsRate result }
{
    match later {
        [] => first,
        [next, rest @ ..] => slowest(slower(first, *next), rest),
    }
}
