//! What is doubtful of a plan and its bus, and the figures of its nodes, as numbers and as text.
//!
//! The figures are the length of a quantum, the bit rate, the sample point, and how far a level may go and still be back at the sample. Of
//! a plan that is refused the text says what is wrong, and what to change.
//!
//! A tick is taken for a nanosecond. The rules are those of Bosch CAN 2.0 part B, section 10; that a level is seen up to a quantum after it
//! arrived is this project's profile. The tolerance of an oscillator is `Segments::greatest_ppm`.
#![tactic(auto)]

ghost use Rattle.std.specs.Prelude.{◌≡◌, ℕ, ◌+◌, ◌*◌, ◌/◌, ◌^◌, ◌<◌, ◌≤◌, ◌↔◌, IsTrue, [], ◌∷◌, IfSome, None};
ghost use Rattle.wl_clock.specs.declared.Rate.{Rate};
ghost use Rattle.wl_plan.specs.Limits.{most_quanta};
ghost use Rattle.wl_explain.specs.Figures.{Ratio, IsQuantum, quantum_of, picoseconds, bits_per_second, sample_point, ComesBack, furthest_way, longest_cable, longest_trip, may_take, mean_quantum, metres, quanta_begun, rate_quantum, ticks_of, tolerance};

mod condition;
mod doubts;
mod explanation;
mod laws;
mod refusal;
mod remedies;
mod waits;
mod words;

pub use doubts::{
    borne, difference, first_early, first_late, has_no_room, idle_from, left, longest_round,
    round_trip, wanted_bits,
};
pub use explanation::{Explained, explain_found, explain_plan};
pub use laws::figures_of_the_run;
pub use refusal::{
    column_number, explain_fault, explain_size, explain_toml, form_of, line_number, subject,
};
pub use remedies::{TextForm, cause, cause_in, remedy, remedy_in};
use std::marker::Model;
use wl_clock::Clock;
use wl_plan::MOST_QUANTA;
use wl_segments::Segments;

/// The most ticks that a quantum may take.
const LONGEST_QUANTUM: u64 = 1_048_576;

/// The largest denominator of a quantum's ticks.
const LARGEST_DEN: u64 = 1_000_000;

const MILLION: u64 = 1_000_000;

/// The millionths of a tick.
const MILLIONTHS: u128 = 1_000_000;

/// How many nanoseconds a level takes along a metre of cable: two thirds of the speed of light.
const METRE: u64 = 5;

/// A quantum of `num / den` ticks, from 1 to 1,048,576.
#[derive(Clone, Copy, Debug, PartialEq, Eq)]
pub struct Quantum {
    num: u64,
    den: u64,
}

impl Model for Quantum {
    ghost Value = { Ratio };

    ghost view = { λ q. record { num = q.num; den = q.den } };

    ghost inverse = { λ r. record { num = r.num; den = r.den } };

    ghost invariant = { λ q. IsQuantum (record { num = q.num; den = q.den }) };
}

impl Quantum {
    /// Returns the quantum of `num / den` ticks.
    ///
    /// `None` if `den` isn't 1 to 1,000,000, or if the quantum takes less than a tick or more than 1,048,576: what a clock refuses of its
    /// rate.
    pub fn new(num: u64, den: u64) -> Option<Quantum>
        ensures { result ≡ quantum_of num den }
    {
        if den == 0 || den > LARGEST_DEN || num < den || num > LONGEST_QUANTUM * den {
            return None;
        }
        Some(Quantum { num, den })
    }

    /// Returns the mean quantum of a clock up to the end of a plan, in millionths of a tick, rounded down. It is the mean of the n quanta
    /// that begin before tick `end`: of quantum 0 if there are none, and of the first 2^30 if there are more, as in no plan that can be run.
    ///
    /// Ticks are whole, so those of n quanta give their mean to less than a tick in n. If that leaves room for the mean of the clock's
    /// first 1,000,000 quanta, the answer is that one. Of a clock with one rate it is the rate, whatever the end. Else it is the ticks of
    /// the n quanta by n. `end` is below 2^48.
    pub fn of_clock(clock: &Clock, end: u64) -> Quantum
        requires { end < 2 ^ 48 }
        ensures mean { result ≡ mean_quantum end clock.now }
        ensures near { IsTrue (may_take (quanta_begun end clock.now) (mean_quantum end clock.now).num
            (ticks_of clock.now (quanta_begun end clock.now))) }
        ensures rate { (r : Rate) → clock.now.rates ≡ r ∷ [] → mean_quantum end clock.now ≡ rate_quantum r }
    {
        wl_clock::ticks_increase();
        let quanta = quanta_begun(clock, end);
        let start = clock.at(0);
        let ticks = clock.at(quanta) - start;
        let million = clock.at(MILLION) - start;
        let num = if may_take(quanta, million, ticks) {
            million
        } else {
            mean_of_ticks(quanta, ticks)
        };
        Quantum { num, den: MILLION }
    }

    /// Returns the numerator of its ticks.
    fn num(&self) -> u64
        ensures num { result ≡ self.now.num }
        ensures quantum { IsQuantum self.now }
    {
        self.num
    }

    /// Returns the denominator of its ticks: 1 to 1,000,000.
    fn den(&self) -> u64
        ensures den { result ≡ self.now.den }
        ensures quantum { IsQuantum self.now }
    {
        self.den
    }

    /// Returns its length in picoseconds, rounded down, if a tick is a nanosecond.
    pub fn picoseconds(&self) -> u64
        ensures { result ≡ picoseconds self.now }
    {
        1000 * self.num() / self.den()
    }

    /// Returns the bits a second with these segments, rounded down, if a tick is a nanosecond: the nominal bit rate.
    pub fn bits_per_second(&self, segments: &Segments) -> u64
        ensures { result ≡ bits_per_second self.now segments.now }
    {
        1_000_000_000 * self.den() / (segments.bit_quanta() * self.num())
    }

    /// Returns the greatest delay, in ticks, from one node to another with which a level is back by the sample of the bit in which it set
    /// out. The way back takes as long, and a level is seen up to a quantum after it arrives.
    pub fn furthest_way(&self, segments: &Segments) -> u64
        ensures reached { ComesBack self.now segments.now result }
        ensures furthest { (way : ℕ) → ComesBack self.now segments.now way → way ≤ result }
        ensures value { result ≡ furthest_way self.now segments.now }
    {
        (segments.sample_at() - 1) * self.num() / (2 * self.den())
    }

    /// Returns the most ticks that a level may take to another node and back, so that it is there by the sample of the bit in which it set
    /// out. A level is seen up to a quantum after it arrives.
    pub fn longest_trip(&self, segments: &Segments) -> u64
        ensures { result ≡ longest_trip self.now segments.now }
    {
        (segments.sample_at() - 1) * self.num() / self.den()
    }
}

/// Returns how many quanta of a clock begin before tick `end`: 1 to 2^30.
fn quanta_begun(clock: &Clock, end: u64) -> u64
    requires { end < 2 ^ 48 }
    ensures quanta { result ≡ quanta_begun end clock.now }
    ensures some { 0 < result }
    ensures few { result ≤ 2 ^ 30 }
{
    wl_clock::ticks_increase();
    clock.first_not_before(end).min(MOST_QUANTA).max(1)
}

/// True if this many quanta of this mean, in millionths of a tick, may take this many ticks; both are rounded down.
fn may_take(quanta: u64, mean: u64, ticks: u64) -> bool
    ensures { result ≡ may_take quanta mean ticks }
{
    let (quanta, mean, ticks) = (quanta as u128, mean as u128, ticks as u128);
    quanta * mean < MILLIONTHS * (ticks + 1) && MILLIONTHS * ticks < quanta * (mean + 1)
}

/// Returns the mean of this many quanta in millionths of a tick, rounded down, if they take this many ticks.
fn mean_of_ticks(quanta: u64, ticks: u64) -> u64
    requires some { 0 < quanta }
    requires slow { ticks ≤ quanta * 1048576 }
    ensures { result ≡ 1000000 * ticks / quanta }
{
    (MILLIONTHS * ticks as u128 / quanta as u128) as u64
}

/// Returns the sample point in hundredths of a per cent of the bit, rounded down.
pub fn sample_point(segments: &Segments) -> u64
    ensures { result ≡ sample_point segments.now }
{
    10_000 * segments.sample_at() / segments.bit_quanta()
}

/// Returns the greatest deviation in parts per million that both oscillators of a pair may have with these segments, as a number.
pub fn tolerance(segments: &Segments) -> u32
    ensures { result ≡ tolerance segments.now }
{
    segments.greatest_ppm()
}

/// Returns the whole metres of a cable along which a level takes this many nanoseconds, at 5 ns a metre.
pub fn metres(time: u64) -> u64
    ensures { result ≡ metres time }
{
    time / METRE
}

/// Returns the greatest length of a cable, in its units, that takes at most `way` ticks: `ends` of them out of the one node and into the
/// other, and `per` with each unit. `None` if the nodes' own are too many for any cable.
pub fn longest_cable(way: u64, ends: u64, per: u64) -> Option<u64>
    requires { 0 < per }
    ensures reached { IfSome result (λ length. ends + length * per ≤ way) }
    ensures longest { IfSome result (λ length. (x : ℕ) → ends + x * per ≤ way → x ≤ length) }
    ensures none { (result ≡ None) ↔ (way < ends) }
    ensures value { result ≡ longest_cable way ends per }
{
    if way < ends {
        return None;
    }
    Some((way - ends) / per)
}
