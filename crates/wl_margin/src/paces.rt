//! Whether the clocks of a plan keep to their tolerances.
ghost use Rattle.std.specs.Prelude.{◌≡◌, ◌^◌, ◌<◌, ◌≤◌, length, IfSome};
ghost use Rattle.wl_clock.specs.Timing.{IsRate};
ghost use Rattle.wl_level.specs.Places.{first_place};
ghost use Rattle.wl_topology.specs.Driven.{any_below};
ghost use Rattle.wl_margin.specs.Paces.{PaceLaw, deviated, first_stray, has_deviation, has_rate, has_told_rate, is_turning, is_tolerated, keeps_rate, least_ticks, most_ticks, stray_at, stray_from, stray_by, stray_over, ticks_of_quanta, told_millionths, told_rate};

use wl_bound::{Family, Oscillator};
use wl_clock::{Clock, Rate};
use wl_limits::Limits;
use wl_node::MOST_RUN_QUANTA;
use wl_plan::CheckedPlan;
use wl_setup::Deviation;
use wl_units::fraction_with;

const MILLION: u128 = 1_000_000;

/// A tick has this many millionths. The ticks of this number of quanta are the millionths of a tick that one quantum takes.
const TOLD_QUANTA: u64 = 1_000_000;

/// Quanta of a clock that take too few ticks or too many.
#[derive(Clone, Copy, Debug, PartialEq, Eq)]
pub(crate) struct Stray {
    /// How many quanta.
    pub(crate) quanta: u64,
    /// The ticks that they take.
    pub(crate) ticks: u64,
}

/// Law: clocks that keep to their tolerances, each of an oscillator with one rate, keep the pace that the laws on a bus ask.
pub fn clocks_keep_pace()
    ensures { PaceLaw }
{}

/// Returns the ticks of `n` quanta from quantum `k` on.
fn ticks_of_quanta(clock: &Clock, k: u64, n: u64) -> u64
    ensures value { result ≡ ticks_of_quanta clock.now k n }
    ensures most { result < 2 ^ 52 }
{
    let last = clock.at(k.saturating_add(n).min(MOST_RUN_QUANTA));
    last.saturating_sub(clock.at(k.min(MOST_RUN_QUANTA)))
}

/// Returns the one rate of a clock, as far as its ticks tell it.
fn told_rate(clock: &Clock) -> Rate
    ensures { result ≡ told_rate clock.now }
{
    Rate {
        from: 0,
        num: ticks_of_quanta(clock, 0, TOLD_QUANTA) as u128,
        den: TOLD_QUANTA,
    }
}

/// True if a rate is within the tolerance of an oscillator.
fn is_tolerated(oscillator: &Oscillator, rate: &Rate) -> bool
    requires { IsRate rate.now }
    ensures { result ≡ is_tolerated oscillator.now rate.now }
{
    let den = rate.den as u128;
    MILLION * rate.num <= oscillator.longest() * den
        && oscillator.shortest() * den <= MILLION * rate.num
}

/// True if a clock has this one rate, and that is within the tolerance.
fn has_rate(oscillator: &Oscillator, clock: &Clock, rate: Rate) -> bool
    ensures { result ≡ has_rate oscillator.now clock.now rate }
{
    wl_clock::ticks_increase();
    match Clock::within(Limits::Wide, clock.at(0), &[rate]) {
        Ok(other) => {
            // its rates are rates
            let _start = other.at(0);
            *clock == other && is_tolerated(oscillator, &rate)
        }
        Err(_) => false,
    }
}

/// Returns how many millionths of a rate's quantum one quantum of a clock lasts, rounded down, as far as its ticks tell it: 2,000,000 at most.
fn told_millionths(clock: &Clock, rate: &Rate) -> u64
    ensures value { result ≡ told_millionths clock.now rate.now }
    ensures most { result ≤ 2000000 }
{
    if rate.num == 0 {
        return 0;
    }
    let ticks = ticks_of_quanta(clock, 0, TOLD_QUANTA) as u128;
    (ticks * rate.den as u128 / rate.num).min(2 * MILLION) as u64
}

/// Returns a rate with a deviation, as the `ppm` of a plan's text makes it.
fn deviated(rate: &Rate, millionths: u64) -> Rate
    ensures { result ≡ deviated rate.now millionths }
{
    let num = rate.num.min(u64::MAX as u128) as u64;
    let (num, den) = fraction_with(num, rate.den, millionths);
    Rate { from: 0, num, den }
}

/// True if a clock has this rate with a deviation of whole millionths, and that is within the tolerance.
fn has_deviation(oscillator: &Oscillator, clock: &Clock, rate: &Rate) -> bool
    ensures { result ≡ has_deviation oscillator.now rate.now clock.now }
{
    let millionths = told_millionths(clock, rate);
    has_rate(oscillator, clock, deviated(rate, millionths))
        || has_rate(oscillator, clock, deviated(rate, millionths + 1))
}

/// True if a clock has a rate that its ticks tell, within the tolerance: in millionths of a tick, or as a deviation from this rate.
fn has_told_rate(oscillator: &Oscillator, clock: &Clock, rate: &Rate) -> bool
    ensures { result ≡ has_told_rate oscillator.now rate.now clock.now }
{
    has_rate(oscillator, clock, told_rate(clock)) || has_deviation(oscillator, clock, rate)
}

/// True if a clock keeps to an oscillator of one rate.
fn keeps_rate(oscillator: &Oscillator, clock: &Clock, rate: Rate) -> bool
    ensures { result ≡ keeps_rate oscillator.now rate clock.now }
{
    has_rate(oscillator, clock, rate) || has_told_rate(oscillator, clock, &rate)
}

/// Returns the ticks that `n` quanta take at least.
pub(crate) fn least_ticks(oscillator: &Oscillator, n: u64) -> u128
    ensures { result ≡ least_ticks oscillator.now n }
{
    oscillator.shortest() * n as u128 / MILLION
}

/// Returns the ticks that they take at most.
pub(crate) fn most_ticks(oscillator: &Oscillator, n: u64) -> u128
    ensures { result ≡ most_ticks oscillator.now n }
{
    oscillator.longest() * n as u128 / MILLION
}

/// Returns `n` quanta from quantum `k` on if they take too few ticks or too many.
fn stray_from(oscillator: &Oscillator, clock: &Clock, k: u64, n: u64) -> Option<Stray>
    ensures { result ≡ stray_from oscillator.now clock.now k n }
{
    let ticks = ticks_of_quanta(clock, k, n);
    if (ticks as u128) < least_ticks(oscillator, n) || most_ticks(oscillator, n) < ticks as u128 {
        return Some(Stray { quanta: n, ticks });
    }
    None
}

/// Returns the first stretch of one of these rates that does.
fn stray_over(oscillator: &Oscillator, clock: &Clock, rates: &[Rate]) -> Option<Stray>
    ensures { result ≡ stray_over oscillator.now clock.now rates.now }
{
    match rates {
        [] => None,
        [first] => stray_from(oscillator, clock, first.from, TOLD_QUANTA),
        [first, later @ ..] => {
            let quanta = later[0].from.saturating_sub(first.from);
            match stray_from(oscillator, clock, first.from, quanta) {
                Some(stray) => Some(stray),
                None => stray_over(oscillator, clock, later),
            }
        }
    }
}

/// Returns where a clock leaves the tolerance of an oscillator with these rates.
fn stray_by(oscillator: &Oscillator, clock: &Clock, rates: &[Rate]) -> Option<Stray>
    ensures { result ≡ stray_by oscillator.now clock.now rates.now }
{
    match rates {
        [rate] => {
            if keeps_rate(oscillator, clock, *rate) {
                return None;
            }
            let ticks = ticks_of_quanta(clock, 0, TOLD_QUANTA);
            Some(Stray {
                quanta: TOLD_QUANTA,
                ticks,
            })
        }
        _ => stray_over(oscillator, clock, rates),
    }
}

/// Returns where the clock of node `i` leaves its tolerance.
pub(crate) fn stray_at(
    deviations: &[Deviation],
    plan: &CheckedPlan,
    family: &Family,
    i: u8,
) -> Option<Stray>
    requires deviation { i < length deviations.now }
    requires node { i < length plan.now.nodes }
    requires member { i < length family.now.members }
    ensures { result ≡ stray_at deviations.now plan.now family.now i }
{
    let place = i as usize;
    let deviation = &deviations[place];
    let oscillator = family.member(i).oscillator;
    stray_by(&oscillator, &plan.node(i).clock, deviation.rates.as_slice())
}

/// Returns the first node whose clock leaves its tolerance.
pub fn first_stray(deviations: &[Deviation], plan: &CheckedPlan, family: &Family) -> Option<u8>
    requires deviations { length deviations.now ≡ length plan.now.nodes }
    requires members { length family.now.members ≡ length plan.now.nodes }
    ensures first { result ≡ first_stray deviations.now plan.now family.now }
    ensures inside { IfSome result (λ i. i < length plan.now.nodes) }
{
    let mut first = None;
    for i in 0..plan.nodes() {
        if first.is_none() && stray_at(deviations, plan, family, i).is_some() {
            first = Some(i);
        }
    }
    first
}

/// Returns the first node whose oscillator has several rates.
pub fn first_turning(deviations: &[Deviation], plan: &CheckedPlan) -> Option<u8>
    requires deviations { length deviations.now ≡ length plan.now.nodes }
    ensures { result ≡ first_place (is_turning deviations.now) (length plan.now.nodes) }
{
    let mut first = None;
    for i in 0..plan.nodes() {
        let place = i as usize;
        if first.is_none() && deviations[place].rates.len() != 1 {
            first = Some(i);
        }
    }
    first
}

/// True if some oscillator has several rates.
pub(crate) fn any_turning(deviations: &[Deviation], plan: &CheckedPlan) -> bool
    requires deviations { length deviations.now ≡ length plan.now.nodes }
    ensures { result ≡ any_below (length plan.now.nodes) (is_turning deviations.now) }
{
    let mut turning = false;
    for i in 0..plan.nodes() {
        let place = i as usize;
        turning = turning || deviations[place].rates.len() != 1;
    }
    turning
}
