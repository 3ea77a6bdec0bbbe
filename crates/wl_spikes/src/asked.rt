//! The spike that words mean in a plan's text.
ghost use Rattle.std.specs.Prelude.{◌≡◌, map, string_bytes};
ghost use Rattle.wl_spikes.specs.Asked.{if_countable, length_named, length_said, node_found, place_named, place_said, plan_scale, quantity_said, spike_named, spike_of_words, spike_step, target_named};

use crate::spike::{Spike, Target, place_count};
use thiserror::Error;
use wl_setup::{LARGEST_SMALL, PlanText};
use wl_sweep::{Options, node_of, parted_at_equals, size_of};
use wl_units::{MICROMETRES, Measure, Scale};

/// The femtoseconds of a tick, if a plan says no other: 1 ns.
const FEMTOSECONDS: u64 = 1_000_000;

/// Why words mean no spike of a plan.
#[derive(Clone, Copy, Debug, PartialEq, Eq, Error)]
pub enum SpikeFault {
    /// There are other words than where the spike is and how long it takes.
    #[error("Words")]
    Words,
    /// No node has this name or number.
    #[error("Node")]
    Node,
    /// Plans of versions 1 and 2 have no disturbance at a node.
    #[error("Version")]
    Version,
    /// After `x=` is no place on the cable.
    #[error("Place")]
    Place,
    /// The length is no number of ticks and no time of whole ticks, or not from 1 tick to the plan's end.
    #[error("Length")]
    Length,
    /// There are 2^32 places in time or more.
    #[error("Places")]
    Places,
}

/// Returns how texts say times and lengths in a plan: by a tick of 1 ns and a unit of 1 m if the plan doesn't say them.
fn plan_scale(plan: &PlanText) -> Scale
    ensures { result ≡ plan_scale plan.now }
{
    Scale {
        tick: plan.tick.unwrap_or(FEMTOSECONDS),
        unit: plan.unit.unwrap_or(MICROMETRES),
    }
}

/// Returns the number that a text says: a whole number, or a quantity with its unit.
fn quantity_said(measure: Measure, plan: &PlanText, word: &str) -> Option<u64>
    ensures { result ≡ quantity_said measure plan.now word.now }
{
    match size_of(word) {
        Some(number) => Some(number),
        None => plan_scale(plan).number_said(measure, word),
    }
}

/// Returns a place on the cable, in units of length.
fn place_said(place: Option<u64>) -> Result<Target, SpikeFault>
    ensures { result ≡ place_said place }
{
    match place {
        Some(x) if x <= LARGEST_SMALL => Ok(Target::Place(x as u32)),
        _ => Err(SpikeFault::Place),
    }
}

/// Returns a place on the cable, by the key `x` and its value.
fn place_named(plan: &PlanText, key: &str, word: &str) -> Result<Target, SpikeFault>
    ensures { result ≡ place_named plan.now key.now word.now }
{
    if key == "x" {
        place_said(quantity_said(Measure::Length, plan, word))
    } else {
        Err(SpikeFault::Node)
    }
}

/// Returns a node that was found, if a plan of this version may have a disturbance at it.
fn node_found(version: u64, node: Option<usize>) -> Result<Target, SpikeFault>
    ensures { result ≡ node_found version node }
{
    match node {
        None => Err(SpikeFault::Node),
        Some(_) if version < 3 => Err(SpikeFault::Version),
        Some(i) => Ok(Target::Node(i)),
    }
}

/// Returns where a spike is: `NODE` or `x=PLACE`.
fn target_named(plan: &PlanText, word: &str) -> Result<Target, SpikeFault>
    ensures { result ≡ target_named plan.now word.now }
{
    match parted_at_equals(word) {
        Some((key, value)) => place_named(plan, key, value),
        None => node_found(plan.version, node_of(plan.node.as_slice(), word)),
    }
}

/// Returns a length in ticks, if it is one tick or more, and no more than a plan has.
fn length_said(end: u64, ticks: Option<u64>) -> Result<u64, SpikeFault>
    ensures { result ≡ length_said end ticks }
{
    match ticks {
        Some(ticks) if 0 < ticks && ticks <= end => Ok(ticks),
        _ => Err(SpikeFault::Length),
    }
}

/// Returns the length of a spike in ticks.
fn length_named(plan: &PlanText, word: &str) -> Result<u64, SpikeFault>
    ensures { result ≡ length_named plan.now word.now }
{
    length_said(plan.end, quantity_said(Measure::Time, plan, word))
}

/// Returns the ticks between two places in time.
fn spike_step(options: Options, end: u64) -> u64
    ensures { result ≡ spike_step options end }
{
    match options.step {
        Some(step) => step,
        None => end.div_ceil(u64::from(options.runs.max(1))).max(1),
    }
}

/// Returns a spike, if its members have numbers of 32 bits.
fn if_countable(end: u64, spike: Spike) -> Result<Spike, SpikeFault>
    ensures { result ≡ if_countable end spike }
{
    if place_count(spike.step, end) < 1 << 32 {
        Ok(spike)
    } else {
        Err(SpikeFault::Places)
    }
}

/// Returns the spike at a target of this length.
fn spike_named(
    plan: &PlanText,
    options: Options,
    at: &str,
    length: &str,
) -> Result<Spike, SpikeFault>
    ensures { result ≡ spike_named plan.now options at.now length.now }
{
    let target = target_named(plan, at)?;
    let length = length_named(plan, length)?;
    let step = spike_step(options, plan.end);
    let spike = Spike {
        target,
        length,
        step,
    };
    if_countable(plan.end, spike)
}

/// Returns the spike that two words mean in a plan's text: where it is, `NODE` or `x=PLACE`, and how long it takes, in ticks or as a time.
///
/// A node is named by its name or its number. Without a step there are at most `runs` places in time. The first of these faults:
/// `Words`; `Node`, `Version` or `Place`; `Length`; `Places`.
pub fn read_spike(plan: &PlanText, options: Options, words: &[String]) -> Result<Spike, SpikeFault>
    ensures { result ≡ spike_of_words plan.now options (map string_bytes words.now) }
{
    match words {
        [at, length] => spike_named(plan, options, at.as_str(), length.as_str()),
        _ => Err(SpikeFault::Words),
    }
}
