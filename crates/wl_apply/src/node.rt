//! A node with another setting.
ghost use Rattle.std.specs.Prelude.{◌≡◌, option_map};
ghost use Rattle.wl_apply.specs.Answers.{AnswersMade};
ghost use Rattle.wl_apply.specs.Nodes.{clock_for, deviating_clock, has_segments, node_by, set_node, only_clock, nominal_quantum};

use crate::chosen::{Chosen, QuantumLength};
use crate::copies::{node_made, node_same};
use crate::fault::ApplyFault;
use crate::moves::{moved_frames, ratio_of};
use std::alloc::Global;
use wl_setup::{ClockText, NodeText, RateText, SegmentsText};

/// Returns the quantum of a clock without its deviation.
fn nominal_quantum(clock: ClockText) -> QuantumLength
    ensures { result ≡ nominal_quantum clock }
{
    match clock {
        ClockText::Rate { num, den } | ClockText::Fraction { num, den, .. } => QuantumLength {
            num,
            den,
        },
        ClockText::Ppm { quantum, .. } => QuantumLength {
            num: quantum,
            den: 1,
        },
    }
}

/// Returns a clock with another quantum and the same deviation, if the version has both. It has in version 4.
fn deviating_clock(wide: bool, quantum: QuantumLength, clock: ClockText) -> Option<ClockText>
    ensures { result ≡ deviating_clock wide quantum clock }
{
    let QuantumLength { num, den } = quantum;
    match clock {
        ClockText::Rate { .. } => Some(ClockText::Rate { num, den }),
        ClockText::Ppm { ppm, .. } => {
            if den == 1 {
                Some(ClockText::Ppm { quantum: num, ppm })
            } else if wide {
                Some(ClockText::Fraction { num, den, ppm })
            } else {
                None
            }
        }
        ClockText::Fraction { ppm, .. } => {
            if wide {
                Some(ClockText::Fraction { num, den, ppm })
            } else {
                None
            }
        }
    }
}

/// True if a version has segments that are written so: version 4 has all.
fn has_segments(wide: bool, segments: SegmentsText) -> bool
    ensures { result ≡ has_segments wide segments }
{
    match segments {
        SegmentsText::Each { .. } => true,
        SegmentsText::Controller { .. } => wide,
    }
}

/// Returns the clock of a node with a setting, if the version has its segments and its clock.
fn clock_for(wide: bool, chosen: &Chosen, clock: ClockText) -> Option<ClockText>
    ensures { result ≡ clock_for wide chosen.now clock }
{
    if has_segments(wide, chosen.segments) {
        deviating_clock(wide, chosen.quantum, clock)
    } else {
        None
    }
}

/// Returns the clock of one rate, if there is one rate.
fn only_clock(rates: &[RateText]) -> Option<ClockText>
    ensures { result ≡ only_clock rates.now }
{
    match rates {
        [rate] => Some(rate.clock),
        _ => None,
    }
}

/// Returns node `i` with a setting, and each of its frames at the times that it had.
fn set_node(
    alloc: Global,
    wide: bool,
    chosen: &Chosen,
    i: u64,
    node: &NodeText,
) -> Result<NodeText, ApplyFault>
    ensures { AnswersMade (set_node wide chosen.now (i, node.now)) result }
{
    let Some(old) = only_clock(node.rates.as_slice()) else {
        return Err(ApplyFault::Rates(i));
    };
    let Some(clock) = clock_for(wide, chosen, old) else {
        return Err(ApplyFault::WantsVersion4(i));
    };
    let ratio = ratio_of(nominal_quantum(old), chosen.quantum);
    let frame = moved_frames(alloc, ratio, i, node.frame.as_slice())?;
    Ok(node_made(alloc, chosen, clock, frame, node)?)
}

/// Returns node `i` with a setting, if there is one for it; else as it is.
pub(crate) fn node_by(
    alloc: Global,
    wide: bool,
    chosen: Option<&Chosen>,
    i: u64,
    node: &NodeText,
) -> Result<NodeText, ApplyFault>
    ensures { AnswersMade (node_by wide (option_map (λ c. c.now) chosen.entry) (i, node.now)) result }
{
    match chosen {
        Some(chosen) => set_node(alloc, wide, chosen, i, node),
        None => Ok(node_same(alloc, node)?),
    }
}
