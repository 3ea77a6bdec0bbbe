//! Frames and nodes again, with other values of some keys.
ghost use Rattle.std.specs.Prelude.{◌≡◌, ◌∷◌, [], IfOk};
ghost use Rattle.wl_apply.specs.Nodes.{node_made};

use crate::chosen::Chosen;
use std::alloc::{AllocError, Global};
use wl_level::Listed;
use wl_setup::{ClockText, FrameText, NodeText, RateText, SegmentsText, Text};

/// Returns a frame that becomes ready, and comes again, at other quanta.
pub(crate) fn frame_with(
    alloc: Global,
    frame: &FrameText,
    ready: u64,
    every: Option<u64>,
) -> Result<FrameText, AllocError>
    ensures { IfOk result (λ made. made ≡ record frame.now { ready = ready; every = every }) }
{
    Ok(FrameText {
        id: frame.id,
        dlc: frame.dlc,
        remote: frame.remote,
        bytes: frame.bytes.clone_in(alloc)?,
        ready,
        extended: frame.extended,
        every,
        count: frame.count,
        deadline: frame.deadline,
        jitter: frame.jitter,
    })
}

/// Returns equal frames.
fn frames_same(alloc: Global, frames: &[FrameText]) -> Result<Listed<FrameText>, AllocError>
    ensures { IfOk result (λ copies. copies ≡ frames.now) }
{
    let mut copies = Listed::new(alloc);
    for frame in frames {
        copies.push(frame_with(alloc, frame, frame.ready, frame.every)?)?;
    }
    Ok(copies)
}

/// What is another one at a node.
#[derive(Drop)]
struct Timing {
    rates: Listed<RateText>,
    segments: SegmentsText,
    sjw: u64,
}

/// Returns a node with other rates, segments and frames.
fn node_with_timing(
    alloc: Global,
    node: &NodeText,
    timing: Timing,
    frame: Listed<FrameText>,
) -> Result<NodeText, AllocError>
    ensures { IfOk result (λ made. made ≡ record node.now {
      rates = timing.rates;
      segments = timing.segments;
      sjw = timing.sjw;
      frame = frame;
    }) }
{
    Ok(NodeText {
        name: Text::new(alloc, node.name.as_str())?,
        offset: node.offset,
        rates: timing.rates,
        segments: timing.segments,
        sjw: timing.sjw,
        x: node.x,
        out_delay: node.out_delay,
        in_delay: node.in_delay,
        frame,
        tolerance: node.tolerance,
        listens: node.listens,
        queue: node.queue,
        until: node.until,
    })
}

/// Returns an equal node.
pub(crate) fn node_same(alloc: Global, node: &NodeText) -> Result<NodeText, AllocError>
    ensures { IfOk result (λ copy. copy ≡ node.now) }
{
    let frame = frames_same(alloc, node.frame.as_slice())?;
    let timing = Timing {
        rates: node.rates.clone_in(alloc)?,
        segments: node.segments,
        sjw: node.sjw,
    };
    node_with_timing(alloc, node, timing, frame)
}

/// Returns a clock that keeps its rate.
fn one_rate(alloc: Global, clock: ClockText) -> Result<Listed<RateText>, AllocError>
    ensures { IfOk result (λ rates. rates ≡ record { from = 0; clock = clock } ∷ []) }
{
    let mut rates = Listed::new(alloc);
    rates.push(RateText { from: 0, clock })?;
    Ok(rates)
}

/// Returns a node with a setting, its clock and its frames.
pub(crate) fn node_made(
    alloc: Global,
    chosen: &Chosen,
    clock: ClockText,
    frame: Listed<FrameText>,
    node: &NodeText,
) -> Result<NodeText, AllocError>
    ensures { IfOk result (λ made. made ≡ node_made chosen.now clock frame node.now) }
{
    let timing = Timing {
        rates: one_rate(alloc, clock)?,
        segments: chosen.segments,
        sjw: chosen.sjw,
    };
    node_with_timing(alloc, node, timing, frame)
}
