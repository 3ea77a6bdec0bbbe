//! A plan text with other values.
ghost use Rattle.std.specs.Prelude.{◌≡◌, ◌<◌, ◌^◌, IfOk, map};
ghost use Rattle.std.specs.List.{enumerate_from};
ghost use Rattle.wl_sweep.specs.Changes.{clock_on, clock_with, frame_with, is_of, moved_node, narrowed, node_set, node_with, num_on, ppm_on, rate_on, rate_with, refined, refinement, replaced, segments_with, set_at, text_with, tolerance_on, top_with};

use std::alloc::{AllocError, Global};
use wl_level::Listed;
use wl_setup::{
    ClockText, DisturbanceText, FrameText, NodeText, PlanText, RateText, SegmentsText, Text,
};

/// A key of a plan text that a sweep gives other values.
#[derive(Clone, Copy, Debug, PartialEq, Eq)]
pub enum SweptKey {
    /// `end`, of the top table.
    End,
    /// `per`, of the top table.
    Per,
    /// `offset`
    Offset,
    /// `num`, of each rate that has it.
    Num,
    /// `den`, of each rate that has it.
    Den,
    /// `quantum`, of each rate that has it.
    Quantum,
    /// `ppm`, of each rate that has it.
    Ppm,
    /// `prop`
    Prop,
    /// `ps1`
    Ps1,
    /// `ps2`
    Ps2,
    /// `tseg1`
    Tseg1,
    /// `tseg2`
    Tseg2,
    /// `sjw`
    Sjw,
    /// `x`
    X,
    /// `out`
    Out,
    /// `in`
    In,
    /// `tolerance`
    Tolerance,
    /// `every`, of each frame that has it.
    Every,
    /// `count`, of each frame that has it.
    Count,
}

/// On which side of its rates without `ppm` a clock is.
#[derive(Clone, Copy, Debug, PartialEq, Eq)]
pub(crate) enum Side {
    /// It keeps the rates of the text.
    Own,
    /// Its quanta are longer by this many parts per million.
    Slow(u32),
    /// Its quanta are shorter by this many parts per million.
    Fast(u32),
}

/// The greatest denominator of a clock, and what parts per million are parts of.
const MILLION: u64 = 1_000_000;

/// Returns a clock with another value of a key, if it has that key.
fn clock_with(clock: ClockText, key: SweptKey, value: i64) -> ClockText
    ensures { result ≡ clock_with key value clock }
{
    let size = value.unsigned_abs();
    match clock {
        ClockText::Rate { num, den } => match key {
            SweptKey::Num => ClockText::Rate { num: size, den },
            SweptKey::Den => ClockText::Rate { num, den: size },
            _ => clock,
        },
        ClockText::Fraction { num, den, ppm } => match key {
            SweptKey::Num => ClockText::Fraction {
                num: size,
                den,
                ppm,
            },
            SweptKey::Den => ClockText::Fraction {
                num,
                den: size,
                ppm,
            },
            SweptKey::Ppm => ClockText::Fraction {
                num,
                den,
                ppm: value,
            },
            _ => clock,
        },
        ClockText::Ppm { quantum, ppm } => match key {
            SweptKey::Quantum => ClockText::Ppm { quantum: size, ppm },
            SweptKey::Ppm => ClockText::Ppm {
                quantum,
                ppm: value,
            },
            _ => clock,
        },
    }
}

/// Returns the rates with another value of a key, each that has it.
fn rates_with(
    alloc: Global,
    rates: &[RateText],
    key: SweptKey,
    value: i64,
) -> Result<Listed<RateText>, AllocError>
    ensures { IfOk result (λ all. all ≡ map (rate_with key value) rates.now) }
{
    let mut all = Listed::new(alloc);
    for rate in rates {
        all.push(RateText {
            from: rate.from,
            clock: clock_with(rate.clock, key, value),
        })?;
    }
    Ok(all)
}

/// Returns a value of a key that has 32 bits, 2^32 - 1 if it is greater.
fn narrowed(size: u64) -> u32
    ensures { result ≡ narrowed size }
{
    size.min(u64::from(u32::MAX)) as u32
}

/// Returns segments with another value of a key, if they have that key.
fn segments_with(segments: SegmentsText, key: SweptKey, value: i64) -> SegmentsText
    ensures { result ≡ segments_with key value segments }
{
    let size = value.unsigned_abs();
    match segments {
        SegmentsText::Each { prop, ps1, ps2 } => match key {
            SweptKey::Prop => SegmentsText::Each {
                prop: size,
                ps1,
                ps2,
            },
            SweptKey::Ps1 => SegmentsText::Each {
                prop,
                ps1: size,
                ps2,
            },
            SweptKey::Ps2 => SegmentsText::Each {
                prop,
                ps1,
                ps2: size,
            },
            _ => segments,
        },
        SegmentsText::Controller { tseg1, tseg2 } => match key {
            SweptKey::Tseg1 => SegmentsText::Controller { tseg1: size, tseg2 },
            SweptKey::Tseg2 => SegmentsText::Controller { tseg1, tseg2: size },
            _ => segments,
        },
    }
}

/// Returns a node with another value of a key that is no clock's and no frame's.
fn node_with(node: NodeText, key: SweptKey, value: i64) -> NodeText
    ensures { result ≡ node_with key value node }
{
    let size = value.unsigned_abs();
    match key {
        SweptKey::Offset => NodeText {
            offset: size,
            ..node
        },
        SweptKey::Prop | SweptKey::Ps1 | SweptKey::Ps2 | SweptKey::Tseg1 | SweptKey::Tseg2 =>
            NodeText {
                segments: segments_with(node.segments, key, value),
                ..node
            },
        SweptKey::Sjw => NodeText { sjw: size, ..node },
        SweptKey::X => NodeText {
            x: narrowed(size),
            ..node
        },
        SweptKey::Out => NodeText {
            out_delay: size,
            ..node
        },
        SweptKey::In => NodeText {
            in_delay: size,
            ..node
        },
        SweptKey::Tolerance => NodeText {
            tolerance: Some(narrowed(size)),
            ..node
        },
        _ => node,
    }
}

/// Returns an equal frame.
fn frame_again(alloc: Global, frame: &FrameText) -> Result<FrameText, AllocError>
    ensures { IfOk result (λ copy. copy ≡ frame.now) }
{
    Ok(FrameText {
        id: frame.id,
        dlc: frame.dlc,
        remote: frame.remote,
        bytes: frame.bytes.clone_in(alloc)?,
        ready: frame.ready,
        extended: frame.extended,
        every: frame.every,
        count: frame.count,
        deadline: frame.deadline,
        jitter: frame.jitter,
    })
}

/// Returns equal frames.
fn frames_again(alloc: Global, frames: &[FrameText]) -> Result<Listed<FrameText>, AllocError>
    ensures { IfOk result (λ copies. copies ≡ frames.now) }
{
    let mut copies = Listed::new(alloc);
    for frame in frames {
        copies.push(frame_again(alloc, frame)?)?;
    }
    Ok(copies)
}

/// Returns a number in the place of another one, if there is one.
fn replaced(old: Option<u64>, value: i64) -> Option<u64>
    ensures { result ≡ replaced value old }
{
    match old {
        Some(_) => Some(value.unsigned_abs()),
        None => None,
    }
}

/// Returns a frame with another value of a key, if it has that key.
fn frame_with(frame: FrameText, key: SweptKey, value: i64) -> FrameText
    ensures { result ≡ frame_with key value frame }
{
    match key {
        SweptKey::Every => FrameText {
            every: replaced(frame.every, value),
            ..frame
        },
        SweptKey::Count => FrameText {
            count: replaced(frame.count, value),
            ..frame
        },
        _ => frame,
    }
}

/// Returns the frames with another value of a key, each that has it.
fn frames_with(
    alloc: Global,
    frames: &[FrameText],
    key: SweptKey,
    value: i64,
) -> Result<Listed<FrameText>, AllocError>
    ensures { IfOk result (λ all. all ≡ map (frame_with key value) frames.now) }
{
    let mut all = Listed::new(alloc);
    for frame in frames {
        all.push(frame_with(frame_again(alloc, frame)?, key, value))?;
    }
    Ok(all)
}

/// Returns a node with another offset, other rates and other frames.
fn node_made(
    alloc: Global,
    node: &NodeText,
    offset: u64,
    rates: Listed<RateText>,
    frame: Listed<FrameText>,
) -> Result<NodeText, AllocError>
    ensures { IfOk result (λ made. made ≡ record node.now { offset = offset; rates = rates; frame = frame }) }
{
    Ok(NodeText {
        name: Text::new(alloc, node.name.as_str())?,
        offset,
        rates,
        segments: node.segments,
        sjw: node.sjw,
        x: node.x,
        out_delay: node.out_delay,
        in_delay: node.in_delay,
        frame,
        tolerance: node.tolerance,
        listens: node.listens,
        queue: node.queue,
        until: node.until,
    })
}

/// Returns a node with another offset and other rates.
pub(crate) fn node_again(
    alloc: Global,
    node: &NodeText,
    offset: u64,
    rates: Listed<RateText>,
) -> Result<NodeText, AllocError>
    ensures { IfOk result (λ copy. copy ≡ record node.now { offset = offset; rates = rates }) }
{
    let frame = frames_again(alloc, node.frame.as_slice())?;
    node_made(alloc, node, offset, rates, frame)
}

/// Returns equal nodes.
fn nodes_same(alloc: Global, nodes: &[NodeText]) -> Result<Listed<NodeText>, AllocError>
    ensures { IfOk result (λ copies. copies ≡ nodes.now) }
{
    let mut copies = Listed::new(alloc);
    for node in nodes {
        let rates = node.rates.clone_in(alloc)?;
        copies.push(node_again(alloc, node, node.offset, rates)?)?;
    }
    Ok(copies)
}

/// Returns an equal name, if there is one.
fn name_again(alloc: Global, name: &Option<Text>) -> Result<Option<Text>, AllocError>
    ensures { IfOk result (λ copy. copy ≡ name.now) }
{
    match name {
        Some(name) => Ok(Some(Text::new(alloc, name.as_str())?)),
        None => Ok(None),
    }
}

/// Returns equal disturbances.
fn disturbances_again(
    alloc: Global,
    disturbances: &[DisturbanceText],
) -> Result<Listed<DisturbanceText>, AllocError>
    ensures { IfOk result (λ copies. copies ≡ disturbances.now) }
{
    let mut copies = Listed::new(alloc);
    for disturbance in disturbances {
        copies.push(DisturbanceText {
            node: name_again(alloc, &disturbance.node)?,
            x: disturbance.x,
            from: disturbance.from,
            to: disturbance.to,
        })?;
    }
    Ok(copies)
}

/// Returns an equal text.
pub fn text_same(alloc: Global, text: &PlanText) -> Result<PlanText, AllocError>
    ensures { IfOk result (λ copy. copy ≡ text.now) }
{
    let nodes = nodes_same(alloc, text.node.as_slice())?;
    text_again(alloc, text, nodes)
}

/// Returns a text with other nodes.
pub(crate) fn text_again(
    alloc: Global,
    text: &PlanText,
    node: Listed<NodeText>,
) -> Result<PlanText, AllocError>
    ensures { IfOk result (λ copy. copy ≡ record text.now { node = node }) }
{
    Ok(PlanText {
        version: text.version,
        end: text.end,
        per: text.per,
        node,
        disturbance: disturbances_again(alloc, text.disturbance.as_slice())?,
        sync: text.sync,
        tick: text.tick,
        unit: text.unit,
    })
}

/// Returns by how much both numbers of a rate are multiplied before it deviates.
fn refinement(den: u64) -> u64
    ensures { result ≡ refinement den }
{
    (MILLION / den.max(1)).max(1)
}

/// Returns a number of ticks, longer or shorter by some parts per million, rounded towards that number.
fn num_on(side: Side, num: u128) -> u128
    requires { num < 2 ^ 85 }
    ensures { result ≡ num_on side num }
{
    let million = u128::from(MILLION);
    match side {
        Side::Own => num,
        Side::Slow(ppm) => num * (million + u128::from(ppm)) / million,
        Side::Fast(ppm) => (num * million.saturating_sub(u128::from(ppm))).div_ceil(million),
    }
}

/// Returns a rate of ticks and quanta on a side, with a denominator up to a million.
fn refined(side: Side, num: u64, den: u64) -> ClockText
    ensures { result ≡ refined side num den }
{
    let times = u128::from(refinement(den));
    let largest = u128::from(u64::MAX);
    ClockText::Rate {
        num: num_on(side, u128::from(num) * times).min(largest) as u64,
        den: (u128::from(den) * times).min(largest) as u64,
    }
}

/// Returns a deviation in the place of a clock's own, in parts per million.
fn ppm_on(side: Side, own: i64) -> i64
    ensures { result ≡ ppm_on side own }
{
    match side {
        Side::Own => own,
        Side::Slow(ppm) => i64::from(ppm),
        Side::Fast(ppm) => -i64::from(ppm),
    }
}

/// Returns a clock on a side of what it is without its own `ppm`.
fn clock_on(side: Side, clock: ClockText) -> ClockText
    ensures { result ≡ clock_on side clock }
{
    match clock {
        ClockText::Ppm { quantum, ppm } => ClockText::Ppm {
            quantum,
            ppm: ppm_on(side, ppm),
        },
        ClockText::Rate { num, den } | ClockText::Fraction { num, den, .. } => match side {
            Side::Own => clock,
            _ => refined(side, num, den),
        },
    }
}

/// Returns the rates on a side.
fn rates_on(alloc: Global, rates: &[RateText], side: Side) -> Result<Listed<RateText>, AllocError>
    ensures { IfOk result (λ all. all ≡ map (rate_on side) rates.now) }
{
    let mut all = Listed::new(alloc);
    for rate in rates {
        all.push(RateText {
            from: rate.from,
            clock: clock_on(side, rate.clock),
        })?;
    }
    Ok(all)
}

/// Returns what is left of a tolerance on a side: nothing, if the clock has a rate within it.
fn tolerance_on(side: Side, tolerance: Option<u32>) -> Option<u32>
    ensures { result ≡ tolerance_on side tolerance }
{
    match side {
        Side::Own => tolerance,
        Side::Slow(_) | Side::Fast(_) => None,
    }
}

/// Returns a node that begins `by` ticks later, and whose clock is on this side of its rates.
pub(crate) fn moved_node(
    alloc: Global,
    node: &NodeText,
    by: u64,
    side: Side,
) -> Result<NodeText, AllocError>
    ensures { IfOk result (λ moved. moved ≡ moved_node by side node.now) }
{
    let rates = rates_on(alloc, node.rates.as_slice(), side)?;
    let copy = node_again(alloc, node, node.offset.saturating_add(by), rates)?;
    Ok(NodeText {
        tolerance: tolerance_on(side, node.tolerance),
        ..copy
    })
}

/// Returns a node with another value of a key, if it has that key.
fn node_set(
    alloc: Global,
    node: &NodeText,
    key: SweptKey,
    value: i64,
) -> Result<NodeText, AllocError>
    ensures { IfOk result (λ n. n ≡ node_set key value node.now) }
{
    let rates = rates_with(alloc, node.rates.as_slice(), key, value)?;
    let frames = frames_with(alloc, node.frame.as_slice(), key, value)?;
    let made = node_made(alloc, node, node.offset, rates, frames)?;
    Ok(node_with(made, key, value))
}

/// True if a value is one of node `i`: each node's if no node is named.
fn is_of(named: Option<usize>, i: usize) -> bool
    ensures { result ≡ is_of named i }
{
    match named {
        None => true,
        Some(node) => node == i,
    }
}

/// Returns node `i` with another value of a key, if the value is one of its own.
fn node_at(
    alloc: Global,
    i: usize,
    node: &NodeText,
    key: SweptKey,
    named: Option<usize>,
    value: i64,
) -> Result<NodeText, AllocError>
    ensures { IfOk result (λ n. n ≡ set_at key named value (i, node.now)) }
{
    if is_of(named, i) {
        node_set(alloc, node, key, value)
    } else {
        node_again(alloc, node, node.offset, node.rates.clone_in(alloc)?)
    }
}

/// Returns nodes with another value of a key: of the node that is named, or of each that has it.
fn nodes_set(
    alloc: Global,
    nodes: &[NodeText],
    key: SweptKey,
    named: Option<usize>,
    value: i64,
) -> Result<Listed<NodeText>, AllocError>
    ensures { IfOk result (λ all. all ≡ map (set_at key named value) (enumerate_from 0 nodes.now)) }
{
    let mut all = Listed::new(alloc);
    for (i, node) in nodes.iter().enumerate() {
        all.push(node_at(alloc, i, node, key, named, value)?)?;
    }
    Ok(all)
}

/// Returns a text with another value of a key: of the top table, of the node that is named, or of each node that has it.
pub(crate) fn text_with(
    alloc: Global,
    text: &PlanText,
    key: SweptKey,
    named: Option<usize>,
    value: i64,
) -> Result<PlanText, AllocError>
    ensures { IfOk result (λ t. t ≡ text_with key named value text.now) }
{
    let node = nodes_set(alloc, text.node.as_slice(), key, named, value)?;
    let copy = text_again(alloc, text, node)?;
    Ok(top_with(copy, key, value))
}

/// Returns a text with another value of a key of the top table.
fn top_with(text: PlanText, key: SweptKey, value: i64) -> PlanText
    ensures { result ≡ top_with key value text }
{
    let size = value.unsigned_abs();
    match key {
        SweptKey::End => PlanText { end: size, ..text },
        SweptKey::Per => PlanText { per: size, ..text },
        _ => text,
    }
}
