//! The words of a sweep's ranges: `[NODE.]KEY=A..B[:STEP]`.
ghost use Rattle.std.specs.Prelude.{◌≡◌, ◌*◌, ◌^◌, ◌<◌, ◌+ℤ◌, pos, unsigned_abs, slice_get, neg_ℤ, option_map, None, IfOk, if◌then◌else◌};
ghost use Rattle.std.specs.List.{list_any, position_from};
ghost use Rattle.std.specs.Str.{bytes_eq};
ghost use Rattle.wl_sweep.specs.Vary.{after_byte, clock_has, ends_of, ends_with_step, farthest, few_values, first_step, frame_has, greatest_x, has_key, is_clock, is_frame, is_segment, is_top, key_of, node_of, number_of, numbered, owned, parted, rate_has, segments_have, size_of, range_of, step_of, swept_in, swept_of, takes, target_of, values_from, values_of, IsRead};

use crate::change::SweptKey;
use crate::range::SweptRange;
use crate::sweep::MOST_ROWS;
use std::alloc::{AllocError, Global};
use thiserror::Error;
use wl_level::Listed;
use wl_setup::{
    ClockText, FrameText, LARGEST_NUMBER, LARGEST_PPM, LARGEST_SMALL, LARGEST_TOLERANCE, NodeText,
    PlanText, RateText, SegmentsText, Text,
};

/// The steps of a range that names none. The first of them is taken that makes fewer than twenty rows more.
#[rattlefmt::skip]
const ROUND_STEPS: [u64; 45] = [
    1, 2, 5, 10, 20, 50, 100, 200, 500, 1_000, 2_000, 5_000, 10_000, 20_000, 50_000, 100_000, 200_000, 500_000,
    1_000_000, 2_000_000, 5_000_000, 10_000_000, 20_000_000, 50_000_000, 100_000_000, 200_000_000, 500_000_000,
    1_000_000_000, 2_000_000_000, 5_000_000_000, 10_000_000_000, 20_000_000_000, 50_000_000_000,
    100_000_000_000, 200_000_000_000, 500_000_000_000, 1_000_000_000_000, 2_000_000_000_000, 5_000_000_000_000,
    10_000_000_000_000, 20_000_000_000_000, 50_000_000_000_000, 100_000_000_000_000, 200_000_000_000_000,
    500_000_000_000_000,
];

/// Why a word is no range of a sweep.
#[derive(Clone, Copy, Debug, PartialEq, Eq, Error)]
pub enum RangeFault {
    /// The word isn't `[NODE.]KEY=A..B[:STEP]`.
    #[error("Form")]
    Form,
    /// There is no such key, or it can't be varied.
    #[error("Key")]
    Key,
    /// No node has this name or number, or the key is one of the top table.
    #[error("Node")]
    Node,
    /// The nodes have no such key: one of a clock or of segments in another form, or of frames that don't come again.
    #[error("Absent")]
    Absent,
    /// A value that no plan text may have at the key.
    #[error("Bounds")]
    Bounds,
    /// The last value is below the first.
    #[error("Order")]
    Order,
    /// The step isn't above 0.
    #[error("Step")]
    Step,
    /// More than 10,000 values.
    #[error("Rows")]
    Rows,
    /// Out of memory.
    #[error("Memory")]
    Memory,
}

/// The first value of a range, the last one, and the step if it is said.
#[derive(Clone, Copy, Debug, PartialEq, Eq)]
struct Ends {
    low: i64,
    high: i64,
    step: Option<i64>,
}

/// Returns a text before and after its first `=`.
pub fn parted_at_equals(text: &str) -> Option<(&str, &str)>
    ensures { option_map (λ parts. (parts.0.now, parts.1.now)) result ≡ parted 61 text.now }
{
    text.split_once('=')
}

/// Returns a text before and after its first `.`.
fn parted_at_dot(text: &str) -> Option<(&str, &str)>
    ensures { option_map (λ parts. (parts.0.now, parts.1.now)) result ≡ parted 46 text.now }
{
    text.split_once('.')
}

/// Returns a text before and after its first `:`.
fn parted_at_colon(text: &str) -> Option<(&str, &str)>
    ensures { option_map (λ parts. (parts.0.now, parts.1.now)) result ≡ parted 58 text.now }
{
    text.split_once(':')
}

/// Returns a text after its first `.`, if it begins with one.
fn after_dot(text: &str) -> Option<&str>
    ensures { option_map (λ rest. rest.now) result ≡ after_byte 46 text.now }
{
    text.strip_prefix('.')
}

/// Returns a text after its first `-`, if it begins with one.
fn after_minus(text: &str) -> Option<&str>
    ensures { option_map (λ rest. rest.now) result ≡ after_byte 45 text.now }
{
    text.strip_prefix('-')
}

/// Returns a text after its first `+`, if it begins with one.
fn after_plus(text: &str) -> Option<&str>
    ensures { option_map (λ rest. rest.now) result ≡ after_byte 43 text.now }
{
    text.strip_prefix('+')
}

/// Returns the number that decimal digits are.
pub fn size_of(text: &str) -> Option<u64>
    ensures { result ≡ size_of text.now }
{
    if after_plus(text).is_some() {
        return None;
    }
    match text.parse::<u64>() {
        Ok(size) if size <= LARGEST_NUMBER => Some(size),
        _ => None,
    }
}

/// Returns a number, or the one as far below 0 if it is negated.
fn signed(size: u64, negated: bool) -> i64
    requires { size < 2 ^ 48 }
    ensures { result ≡ (if negated then neg_ℤ (pos size) else pos size) }
{
    if negated { -(size as i64) } else { size as i64 }
}

/// Returns the number that a text is: decimal digits, with a minus in front if it is negative.
fn number_of(text: &str) -> Option<i64>
    ensures { result ≡ number_of text.now }
{
    match after_minus(text) {
        Some(digits) => Some(signed(size_of(digits)?, true)),
        None => Some(signed(size_of(text)?, false)),
    }
}

/// Returns the ends of a range whose first value is known.
fn ends_with_step(low: i64, text: &str) -> Option<Ends>
    ensures { result ≡ ends_with_step low (parted 58 text.now) text.now }
{
    match parted_at_colon(text) {
        Some((high, step)) => Some(Ends {
            low,
            high: number_of(high)?,
            step: Some(number_of(step)?),
        }),
        None => Some(Ends {
            low,
            high: number_of(text)?,
            step: None,
        }),
    }
}

/// Returns the ends of a range: `A..B` or `A..B:STEP`.
fn ends_of(values: &str) -> Option<Ends>
    ensures { result ≡ ends_of values.now }
{
    let (first, rest) = parted_at_dot(values)?;
    let low = number_of(first)?;
    ends_with_step(low, after_dot(rest)?)
}

/// Returns the key of a name.
fn key_of(name: &str) -> Option<SweptKey>
    ensures { result ≡ key_of name.now }
{
    match name {
        "end" => Some(SweptKey::End),
        "per" => Some(SweptKey::Per),
        "offset" => Some(SweptKey::Offset),
        "num" => Some(SweptKey::Num),
        "den" => Some(SweptKey::Den),
        "quantum" => Some(SweptKey::Quantum),
        "ppm" => Some(SweptKey::Ppm),
        "prop" => Some(SweptKey::Prop),
        "ps1" => Some(SweptKey::Ps1),
        "ps2" => Some(SweptKey::Ps2),
        "tseg1" => Some(SweptKey::Tseg1),
        "tseg2" => Some(SweptKey::Tseg2),
        "sjw" => Some(SweptKey::Sjw),
        "x" => Some(SweptKey::X),
        "out" => Some(SweptKey::Out),
        "in" => Some(SweptKey::In),
        "tolerance" => Some(SweptKey::Tolerance),
        "every" => Some(SweptKey::Every),
        "count" => Some(SweptKey::Count),
        _ => None,
    }
}

/// True if a key is one of the top table.
fn is_top(key: SweptKey) -> bool
    ensures { result ≡ is_top key }
{
    match key {
        SweptKey::End | SweptKey::Per => true,
        _ => false,
    }
}

/// True if a key is one of a clock.
fn is_clock(key: SweptKey) -> bool
    ensures { result ≡ is_clock key }
{
    match key {
        SweptKey::Num | SweptKey::Den | SweptKey::Quantum | SweptKey::Ppm => true,
        _ => false,
    }
}

/// True if a key is one of a frame.
fn is_frame(key: SweptKey) -> bool
    ensures { result ≡ is_frame key }
{
    match key {
        SweptKey::Every | SweptKey::Count => true,
        _ => false,
    }
}

/// True if a key is one of segments.
fn is_segment(key: SweptKey) -> bool
    ensures { result ≡ is_segment key }
{
    match key {
        SweptKey::Prop | SweptKey::Ps1 | SweptKey::Ps2 | SweptKey::Tseg1 | SweptKey::Tseg2 => true,
        _ => false,
    }
}

/// True if segments have a key.
fn segments_have(key: SweptKey, segments: SegmentsText) -> bool
    ensures { result ≡ segments_have key segments }
{
    match segments {
        SegmentsText::Each { .. } => match key {
            SweptKey::Prop | SweptKey::Ps1 | SweptKey::Ps2 => true,
            _ => false,
        },
        SegmentsText::Controller { .. } => match key {
            SweptKey::Tseg1 | SweptKey::Tseg2 => true,
            _ => false,
        },
    }
}

/// True if a clock has a key.
fn clock_has(key: SweptKey, clock: ClockText) -> bool
    ensures { result ≡ clock_has key clock }
{
    match clock {
        ClockText::Rate { .. } => match key {
            SweptKey::Num | SweptKey::Den => true,
            _ => false,
        },
        ClockText::Fraction { .. } => match key {
            SweptKey::Num | SweptKey::Den | SweptKey::Ppm => true,
            _ => false,
        },
        ClockText::Ppm { .. } => match key {
            SweptKey::Quantum | SweptKey::Ppm => true,
            _ => false,
        },
    }
}

/// True if the clock of one of some rates has a key.
fn rates_have(key: SweptKey, rates: &[RateText]) -> bool
    ensures { result ≡ list_any (rate_has key) rates.now }
{
    for rate in rates {
        if clock_has(key, rate.clock) {
            return true;
        }
    }
    false
}

/// True if a frame has a key.
fn frame_has(key: SweptKey, frame: &FrameText) -> bool
    ensures { result ≡ frame_has key frame.now }
{
    match key {
        SweptKey::Every => frame.every.is_some(),
        SweptKey::Count => frame.count.is_some(),
        _ => false,
    }
}

/// True if one of some frames has a key.
fn frames_have(key: SweptKey, frames: &[FrameText]) -> bool
    ensures { result ≡ list_any (frame_has key) frames.now }
{
    for frame in frames {
        if frame_has(key, frame) {
            return true;
        }
    }
    false
}

/// True if a node has a key.
fn has_key(key: SweptKey, node: &NodeText) -> bool
    ensures { result ≡ has_key key node.now }
{
    if is_clock(key) {
        rates_have(key, node.rates.as_slice())
    } else if is_frame(key) {
        frames_have(key, node.frame.as_slice())
    } else if is_segment(key) {
        segments_have(key, node.segments)
    } else {
        true
    }
}

/// True if one of the nodes has a key.
fn some_have(key: SweptKey, nodes: &[NodeText]) -> bool
    ensures { result ≡ list_any (has_key key) nodes.now }
{
    for node in nodes {
        if has_key(key, node) {
            return true;
        }
    }
    false
}

/// Returns the first node of a name.
fn node_named(nodes: &[NodeText], name: &str) -> Option<usize>
    ensures { result ≡ position_from (λ n. bytes_eq n.name name.now) 0 nodes.now }
{
    for (i, node) in nodes.iter().enumerate() {
        if node.name.as_str() == name {
            return Some(i);
        }
    }
    None
}

/// Returns a number as that of one of this many nodes.
fn numbered(count: usize, number: Option<i64>) -> Option<usize>
    ensures { result ≡ numbered count number }
{
    let number = number?;
    if number < 0 || number.unsigned_abs() >= count as u64 {
        None
    } else {
        Some(number.unsigned_abs() as usize)
    }
}

/// Returns the node of a name, or else of a number.
pub fn node_of(nodes: &[NodeText], name: &str) -> Option<usize>
    ensures { result ≡ node_of nodes.now name.now }
{
    match node_named(nodes, name) {
        Some(i) => Some(i),
        None => numbered(nodes.len(), number_of(name)),
    }
}

/// Returns the greatest place of some nodes, 0 if there is none.
fn greatest_x(nodes: &[NodeText]) -> u32
    ensures { result ≡ greatest_x nodes.now }
{
    let mut most = 0u32;
    for node in nodes {
        most = most.max(node.x);
    }
    most
}

/// Returns the first of the nodes that are farthest away.
fn farthest(nodes: &[NodeText]) -> Option<usize>
    ensures { result ≡ farthest nodes.now }
{
    let most = greatest_x(nodes);
    for (i, node) in nodes.iter().enumerate() {
        if node.x == most {
            return Some(i);
        }
    }
    None
}

/// Returns node `i`, if it has the key.
fn owned(nodes: &[NodeText], key: SweptKey, i: usize) -> Result<Option<usize>, RangeFault>
    ensures { result ≡ owned key i (slice_get nodes.now i) }
{
    match nodes.get(i) {
        None => Err(RangeFault::Node),
        Some(node) => {
            if has_key(key, node) {
                Ok(Some(i))
            } else {
                Err(RangeFault::Absent)
            }
        }
    }
}

/// Returns the node whose key is varied, if it is the key of one node.
fn target_of(
    nodes: &[NodeText],
    name: Option<&str>,
    key: SweptKey,
) -> Result<Option<usize>, RangeFault>
    ensures { result ≡ target_of nodes.now (option_map (λ n. n.now) name.entry) key }
{
    match name {
        Some(name) => {
            if is_top(key) {
                return Err(RangeFault::Node);
            }
            match node_of(nodes, name) {
                Some(i) => owned(nodes, key, i),
                None => Err(RangeFault::Node),
            }
        }
        None => unnamed(nodes, key),
    }
}

/// Returns the node whose key is varied if none is named.
fn unnamed(nodes: &[NodeText], key: SweptKey) -> Result<Option<usize>, RangeFault>
    ensures { result ≡ target_of nodes.now None key }
{
    if key == SweptKey::X {
        Ok(farthest(nodes))
    } else if is_top(key) || some_have(key, nodes) {
        Ok(None)
    } else {
        Err(RangeFault::Absent)
    }
}

/// True if a plan text may have a value at a key.
fn takes(key: SweptKey, value: i64) -> bool
    ensures { result ≡ takes key value }
{
    let size = value.unsigned_abs();
    match key {
        SweptKey::Ppm => size <= LARGEST_PPM,
        SweptKey::X => value >= 0 && size <= LARGEST_SMALL,
        SweptKey::Tolerance => value >= 0 && size <= LARGEST_TOLERANCE,
        SweptKey::Every | SweptKey::Count => value > 0 && size <= LARGEST_NUMBER,
        _ => value >= 0 && size <= LARGEST_NUMBER,
    }
}

/// Returns the first of some steps by which there are fewer than twenty over a distance, and else the distance.
fn first_step(distance: u64, steps: &[u64]) -> u64
    ensures { result ≡ first_step distance steps.now }
{
    for step in steps {
        if distance / (*step).max(1) < 20 {
            return *step;
        }
    }
    distance
}

/// Returns the step of a range over a distance.
fn step_of(distance: u64, step: Option<i64>) -> Result<u64, RangeFault>
    ensures { result ≡ step_of distance step }
{
    match step {
        None => Ok(first_step(distance, &ROUND_STEPS).max(1)),
        Some(step) => {
            if step > 0 {
                Ok(step.unsigned_abs())
            } else {
                Err(RangeFault::Step)
            }
        }
    }
}

/// Returns a number, greater by `by`.
fn raised(low: i64, by: u64) -> i64
    requires low { unsigned_abs low < 2 ^ 48 }
    requires by { by < 2 ^ 62 }
    ensures { result ≡ low +ℤ pos by }
{
    low + by as i64
}

/// Returns the values from one on, this many steps further.
fn values_from(alloc: Global, low: i64, step: u64, steps: u64) -> Result<Listed<i64>, AllocError>
    requires low { unsigned_abs low < 2 ^ 48 }
    requires most { steps * step < 2 ^ 62 }
    requires steps { steps < 2 ^ 14 }
    ensures { IfOk result (λ values. values ≡ values_from low step steps) }
{
    let mut values = Listed::new(alloc);
    for k in 0..steps + 1 {
        values.push(raised(low, k * step))?;
    }
    Ok(values)
}

/// Returns the values from one on, this many steps further, if they aren't too many.
fn few_values(alloc: Global, low: i64, step: u64, steps: u64) -> Result<Listed<i64>, RangeFault>
    requires low { unsigned_abs low < 2 ^ 48 }
    requires most { steps * step < 2 ^ 62 }
    ensures { IsRead (few_values low step steps) result }
{
    if steps < MOST_ROWS {
        Ok(values_from(alloc, low, step, steps)?)
    } else {
        Err(RangeFault::Rows)
    }
}

/// Returns the values of a range, of those that the key may have.
fn values_of(alloc: Global, key: SweptKey, ends: Ends) -> Result<Listed<i64>, RangeFault>
    ensures { IsRead (values_of key ends) result }
{
    let Ends { low, high, step } = ends;
    if !(takes(key, low) && takes(key, high)) {
        return Err(RangeFault::Bounds);
    }
    if high < low {
        return Err(RangeFault::Order);
    }
    let distance = high.abs_diff(low);
    let step = step_of(distance, step)?.max(1);
    few_values(alloc, low, step, distance / step)
}

/// Returns the key that is varied, and at which node.
fn swept_of(
    nodes: &[NodeText],
    name: Option<&str>,
    word: &str,
) -> Result<(SweptKey, Option<usize>), RangeFault>
    ensures { result ≡ swept_of nodes.now (option_map (λ n. n.now) name.entry) word.now }
{
    match key_of(word) {
        Some(key) => {
            let named = target_of(nodes, name, key)?;
            Ok((key, named))
        }
        None => Err(RangeFault::Key),
    }
}

/// Returns that of `NODE.KEY`, or of `KEY`.
fn swept_in(nodes: &[NodeText], called: &str) -> Result<(SweptKey, Option<usize>), RangeFault>
    ensures { result ≡ swept_in nodes.now (parted 46 called.now) called.now }
{
    match parted_at_dot(called) {
        Some((name, word)) => swept_of(nodes, Some(name), word),
        None => swept_of(nodes, None, called),
    }
}

/// Returns the range that a word means in a plan's text.
///
/// The word is `[NODE.]KEY=A..B[:STEP]`: NODE the name of a node or its number from 0; KEY one of the numbers of the top table or of a
/// node, or `every` or `count` of its frames; A and B whole numbers; STEP one above 0, the roundest that makes few rows if it is left out.
/// Without NODE the key of a node is that of each node, but `x` that of the first of those that are farthest away.
///
/// The first of these faults: `Form`; `Key`; `Node`; `Absent`; `Bounds`; `Order`; `Step`; `Rows`. `Memory` may be answered at any point.
pub fn read_range(alloc: Global, text: &PlanText, word: &str) -> Result<SweptRange, RangeFault>
    ensures { IsRead (range_of text.now word.now) result }
{
    let (called, values) = parted_at_equals(word).ok_or(RangeFault::Form)?;
    let ends = ends_of(values).ok_or(RangeFault::Form)?;
    let (key, named) = swept_in(text.node.as_slice(), called)?;
    let values = values_of(alloc, key, ends)?;
    Ok(SweptRange {
        called: Text::new(alloc, called)?,
        key,
        named,
        values,
    })
}

impl From<AllocError> for RangeFault {
    ghost use Rattle.std.specs.Prelude.{◌≡◌};
    ghost use Rattle.wl_sweep.specs.declared.vary.RangeFault.TheVariants.{Memory};

    ghost from_gives = { λ _ given. given ≡ Memory };

    fn from(_: AllocError) -> RangeFault {
        RangeFault::Memory
    }
}
