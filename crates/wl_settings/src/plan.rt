//! The plan of a setting: two to four nodes at the ends of the cable.
ghost use Rattle.std.specs.Prelude.{◌≡◌, ◌++◌, ◌≤◌, ◌<◌, ◌+◌, ◌^◌, true, string_bytes, IfOk, OnOk, [], ◌∷◌};
ghost use Rattle.wl_setup.specs.Kinds.{is_name};
ghost use Rattle.wl_settings.specs.Plans.{IsOfKeys, ReadsAsPlan, common, data_bytes, for_nodes, frame_text, node_count, node_name, node_place, node_text, plan_end, plan_of_quantum};
ghost use Rattle.wl_settings.specs.Plans.{rate_text, node_ready, segments_text, setting_plan, setting_plan_text, setting_quantum, step, text_of_title, version_of, within};

use crate::asked::{Asked, Controller, Setting};
use crate::parts::Parts;
use std::alloc::{AllocError, Global};
use wl_apply::QuantumLength;
use wl_bound::Senders;
use wl_level::Listed;
use wl_print::{printed_after_comment, push_plan};
use wl_segments::SyncRules;
use wl_setup::{
    ClockText, FrameText, LARGEST_NUMBER, NodeText, PlanText, QueueText, RateText, SegmentsText,
    Text,
};

/// How many picoseconds a second has.
const SECOND: u128 = 1_000_000_000_000;

/// From which bit on the first frame may be sent: each node has then seen the 11 bits that make it idle.
const READY: u64 = 30;

/// How many bits later the next one may be sent, if one node sends at a time. A plan has this number of bits for each node.
const LATER: u64 = 200;

/// Returns the next two numbers of Euclid's algorithm.
fn step(pair: (u128, u128)) -> (u128, u128)
    ensures { result ≡ step pair }
{
    let (a, b) = pair;
    if b == 0 { (a, b) } else { (b, a % b) }
}

/// Returns the greatest common divisor of two numbers, by 128 steps.
fn common(a: u128, b: u128) -> u128
    ensures { result ≡ common a b }
{
    let mut pair = (a, b);
    for _ in 0..128u8 {
        pair = step(pair);
    }
    pair.0
}

/// Returns a number of a plan's text: the greatest one for a greater one, which no plan can have.
fn within(n: u128) -> u64
    ensures { result ≡ within n }
{
    n.min(LARGEST_NUMBER as u128) as u64
}

/// Returns the quantum of a setting.
pub(crate) fn quantum_of(asked: &Asked, clock: u32, setting: Setting) -> QuantumLength
    ensures { result ≡ setting_quantum asked.now clock setting }
{
    let num = setting.prescaler as u128 * SECOND;
    let den = clock as u128 * asked.tick as u128;
    let part = common(num, den).max(1);
    QuantumLength {
        num: within(num / part),
        den: within(den / part),
    }
}

/// Returns how many nodes the plan has: two to four.
fn node_count(asked: &Asked) -> u64
    ensures value { result ≡ node_count asked.now }
    ensures most { result ≤ 4 }
{
    (asked.nodes as u64).max(2).min(4)
}

/// Returns the tick at which a plan of this number of nodes ends.
fn end_of(nodes: u64, quantum: QuantumLength, setting: Setting) -> u64
    requires { nodes ≤ 4 }
    ensures { result ≡ plan_end nodes quantum setting }
{
    let quanta = (LATER * nodes) as u128 * setting.quanta() as u128;
    within((quanta * quantum.num as u128).div_ceil(quantum.den.max(1) as u128))
}

/// Returns from which quantum on the frame of a node may be sent, by the number of the node from 0 on.
fn node_ready(senders: Senders, n: u32, setting: Setting) -> u64
    requires { n < 4 }
    ensures { result ≡ node_ready senders n setting }
{
    match senders {
        Senders::Any => READY * setting.quanta(),
        Senders::One => (READY + LATER * n as u64) * setting.quanta(),
    }
}

/// Returns the version of a plan whose nodes have such segments.
fn version_of(parts: Parts) -> u64
    ensures { result ≡ version_of parts }
{
    match parts {
        Parts::Each { .. } => 1,
        Parts::Joint { .. } => 4,
    }
}

/// Returns segments as a plan's text has them.
pub(crate) fn segments_text(parts: Parts) -> SegmentsText
    ensures { result ≡ segments_text parts }
{
    match parts {
        Parts::Each { prop, ps1, ps2 } => SegmentsText::Each {
            prop: prop as u64,
            ps1: ps1 as u64,
            ps2: ps2 as u64,
        },
        Parts::Joint { tseg1, tseg2 } => SegmentsText::Controller {
            tseg1: tseg1 as u64,
            tseg2: tseg2 as u64,
        },
    }
}

/// Returns the rates of a clock that keeps its quantum.
fn rates(alloc: Global, quantum: QuantumLength) -> Result<Listed<RateText>, AllocError>
    ensures { IfOk result (λ all. all ≡ rate_text quantum ∷ []) }
{
    let (num, den) = (quantum.num, quantum.den);
    let mut all = Listed::new(alloc);
    all.push(RateText {
        from: 0,
        clock: ClockText::Rate { num, den },
    })?;
    Ok(all)
}

/// Returns a frame of eight bytes, whose bits have an edge every ten bits and no earlier.
fn frame_text(alloc: Global, id: u32, ready: u64) -> Result<FrameText, AllocError>
    ensures { IfOk result (λ frame. frame ≡ frame_text id ready) }
{
    let bytes = Vec::from_slice(alloc, &[60, 60, 60, 60, 60, 60, 60, 60])?;
    Ok(FrameText {
        id,
        dlc: 8,
        remote: false,
        bytes: Listed::from_vec(bytes),
        ready,
        extended: false,
        every: None,
        count: None,
        deadline: None,
        jitter: None,
    })
}

/// Returns the name of a node, by its number from 0 on.
fn node_name(n: u32) -> &'static str
    ensures { result.now ≡ node_name n }
{
    match n {
        0 => "a",
        1 => "b",
        2 => "c",
        _ => "d",
    }
}

/// Returns the place of a node on the cable: nodes are at both ends in turn.
fn node_place(asked: &Asked, n: u32) -> u32
    ensures { result ≡ node_place asked.now n }
{
    if n % 2 == 0 { 0 } else { asked.cable }
}

/// Returns the frames of a node, by its number: one.
fn frames_of(
    alloc: Global,
    asked: &Asked,
    setting: Setting,
    n: u32,
) -> Result<Listed<FrameText>, AllocError>
    requires { n < 4 }
    ensures { IfOk result (λ all. all ≡ frame_text (2032 + n) (node_ready asked.now.senders n setting) ∷ []) }
{
    let ready = node_ready(asked.senders, n, setting);
    let mut all = Listed::new(alloc);
    all.push(frame_text(alloc, 2032 + n, ready)?)?;
    Ok(all)
}

/// Returns a node, by its number.
fn node_text(
    alloc: Global,
    asked: &Asked,
    quantum: QuantumLength,
    setting: Setting,
    n: u32,
) -> Result<NodeText, AllocError>
    requires { n < 4 }
    ensures { IfOk result (λ made. made ≡ node_text asked.now quantum setting n) }
{
    Ok(NodeText {
        name: Text::new(alloc, node_name(n))?,
        offset: 0,
        rates: rates(alloc, quantum)?,
        segments: segments_text(setting.parts),
        sjw: setting.sjw as u64,
        x: node_place(asked, n),
        out_delay: asked.out_delay as u64,
        in_delay: asked.in_delay as u64,
        frame: frames_of(alloc, asked, setting, n)?,
        tolerance: Some(asked.tolerance),
        listens: false,
        queue: QueueText::Fifo,
        until: None,
    })
}

/// Returns the nodes: two, or three, or four.
fn all_nodes(
    alloc: Global,
    asked: &Asked,
    quantum: QuantumLength,
    setting: Setting,
) -> Result<Listed<NodeText>, AllocError>
    ensures { IfOk result (λ nodes. nodes ≡ for_nodes asked.now (node_text asked.now quantum setting)) }
{
    let mut nodes = Listed::new(alloc);
    nodes.push(node_text(alloc, asked, quantum, setting, 0)?)?;
    nodes.push(node_text(alloc, asked, quantum, setting, 1)?)?;
    if asked.nodes > 2 {
        nodes.push(node_text(alloc, asked, quantum, setting, 2)?)?;
    }
    if asked.nodes > 3 {
        nodes.push(node_text(alloc, asked, quantum, setting, 3)?)?;
    }
    Ok(nodes)
}

/// Returns the plan of a setting with this quantum.
fn plan_of_quantum(
    alloc: Global,
    asked: &Asked,
    setting: Setting,
    quantum: QuantumLength,
) -> Result<PlanText, AllocError>
    ensures { IfOk result (λ plan. plan ≡ plan_of_quantum asked.now setting quantum) }
{
    Ok(PlanText {
        version: version_of(setting.parts),
        end: end_of(node_count(asked), quantum, setting),
        per: asked.per as u64,
        node: all_nodes(alloc, asked, quantum, setting)?,
        disturbance: Listed::new(alloc),
        sync: SyncRules::Book,
        tick: None,
        unit: None,
    })
}

/// Returns the plan of a setting of a controller with this clock, in Hz: two nodes of it, `a` and `b`, at the ends of the cable, each with a
/// frame; beside them `c` and `d`, if the bus has three nodes, or four and more.
///
/// The frames become ready at once if any nodes may send, else one after another. Refused only when out of memory.
pub fn setting_plan(
    alloc: Global,
    asked: &Asked,
    clock: u32,
    setting: Setting,
) -> Result<PlanText, AllocError>
    ensures { IfOk result (λ plan. plan ≡ setting_plan asked.now clock setting) }
{
    let quantum = quantum_of(asked, clock, setting);
    plan_of_quantum(alloc, asked, setting, quantum)
}

/// Adds a comment that names a controller and a setting.
#[tactic(auto, unfolding(crate::specs::Plans::text_of_title))]
fn push_title(
    text: &mut String,
    controller: &Controller,
    setting: Setting,
) -> Result<(), AllocError>
    ensures { OnOk result (string_bytes text.new ≡ string_bytes text.old ++ text_of_title controller.now setting) }
{
    let (name, clock) = (controller.name.as_str(), controller.clock);
    let prescaler = setting.prescaler;
    write!(text, "# {name}, clock {clock} Hz, prescaler {prescaler}\n")
}

/// Returns the plan of a setting (`setting_plan`) as text, below a comment that names the controller. Refused only when out of memory.
///
/// The text is read as that plan if the numbers of the bus are within the bounds of a plan's keys, and the controller's name is a name.
pub fn plan_text(
    alloc: Global,
    asked: &Asked,
    controller: &Controller,
    setting: Setting,
) -> Result<String, AllocError>
    ensures text { IfOk result (λ text. string_bytes text ≡ setting_plan_text asked.now controller.now setting) }
    ensures reads_back { IsOfKeys asked.now → is_name controller.now.name ≡ true
        → IfOk result (λ text. ReadsAsPlan asked.now controller.now setting (string_bytes text)) }
{
    printed_after_comment();
    let _quanta = setting.quanta();
    let plan = setting_plan(alloc, asked, controller.clock, setting)?;
    let mut text = String::new(alloc);
    push_title(&mut text, controller, setting)?;
    push_plan(&mut text, &plan)?;
    Ok(text)
}
