//! Changes at one node that are tried, and the plans that they make.
ghost use Rattle.std.specs.Prelude.{◌≡◌, ◌<◌, ◌++◌, length, map, option_map, if◌then◌else◌, IfOk, OnOk};
ghost use Rattle.wl_judge.specs.Trials.{by_clock, by_rules_of, by_segments, changed_plan, checked_plan, twice, finer_by, finer_later_segments, finer_segments, halved, is_that_node, is_tried, plan_with, ready_later, stepped, stepped_deviation, tried_deviations, trials_at, trials_below, trials_of, with_at};

use crate::weakest::{Weakest, coarsest, is_weak};
use std::alloc::{AllocError, Global};
use wl_bound::{Change, Family};
use wl_clock::{Clock, ClockFault, Rate};
use wl_level::Listed;
use wl_limits::Limits;
use wl_node::{NodeSetup, Queue, Queued};
use wl_plan::{CheckedPlan, Nodes, Plan};
use wl_segments::{Segments, SegmentsFault};
use wl_setup::Deviation;

/// Half of the greatest number of 64 bits, rounded down.
const HALF: u64 = 9_223_372_036_854_775_807;

/// A change at one node.
#[derive(Clone, Copy, Debug, PartialEq, Eq)]
pub enum Step {
    /// Of its segments, by one quantum.
    By(Change),
    /// Its quanta are half as long, and a bit has twice of them, with the same sample point.
    Finer,
    /// The same with a later sample point: PHASE_SEG2 and the jump width keep the number of their quanta.
    FinerAndLater,
}

/// A change that is tried.
#[derive(Clone, Copy, Debug, PartialEq, Eq)]
pub struct Trial {
    /// The change.
    pub step: Step,
    /// The node.
    pub node: u8,
}

/// Returns twice a number, or the greatest one.
fn twice(n: u64) -> u64
    ensures { result ≡ twice n }
{
    if n <= HALF { n + n } else { u64::MAX }
}

/// Returns a rate by which quanta are half as long.
fn halved(rate: Rate) -> Rate
    ensures { result ≡ halved rate }
{
    let from = twice(rate.from);
    if rate.num % 2 == 0 {
        Rate {
            from,
            num: rate.num / 2,
            den: rate.den,
        }
    } else {
        Rate {
            from,
            num: rate.num,
            den: twice(rate.den),
        }
    }
}

/// Returns rates by which quanta are half as long.
fn all_halved(alloc: Global, rates: &[Rate]) -> Result<Listed<Rate>, AllocError>
    ensures { IfOk result (λ all. all ≡ map halved rates.now) }
{
    let mut all = Listed::new(alloc);
    for rate in rates {
        all.push(halved(*rate))?;
    }
    Ok(all)
}

/// Returns segments with the rules of others, if they aren't refused.
fn by_rules_of(segments: &Segments, made: Result<Segments, SegmentsFault>) -> Option<Segments>
    ensures { result ≡ by_rules_of segments.now made }
{
    match made {
        Ok(other) => Some(other.with_sync(segments.sync())),
        Err(_) => None,
    }
}

/// Returns segments of twice the quanta with the same sample point, if there are such.
fn finer_segments(segments: &Segments) -> Option<Segments>
    ensures { result ≡ finer_segments segments.now }
{
    let tseg1 = 2 * (segments.prop() + segments.ps1()) + 1;
    let made = Segments::of_controller(tseg1, 2 * segments.ps2(), 2 * segments.sjw());
    by_rules_of(segments, made)
}

/// Returns segments of twice the quanta in a bit, and the same number in PHASE_SEG2 and the jump width, if there are such.
fn finer_later_segments(segments: &Segments) -> Option<Segments>
    ensures { result ≡ finer_later_segments segments.now }
{
    let tseg1 = 2 * (segments.prop() + segments.ps1()) + segments.ps2() + 1;
    let made = Segments::of_controller(tseg1, segments.ps2(), segments.sjw());
    by_rules_of(segments, made)
}

/// Returns a frame that waits, by quanta half as long.
fn ready_later(waiting: Queued) -> Queued
    ensures { result ≡ ready_later waiting }
{
    Queued {
        ready: twice(waiting.ready),
        ..waiting
    }
}

/// Returns frames that wait, by quanta half as long.
fn all_ready_later(alloc: Global, queue: &[Queued]) -> Result<Queue, AllocError>
    ensures { IfOk result (λ all. all ≡ map ready_later queue.now) }
{
    let mut all = Listed::new(alloc);
    for waiting in queue {
        all.push(ready_later(*waiting))?;
    }
    Ok(all)
}

/// Returns when a node leaves, by quanta half as long.
fn until_later(until: Option<u64>) -> Option<u64>
    ensures { result ≡ option_map twice until }
{
    match until {
        Some(quantum) => Some(twice(quantum)),
        None => None,
    }
}

/// Returns a node with this clock and quanta half as long, unless the clock is refused.
fn by_clock(
    alloc: Global,
    node: &NodeSetup,
    segments: Segments,
    clock: Result<Clock, ClockFault>,
) -> Result<Option<NodeSetup>, AllocError>
    ensures { IfOk result (λ made. made ≡ by_clock node.now segments clock) }
{
    match clock {
        Ok(clock) => Ok(Some(NodeSetup {
            clock,
            segments,
            queue: all_ready_later(alloc, node.queue.as_slice())?,
            order: node.order,
            until: until_later(node.until),
        })),
        Err(_) => Ok(None),
    }
}

/// Returns a node with quanta half as long, and twice of them in a bit, unless that is refused.
fn finer_by(
    alloc: Global,
    deviation: &Deviation,
    node: &NodeSetup,
    segments: Option<Segments>,
) -> Result<Option<NodeSetup>, AllocError>
    ensures { IfOk result (λ made. made ≡ finer_by deviation.now node.now segments) }
{
    match segments {
        Some(segments) => {
            let rates = all_halved(alloc, deviation.rates.as_slice())?;
            let clock = Clock::within(Limits::Wide, node.clock.at(0), rates.as_slice());
            by_clock(alloc, node, segments, clock)
        }
        None => Ok(None),
    }
}

/// Returns a node with other segments.
fn by_segments(
    alloc: Global,
    node: &NodeSetup,
    segments: Option<Segments>,
) -> Result<Option<NodeSetup>, AllocError>
    ensures { IfOk result (λ made. made ≡ by_segments node.now segments) }
{
    match segments {
        Some(segments) => Ok(Some(NodeSetup {
            segments,
            ..node.clone_in(alloc)?
        })),
        None => Ok(None),
    }
}

/// Returns a node after a change, unless that is refused.
fn stepped(
    alloc: Global,
    step: Step,
    deviation: &Deviation,
    node: &NodeSetup,
) -> Result<Option<NodeSetup>, AllocError>
    ensures { IfOk result (λ made. made ≡ stepped step deviation.now node.now) }
{
    match step {
        Step::By(change) => {
            let made = by_rules_of(&node.segments, change.of(&node.segments));
            by_segments(alloc, node, made)
        }
        Step::Finer => finer_by(alloc, deviation, node, finer_segments(&node.segments)),
        Step::FinerAndLater => {
            finer_by(alloc, deviation, node, finer_later_segments(&node.segments))
        }
    }
}

/// Adds equal nodes after the others.
fn push_setups(all: &mut Nodes, setups: &[NodeSetup], alloc: Global) -> Result<(), AllocError>
    ensures { OnOk result (all.new ≡ all.old ++ setups.now) }
{
    match setups {
        [] => Ok(()),
        [setup, later @ ..] => {
            all.push(setup.clone_in(alloc)?)?;
            push_setups(all, later, alloc)
        }
    }
}

/// Returns equal nodes, but for the one at place `i`.
fn nodes_with(
    alloc: Global,
    i: u8,
    node: NodeSetup,
    setups: &[NodeSetup],
) -> Result<Nodes, AllocError>
    requires place { i < length setups.now }
    ensures { IfOk result (λ all. all ≡ with_at i node setups.now) }
{
    let place = i as usize;
    let mut all = Listed::new(alloc);
    push_setups(&mut all, &setups[..place], alloc)?;
    all.push(node)?;
    push_setups(&mut all, &setups[place + 1..], alloc)?;
    Ok(all)
}

/// Returns a plan as one that can be run, if it can.
fn checked_plan(plan: Plan) -> Option<CheckedPlan>
    ensures { result ≡ checked_plan plan }
{
    match CheckedPlan::within(plan, Limits::Wide, Limits::Wide.queue_limit()) {
        Ok(checked) => Some(checked),
        Err(_) => None,
    }
}

/// Returns a plan with another node at place `i`, if it can be run.
fn plan_with(
    alloc: Global,
    plan: &CheckedPlan,
    i: u8,
    node: Option<NodeSetup>,
) -> Result<Option<CheckedPlan>, AllocError>
    requires place { i < length plan.now.nodes }
    ensures { IfOk result (λ made. made ≡ plan_with plan.now i node) }
{
    match node {
        Some(node) => Ok(checked_plan(Plan {
            nodes: nodes_with(alloc, i, node, plan.nodes.as_slice())?,
            topology: plan.topology,
            disturbances: plan.disturbances.clone_in(alloc)?,
            end: plan.end,
        })),
        None => Ok(None),
    }
}

/// Returns the plan after a change, if it can be run.
pub(crate) fn changed_plan(
    alloc: Global,
    trial: Trial,
    deviations: &[Deviation],
    plan: &CheckedPlan,
) -> Result<Option<CheckedPlan>, AllocError>
    requires place { trial.node < length plan.now.nodes }
    requires deviations { length deviations.now ≡ length plan.now.nodes }
    ensures { IfOk result (λ made. made ≡ changed_plan trial deviations.now plan.now) }
{
    let deviation = &deviations[trial.node as usize];
    let node = stepped(alloc, trial.step, deviation, plan.node(trial.node))?;
    plan_with(alloc, plan, trial.node, node)
}

/// Returns an equal deviation.
fn same_deviation(alloc: Global, deviation: &Deviation) -> Result<Deviation, AllocError>
    ensures { IfOk result (λ made. made ≡ deviation.now) }
{
    Ok(Deviation {
        rates: deviation.rates.clone_in(alloc)?,
        tolerance: deviation.tolerance,
    })
}

/// Returns what a clock may do after a change.
fn stepped_deviation(
    alloc: Global,
    step: Step,
    deviation: &Deviation,
) -> Result<Deviation, AllocError>
    ensures { IfOk result (λ made. made ≡ stepped_deviation step deviation.now) }
{
    match step {
        Step::By(_) => same_deviation(alloc, deviation),
        Step::Finer | Step::FinerAndLater => Ok(Deviation {
            rates: all_halved(alloc, deviation.rates.as_slice())?,
            tolerance: deviation.tolerance,
        }),
    }
}

/// Adds equal deviations after the others.
fn push_deviations(
    all: &mut Listed<Deviation>,
    deviations: &[Deviation],
    alloc: Global,
) -> Result<(), AllocError>
    ensures { OnOk result (all.new ≡ all.old ++ deviations.now) }
{
    match deviations {
        [] => Ok(()),
        [deviation, later @ ..] => {
            all.push(same_deviation(alloc, deviation)?)?;
            push_deviations(all, later, alloc)
        }
    }
}

/// Returns what the clocks may do after a change.
pub(crate) fn tried_deviations(
    alloc: Global,
    trial: Trial,
    deviations: &[Deviation],
) -> Result<Listed<Deviation>, AllocError>
    requires place { trial.node < length deviations.now }
    ensures { IfOk result (λ all. all ≡ tried_deviations trial deviations.now) }
{
    let place = trial.node as usize;
    let mut all = Listed::new(alloc);
    push_deviations(&mut all, &deviations[..place], alloc)?;
    all.push(stepped_deviation(alloc, trial.step, &deviations[place])?)?;
    push_deviations(&mut all, &deviations[place + 1..], alloc)?;
    Ok(all)
}

/// Adds the changes that are tried at node `i`.
fn push_trials_at(all: &mut Listed<Trial>, i: u8) -> Result<(), AllocError>
    ensures { OnOk result (all.new ≡ all.old ++ trials_at i) }
{
    all.push(Trial {
        step: Step::By(Change::WiderJump),
        node: i,
    })?;
    all.push(Trial {
        step: Step::By(Change::LaterSample),
        node: i,
    })?;
    all.push(Trial {
        step: Step::By(Change::EarlierSample),
        node: i,
    })?;
    all.push(Trial {
        step: Step::Finer,
        node: i,
    })?;
    all.push(Trial {
        step: Step::FinerAndLater,
        node: i,
    })
}

/// True if a place is `i`.
fn is_that_node(place: Option<u8>, i: u8) -> bool
    ensures { result ≡ is_that_node place i }
{
    match place {
        None => false,
        Some(k) => k == i,
    }
}

/// True if changes are tried at node `i`.
fn is_tried(weak: Weakest, coarse: Option<u8>, i: u8) -> bool
    ensures { result ≡ is_tried weak coarse i }
{
    is_weak(i, weak) || is_that_node(coarse, i)
}

/// Adds the changes at node `i`, if changes are tried there.
fn push_trials_if(
    all: &mut Listed<Trial>,
    weak: Weakest,
    coarse: Option<u8>,
    i: u8,
) -> Result<(), AllocError>
    ensures { OnOk result (all.new ≡ (if is_tried weak coarse i then all.old ++ trials_at i else all.old)) }
{
    if is_tried(weak, coarse, i) {
        push_trials_at(all, i)
    } else {
        Ok(())
    }
}

/// Returns the changes that are tried on a bus.
pub(crate) fn trials_of(
    alloc: Global,
    family: &Family,
    weak: Weakest,
) -> Result<Listed<Trial>, AllocError>
    ensures { IfOk result (λ all. all ≡ trials_of family.now weak) }
{
    let coarse = coarsest(family);
    let mut all = Listed::new(alloc);
    for i in 0..family.nodes() {
        push_trials_if(&mut all, weak, coarse, i)?;
    }
    Ok(all)
}
