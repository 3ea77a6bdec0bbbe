//! The events of a run that are picked, in the order of their ticks.
ghost use Rattle.std.specs.Prelude.{◌≡◌, ◌-◌, ◌<◌, ◌≤◌, ◌++◌, OnOk, IfOk, length};
ghost use Rattle.std.specs.List.{All, filter};
ghost use Rattle.wl_node.specs.Limits.{most_run_quanta};
ghost use Rattle.wl_plan.specs.PlanLine.{setup_at};
ghost use Rattle.wl_serial.specs.Outcome.{drives_of, outcome_of};
ghost use Rattle.wl_level.specs.ByTick.{by_tick};
ghost use Rattle.wl_views.specs.Picks.{is_picked};
ghost use Rattle.wl_views.specs.TraceText.{all_told, events_at_end, syncs_at_end, told_at_end, told_by};

use crate::pick::{Pick, is_asked_node};
use crate::sampling::Sampling;
use std::alloc::{AllocError, Global};
use wl_clock::Clock;
use wl_plan::CheckedPlan;
use wl_serial::Drives;
use wl_trace::{Noted, WatchedNode};

/// Adds those of these events of node `i` that are picked, each with its tick.
fn push_told(
    told: &mut Vec<(u64, (usize, Noted))>,
    pick: &Pick,
    clock: &Clock,
    i: usize,
    events: &[Noted],
) -> Result<(), AllocError>
    requires { All (λ n. n.quantum ≤ most_run_quanta) events.now }
    ensures { OnOk result (told.new.items
        ≡ told.old.items ++ filter (is_picked pick.now) (told_by clock.now i events.now)) }
{
    for noted in events {
        let tick = clock.at(noted.quantum);
        if pick.shows(tick, i, noted) {
            told.push((tick, (i, *noted)))?;
        }
    }
    Ok(())
}

/// Adds what the samples of node `i` did, each with its tick, as far as it is picked: the node is watched sample by sample.
fn push_events(
    alloc: Global,
    told: &mut Vec<(u64, (usize, Noted))>,
    pick: &Pick,
    plan: &CheckedPlan,
    drives: &Drives,
    i: usize,
) -> Result<(), AllocError>
    requires drives { drives.now ≡ drives_of (outcome_of plan.now) }
    requires node { i < length plan.now.nodes }
    ensures { OnOk result (told.new.items ≡ told.old.items
        ++ filter (is_picked pick.now) (told_by (setup_at plan.now i).clock i (events_at_end plan.now i))) }
{
    let setup = &plan.nodes.as_slice()[i];
    let mut node = WatchedNode::new(alloc, setup)?;
    let mut samples = Sampling::new(alloc, plan, i)?;
    let mut bit = 0;
    while let Some((quantum, level)) = samples.next(plan, drives, i) {
        let events = node.take(alloc, setup, quantum, bit, level)?;
        push_told(told, pick, &setup.clock, i, &events)?;
        bit += 1;
    }
    Ok(())
}

/// Adds how node `i` was synchronised, each with its tick, as far as it is picked: the node runs again from one synchronisation to the next.
fn push_syncs(
    alloc: Global,
    told: &mut Vec<(u64, (usize, Noted))>,
    pick: &Pick,
    plan: &CheckedPlan,
    drives: &Drives,
    i: usize,
) -> Result<(), AllocError>
    requires drives { drives.now ≡ drives_of (outcome_of plan.now) }
    requires node { i < length plan.now.nodes }
    ensures { OnOk result (told.new.items ≡ told.old.items
        ++ filter (is_picked pick.now) (told_by (setup_at plan.now i).clock i (syncs_at_end plan.now i))) }
{
    plan.laws();
    wl_plan::simulation_laws();
    wl_trace::trace_laws();
    if !pick.asks_for_syncs() {
        return Ok(());
    }
    let clock = &plan.nodes.as_slice()[i].clock;
    let mut node = Sampling::new(alloc, plan, i)?;
    while let Some(sync) = node.next_sync(plan, drives, i) {
        push_told(told, pick, clock, i, &[sync])?;
    }
    Ok(())
}

/// Adds how node `i` was synchronised and what its samples did, each with its tick, as far as it is picked: a node that isn't asked for doesn't
/// run again.
fn push_node(
    alloc: Global,
    told: &mut Vec<(u64, (usize, Noted))>,
    pick: &Pick,
    plan: &CheckedPlan,
    drives: &Drives,
    i: usize,
) -> Result<(), AllocError>
    requires drives { drives.now ≡ drives_of (outcome_of plan.now) }
    requires node { i < length plan.now.nodes }
    ensures { OnOk result (told.new.items ≡ told.old.items ++ filter (is_picked pick.now) (told_at_end plan.now i)) }
{
    if !is_asked_node(pick.node, i) {
        return Ok(());
    }
    push_syncs(alloc, told, pick, plan, drives, i)?;
    push_events(alloc, told, pick, plan, drives, i)?;
    Ok(())
}

/// Returns the events of all nodes that are picked, node by node, each with its tick.
fn all_told(
    alloc: Global,
    pick: &Pick,
    plan: &CheckedPlan,
    drives: &Drives,
) -> Result<Vec<(u64, (usize, Noted))>, AllocError>
    requires drives { drives.now ≡ drives_of (outcome_of plan.now) }
    ensures { IfOk result (λ told. told.items ≡ filter (is_picked pick.now) (all_told plan.now)) }
{
    let mut told = Vec::new(alloc);
    for i in 0..plan.nodes.len() {
        push_node(alloc, &mut told, pick, plan, drives, i)?;
    }
    Ok(told)
}

/// Returns the events of all nodes that are picked in the order of their ticks; those of one tick node by node.
pub(crate) fn told_in_order(
    alloc: Global,
    pick: &Pick,
    plan: &CheckedPlan,
    drives: &Drives,
) -> Result<Vec<(u64, (usize, Noted))>, AllocError>
    requires drives { drives.now ≡ drives_of (outcome_of plan.now) }
    ensures { IfOk result (λ told. told.items
        ≡ filter (is_picked pick.now) (by_tick plan.now.end (all_told plan.now))) }
{
    plan.laws();
    wl_plan::simulation_laws();
    wl_trace::trace_laws();
    let mut told = all_told(alloc, pick, plan, drives)?;
    told.sort_by_cached_key(|(tick, _)| *tick)?;
    Ok(told)
}
