//! Which plans the law on one sender covers.
ghost use Rattle.std.specs.Prelude.{◌≡◌, ◌<◌, ◌≤◌, length};
ghost use Rattle.wl_bound.specs.Covered.{all_speak, finds_one_busy, is_covered, is_uncovered, leaves};

use crate::verdict::{idle_at, is_ready_from, listens};
use wl_plan::CheckedPlan;

/// True if some other node isn't idle yet when the first frame of node `i` becomes ready.
pub fn finds_one_busy(plan: &CheckedPlan, i: u8) -> bool
    requires node { i < length plan.now.nodes }
    ensures { result ≡ finds_one_busy plan.now i }
{
    let mut finds = false;
    for j in 0..plan.nodes() {
        finds = finds || j != i && !is_ready_from(plan.node(i), idle_at(plan.node(j)));
    }
    finds
}

/// True if node `i` leaves the bus at some quantum.
pub fn leaves(plan: &CheckedPlan, i: u8) -> bool
    requires node { i < length plan.now.nodes }
    ensures { result ≡ leaves plan.now i }
{
    plan.node(i).until.is_some()
}

/// True if the law says nothing of a plan for the sake of node `i`: that one only listens, or leaves the bus, or has a frame before all
/// others are idle.
fn is_uncovered(plan: &CheckedPlan, i: u8) -> bool
    requires two { 2 ≤ length plan.now.nodes }
    requires node { i < length plan.now.nodes }
    ensures { result ≡ is_uncovered plan.now i }
{
    listens(plan, i) || leaves(plan, i) || finds_one_busy(plan, i)
}

/// True if the law on one sender covers a plan, if its clocks have one rate each: no node only listens or leaves the bus, nothing disturbs
/// it, and the first frame of each node becomes ready when all others are idle.
///
/// The ticks are the plan's own, with its offsets.
pub fn is_covered(plan: &CheckedPlan) -> bool
    ensures { result ≡ is_covered plan.now }
{
    if plan.nodes() < 2 || plan.disturbances.len() > 0 {
        return false;
    }
    let mut uncovered = false;
    for i in 0..plan.nodes() {
        uncovered = uncovered || is_uncovered(plan, i);
    }
    !uncovered
}

/// True if a plan has two nodes or more, and none only listens. The law on any senders covers plans of such nodes, whatever their frames, if
/// their clocks have one rate each.
pub fn all_speak(plan: &CheckedPlan) -> bool
    ensures { result ≡ all_speak plan.now }
{
    if plan.nodes() < 2 {
        return false;
    }
    let mut listen = false;
    for i in 0..plan.nodes() {
        listen = listen || listens(plan, i);
    }
    !listen
}
