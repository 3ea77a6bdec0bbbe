//! When all disturbances are over at a node, and for how many ticks a silence lasts.
ghost use Rattle.std.specs.Prelude.{◌≡◌, ◌+◌, ◌<◌, ◌^◌, length};
ghost use Rattle.wl_plan.specs.Checked.{IsDisturbance};
ghost use Rattle.wl_plan.specs.PlanLine.{setup_at};
ghost use Rattle.wl_onward.specs.Silences.{bits_ticks, over_at, over_for, silence_ticks, way_to};

use wl_node::NodeSetup;
use wl_plan::{CheckedPlan, Disturbance};

/// The bits of each node that a silence has.
const SILENCE_BITS: u64 = 36;

/// Returns when a disturbance is over at node `i`, in ticks; 0 if it doesn't come there before the end.
fn over_at(plan: &CheckedPlan, i: usize, d: Disturbance) -> u128
    requires node { i < length plan.now.nodes }
    requires disturbance { IsDisturbance plan.now d }
    ensures { result ≡ over_at plan.now i d }
{
    plan.laws();
    let delay = u128::from(plan.disturbance_delay(d, i as u8));
    if u128::from(plan.end) <= u128::from(d.from) + delay {
        return 0;
    }
    u128::from(d.to) + delay
}

/// Returns when all disturbances are over at node `i`.
pub(crate) fn over_for(plan: &CheckedPlan, i: usize) -> u128
    requires node { i < length plan.now.nodes }
    ensures { result ≡ over_for plan.now i }
{
    plan.laws();
    let mut over = 0u128;
    for d in plan.disturbances.as_slice() {
        over = over.max(over_at(plan, i, *d));
    }
    over
}

/// Returns how many ticks 36 bits of a node and a quantum take.
fn bits_ticks(setup: &NodeSetup) -> u64
    ensures { result ≡ bits_ticks setup.now }
{
    let quanta = SILENCE_BITS * setup.segments.bit_quanta() + 1;
    setup.clock.at(quanta) - setup.clock.at(0)
}

/// Returns how long it takes until node `i` has found all that was driven before.
fn way_to(plan: &CheckedPlan, i: usize) -> u64
    requires node { i < length plan.now.nodes }
    ensures { result ≡ way_to plan.now i }
{
    plan.laws();
    let mut way = 0u64;
    for k in 0..plan.nodes.len() {
        way = way.max(plan.topology.delay(k as u8, i as u8));
    }
    way
}

/// Returns how many ticks the bits of node `i` in a silence take, after all that was driven before.
fn ticks_at(plan: &CheckedPlan, i: usize) -> u128
    requires node { i < length plan.now.nodes }
    ensures value { result ≡ way_to plan.now i + bits_ticks (setup_at plan.now i) }
    ensures few { result < 2 ^ 65 }
{
    let setups = plan.nodes.as_slice();
    u128::from(way_to(plan, i)) + u128::from(bits_ticks(&setups[i]))
}

/// Returns for how many ticks a silence lasts at least.
pub fn silence_ticks(plan: &CheckedPlan) -> u128
    ensures value { result ≡ silence_ticks plan.now }
    ensures few { result < 2 ^ 65 }
{
    let mut long = 0u128;
    for i in 0..plan.nodes.len() {
        long = long.max(ticks_at(plan, i));
    }
    long
}
