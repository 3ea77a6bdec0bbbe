//! The nodes of a plan, each with what it did.
ghost use Rattle.std.specs.Prelude.{◌≡◌, ◌<◌, length};
ghost use Rattle.wl_plan.specs.PlanLine.{setup_at};
ghost use Rattle.wl_serial.specs.Outcome.{node_outcome_of, node_totals, outcome_of, totals_of};
ghost use Rattle.wl_traffic.specs.Known.{FramesAreKnown, QuantaAreKnown};

use wl_node::NodeSetup;
use wl_plan::CheckedPlan;
use wl_serial::{NodeTotals, Totals};

/// Returns what node `i` is made of.
pub(crate) fn setup_of(plan: &CheckedPlan, i: usize) -> &NodeSetup
    requires { i < length plan.now.nodes }
    ensures { result.now ≡ setup_at plan.now i }
{
    let setups = plan.nodes.as_slice();
    &setups[i]
}

/// Returns what node `i` is made of, and what a report says of it.
pub(crate) fn node_at<'a>(
    plan: &'a CheckedPlan,
    totals: &'a Totals,
    i: usize,
) -> (&'a NodeSetup, &'a NodeTotals)
    requires totals { totals.now ≡ totals_of (outcome_of plan.now) }
    requires node { i < length plan.now.nodes }
    ensures setup { result.0.now ≡ setup_at plan.now i }
    ensures totals { result.1.now ≡ node_totals (node_outcome_of plan.now i) }
{
    let setups = plan.nodes.as_slice();
    let nodes = totals.as_slice();
    (&setups[i], &nodes[i])
}

/// Law: a clock knows each quantum at which a node of a checked plan sampled, and at which it completed a frame.
pub(crate) fn quanta_are_known(plan: &CheckedPlan)
    ensures { QuantaAreKnown plan.now }
{
    plan.laws();
    wl_plan::simulation_laws();
}

/// Law: a clock knows each quantum at which a node of a checked plan completed a frame.
pub(crate) fn frames_are_known(plan: &CheckedPlan)
    ensures { FramesAreKnown plan.now }
{
    plan.laws();
    wl_views::sent_in_time();
}
