//! When a run has settled: all disturbances are over, and all nodes are on the bus and error active.
ghost use Rattle.std.specs.Prelude.{◌≡◌, ◌<◌, length, IfOk};
ghost use Rattle.wl_serial.specs.Outcome.{drives_of, outcome_of};
ghost use Rattle.wl_calm.specs.Settled.{IsSettled, IsSettledNode};

use crate::fit::fit_since;
use crate::ticks::over_for;
use std::alloc::{AllocError, Global};
use wl_plan::CheckedPlan;
use wl_serial::Drives;

/// When a run has settled.
#[derive(Clone, Copy)]
pub(crate) enum Settled {
    /// From this tick on nothing disturbs, and all nodes are on the bus and error active.
    At(u128),
    /// The node of this number isn't on the bus and error active at the end.
    Unfit(usize),
}

/// Returns when node `i` has settled; none if it isn't on the bus and error active at the end.
fn settled_for(
    alloc: Global,
    plan: &CheckedPlan,
    drives: &Drives,
    i: usize,
) -> Result<Option<u128>, AllocError>
    requires drives { drives.now ≡ drives_of (outcome_of plan.now) }
    requires node { i < length plan.now.nodes }
    ensures { IfOk result (IsSettledNode plan.now i) }
{
    match fit_since(alloc, plan, drives, i)? {
        Some(since) => Ok(Some(over_for(plan, i).max(u128::from(since)))),
        None => Ok(None),
    }
}

/// Returns when all nodes have settled, or the first one that isn't on the bus and error active at the end.
pub(crate) fn settled_of(
    alloc: Global,
    plan: &CheckedPlan,
    drives: &Drives,
) -> Result<Settled, AllocError>
    requires drives { drives.now ≡ drives_of (outcome_of plan.now) }
    ensures { IfOk result (IsSettled plan.now) }
{
    let mut settled = 0u128;
    for i in 0..plan.nodes.len() {
        match settled_for(alloc, plan, drives, i)? {
            Some(at) => settled = settled.max(at),
            None => return Ok(Settled::Unfit(i)),
        }
    }
    Ok(Settled::At(settled))
}
