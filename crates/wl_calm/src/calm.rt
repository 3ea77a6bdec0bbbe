//! The first silence of a run.
ghost use Rattle.std.specs.Prelude.{◌≡◌, IfOk};
ghost use Rattle.wl_serial.specs.Outcome.{drives_of, outcome_of};
ghost use Rattle.wl_calm.specs.Calms.{IsCalm};

use crate::pauses::first_pause;
use crate::settled::{Settled, settled_of};
use crate::ticks::silence_ticks;
use std::alloc::{AllocError, Global};
use wl_plan::CheckedPlan;
use wl_serial::Drives;

/// Whether a run has a silence.
#[derive(Clone, Copy, Debug)]
pub enum Calm {
    /// From this tick on nobody drives dominant for 36 bits of each node, after what was driven before has come to it. All disturbances are
    /// over by then, and all nodes are on the bus and error active up to the end of the run.
    Silent(u64),
    /// The node of this number is error passive or bus off at the end of the run.
    Unfit(usize),
    /// All nodes are on the bus and error active at the end, and there is no silence after the disturbances.
    Busy,
}

/// Returns the first silence of a plan's run, whose nodes change their drives at these ticks, or why there is none. Refused out of memory alone.
pub fn calm_of(alloc: Global, plan: &CheckedPlan, drives: &Drives) -> Result<Calm, AllocError>
    requires { drives.now ≡ drives_of (outcome_of plan.now) }
    ensures { IfOk result (IsCalm plan.now) }
{
    match settled_of(alloc, plan, drives)? {
        Settled::At(settled) => {
            let long = silence_ticks(plan);
            match first_pause(plan, drives, settled, long) {
                Some(from) => Ok(Calm::Silent(from)),
                None => Ok(Calm::Busy),
            }
        }
        Settled::Unfit(node) => Ok(Calm::Unfit(node)),
    }
}
