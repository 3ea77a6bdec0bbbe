//! The verdict on a run alone, without its text: why the run didn't work, and until when nodes were at flags.
ghost use Rattle.std.specs.Prelude.{◌≡◌, IfOk};
ghost use Rattle.wl_serial.specs.Outcome.{counted_of, outcome_of};
ghost use Rattle.wl_traffic.specs.Entries.{node_queues};
ghost use Rattle.wl_traffic.specs.Healing.{clean_from};
ghost use Rattle.wl_traffic.specs.Reasons.{reason_of};

use crate::found::found_of;
use crate::healing::clean_from;
use crate::queues::queues_are_known;
use crate::reason::Reason;
use crate::watch::watch_all;
use std::alloc::{AllocError, Global};
use wl_plan::CheckedPlan;
use wl_serial::Counted;

/// Why a run didn't work, and until when it was in trouble.
#[derive(Clone, Copy, Debug, PartialEq, Eq)]
pub struct Verdict {
    /// Why the run didn't work, or that it did.
    pub reason: Reason,
    /// From which tick on no node is at an error or overload flag or its delimiter: 0 if none ever is, the plan's end if some node still is.
    pub trouble: u64,
}

/// Returns the verdict on a plan's simulation, in which this was counted: the reason that [`traffic_of`](crate::traffic_of) has in its
/// last line, and until when nodes were at flags. Refused out of memory alone.
pub fn verdict_of(
    alloc: Global,
    plan: &CheckedPlan,
    counted: &Counted,
) -> Result<Verdict, AllocError>
    requires counted { counted.now ≡ counted_of (outcome_of plan.now) }
    ensures reason { IfOk result (λ v. v.reason ≡ reason_of plan.now) }
    ensures trouble { IfOk result (λ v. v.trouble ≡ clean_from 0 (node_queues plan.now)) }
{
    let seen = watch_all(alloc, plan, counted)?;
    queues_are_known(plan);
    let queues = &seen.queues;
    let found = found_of(alloc, seen.bus, queues.as_slice(), &counted.totals)?;
    Ok(Verdict {
        reason: found.reason,
        trouble: clean_from(0, queues.as_slice()),
    })
}
