//! What is found of a run: how busy the bus was, which messages are late, and why the run didn't work.
ghost use Rattle.std.specs.Prelude.{◌≡◌, IfOk};
ghost use Rattle.std.specs.List.{All};
ghost use Rattle.wl_plan.specs.declared.plan.Plan.{Plan};
ghost use Rattle.wl_serial.specs.Outcome.{outcome_of, totals_of};
ghost use Rattle.wl_traffic.specs.Bus.{bus_found};
ghost use Rattle.wl_traffic.specs.Causes.{found_of};
ghost use Rattle.wl_traffic.specs.Entries.{node_queues};
ghost use Rattle.wl_traffic.specs.Known.{IsKnownQueue};

use crate::bus::Bus;
use crate::late::{LateMessage, late_messages};
use crate::load::Load;
use crate::queues::NodeQueue;
use crate::reason::{Reason, reason_by};
use crate::unequal::{Unequal, unequal_deliveries};
use std::alloc::{AllocError, Global};
use wl_level::Listed;
use wl_serial::Totals;

/// What is found of a run.
#[derive(Debug, Drop)]
pub struct Found {
    /// How busy the bus was.
    pub(crate) load: Load,
    /// The messages that wait for longer than they may.
    pub(crate) late: Listed<LateMessage>,
    /// The messages with sent frames that some node misses, or has taken twice.
    pub(crate) unequal: Listed<Unequal>,
    /// Why the run didn't work.
    pub(crate) reason: Reason,
}

/// Returns what is found of a run with this bus, these frames of its nodes, and these totals.
pub(crate) fn found_of(
    alloc: Global,
    bus: Bus,
    queues: &[NodeQueue],
    totals: &Totals,
) -> Result<Found, AllocError>
    requires { All IsKnownQueue queues.now }
    ensures { (plan : Plan) → bus ≡ bus_found plan → queues.now ≡ node_queues plan
        → totals.now ≡ totals_of (outcome_of plan) → IfOk result (λ found. found ≡ found_of plan) }
{
    let late = late_messages(alloc, queues)?;
    let unequal = unequal_deliveries(alloc, queues)?;
    let reason = reason_by(bus.off, &unequal, bus.load.full, &late, totals.as_slice());
    Ok(Found {
        load: bus.load,
        late: Listed::from_vec(late),
        unequal: Listed::from_vec(unequal),
        reason,
    })
}
