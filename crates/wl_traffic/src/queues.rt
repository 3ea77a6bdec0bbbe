//! The frames of each node, what became of them, and how far the node came.
ghost use Rattle.std.specs.Prelude.{◌≡◌, ◌<◌, ℕ, length, IfOk};
ghost use Rattle.std.specs.List.{All};
ghost use Rattle.wl_traffic.specs.Entries.{node_queue, node_queues, received_quanta};
ghost use Rattle.wl_traffic.specs.Known.{IsKnownQueue};

use crate::entries::Entry;
use crate::nodes::{frames_are_known, quanta_are_known};
use std::alloc::{AllocError, Global};
use wl_clock::Clock;
use wl_level::Listed;
use wl_node::Passed;
use wl_plan::CheckedPlan;

/// The frames of a node, what became of them, and how far the node came.
#[derive(Debug, Drop)]
pub struct NodeQueue {
    /// The node's number.
    pub(crate) node: usize,
    /// The ticks of its quanta.
    pub(crate) clock: Clock,
    /// The quantum of its eleventh recessive sample in a row.
    pub(crate) joined: Option<u64>,
    /// The quantum of its last sample.
    pub(crate) last: Option<u64>,
    /// The frames that it sent or received.
    pub(crate) frames: Listed<Passed>,
    /// The quanta at which it received a frame of another node.
    pub(crate) received: Listed<u64>,
    /// Until which tick it was at flags and their delimiters; 0 if it never was.
    pub(crate) trouble: u64,
    /// The frames, in the order of its queue.
    pub(crate) entries: Listed<Entry>,
}

/// Returns the quanta at which a node completed what it received, in order.
pub(crate) fn received_quanta(alloc: Global, frames: &[Passed]) -> Result<Vec<u64>, AllocError>
    ensures { IfOk result (λ received. received.items ≡ received_quanta frames.now) }
{
    let mut received = Vec::new(alloc);
    for passed in frames {
        if !passed.sent {
            received.push(passed.quantum)?;
        }
    }
    Ok(received)
}

/// Law: a clock knows the quanta at which the nodes of a checked plan sent and received frames, at which they took part at first, and of their last
/// samples.
pub(crate) fn queues_are_known(plan: &CheckedPlan)
    ensures each { (i : ℕ) → i < length plan.now.nodes → IsKnownQueue (node_queue plan.now i) }
    ensures all { All IsKnownQueue (node_queues plan.now) }
{
    quanta_are_known(plan);
    frames_are_known(plan);
}
