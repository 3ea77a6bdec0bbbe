//! What a node is made of, and the frames that pass through it.
ghost use Rattle.std.specs.Prelude.{◌≡◌, ◌↔◌, IsTrue, IfOk};

use std::alloc::{AllocError, Global};
use wl_clock::Clock;
use wl_frame::frame::Frame;
use wl_level::Listed;
use wl_segments::Segments;

/// A frame that waits to be sent, from quantum `ready` of its node on.
#[derive(Clone, Copy, Debug, PartialEq, Eq)]
pub struct Queued {
    /// What is to be sent.
    pub frame: Frame,
    /// The first quantum at which it may be handed to the machine, counted from 0.
    pub ready: u64,
}

/// A frame that a node sent (`sent`) or received, and the quantum of the sample that completed it.
#[derive(Clone, Copy, Debug, PartialEq, Eq)]
pub struct Passed {
    /// True of a frame that was sent, false of one that was received.
    pub sent: bool,
    /// The node's quantum, counted from 0: of the last bit of end of frame if it was sent, of the
    /// last but one if it was received (Bosch CAN 2.0 part B, section 5).
    pub quantum: u64,
    /// What it carries.
    pub frame: Frame,
}

/// The frames that a node is to send, in this order.
pub type Queue = Listed<Queued>;

/// Which of the frames that wait is sent next.
#[derive(Clone, Copy, Debug, PartialEq, Eq)]
pub enum QueueOrder {
    /// The first of the queue: first in, first out.
    Fifo,
    /// The one that wins the arbitration against all others that wait, and of equal ones the first of
    /// the queue (Bosch CAN 2.0 part B, section 3.1).
    Priority,
}

/// What a node is made of: its clock, its bit segments, the frames that it is to send, and how long it stays.
#[derive(Debug, Drop)]
pub struct NodeSetup {
    /// The ticks of its quanta. The node itself never asks for them.
    pub clock: Clock,
    /// The segments of its bits, in quanta.
    pub segments: Segments,
    /// The frames that it is to send. They come to its controller in this order, each when it is ready.
    pub queue: Queue,
    /// Which of the frames that wait in its controller is sent next.
    pub order: QueueOrder,
    /// The quantum, counted from 0, from which on it has left the bus: it drives recessive and looks no more.
    pub until: Option<u64>,
}

impl NodeSetup {
    /// Returns an equal setup. Refused only if memory runs out.
    pub fn clone_in(&self, alloc: Global) -> Result<NodeSetup, AllocError>
        ensures { IfOk result (λ copy. copy ≡ self.now) }
    {
        Ok(NodeSetup {
            clock: self.clock,
            segments: self.segments,
            queue: self.queue.clone_in(alloc)?,
            order: self.order,
            until: self.until,
        })
    }
}

impl PartialEq for NodeSetup {
    ghost use Rattle.wl_node.specs.Same.{same_setup, same_setup_laws};

    ghost eq = { same_setup };

    ghost laws = { same_setup_laws };

    /// True if two setups have the same clock, segments and queue, with the same order, and leave at the same quantum.
    fn eq(&self, other: &NodeSetup) -> bool
        ensures value { result ≡ same_setup self.now other.now }
        ensures same { IsTrue result ↔ (self.now ≡ other.now) }
    {
        self.clock == other.clock
            && self.segments == other.segments
            && self.queue == other.queue
            && self.order == other.order
            && self.until == other.until
    }
}

impl Eq for NodeSetup {
    ghost use Rattle.wl_node.specs.Same.{same_setup_equiv};

    ghost laws = { same_setup_equiv };
}
