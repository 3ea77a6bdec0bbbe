//! A node that is watched sample by sample: what it sends, what each sample does, and what the node does after it.
ghost use Rattle.std.specs.Prelude.{◌≡◌, [], map, OnOk, IfOk};
ghost use Rattle.wl_machine.specs.Doing.{doing_of};
ghost use Rattle.wl_machine.specs.Judged.{head_of, stretch_of};
ghost use Rattle.wl_node.specs.declared.setup.NodeSetup.{NodeSetup};
ghost use Rattle.wl_trace.specs.Events.{noted};
ghost use Rattle.wl_trace.specs.Replay.{IsWatchedNode, SampledPast, no_past, past_after, then_events};

use crate::event::Noted;
use crate::notes::Notes;
use crate::replay::Replay;
use std::alloc::{AllocError, Global};
use wl_frame::frame::Frame;
use wl_level::Level;
use wl_machine::Doing;
use wl_node::NodeSetup;

/// A node as its samples leave it, with its running stretch: so what it sends is known, and where in a frame an event comes.
#[derive(Drop)]
pub struct WatchedNode {
    pub(crate) replay: Replay,
}

impl WatchedNode {
    /// Returns a node of this setup before its first sample. Refused only if memory runs out.
    pub fn new(alloc: Global, setup: &NodeSetup) -> Result<WatchedNode, AllocError>
        ensures { IfOk result (λ kept. IsWatchedNode setup.now kept no_past) }
    {
        Ok(WatchedNode {
            replay: Replay::new(alloc, setup)?,
        })
    }

    /// Returns the frame of the running stretch that the node sends or has sent up to the loss of the arbitration: the head of its queue at the sample that
    /// began it. None if the running stretch is no frame of its own.
    pub fn head(&self) -> Option<Frame>
        ensures { (setup : NodeSetup) (p : SampledPast) → IsWatchedNode setup self.now p
            → result ≡ head_of (stretch_of p.inputs).sort }
    {
        self.replay.stretch.head()
    }

    /// Returns what the node does.
    pub fn doing(&self) -> Doing
        ensures { (setup : NodeSetup) (p : SampledPast) → IsWatchedNode setup self.now p
            → result ≡ doing_of (stretch_of p.inputs) }
    {
        self.replay.sampled_node.machine.doing()
    }

    /// Takes the sample of this quantum, which has this level, and returns what it did. `setup` is the node's, and `bit` says how many samples
    /// there were before it. Refused only if memory runs out.
    pub fn take(
        &mut self,
        alloc: Global,
        setup: &NodeSetup,
        quantum: u64,
        bit: u64,
        level: Level,
    ) -> Result<Vec<Noted>, AllocError>
        ensures past { (p : SampledPast) → IsWatchedNode setup.now self.old p
            → OnOk result (IsWatchedNode setup.now self.new (past_after setup.now p (quantum, level))) }
        ensures events { (p : SampledPast) → IsWatchedNode setup.now self.old p
            → IfOk result (λ events. events.items ≡ map (noted quantum bit) (then_events setup.now p quantum level)) }
    {
        let mut notes = Notes {
            quantum,
            bit,
            events: Vec::new(alloc),
        };
        self.replay.sample(setup, level, &mut notes)?;
        Ok(notes.events)
    }
}
