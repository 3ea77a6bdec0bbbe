//! The outcome of a simulation, and what a report says of it.
ghost use Rattle.std.specs.Prelude.{◌≡◌, IfOk, map};
ghost use Rattle.wl_serial.specs.Outcome.{node_totals, totals_of};

use std::alloc::{AllocError, Global};
use wl_confine::Counters;
use wl_level::Listed;
use wl_node::{Passed, PhaseTotals, SampleList};

/// Ticks, in order. At the first one the drive becomes dominant.
pub type Changes = Listed<u64>;

/// The ticks at which the drive of each node changed, of node `i` at place `i`.
pub type Drives = Listed<Changes>;

/// The frames that a node sent or received, in order.
pub type Frames = Listed<Passed>;

/// Quanta of a node, each with the phase error of the edge that it synchronised on, in quanta.
pub type Phases = Listed<(u64, i16)>;

/// What one node did before the end.
#[derive(Debug, Drop)]
pub struct NodeOutcome {
    /// The ticks before the end at which its drive changed. The first change is to dominant.
    pub changes: Changes,
    /// Its samples: quantum and level.
    pub samples: SampleList,
    /// The frames that it sent or received, each with the quantum of the sample that completed it.
    pub frames: Frames,
    /// Its error counters at the end.
    pub counters: Counters,
    /// Its resynchronising edges: quantum and phase error, error 0 too.
    pub phases: Phases,
    /// The number of its hard synchronisations.
    pub hards: u64,
    /// The number of errors that it found, those that leave the counters alone too.
    pub errors: u64,
    /// The number of frames that it was to send and did not.
    pub unsent: u64,
}

/// What each node did, node `i` at place `i`.
pub type NodeOutcomes = Listed<NodeOutcome>;

/// The outcome of a simulation.
#[derive(Debug, Drop)]
pub struct Outcome {
    /// What each node did.
    pub nodes: NodeOutcomes,
    /// The tick at which the simulation ended: only quanta that begin before it were run.
    pub end: u64,
}

/// What a report says of one node: its outcome without its changes, with the number of its samples, and with what is said of its phase
/// errors.
#[derive(Debug, Drop)]
pub struct NodeTotals {
    /// The number of its samples.
    pub samples: u64,
    /// The frames that it sent or received, each with the quantum of the sample that completed it.
    pub frames: Frames,
    /// Its error counters at the end.
    pub counters: Counters,
    /// How many resynchronising edges there were, and the least and the greatest phase error.
    pub phases: PhaseTotals,
    /// The number of its hard synchronisations.
    pub hards: u64,
    /// The number of errors that it found, those that leave the counters alone too.
    pub errors: u64,
    /// The number of frames that it was to send and did not.
    pub unsent: u64,
}

/// What a report says of each node, node `i` at place `i`.
pub type Totals = Listed<NodeTotals>;

/// What is kept of a simulation whose nodes only count.
#[derive(Debug, Drop)]
pub struct Counted {
    /// The ticks at which the drive of each node changed.
    pub drives: Drives,
    /// What a report says of each node.
    pub totals: Totals,
}

impl NodeOutcome {
    /// Returns what a report says of the node. Refused only when out of memory.
    fn totals(&self, alloc: Global) -> Result<NodeTotals, AllocError>
        ensures { IfOk result (λ totals. totals ≡ node_totals self.now) }
    {
        Ok(NodeTotals {
            samples: self.samples.len() as u64,
            frames: self.frames.clone_in(alloc)?,
            counters: self.counters,
            phases: PhaseTotals::of(self.phases.as_slice()),
            hards: self.hards,
            errors: self.errors,
            unsent: self.unsent,
        })
    }
}

impl Outcome {
    /// Returns what a report says of the outcome. Refused only when out of memory.
    pub fn totals(&self, alloc: Global) -> Result<Totals, AllocError>
        ensures { IfOk result (λ totals. totals ≡ totals_of self.now) }
    {
        let mut totals = Listed::new(alloc);
        let nodes = self.nodes.as_slice();
        for node in nodes {
            totals.push(node.totals(alloc)?)?;
        }
        Ok(totals)
    }
}
