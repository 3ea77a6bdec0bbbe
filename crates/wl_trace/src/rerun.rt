//! A node that runs again over the levels that it saw, quantum by quantum, and that may leave the bus.
ghost use Rattle.std.specs.Prelude.{◌≡◌, ℕ, ◌+◌, ◌-◌, ◌<◌, ◌≤◌, ◌^◌, ◌++◌, [], ◌∷◌, List, OnOk, IfOk, length, replicate, true};
ghost use Rattle.wl_level.specs.declared.Level.{Level};
ghost use Rattle.wl_node.specs.declared.setup.NodeSetup.{NodeSetup};
ghost use Rattle.wl_node.specs.History.{is_after, quanta_before};
ghost use Rattle.wl_trace.specs.Rerun.{IsRerun, RunsAgain, samples_seen, sync_at_next};
ghost use Rattle.wl_trace.specs.StayingRerun.{sample_if};
ghost use Rattle.wl_trace.specs.Snapshot.{snapshot_of};
ghost use Rattle.wl_trace.specs.Synced.{syncs_of, with_next};

use crate::event::Noted;
use crate::snapshot::NodeSnapshot;
use crate::staying_rerun::{StayingRerun, Stride};
use std::alloc::{AllocError, Global};
use wl_level::Level;
use wl_node::NodeSetup;

/// A node that runs again over the levels that it saw, one for each quantum: its bit clock, its machine, counters and queue, and what it drives
/// (Bosch CAN 2.0 part B, sections 3, 8 and 10). It knows no ticks. Only its begin takes memory. From the quantum `until` of its setup on, if
/// there is one, it has left the bus.
#[derive(Drop)]
pub struct Rerun {
    pub(crate) staying: StayingRerun,
    /// True if a quantum has come at which it had left.
    pub(crate) left: bool,
}

/// True if a node of this setup has left the bus at this quantum, or leaves with it.
fn is_away(setup: &NodeSetup, quantum: u64) -> bool
    ensures { result ≡ is_after setup.now.until quantum }
{
    match setup.until {
        Some(until) => until <= quantum,
        None => false,
    }
}

/// Returns how many of these quanta, from this one on, come before a node of this setup leaves the bus.
fn quanta_there(setup: &NodeSetup, quantum: u64, most: u64) -> u64
    ensures value { result ≡ quanta_before setup.now.until quantum most }
    ensures most { result ≤ most }
{
    match setup.until {
        Some(until) => most.min(until.saturating_sub(quantum)),
        None => most,
    }
}

impl Rerun {
    /// Returns a node of this setup before its first quantum: it drives recessive. Refused only if memory runs out.
    pub fn new(alloc: Global, setup: &NodeSetup) -> Result<Rerun, AllocError>
        ensures node { IfOk result (λ kept. IsRerun setup.now [] kept) }
        ensures runs { IfOk result (λ kept. RunsAgain setup.now [] kept) }
    {
        Ok(Rerun {
            staying: StayingRerun::new(alloc, setup)?,
            left: false,
        })
    }

    /// Returns what a waveform shows of it after the quanta that it has seen.
    pub fn snapshot(&self) -> NodeSnapshot
        ensures { (setup : NodeSetup) (levels : List Level) → IsRerun setup levels self.now
            → result ≡ snapshot_of setup levels }
    {
        let shown = self.staying.snapshot();
        if self.left {
            return NodeSnapshot {
                drive: Level::Recessive,
                ..shown
            };
        }
        shown
    }

    /// Runs its next quantum, which has this number, counted from 0, and at which it sees this level; `setup` is what it was made of.
    /// Returns how an edge synchronises it then, if one does: hard, or with a phase error in quanta (Bosch CAN 2.0 part B, section 10).
    pub fn quantum(&mut self, setup: &NodeSetup, quantum: u64, level: Level) -> Option<Noted>
        requires few { quantum < 2 ^ 64 - 1 }
        ensures sync { (levels : List Level) → length levels ≡ quantum
            → IsRerun setup.now levels self.old → result ≡ sync_at_next setup.now levels level }
        ensures run { (levels : List Level) → length levels ≡ quantum
            → IsRerun setup.now levels self.old → IsRerun setup.now (levels ++ level ∷ []) self.new }
    {
        if is_away(setup, quantum) {
            self.left = true;
            return None;
        }
        self.staying.quantum(setup, quantum, level)
    }

    /// Goes over quanta of this level that neither sample nor begin a bit, so that nothing shown changes and no edge synchronises: all that
    /// come, but at most 384 before it leaves the bus, and at most `most`. The first one has this number; `setup` is what it was made of.
    /// Returns how many they were; 0 if the next one samples or begins a bit, or finds an edge, or if it leaves with that.
    pub fn pass(&mut self, setup: &NodeSetup, quantum: u64, level: Level, most: u64) -> u64
        ensures run { (levels : List Level) → length levels ≡ quantum → IsRerun setup.now levels self.old
            → IsRerun setup.now (levels ++ replicate result level) self.new }
        ensures same { (levels : List Level) → length levels ≡ quantum → IsRerun setup.now levels self.old
            → (m : ℕ) → m ≤ result
            → snapshot_of setup.now (levels ++ replicate m level) ≡ snapshot_of setup.now levels }
        ensures syncs { (levels : List Level) → length levels ≡ quantum → IsRerun setup.now levels self.old
            → syncs_of setup.now (levels ++ replicate result level) ≡ syncs_of setup.now levels }
        ensures few { result ≤ most }
    {
        if self.left {
            return most;
        }
        self.staying.pass(level, quanta_there(setup, quantum, most))
    }

    /// Runs quanta of this level: up to and including its next sample, or some that have none; at least one, and at most `most`. A node that
    /// has left the bus, or leaves it with the first one, runs them all. `quantum` is the number of the first, counted from 0; `setup` is what
    /// it was made of.
    pub fn stride(&mut self, setup: &NodeSetup, quantum: u64, level: Level, most: u64) -> Stride
        requires some { 0 < most }
        requires few { quantum + most < 2 ^ 64 }
        ensures run { (levels : List Level) → length levels ≡ quantum → RunsAgain setup.now levels self.old
            → RunsAgain setup.now (levels ++ replicate result.quanta level) self.new }
        ensures samples { (levels : List Level) → length levels ≡ quantum → RunsAgain setup.now levels self.old
            → samples_seen setup.now (levels ++ replicate result.quanta level)
            ≡ samples_seen setup.now levels ++ sample_if result.sampled (quantum + result.quanta - 1) level }
        ensures syncs { (levels : List Level) → length levels ≡ quantum → RunsAgain setup.now levels self.old
            → syncs_of setup.now (levels ++ replicate result.quanta level)
            ≡ with_next (syncs_of setup.now levels) result.sync }
        ensures some { 0 < result.quanta }
        ensures few { result.quanta ≤ most }
    {
        if is_away(setup, quantum) {
            self.left = true;
            return Stride {
                quanta: most,
                sampled: false,
                sync: None,
            };
        }
        let there = quanta_there(setup, quantum, most);
        self.staying.stride(setup, quantum, level, there)
    }
}
