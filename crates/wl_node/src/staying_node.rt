//! A node that is on the bus, quantum by quantum.

ghost use Rattle.std.specs.Prelude.{List};
ghost use Rattle.wl_level.specs.declared.Level.{Level};
ghost use Rattle.wl_node.specs.Kept.{FitsQuanta, IsProgress};

use crate::progress::NodeProgress;
use crate::setup::NodeSetup;
use std::alloc::{AllocError, Global};
use wl_level::Level;

/// A node that is on the bus: its setup, and where the levels that it saw put it, one for each quantum. At which quantum it leaves isn't
/// looked at here.
#[derive(Drop)]
pub struct StayingNode {
    pub setup: NodeSetup,
    pub progress: NodeProgress,
    ghost fits: { FitsQuanta progress },
    ghost reached: { ∥ ((levels : List Level) × IsProgress setup progress levels) ∥₁ },
}

impl StayingNode {
    ghost use Rattle.std.specs.Prelude.{◌≡◌, ◌≤◌, ◌+◌, ◌<◌, ◌++◌, ℕ, suc, [], ◌∷◌, OnOk, IfOk};
    ghost use Rattle.wl_node.specs.History.{staying_history};
    ghost use Rattle.wl_node.specs.Kept.{IsRoomy, KeepsDrive};
    ghost use Rattle.wl_node.specs.Limits.{most_quiet, most_run_quanta};
    ghost use Rattle.wl_node.specs.Quiet.{quiet_at};
    ghost use Rattle.wl_node.specs.Staying.{IsStaying, IsSameStaying, StayingStands};
    ghost use Rattle.wl_node.specs.Stays.{free_stay, stay_at};

    /// Returns a node of this setup that has run no quantum. It lists its samples and phase errors if `keeps` is true, and otherwise only
    /// keeps what a report says of them.
    pub fn begin(alloc: Global, setup: NodeSetup, keeps: bool) -> Result<StayingNode, AllocError>
        ensures node { IfOk result (λ node. IsStaying [] node) }
        ensures setup { IfOk result (λ node. node.setup ≡ setup) }
        ensures quanta { IfOk result (λ node. node.progress.quanta ≡ 0) }
        ensures keeps { IfOk result (λ node. node.progress.traffic.samples.keeps ≡ keeps) }
    {
        let progress = NodeProgress::new(alloc, &setup, keeps)?;
        Ok(StayingNode { setup, progress })
    }

    /// Takes the memory that the next quantum needs.
    pub fn prepare(&mut self) -> Result<(), AllocError>
        ensures room { OnOk result (IsRoomy self.new.progress) }
        ensures node { IsSameStaying self.old self.new }
        ensures setup { self.new.setup ≡ self.old.setup }
        ensures quanta { self.new.progress.quanta ≡ self.old.progress.quanta }
        ensures keeps { self.new.progress.traffic.samples.keeps ≡ self.old.progress.traffic.samples.keeps }
    {
        self.progress.prepare()
    }

    /// Takes the memory of this many runs of samples and resynchronising edges more.
    pub fn reserve(&mut self, runs: usize, edges: usize) -> Result<(), AllocError>
        ensures node { IsSameStaying self.old self.new }
        ensures setup { self.new.setup ≡ self.old.setup }
        ensures quanta { self.new.progress.quanta ≡ self.old.progress.quanta }
        ensures keeps { self.new.progress.traffic.samples.keeps ≡ self.old.progress.traffic.samples.keeps }
    {
        self.progress.reserve(runs, edges)
    }

    /// Runs the next quantum, at which the node sees this level.
    pub fn run(&mut self, level: Level)
        requires room { IsRoomy self.old.progress }
        requires short { self.old.progress.quanta < most_run_quanta }
        ensures node { (levels : List Level) → IsStaying levels self.old → IsStaying (levels ++ level ∷ []) self.new }
        ensures setup { self.new.setup ≡ self.old.setup }
        ensures quanta { self.new.progress.quanta ≡ self.old.progress.quanta + 1 }
        ensures keeps { self.new.progress.traffic.samples.keeps ≡ self.old.progress.traffic.samples.keeps }
    {
        self.progress.run(&self.setup, level);
    }

    /// Returns the level that the node drives since its last quantum.
    pub fn drive(&self) -> Level
        ensures { (levels : List Level) → IsStaying levels self.now
            → result ≡ (staying_history self.now.setup levels).drive }
    {
        self.progress.drive
    }

    /// Returns for how many quanta more the node is sure to keep its drive, whatever it sees.
    pub fn quiet(&self) -> u32
        ensures value { (levels : List Level) → IsStaying levels self.now
            → result ≡ quiet_at self.now.setup (staying_history self.now.setup levels) }
        ensures most { result ≤ most_quiet }
    {
        self.progress.quiet(&self.setup)
    }

    /// Returns for how many quanta more the node is sure to keep its drive if it sees recessive at each of them.
    pub fn stays(&self) -> u64
        ensures value { (levels : List Level) → IsStaying levels self.now
            → result ≡ stay_at self.now.setup (staying_history self.now.setup levels) }
        ensures stands { (m : ℕ) → m ≤ result → StayingStands self.now Level.Recessive m }
        ensures free { (levels : List Level) → IsStaying levels self.now
            → free_stay self.now.setup (staying_history self.now.setup levels) ≤ result }
        ensures most { result ≤ most_run_quanta }
    {
        self.progress.stays(&self.setup)
    }
}
