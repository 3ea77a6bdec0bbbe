//! The forms in which what is known of all nodes is kept, under one trait.
ghost use Rattle.std.specs.Prelude.{◌≡◌, ◌<◌, ℕ, IfOk, OnOk};
ghost use Rattle.wl_replica.specs.State.{Fits};

use std::alloc::{AllocError, Global};
use wl_intervals::Intervals;
use wl_record_core::Record;
use wl_replica::{Replica, Rows};

/// What is known of some nodes, however it is kept.
pub trait Form {
    /// The number of the nodes.
    ghost count: { Self → ℕ };

    /// Returns one that knows nothing of this many nodes. Refused when out of memory, as all that
    /// follows.
    fn empty(alloc: Global, nodes: u8) -> Result<Self, AllocError>
        ensures { IfOk result (λ made. count made ≡ nodes) };

    /// Takes a record.
    fn learn(&mut self, told: Record) -> Result<(), AllocError>
        requires { Fits (count self.old) told }
        ensures { OnOk result (count self.new ≡ count self.old) };

    /// Joins in what the other knows.
    fn learn_from(&mut self, alloc: Global, other: &Self) -> Result<(), AllocError>
        requires { count self.old ≡ count other.now }
        ensures { OnOk result (count self.new ≡ count self.old) };

    /// Returns its canonical records.
    fn records(&self, alloc: Global) -> Result<Vec<Record>, AllocError>;

    /// Returns the run length of a node.
    fn run_of(&self, node: u8) -> u32
        requires { node < count self.now };

    /// Returns the horizon of a node.
    fn horizon_of(&self, node: u8) -> u64
        requires { node < count self.now };

    /// Returns the wave of a node.
    fn wave_of(&self, alloc: Global, node: u8) -> Result<Intervals, AllocError>
        requires { node < count self.now };
}

/// As groups and worlds keep it.
impl Form for Replica {
    ghost count = { λ r. r.nodes };

    fn empty(alloc: Global, nodes: u8) -> Result<Replica, AllocError> {
        Replica::new(alloc, nodes)
    }

    fn learn(&mut self, told: Record) -> Result<(), AllocError> {
        self.take(told)
    }

    fn learn_from(&mut self, _alloc: Global, other: &Replica) -> Result<(), AllocError> {
        self.join(other)
    }

    fn records(&self, alloc: Global) -> Result<Vec<Record>, AllocError> {
        self.canonical(alloc)
    }

    fn run_of(&self, node: u8) -> u32 {
        self.run_length(node)
    }

    fn horizon_of(&self, node: u8) -> u64 {
        self.horizon(node)
    }

    fn wave_of(&self, alloc: Global, node: u8) -> Result<Intervals, AllocError> {
        self.wave(alloc, node)
    }
}

/// As texts are read into it: each answer is worked out again.
impl Form for Rows {
    ghost count = { λ r. r.nodes };

    fn empty(alloc: Global, nodes: u8) -> Result<Rows, AllocError> {
        Rows::new(alloc, nodes)
    }

    fn learn(&mut self, told: Record) -> Result<(), AllocError> {
        self.take(told)
    }

    fn learn_from(&mut self, _alloc: Global, other: &Rows) -> Result<(), AllocError> {
        self.join(other)
    }

    fn records(&self, alloc: Global) -> Result<Vec<Record>, AllocError> {
        let mut all = Vec::new(alloc);
        self.tell(&mut all)?;
        Ok(all)
    }

    fn run_of(&self, node: u8) -> u32 {
        self.run_length(node)
    }

    fn horizon_of(&self, node: u8) -> u64 {
        self.horizon(node)
    }

    fn wave_of(&self, alloc: Global, node: u8) -> Result<Intervals, AllocError> {
        self.wave(alloc, node)
    }
}
