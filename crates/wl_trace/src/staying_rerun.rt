//! A node that runs again over the levels that it saw, quantum by quantum.
ghost use Rattle.std.specs.Prelude.{◌≡◌, ℕ, ◌+◌, ◌-◌, ◌<◌, ◌≤◌, ◌^◌, ◌++◌, [], ◌∷◌, List, OnOk, IfOk, length, min, option_map, replicate, true};
ghost use Rattle.wl_level.specs.declared.Level.{Level};
ghost use Rattle.wl_node.specs.declared.setup.NodeSetup.{NodeSetup};
ghost use Rattle.wl_node.specs.History.{History, by_beat, history_after_sample, staying_history};
ghost use Rattle.wl_trace.specs.declared.event.Noted.{Noted as GivenNoted};
ghost use Rattle.wl_trace.specs.Events.{noted};
ghost use Rattle.wl_trace.specs.StayingRerun.{IsStayingRerun, RunsStaying, SamplesOver, StaysOver, RunsTo, staying_samples, starts_with};
ghost use Rattle.wl_trace.specs.Snapshot.{plain_quanta, staying_snapshot};
ghost use Rattle.wl_trace.specs.Synced.{sync_event, sync_next, staying_syncs, with_next};

use crate::event::{NodeEvent, Noted};
use crate::sampled_node::SampledNode;
use crate::snapshot::{NodeSnapshot, NodeState};
use std::alloc::{AllocError, Global};
use wl_level::Level;
use wl_node::{NodeSetup, integrates};
use wl_sync::{Beat, BitClock, Seen, Sync};

/// A node that runs again over the levels that it saw, one for each quantum: its bit clock, its machine, counters and queue, and what it drives
/// (Bosch CAN 2.0 part B, sections 3, 8 and 10). It knows no ticks. No call takes memory or is refused.
#[derive(Drop)]
pub struct StayingRerun {
    pub(crate) clock: BitClock,
    pub(crate) sampled_node: SampledNode,
    pub(crate) drive: Level,
    /// How many samples it has had.
    pub(crate) bits: u64,
    /// Turns at each sample.
    pub(crate) sampled: bool,
    /// Turns at each start of a bit.
    pub(crate) started: bool,
}

/// Quanta of one level that a node ran at once.
#[derive(Clone, Copy, Debug)]
pub struct Stride {
    /// How many they were.
    pub quanta: u64,
    /// True if the last one was a sample; no other was.
    pub sampled: bool,
    /// How an edge synchronised the node with the last one, if one did.
    pub sync: Option<Noted>,
}

/// Returns the event of an edge.
fn sync_event(sync: Sync) -> NodeEvent
    ensures { result ≡ sync_event sync }
{
    match sync {
        Sync::Hard => NodeEvent::HardSynchronised,
        Sync::Error(error) => NodeEvent::Resynchronised(error),
    }
}

/// Returns how an edge that this quantum finds synchronises the node, after this many samples.
fn noted_sync(quantum: u64, bit: u64, sync: Option<Sync>) -> Option<Noted>
    ensures { result ≡ option_map (λ s. noted quantum bit (sync_event s)) sync }
{
    match sync {
        Some(sync) => Some(Noted {
            quantum,
            bit,
            event: sync_event(sync),
        }),
        None => None,
    }
}

impl StayingRerun {
    /// Returns a node of this setup before its first quantum: it drives recessive. Refused only if memory runs out.
    pub fn new(alloc: Global, setup: &NodeSetup) -> Result<StayingRerun, AllocError>
        ensures { IfOk result (λ kept. IsStayingRerun setup.now [] kept) }
    {
        Ok(StayingRerun {
            clock: BitClock::new(setup.segments),
            sampled_node: SampledNode::new(alloc, setup)?,
            drive: Level::Recessive,
            bits: 0,
            sampled: false,
            started: false,
        })
    }

    /// Returns what a waveform shows of it after the quanta that it has seen.
    pub fn snapshot(&self) -> NodeSnapshot
        ensures { (setup : NodeSetup) (levels : List Level) → IsStayingRerun setup levels self.now
            → result ≡ staying_snapshot setup levels }
    {
        let kept = &self.sampled_node;
        NodeSnapshot {
            drive: self.drive,
            sampled: self.sampled,
            started: self.started,
            state: NodeState {
                tec: kept.counters.tec(),
                rec: kept.counters.rec(),
                mode: kept.counters.mode(),
                doing: kept.machine.doing(),
            },
        }
    }

    /// Runs its next quantum, which has this number, counted from 0, and at which it sees this level; `setup` is what it was made of.
    /// Returns how an edge synchronises it then, if one does: hard, or with a phase error in quanta (Bosch CAN 2.0 part B, section 10).
    pub fn quantum(&mut self, setup: &NodeSetup, quantum: u64, level: Level) -> Option<Noted>
        requires few { quantum < 2 ^ 64 - 1 }
        ensures sync { (levels : List Level) → length levels ≡ quantum
            → RunsStaying setup.now levels self.old
            → result ≡ sync_next setup.now (staying_history setup.now levels) level }
        ensures running { (levels : List Level) → length levels ≡ quantum
            → RunsStaying setup.now levels self.old → RunsStaying setup.now (levels ++ level ∷ []) self.new }
        ensures run { (levels : List Level) → length levels ≡ quantum
            → IsStayingRerun setup.now levels self.old → IsStayingRerun setup.now (levels ++ level ∷ []) self.new }
    {
        let bit = self.bits;
        let idle = self.sampled_node.machine.idle();
        let awaits = self.sampled_node.machine.awaits_start();
        let integrates = integrates(&self.sampled_node.machine);
        let driving = self.drive.is_dominant();
        let (beat, sync) = self.clock.see(Seen {
            level,
            idle,
            awaits,
            integrates,
            driving,
        });
        self.obey(setup, quantum, level, beat);
        noted_sync(quantum, bit, sync)
    }

    /// Does what the quantum of this number does by its beat, if it is of this level.
    fn obey(&mut self, setup: &NodeSetup, quantum: u64, level: Level, beat: Beat)
        ensures run { (h : History) (starts : ℕ) → quantum ≡ length h.seen
            → self.old.bits < 2 ^ 64 - 1 → RunsTo setup.now self.old h starts
            → RunsTo setup.now self.new (by_beat setup.now h level beat) (starts_with beat starts) }
        ensures clock { self.new.clock ≡ self.old.clock }
        ensures bits { self.new.bits ≤ self.old.bits + 1 }
    {
        match beat {
            Beat::Plain => {}
            Beat::Start => {
                self.drive = self.sampled_node.pending;
                self.started = !self.started;
            }
            Beat::Sample(_) => self.sample(setup, quantum, level),
        }
    }

    /// Takes the sample of the quantum of this number, which has this level.
    fn sample(&mut self, setup: &NodeSetup, quantum: u64, level: Level)
        ensures run { (h : History) (starts : ℕ) → quantum ≡ length h.seen
            → self.old.bits < 2 ^ 64 - 1 → RunsTo setup.now self.old h starts
            → RunsTo setup.now self.new (history_after_sample setup.now h level) starts }
        ensures clock { self.new.clock ≡ self.old.clock }
        ensures bits { self.new.bits ≤ self.old.bits + 1 }
    {
        self.sampled_node.sample_at(setup, quantum, level);
        self.bits = self.bits.saturating_add(1);
        self.sampled = !self.sampled;
    }

    /// Goes over quanta of this level that neither sample nor begin a bit, so that nothing shown changes and no edge synchronises: all that
    /// come, but at most 384, and at most `most`. Returns how many they were; 0 if the next one samples or begins a bit, or finds an edge.
    pub fn pass(&mut self, level: Level, most: u64) -> u64
        ensures quanta { (setup : NodeSetup) (levels : List Level) → IsStayingRerun setup levels self.old
            → result ≡ min most (plain_quanta setup levels level) }
        ensures run { (setup : NodeSetup) (levels : List Level) → IsStayingRerun setup levels self.old
            → IsStayingRerun setup (levels ++ replicate result level) self.new }
        ensures same { (setup : NodeSetup) (levels : List Level) → IsStayingRerun setup levels self.old
            → (m : ℕ) → m ≤ result
            → staying_snapshot setup (levels ++ replicate m level) ≡ staying_snapshot setup levels }
        ensures syncs { (setup : NodeSetup) (levels : List Level) → IsStayingRerun setup levels self.old
            → staying_syncs setup (levels ++ replicate result level) ≡ staying_syncs setup levels }
        ensures few { result ≤ most }
    {
        let free = self.clock.free_quanta(level, false);
        let quanta = most.min(free as u64);
        if 0 < quanta {
            self.clock.skip(level, quanta as u16);
        }
        quanta
    }

    /// Goes over quanta of this level that don't sample and find no edge: all that come, but at most 384, and at most `most`. It stops before a
    /// bit's start that changes what it drives. The mark of starts isn't kept. Returns how many they were.
    fn skip(&mut self, level: Level, most: u64) -> u64
        ensures running { (setup : NodeSetup) (levels : List Level) → RunsStaying setup levels self.old
            → RunsStaying setup (levels ++ replicate result level) self.new }
        ensures syncs { (setup : NodeSetup) (levels : List Level) → RunsStaying setup levels self.old
            → staying_syncs setup (levels ++ replicate result level) ≡ staying_syncs setup levels }
        ensures samples { (setup : NodeSetup) (levels : List Level) → RunsStaying setup levels self.old
            → staying_samples setup (levels ++ replicate result level) ≡ staying_samples setup levels }
        ensures few { result ≤ most }
    {
        let settled = self.drive.is(self.sampled_node.pending);
        let free = self.clock.free_quanta(level, settled);
        let quanta = most.min(free as u64);
        if 0 < quanta {
            self.clock.skip(level, quanta as u16);
        }
        quanta
    }

    /// Runs the quanta of this level up to and including the next sample. It runs none if the sample comes later than `most` quanta, if an
    /// edge comes up to it, or if a bit's start before it changes what the node drives. The mark of starts isn't kept. Returns how many.
    fn sample_ahead(&mut self, setup: &NodeSetup, quantum: u64, level: Level, most: u64) -> u64
        requires few { quantum + most < 2 ^ 64 }
        ensures ran { (syncs : List Noted) → StaysOver setup.now quantum result level self.old self.new syncs syncs }
        ensures sample { 0 < result → SamplesOver setup.now quantum result level true self.old }
        ensures none { result ≡ 0 → self.new ≡ self.old }
        ensures few { result ≤ most }
    {
        if !self.drive.is(self.sampled_node.pending) {
            return 0;
        }
        match self.clock.until_sample(level) {
            Some(before) if (before as u64) < most => {
                self.clock.sample(level);
                self.sample(setup, quantum + before as u64, level);
                before as u64 + 1
            }
            _ => 0,
        }
    }

    /// Runs the quanta of this level up to and including a sample, or those that sample nothing and perhaps one more: at least one quantum, and
    /// at most `most`. `quantum` is the number of the first, counted from 0; `setup` is what it was made of.
    pub fn stride(&mut self, setup: &NodeSetup, quantum: u64, level: Level, most: u64) -> Stride
        requires some { 0 < most }
        requires few { quantum + most < 2 ^ 64 }
        ensures ran { (syncs : List GivenNoted)
            → StaysOver setup.now quantum result.quanta level self.old self.new syncs (with_next syncs result.sync) }
        ensures samples { SamplesOver setup.now quantum result.quanta level result.sampled self.old }
        ensures some { 0 < result.quanta }
        ensures few { result.quanta ≤ most }
    {
        let quanta = self.sample_ahead(setup, quantum, level, most);
        if 0 < quanta {
            return Stride {
                quanta,
                sampled: true,
                sync: None,
            };
        }
        let passed = self.skip(level, most);
        if passed == most {
            return Stride {
                quanta: passed,
                sampled: false,
                sync: None,
            };
        }
        let before = self.sampled;
        let sync = self.quantum(setup, quantum + passed, level);
        Stride {
            quanta: passed + 1,
            sampled: self.sampled != before,
            sync,
        }
    }
}
