//! One quantum of a node.

ghost use Rattle.std.specs.Prelude.{◌≡◌, ◌+◌, ◌<◌, ◌≤◌, [], length, OnOk, IfOk, vec_len, vec_capacity};
ghost use Rattle.wl_node.specs.declared.setup.NodeSetup.{NodeSetup};
ghost use Rattle.wl_node.specs.History.{History, by_beat, seen_next};
ghost use Rattle.wl_node.specs.Kept.{FitsHistory, FitsQuanta, IsTraffic, IsRoomy, IsProgress, IsSameProgress, HasProgressed, KeepsCounts};
ghost use Rattle.wl_node.specs.Limits.{most_run_quanta};

use crate::integration::integrates;
use crate::phase_totals::PhaseTotals;
use crate::samples::Samples;
use crate::setup::NodeSetup;
use crate::syncs::Syncs;
use crate::traffic::Traffic;
use crate::unsent::Unsent;
use std::alloc::{AllocError, Global};
use wl_confine::Counters;
use wl_level::Level;
use wl_machine::Machine;
use wl_sync::{Beat, BitClock, Seen};

/// What a node keeps beside its setup.
#[derive(Drop)]
pub struct NodeProgress {
    pub clock: BitClock,
    pub drive: Level,
    pub quanta: u64,
    pub syncs: Syncs,
    pub traffic: Traffic,
}

/// For how many samples, frames and phase errors there is room at first.
const FIRST_ROOM: usize = 8;

impl NodeProgress {
    /// Returns what a node keeps before the first quantum: it drives recessive. It lists its samples and phase errors if `keeps` is true, and
    /// otherwise only keeps what a report says of them.
    pub fn new(alloc: Global, setup: &NodeSetup, keeps: bool) -> Result<NodeProgress, AllocError>
        ensures place { IfOk result (λ kept. IsProgress setup.now kept []) }
        ensures fits { IfOk result FitsQuanta }
        ensures keeps { IfOk result (λ kept. kept.traffic.samples.keeps ≡ keeps) }
    {
        let segments = setup.segments;
        Ok(NodeProgress {
            clock: BitClock::new(segments),
            drive: Level::Recessive,
            quanta: 0,
            syncs: Syncs {
                keeps,
                phases: Vec::with_capacity(alloc, first_room(keeps))?,
                totals: PhaseTotals::none(),
                hards: 0,
            },
            traffic: Traffic {
                machine: Machine::new(),
                counters: Counters::new(),
                pending: Level::Recessive,
                unsent: Unsent::new(alloc, setup)?,
                errors: 0,
                samples: Samples::new(
                    alloc,
                    segments.bit_quanta() as u16,
                    first_room(keeps),
                    keeps,
                )?,
                frames: Vec::with_capacity(alloc, FIRST_ROOM)?,
            },
        })
    }

    /// Makes room for what the next quantum stores.
    pub fn prepare(&mut self) -> Result<(), AllocError>
        requires fits { FitsQuanta self.old }
        ensures room { OnOk result (IsRoomy self.new) }
        ensures same { IsSameProgress self.old self.new }
        ensures keeps { KeepsCounts 0 self.old self.new }
    {
        self.syncs.prepare()?;
        self.traffic.prepare()
    }

    /// Makes room for this many runs of samples and resynchronising edges more.
    pub fn reserve(&mut self, runs: usize, edges: usize) -> Result<(), AllocError>
        requires fits { FitsQuanta self.old }
        ensures same { IsSameProgress self.old self.new }
        ensures keeps { KeepsCounts 0 self.old self.new }
    {
        self.syncs.reserve(edges)?;
        self.traffic.reserve(runs)
    }

    /// Runs the next quantum, at which the node sees this level: first the bit clock, and then what its beat asks for.
    pub fn run(&mut self, setup: &NodeSetup, level: Level)
        requires room { IsRoomy self.old }
        requires short { self.old.quanta < most_run_quanta }
        requires fits { FitsQuanta self.old }
        ensures place { HasProgressed setup.now level self.old self.new }
        ensures keeps { KeepsCounts 1 self.old self.new }
    {
        let seen = self.sees(level);
        let (beat, sync) = self.clock.see(seen);
        self.syncs.note(self.quanta, sync);
        obey(
            &mut self.drive,
            &mut self.traffic,
            setup,
            self.quanta,
            beat,
            level,
        );
        self.quanta += 1;
    }

    /// Returns what the bit clock sees at the next quantum, if the line has this level then.
    #[inline(always)]
    pub fn sees(&self, level: Level) -> Seen
        ensures { (setup : NodeSetup) (h : History) → FitsHistory setup self.now h → result ≡ seen_next h level }
    {
        Seen {
            level,
            idle: self.traffic.machine.idle(),
            awaits: self.traffic.machine.awaits_start(),
            integrates: integrates(&self.traffic.machine),
            driving: self.drive.is_dominant(),
        }
    }
}

/// Returns for how many runs of samples and phase errors there is room at first. A node that doesn't list them takes none up.
fn first_room(keeps: bool) -> usize
    ensures { 0 < result }
{
    if keeps { FIRST_ROOM } else { 1 }
}

/// Does what a quantum does by its beat: if a bit starts, the node drives what its machine wants since its last sample.
fn obey(
    drive: &mut Level,
    traffic: &mut Traffic,
    setup: &NodeSetup,
    quantum: u64,
    beat: Beat,
    level: Level,
)
    requires samples { vec_len traffic.old.samples.runs < vec_capacity traffic.old.samples.runs }
    requires frames { vec_len traffic.old.frames < vec_capacity traffic.old.frames }
    requires early { quantum < most_run_quanta }
    requires few { traffic.old.samples.count ≤ quantum }
    requires fits { traffic.old.errors < most_run_quanta }
    ensures drive { (h : History) → drive.old ≡ h.drive → IsTraffic setup.now traffic.old h
        → drive.new ≡ (by_beat setup.now h level beat).drive }
    ensures traffic { (h : History) → length h.seen ≡ quantum → IsTraffic setup.now traffic.old h
        → IsTraffic setup.now traffic.new (by_beat setup.now h level beat) }
    ensures errors { traffic.new.errors ≤ traffic.old.errors + 1 }
    ensures count { traffic.new.samples.count ≤ traffic.old.samples.count + 1 }
    ensures keeps { traffic.new.samples.keeps ≡ traffic.old.samples.keeps }
{
    match beat {
        Beat::Plain => {}
        Beat::Start => *drive = traffic.pending,
        Beat::Sample(_) => traffic.sample(setup, quantum, level),
    }
}
