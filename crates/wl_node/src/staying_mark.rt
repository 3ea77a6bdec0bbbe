//! A mark of where a node on the bus is, and the ways back and on to it.

ghost use Rattle.std.specs.Prelude.{◌≡◌, ◌+◌, ◌≤◌, take, count_by};
ghost use Rattle.wl_node.specs.Queues.{is_sent};
ghost use Rattle.wl_node.specs.Unsent.{IsUnsent};

use crate::phase_totals::PhaseTotals;
use crate::setup::{NodeSetup, Passed, QueueOrder};
use crate::staying_node::StayingNode;
use crate::unsent::Unsent;
use wl_confine::Counters;
use wl_level::Level;
use wl_machine::Machine;
use wl_sync::BitClock;

/// Where a node was: what it keeps beside its lists, and how many samples and frames it had stored.
#[derive(Drop)]
pub struct StayingMark {
    pub(crate) clock: BitClock,
    pub(crate) drive: Level,
    pub(crate) quanta: u64,
    pub(crate) hards: u64,
    pub(crate) totals: PhaseTotals,
    pub(crate) machine: Machine,
    pub(crate) counters: Counters,
    pub(crate) pending: Level,
    pub(crate) sent: usize,
    pub(crate) place: usize,
    pub(crate) errors: u64,
    pub(crate) samples: u64,
    pub(crate) frames: usize,
    ghost few_syncs: { hards + totals.count ≤ quanta },
    ghost few_errors: { errors ≤ quanta },
    ghost few_samples: { samples ≤ quanta },
}

impl StayingNode {
    ghost use Rattle.std.specs.Prelude.{◌≡◌, ◌++◌, List, true, false};
    ghost use Rattle.wl_level.specs.declared.Level.{Level};
    ghost use Rattle.wl_node.specs.Marks.{HasStayed, IsStayingMark, StaysAhead};
    ghost use Rattle.wl_node.specs.History.{staying_history};
    ghost use Rattle.wl_node.specs.Staying.{IsStaying};

    /// Returns a mark of where the node is.
    pub fn keep(&self) -> StayingMark
        ensures mark { (levels : List Level) → IsStaying levels self.now → IsStayingMark self.now.setup levels result }
        ensures quanta { result.quanta ≡ self.now.progress.quanta }
    {
        let traffic = &self.progress.traffic;
        StayingMark {
            clock: self.progress.clock,
            drive: self.progress.drive,
            quanta: self.progress.quanta,
            hards: self.progress.syncs.hards,
            totals: self.progress.syncs.totals,
            machine: traffic.machine.copy(),
            counters: traffic.counters,
            pending: traffic.pending,
            sent: traffic.unsent.sent,
            place: traffic.unsent.place,
            errors: traffic.errors,
            samples: traffic.samples.count,
            frames: traffic.frames.len(),
        }
    }

    /// Puts the node back to where it was at a mark.
    pub fn back(&mut self, mark: &StayingMark)
        requires { HasStayed mark.now self.old }
        ensures node { (levels more : List Level) → IsStayingMark self.old.setup levels mark.now
            → IsStaying (levels ++ more) self.old → IsStaying levels self.new }
        ensures setup { self.new.setup ≡ self.old.setup }
        ensures quanta { self.new.progress.quanta ≡ mark.now.quanta }
        ensures keeps { self.new.progress.traffic.samples.keeps ≡ self.old.progress.traffic.samples.keeps }
    {
        self.progress.back(&self.setup, mark);
    }

    /// Takes the node on to a mark of a place after it, and returns true, if it stored nothing on the way there. Else it stays as it is, and
    /// the answer is false.
    pub fn forth(&mut self, mark: &StayingMark) -> bool
        requires { StaysAhead mark.now self.old }
        ensures node { result ≡ true → (levels more : List Level) → IsStaying levels self.old
            → IsStayingMark self.old.setup (levels ++ more) mark.now → IsStaying (levels ++ more) self.new }
        ensures setup { self.new.setup ≡ self.old.setup }
        ensures quanta { result ≡ true → self.new.progress.quanta ≡ mark.now.quanta }
        ensures keeps { self.new.progress.traffic.samples.keeps ≡ self.old.progress.traffic.samples.keeps }
        ensures same { result ≡ false → self.new ≡ self.old }
        ensures goes { self.old.progress.traffic.samples.keeps ≡ false → (levels more : List Level)
            → IsStaying levels self.old → IsStayingMark self.old.setup (levels ++ more) mark.now
            → (staying_history self.old.setup (levels ++ more)).frames ≡ (staying_history self.old.setup levels).frames
            → result ≡ true }
    {
        let traffic = &self.progress.traffic;
        if traffic.samples.keeps || traffic.frames.len() != mark.frames {
            return false;
        }
        self.progress.forth(mark);
        true
    }
}

impl crate::progress::NodeProgress {
    ghost use Rattle.std.specs.Prelude.{◌≡◌, ◌+◌, ◌++◌, ◌≤◌, List, false, vec_len};
    ghost use Rattle.wl_level.specs.declared.Level.{Level};
    ghost use Rattle.wl_node.specs.declared.setup.NodeSetup.{NodeSetup};
    ghost use Rattle.wl_node.specs.Kept.{FitsQuanta, IsProgress};
    ghost use Rattle.wl_node.specs.Marks.{IsStayingMark};

    /// Puts a node's progress back to a mark.
    fn back(&mut self, setup: &NodeSetup, mark: &StayingMark)
        ensures place { (levels more : List Level) → IsStayingMark setup.now levels mark.now
            → IsProgress setup.now self.old (levels ++ more) → IsProgress setup.now self.new levels }
        ensures quanta { self.new.quanta ≡ mark.now.quanta }
        ensures fits { FitsQuanta self.new }
        ensures keeps { self.new.traffic.samples.keeps ≡ self.old.traffic.samples.keeps }
    {
        self.clock = mark.clock;
        self.drive = mark.drive;
        self.quanta = mark.quanta;
        self.syncs.hards = mark.hards;
        self.syncs.totals = mark.totals;
        self.syncs.phases.truncate(mark.totals.count as usize);
        self.traffic.machine = mark.machine.copy();
        self.traffic.counters = mark.counters;
        self.traffic.pending = mark.pending;
        self.traffic.errors = mark.errors;
        self.traffic.samples.truncate(mark.samples);
        unpass(
            &mut self.traffic.frames,
            &mut self.traffic.unsent,
            setup,
            mark,
        );
    }

    /// Takes the progress of a node that lists neither samples nor phase errors on to a mark up to which no frame came to its end.
    fn forth(&mut self, mark: &StayingMark)
        requires counts { self.old.traffic.samples.keeps ≡ false }
        requires frames { vec_len self.old.traffic.frames ≡ mark.now.frames }
        ensures place { (setup : NodeSetup) (levels more : List Level) → IsStayingMark setup (levels ++ more) mark.now
            → IsProgress setup self.old levels → IsProgress setup self.new (levels ++ more) }
        ensures quanta { self.new.quanta ≡ mark.now.quanta }
        ensures fits { FitsQuanta self.new }
        ensures keeps { self.new.traffic.samples.keeps ≡ self.old.traffic.samples.keeps }
    {
        self.clock = mark.clock;
        self.drive = mark.drive;
        self.quanta = mark.quanta;
        self.syncs.hards = mark.hards;
        self.syncs.totals = mark.totals;
        let traffic = &mut self.traffic;
        traffic.machine = mark.machine.copy();
        traffic.counters = mark.counters;
        traffic.pending = mark.pending;
        traffic.unsent.place = mark.place;
        traffic.errors = mark.errors;
        traffic.samples.recount(mark.samples);
    }
}

/// Drops the frames that passed since a mark. Those of them that were sent are not sent any more.
fn unpass(frames: &mut Vec<Passed>, unsent: &mut Unsent, setup: &NodeSetup, mark: &StayingMark)
    ensures frames { frames.new.items ≡ take mark.now.frames frames.old.items }
    ensures unsent { IsUnsent setup.now unsent.old frames.old.items
        → (setup.now.order ≡ QueueOrder.Fifo → mark.now.sent ≡ count_by is_sent (take mark.now.frames frames.old.items))
        → IsUnsent setup.now unsent.new (take mark.now.frames frames.old.items) }
    ensures place { unsent.new.place ≡ mark.now.place }
{
    unsent.place = mark.place;
    if frames.len() <= mark.frames {
        return;
    }
    frames.truncate(mark.frames);
    unsent.back(setup, mark.sent, frames.as_slice());
}
