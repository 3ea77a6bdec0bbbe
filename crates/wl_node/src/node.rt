//! A node, quantum by quantum, which may leave the bus.

ghost use Rattle.std.specs.Prelude.{◌≡◌, ◌≤◌, ◌+◌, List, length};
ghost use Rattle.wl_level.specs.declared.Level.{Level};
ghost use Rattle.wl_node.specs.History.{levels_away, levels_there};
ghost use Rattle.wl_node.specs.Limits.{most_run_quanta};
ghost use Rattle.wl_node.specs.Staying.{IsStaying};

use crate::limits::MOST_QUIET;
use crate::phase_totals::PhaseTotals;
use crate::progress::NodeProgress;
use crate::samples::{SampleList, Samples};
use crate::setup::{NodeSetup, Passed};
use crate::staying_node::StayingNode;
use std::alloc::{AllocError, Global};
use wl_confine::Counters;
use wl_level::{Level, Listed};
use wl_limits::MOST_RUN_QUANTA;

/// A node: its setup, and where the levels that it saw put it, one for each quantum. Its rules are those of the bit clock (Bosch CAN 2.0
/// part B, section 10), the machine (sections 3, 6 and 7) and the counters (section 8).
///
/// A node looks at the line once a quantum. [`Node::quantum`] is one of its quanta. If the owner has to know whether there is memory before
/// anything happens, it calls [`Node::prepare`] and [`Node::run`] in its place. From its quantum `until` on, if it has one, a node has left
/// the bus: it drives recessive and looks no more.
#[derive(Drop)]
pub struct Node {
    pub(crate) staying: StayingNode,
    /// How many quanta it has run since it left.
    pub(crate) away: u64,
    ghost few: { staying.progress.quanta + away ≤ most_run_quanta },
    ghost reached: { ∥ ((levels : List Level) × IsStaying (levels_there staying.setup.until levels) staying
        × (away ≡ length (levels_away staying.setup.until levels))) ∥₁ },
}

/// What a node stored, given up by it.
#[derive(Drop)]
pub struct NodeLists {
    /// Returns the samples, each with its quantum.
    pub samples: SampleList,
    /// The frames that it sent and received, in the order in which they were completed.
    pub frames: Listed<Passed>,
    /// Returns the resynchronising edges: quantum and phase error, in quanta, error 0 too.
    pub phases: Listed<(u64, i16)>,
}

impl Node {
    ghost use Rattle.std.specs.Prelude.{◌≡◌, ◌≤◌, ℕ, ◌+◌, ◌<◌, [], true, false, length, OnOk, OnErr, IfOk};
    ghost use Rattle.wl_node.specs.Extremes.{phase_totals};
    ghost use Rattle.wl_node.specs.History.{is_after, counters_of, phases_of, hards_of, error_count, unsent_count};
    ghost use Rattle.wl_node.specs.Limits.{most_quiet, most_run_quanta};
    ghost use Rattle.wl_node.specs.Quiet.{quiet_of};
    ghost use Rattle.wl_node.specs.Reached.{keeps_lists, node_setup, quanta_of, IsNode, HasRoom, Shows, HasSeen, IsSameNode, StandsFor};
    ghost use Rattle.wl_node.specs.Samples.{samples_of};
    ghost use Rattle.wl_node.specs.Stays.{free_stay, stay_of};

    /// Returns a node of this setup that has run no quantum: it drives recessive. Refused only if memory runs out.
    pub fn new(alloc: Global, setup: NodeSetup) -> Result<Node, AllocError>
        ensures node { IfOk result (λ node. IsNode [] node) }
        ensures setup { IfOk result (λ node. node_setup node ≡ setup) }
        ensures keeps { IfOk result (λ node. keeps_lists node ≡ true) }
    {
        Node::begin(alloc, setup, true)
    }

    /// Returns such a node that lists neither its samples nor its phase errors, and only keeps what a report says of them. It takes less
    /// memory and time. Refused only if memory runs out.
    pub fn counting(alloc: Global, setup: NodeSetup) -> Result<Node, AllocError>
        ensures node { IfOk result (λ node. IsNode [] node) }
        ensures setup { IfOk result (λ node. node_setup node ≡ setup) }
        ensures keeps { IfOk result (λ node. keeps_lists node ≡ false) }
    {
        Node::begin(alloc, setup, false)
    }

    /// Returns such a node that lists its samples and phase errors if `keeps` is true, and otherwise only keeps what a report says of them.
    fn begin(alloc: Global, setup: NodeSetup, keeps: bool) -> Result<Node, AllocError>
        ensures node { IfOk result (λ node. IsNode [] node) }
        ensures setup { IfOk result (λ node. node_setup node ≡ setup) }
        ensures keeps { IfOk result (λ node. keeps_lists node ≡ keeps) }
    {
        let staying = StayingNode::begin(alloc, setup, keeps)?;
        Ok(Node { staying, away: 0 })
    }

    /// Returns what the node was made of. No call changes it.
    pub fn setup(&self) -> &NodeSetup
        ensures { result.now ≡ node_setup self.now }
    {
        &self.staying.setup
    }

    /// Takes the memory that the next quantum needs, so that [`Node::run`] needs none. Refused if memory runs out. Refused or not, the node
    /// is where it was, and every reader answers as before.
    pub fn prepare(&mut self) -> Result<(), AllocError>
        ensures room { OnOk result (HasRoom self.new) }
        ensures node { IsSameNode self.old self.new }
        ensures setup { node_setup self.new ≡ node_setup self.old }
        ensures quanta { quanta_of self.new ≡ quanta_of self.old }
        ensures keeps { keeps_lists self.new ≡ keeps_lists self.old }
    {
        self.staying.prepare()
    }

    /// Takes the memory of this many runs of samples and resynchronising edges more, so that their lists needn't grow so often. A
    /// counting node ([`Node::counting`]) takes none. It decides nothing but speed. Refused if memory runs out. Refused or not, the node is
    /// where it was, and every reader answers as before.
    pub fn reserve(&mut self, runs: usize, edges: usize) -> Result<(), AllocError>
        ensures node { IsSameNode self.old self.new }
        ensures setup { node_setup self.new ≡ node_setup self.old }
        ensures quanta { quanta_of self.new ≡ quanta_of self.old }
        ensures keeps { keeps_lists self.new ≡ keeps_lists self.old }
    {
        self.staying.reserve(runs, edges)
    }

    /// Runs the next quantum, at which the node sees this level. [`Node::prepare`] has made room, and fewer than
    /// [`MOST_RUN_QUANTA`](crate::MOST_RUN_QUANTA) quanta were run.
    ///
    /// The bit clock runs first. If a bit starts, the node drives what its machine wants since its last sample. A sample is stored, or only
    /// counted. It goes to the machine with the mode before it and with the first unsent frame, if that is ready, and then to the counters.
    /// If these make the mode bus off, the machine goes off the bus at once.
    pub fn run(&mut self, level: Level)
        requires room { HasRoom self.old }
        requires short { quanta_of self.old < most_run_quanta }
        ensures node { HasSeen level self.old self.new }
        ensures setup { node_setup self.new ≡ node_setup self.old }
        ensures quanta { quanta_of self.new ≡ quanta_of self.old + 1 }
        ensures keeps { keeps_lists self.new ≡ keeps_lists self.old }
    {
        if self.is_away() {
            self.away += 1;
        } else {
            self.staying.run(level);
        }
    }

    /// Runs the next quantum, at which the node sees this level: [`Node::prepare`], and then [`Node::run`]. Fewer than
    /// [`MOST_RUN_QUANTA`](crate::MOST_RUN_QUANTA) quanta were run before. Refused if memory runs out: then the quantum isn't run, and
    /// every reader answers as before.
    pub fn quantum(&mut self, level: Level) -> Result<(), AllocError>
        requires { quanta_of self.old < most_run_quanta }
        ensures ok { OnOk result (HasSeen level self.old self.new) }
        ensures err { OnErr result (IsSameNode self.old self.new) }
        ensures setup { node_setup self.new ≡ node_setup self.old }
        ensures counted { OnOk result (quanta_of self.new ≡ quanta_of self.old + 1) }
        ensures stays { OnErr result (quanta_of self.new ≡ quanta_of self.old) }
        ensures keeps { keeps_lists self.new ≡ keeps_lists self.old }
    {
        self.prepare()?;
        self.run(level);
        Ok(())
    }

    /// Returns the level that the node drives since its last quantum.
    pub fn drive(&self) -> Level
        ensures { Shows self.now (λ h. result ≡ h.drive) }
    {
        if 0 < self.away {
            return Level::Recessive;
        }
        self.staying.drive()
    }

    /// Returns for how many quanta more the node is sure to keep its drive, whatever levels it sees: at most
    /// [`MOST_QUIET`](crate::MOST_QUIET).
    ///
    /// Between the start of a bit and its sample that is up to the sample. Otherwise it is up to the sample of the next bit if the machine
    /// wants the drive as it is. It is 0 if the machine wants it changed (the lookahead of Chandy and Misra, 1979).
    pub fn quiet(&self) -> u32
        ensures value { (levels : List Level) → IsNode levels self.now
            → result ≡ quiet_of (node_setup self.now) levels }
        ensures most { result ≤ most_quiet }
    {
        if 0 < self.away {
            return MOST_QUIET;
        }
        let quiet = self.staying.quiet();
        match self.staying.setup.until {
            Some(until) if self.staying.progress.drive.is_dominant() => (quiet as u64).min(
                until.saturating_sub(self.staying.progress.quanta),
            ) as u32,
            _ => quiet,
        }
    }

    /// Returns for how many quanta more the node is sure to keep its drive if it sees recessive at each of them: at most
    /// [`MOST_RUN_QUANTA`](crate::MOST_RUN_QUANTA). It takes few instructions in the middle of a frame.
    ///
    /// 0 if it drives dominant or its machine isn't at rest ([`Machine::rest`](wl_machine::Machine::rest)). Otherwise it is at least the
    /// greater of two numbers. The first goes up to and including the quantum at which the next frame is ready; if no frame waits, it is
    /// all that a node may run. The second goes up to the end of the first bit after whose sample the machine may send a ready frame: after
    /// an acknowledged frame, a flag, a delimiter, an intermission, a suspension, a bus off or an integration (Bosch CAN 2.0 part B,
    /// sections 3.2 and 8, rule 12). On a recessive line no edge moves a bit, so each is as long as its segments.
    pub fn stays(&self) -> u64
        ensures value { (levels : List Level) → IsNode levels self.now → result ≡ stay_of (node_setup self.now) levels }
        ensures stands { (m : ℕ) → m ≤ result → StandsFor self.now Level.Recessive m }
        ensures free { Shows self.now (λ h. free_stay (node_setup self.now) h ≤ result) }
        ensures most { result ≤ most_run_quanta }
    {
        crate::laws::drive_laws();
        if 0 < self.away {
            return MOST_RUN_QUANTA;
        }
        self.staying.stays()
    }

    /// Returns the number of quanta that the node has run.
    pub fn quanta(&self) -> u64
        ensures value { result ≡ quanta_of self.now }
        ensures levels { (levels : List Level) → IsNode levels self.now → result ≡ length levels }
    {
        self.staying.progress.quanta + self.away
    }

    /// Returns the samples so far, each with its quantum. The node lends them, which takes no memory. A counting node gives none.
    pub fn samples(&self) -> &Samples
        ensures { keeps_lists self.now ≡ true → Shows self.now (λ h. samples_of result.now ≡ h.samples) }
    {
        &self.staying.progress.traffic.samples
    }

    /// Returns the number of samples, whether the node lists them or only counts them.
    pub fn sample_count(&self) -> u64
        ensures { Shows self.now (λ h. result ≡ length h.samples) }
    {
        self.staying.progress.traffic.samples.count
    }

    /// Returns the frames that the node sent and received, in the order in which they were completed.
    pub fn frames(&self) -> &[Passed]
        ensures { Shows self.now (λ h. result.now ≡ h.frames) }
    {
        &self.staying.progress.traffic.frames
    }

    /// Returns the error counters.
    pub fn counters(&self) -> Counters
        ensures { Shows self.now (λ h. result ≡ counters_of h) }
    {
        self.staying.progress.traffic.counters
    }

    /// Returns the resynchronising edges: quantum and phase error, in quanta, error 0 too. A counting node gives none.
    pub fn phases(&self) -> &[(u64, i16)]
        ensures { keeps_lists self.now ≡ true → Shows self.now (λ h. result.now ≡ phases_of h) }
    {
        &self.staying.progress.syncs.phases
    }

    /// Returns what a report says of these edges, whether the node lists them or not.
    pub fn phase_totals(&self) -> PhaseTotals
        ensures { Shows self.now (λ h. result ≡ phase_totals (phases_of h)) }
    {
        self.staying.progress.syncs.totals
    }

    /// Returns the number of hard synchronisations.
    pub fn hards(&self) -> u64
        ensures { Shows self.now (λ h. result ≡ hards_of h) }
    {
        self.staying.progress.syncs.hards
    }

    /// Returns the number of errors that the node found, those that leave its counters alone too.
    pub fn errors(&self) -> u64
        ensures { Shows self.now (λ h. result ≡ error_count h) }
    {
        self.staying.progress.traffic.errors
    }

    /// Returns the number of frames of the queue that were not sent yet.
    pub fn unsent(&self) -> u64
        ensures { Shows self.now (λ h. result ≡ unsent_count (node_setup self.now) h) }
    {
        self.staying
            .progress
            .traffic
            .unsent
            .frames(&self.staying.setup)
            .len() as u64
    }

    /// True if the node is to leave the bus with its next quantum, or has left it.
    pub(crate) fn is_away(&self) -> bool
        ensures { result ≡ is_after (node_setup self.now).until self.now.staying.progress.quanta }
    {
        match self.staying.setup.until {
            Some(until) => until <= self.staying.progress.quanta,
            None => false,
        }
    }

    /// Returns what the node stored, without a copy. A counting node gives no samples and no phase errors.
    pub fn into_lists(self) -> NodeLists
        ensures samples { keeps_lists self ≡ true → Shows self (λ h. result.samples ≡ h.samples) }
        ensures frames { Shows self (λ h. result.frames ≡ h.frames) }
        ensures phases { keeps_lists self ≡ true → Shows self (λ h. result.phases ≡ phases_of h) }
    {
        let StayingNode { progress, .. } = self.staying;
        let NodeProgress { traffic, syncs, .. } = progress;
        NodeLists {
            samples: traffic.samples.into_list(),
            frames: Listed::from_vec(traffic.frames),
            phases: Listed::from_vec(syncs.phases),
        }
    }
}
