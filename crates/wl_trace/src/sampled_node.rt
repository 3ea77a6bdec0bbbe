//! The machine of a node, its error counters and its queue, sample by sample.
ghost use Rattle.std.specs.Prelude.{◌≡◌, ℕ, true, false, [], ◌∷◌, IfOk, if◌then◌else◌, ◌++◌, List};
ghost use Rattle.std.specs.Option.{option_copied};
ghost use Rattle.wl_confine.specs.declared.Happened.{Happened};
ghost use Rattle.wl_machine.specs.Stretch.{Ended, Input, continues};
ghost use Rattle.wl_machine.specs.Stretch.Input.{SwitchedOff};
ghost use Rattle.wl_machine.specs.Doing.{doing_of};
ghost use Rattle.wl_machine.specs.States.{done_of};
ghost use Rattle.wl_machine.specs.Judged.{drive_of, stretch_of};
ghost use Rattle.wl_machine.specs.Reached.{IsMachine};
ghost use Rattle.wl_node.specs.declared.setup.NodeSetup.{NodeSetup};
ghost use Rattle.wl_node.specs.declared.setup.Passed.{Passed};
ghost use Rattle.wl_node.specs.History.{handed, passed_frames, switched_off};
ghost use Rattle.wl_node.specs.Queues.{unsent_by};
ghost use Rattle.wl_node.specs.Unsent.{IsChosen, IsUnsent};
ghost use Rattle.wl_frame.specs.Grammar.{Content};
ghost use Rattle.wl_machine.specs.Stretch.Ended.{Sent as SentFrame};
ghost use Rattle.wl_trace.specs.Events.{lost_events};
ghost use Rattle.wl_trace.specs.Replay.{IsGiven, IsSampledNode, SampledPast, judged_then, no_past, past_after};
ghost use Rattle.wl_confine.specs.Counts.{counts_after};

use std::alloc::{AllocError, Global};
use wl_confine::{Counters, Mode};
use wl_frame::frame::Frame;
use wl_level::Level;
use wl_machine::{Doing, Done, Machine, Turn};
use wl_node::{NodeSetup, Unsent};
use wl_segments::SyncRules;

/// A node as its samples leave it: machine, error counters and queue (Bosch CAN 2.0 part B, sections 3, 6 and 8). It knows no ticks. Only
/// its begin takes memory.
#[derive(Drop)]
pub struct SampledNode {
    pub(crate) machine: Machine,
    pub(crate) counters: Counters,
    /// What the node drives from its next bit start on.
    pub(crate) pending: Level,
    pub(crate) unsent: Unsent,
}

/// Returns the head that is handed to the machine with a sample of this level. By the book alone it is handed with a dominant sample too,
/// which may be its start of frame (Bosch CAN 2.0 part B, section 3.2.5).
fn handed(setup: &NodeSetup, level: Level, head: Option<Frame>) -> Option<Frame>
    ensures { result ≡ handed level setup.now.segments.sync head }
{
    if level.is_dominant() && setup.segments.sync() == SyncRules::After {
        return None;
    }
    head
}

/// Takes the frame out that a sample completed, if it was sent.
fn pass(unsent: &mut Unsent, setup: &NodeSetup, done: Done)
    ensures { (ended : Ended) (past : List Passed) (quantum : ℕ) → done ≡ done_of ended
        → IsUnsent setup.now unsent.old past
        → ((frame : Content) → ended ≡ SentFrame frame
        → IsChosen setup.now.order (unsent_by setup.now.order setup.now.queue past) frame unsent.old.place)
        → IsUnsent setup.now unsent.new (past ++ passed_frames quantum ended) × (unsent.new.place ≡ unsent.old.place) }
{
    match done {
        Done::Sent => {
            let _ = unsent.send(setup);
        }
        _ => {}
    }
}

/// True if the mode turned to bus off with this sample.
pub(crate) fn goes_off(before: Mode, after: Mode) -> bool
    ensures { switched_off before after ≡ (if result then SwitchedOff ∷ [] else []) }
{
    match (before, after) {
        (Mode::Off, _) => false,
        (_, Mode::Off) => true,
        _ => false,
    }
}

impl SampledNode {
    /// Returns a node of this setup before its first sample. Refused only if memory runs out.
    pub fn new(alloc: Global, setup: &NodeSetup) -> Result<SampledNode, AllocError>
        ensures { IfOk result (λ kept. IsSampledNode setup.now kept no_past) }
    {
        Ok(SampledNode {
            machine: Machine::new(),
            counters: Counters::new(),
            pending: Level::Recessive,
            unsent: Unsent::new(alloc, setup)?,
        })
    }

    /// Takes the sample of this quantum, which has this level, and returns what the node does after it; `setup` is the node's.
    pub fn take(&mut self, setup: &NodeSetup, quantum: u64, level: Level) -> Doing
        ensures past { (p : SampledPast) → IsSampledNode setup.now self.old p
            → IsSampledNode setup.now self.new (past_after setup.now p (quantum, level)) }
        ensures doing { (p : SampledPast) → IsSampledNode setup.now self.old p
            → result ≡ doing_of (stretch_of (past_after setup.now p (quantum, level)).inputs) }
    {
        self.sample_at(setup, quantum, level);
        self.machine.doing()
    }

    /// Takes the sample of this quantum, which has this level; `setup` is the node's.
    pub(crate) fn sample_at(&mut self, setup: &NodeSetup, quantum: u64, level: Level)
        ensures { (p : SampledPast) → IsSampledNode setup.now self.old p
            → IsSampledNode setup.now self.new (past_after setup.now p (quantum, level)) }
    {
        if self.keep(level) {
            return;
        }
        let head = self.next_head(setup, quantum, level);
        let _ = self.sample(setup, level, head.as_ref());
    }

    /// Takes a sample of this level if nothing comes of it but that the machine has it; else returns false, and nothing changes.
    pub(crate) fn keep(&mut self, level: Level) -> bool
        ensures past { result ≡ true → (setup : NodeSetup) (p : SampledPast) (quantum : ℕ)
            → IsSampledNode setup self.old p → IsSampledNode setup self.new (past_after setup p (quantum, level)) }
        ensures judged { result ≡ true → (setup : NodeSetup) (p : SampledPast) (quantum : ℕ)
            → IsSampledNode setup self.old p → judged_then setup p quantum level ≡ continues Happened.Nothing }
        ensures lost { result ≡ true → (setup : NodeSetup) (p : SampledPast) → IsSampledNode setup self.old p
            → lost_events (stretch_of p.inputs) level ≡ [] }
        ensures same { result ≡ false → (setup : NodeSetup) (p : SampledPast) → IsSampledNode setup self.old p
            → IsSampledNode setup self.new p }
    {
        self.machine.keep(level)
    }

    /// Returns the head that is handed to the machine with a sample of this level at this quantum, if the machine looks at it, and notes its
    /// place.
    pub(crate) fn next_head(
        &mut self,
        setup: &NodeSetup,
        quantum: u64,
        level: Level,
    ) -> Option<Frame>
        ensures node { (p : SampledPast) → IsSampledNode setup.now self.old p → IsSampledNode setup.now self.new p }
        ensures given { (p : SampledPast) → IsSampledNode setup.now self.old p
            → IsGiven setup.now self.new p quantum level result }
        ensures counters { self.new.counters ≡ self.old.counters }
    {
        if !wl_node::looks_at_head(self.machine.doing()) {
            return None;
        }
        let head = self.unsent.choose(setup, quantum);
        handed(setup, level, head)
    }

    /// Takes a sample of this level, with this frame to be sent next, and returns what it did.
    pub(crate) fn sample(&mut self, setup: &NodeSetup, level: Level, head: Option<&Frame>) -> Turn
        ensures past { (p : SampledPast) (quantum : ℕ)
            → IsGiven setup.now self.old p quantum level (option_copied head.entry)
            → IsSampledNode setup.now self.old p
            → IsSampledNode setup.now self.new (past_after setup.now p (quantum, level)) }
        ensures happened { (p : SampledPast) (quantum : ℕ)
            → IsGiven setup.now self.old p quantum level (option_copied head.entry)
            → IsSampledNode setup.now self.old p → result.happened ≡ (judged_then setup.now p quantum level).happened }
        ensures done { (p : SampledPast) (quantum : ℕ)
            → IsGiven setup.now self.old p quantum level (option_copied head.entry)
            → IsSampledNode setup.now self.old p → result.done ≡ done_of (judged_then setup.now p quantum level).ended }
        ensures counters { self.new.counters ≡ counts_after self.old.counters result.happened }
    {
        wl_machine::laws::a_sent_frame_is_the_head_that_began_its_stretch();
        let mode = self.counters.mode();
        let turn = self.machine.bit(level, head, mode);
        self.pending = turn.drive;
        self.counters.apply(turn.happened);
        pass(&mut self.unsent, setup, turn.done);
        let after = self.counters.mode();
        self.switch_off(mode, after);
        turn
    }

    /// Takes the machine off the bus if a sample made the mode bus off.
    fn switch_off(&mut self, before: Mode, after: Mode)
        ensures machine { (past : List Input) → IsMachine self.old.machine past
            → IsMachine self.new.machine (past ++ switched_off before after) }
        ensures pending { (past : List Input) → self.old.pending ≡ drive_of (stretch_of past)
            → self.new.pending ≡ drive_of (stretch_of (past ++ switched_off before after)) }
        ensures counters { self.new.counters ≡ self.old.counters }
        ensures unsent { self.new.unsent ≡ self.old.unsent }
    {
        if goes_off(before, after) {
            self.machine.bus_off();
            self.pending = Level::Recessive;
        }
    }
}
