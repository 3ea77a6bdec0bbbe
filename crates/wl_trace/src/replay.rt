//! A node's machine and counters, run again over its samples.
ghost use Rattle.std.specs.Prelude.{◌≡◌, ℕ, true, false, [], ◌++◌, OnOk, IfOk, List};
ghost use Rattle.wl_level.specs.declared.Level.{Level};
ghost use Rattle.wl_machine.specs.Stretch.{Input};
ghost use Rattle.wl_machine.specs.Judged.{stretch_of};
ghost use Rattle.wl_node.specs.declared.setup.NodeSetup.{NodeSetup};
ghost use Rattle.wl_node.specs.History.{history_of, switched_off};
ghost use Rattle.wl_trace.specs.Events.{events_of};
ghost use Rattle.wl_trace.specs.Running.{KeepsStretch};
ghost use Rattle.wl_trace.specs.Notes.{Adds};
ghost use Rattle.wl_trace.specs.Replay.{IsReplay, SampledPast, no_past, past_after, then_events};

use crate::event::Noted;
use crate::notes::Notes;
use crate::sampled_node::{SampledNode, goes_off};
use crate::stretch::RunningStretch;
use std::alloc::{AllocError, Global};
use wl_confine::Mode;
use wl_level::Level;
use wl_node::NodeSetup;

/// What is kept of a node's samples so far, with the running stretch.
#[derive(Drop)]
pub(crate) struct Replay {
    pub(crate) sampled_node: SampledNode,
    pub(crate) stretch: RunningStretch,
}

impl Replay {
    /// Returns what is kept before the first sample.
    pub(crate) fn new(alloc: Global, setup: &NodeSetup) -> Result<Replay, AllocError>
        ensures { IfOk result (λ replay. IsReplay setup.now replay no_past) }
    {
        Ok(Replay {
            sampled_node: SampledNode::new(alloc, setup)?,
            stretch: RunningStretch::new(alloc),
        })
    }

    /// Takes the sample at which `notes` is, of this level.
    pub(crate) fn sample(
        &mut self,
        setup: &NodeSetup,
        level: Level,
        notes: &mut Notes,
    ) -> Result<(), AllocError>
        ensures past { (p : SampledPast) → IsReplay setup.now self.old p
            → OnOk result (IsReplay setup.now self.new (past_after setup.now p (notes.old.quantum, level))) }
        ensures notes { (p : SampledPast) → IsReplay setup.now self.old p
            → OnOk result (Adds notes.old notes.new (then_events setup.now p notes.old.quantum level)) }
    {
        if self.keep(level)? {
            return Ok(());
        }
        self.judge(setup, level, notes)
    }

    /// Takes a sample of this level if nothing comes of it but that the running stretch has it: nothing is noted then. Returns whether it did.
    fn keep(&mut self, level: Level) -> Result<bool, AllocError>
        ensures past { IfOk result (λ kept. kept ≡ true → (setup : NodeSetup) (p : SampledPast) (quantum : ℕ)
            → IsReplay setup self.old p → IsReplay setup self.new (past_after setup p (quantum, level))) }
        ensures none { IfOk result (λ kept. kept ≡ true → (setup : NodeSetup) (p : SampledPast) (quantum : ℕ)
            → IsReplay setup self.old p → then_events setup p quantum level ≡ []) }
        ensures same { IfOk result (λ kept. kept ≡ false → (setup : NodeSetup) (p : SampledPast)
            → IsReplay setup self.old p → IsReplay setup self.new p) }
    {
        if !self.sampled_node.keep(level) {
            return Ok(false);
        }
        self.stretch.take(level)?;
        Ok(true)
    }

    /// Takes such a sample, whatever comes of it.
    fn judge(
        &mut self,
        setup: &NodeSetup,
        level: Level,
        notes: &mut Notes,
    ) -> Result<(), AllocError>
        ensures past { (p : SampledPast) → IsReplay setup.now self.old p
            → OnOk result (IsReplay setup.now self.new (past_after setup.now p (notes.old.quantum, level))) }
        ensures notes { (p : SampledPast) → IsReplay setup.now self.old p
            → OnOk result (Adds notes.old notes.new (then_events setup.now p notes.old.quantum level)) }
    {
        wl_machine::laws::a_sent_frame_is_the_head_that_began_its_stretch();
        let old = self.sampled_node.counters;
        let mode = old.mode();
        let head = self.sampled_node.next_head(setup, notes.quantum, level);
        let given = head.as_ref();
        let turn = self.sampled_node.sample(setup, level, given);
        let new = self.sampled_node.counters;
        let next = self.stretch.next(level, given, mode, turn.happened);
        notes.push_sample(
            &self.stretch,
            level,
            turn.happened,
            turn.done,
            next,
            old,
            new,
        )?;
        self.stretch.step(&next, level)?;
        self.switch_off(mode, new.mode());
        Ok(())
    }

    /// Ends the stretch if a sample made the mode bus off.
    fn switch_off(&mut self, before: Mode, after: Mode)
        ensures stretch { (past : List Input) → KeepsStretch self.old.stretch (stretch_of past)
            → KeepsStretch self.new.stretch (stretch_of (past ++ switched_off before after)) }
        ensures sampled_node { self.new.sampled_node ≡ self.old.sampled_node }
    {
        if goes_off(before, after) {
            self.stretch.switch_off();
        }
    }
}

/// Returns the events of a node of this setup, from its samples, each with its quantum. Refused only if memory runs out.
pub fn node_events(
    alloc: Global,
    setup: &NodeSetup,
    samples: &[(u64, Level)],
) -> Result<Vec<Noted>, AllocError>
    ensures { IfOk result (λ events. (levels : List Level) → samples.now ≡ (history_of setup.now levels).samples
        → events.items ≡ events_of setup.now levels) }
{
    let mut replay = Replay::new(alloc, setup)?;
    let mut notes = Notes {
        quantum: 0,
        bit: 0,
        events: Vec::new(alloc),
    };
    for bit in 0..samples.len() {
        let (quantum, level) = samples[bit];
        notes.quantum = quantum;
        notes.bit = bit as u64;
        replay.sample(setup, level, &mut notes)?;
    }
    Ok(notes.events)
}
