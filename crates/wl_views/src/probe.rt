//! A probe of a node: the node runs again beside the line at its place. Only its begin takes memory.
ghost use Rattle.std.specs.Prelude.{◌≡◌, ℕ, ◌||◌, ◌+◌, ◌-◌, ◌<◌, ◌≤◌, IfOk, List, length};
ghost use Rattle.wl_level.specs.declared.Level.{Level};
ghost use Rattle.wl_level.specs.Levels.{level_of};
ghost use Rattle.wl_topology.specs.Limits.{longest_delay};
ghost use Rattle.wl_node.specs.declared.setup.NodeSetup.{NodeSetup};
ghost use Rattle.wl_node.specs.Limits.{most_run_quanta};
ghost use Rattle.wl_plan.specs.declared.plan.Plan.{Plan};
ghost use Rattle.wl_plan.specs.Limits.{latest_end};
ghost use Rattle.wl_plan.specs.Line.{found};
ghost use Rattle.wl_plan.specs.PlanLine.{line_of};
ghost use Rattle.wl_plan.specs.Simulation.{level};
ghost use Rattle.wl_serial.specs.Outcome.{drives_of, outcome_of};
ghost use Rattle.wl_trace.specs.Rerun.{IsRerun};
ghost use Rattle.wl_trace.specs.Snapshot.{snapshot_of};
ghost use Rattle.wl_views.specs.PlaceLine.{Hears, Remembers, heard_until};
ghost use Rattle.wl_views.specs.Probe.{Awaits, IsLimit, SawUpTo, Watches, next_of, signals_by};

use crate::place_line::PlaceLine;
use crate::signals::NodeSignals;
use std::alloc::{AllocError, Global};
use wl_clock::Clock;
use wl_level::Level;
use wl_plan::CheckedPlan;
use wl_serial::Drives;
use wl_trace::{NodeSnapshot, Rerun};

/// A probe of a node: its signals at a tick, and up to which tick they stay.
#[derive(Drop)]
pub(crate) struct Probe {
    /// What is known of the line at its place.
    pub(crate) line: PlaceLine,
    /// The node after the quanta that it has seen.
    pub(crate) node: Rerun,
    /// What a waveform shows of it.
    pub(crate) snapshot: NodeSnapshot,
    /// How many quanta the node has seen.
    pub(crate) quanta: u64,
    /// The tick of its next quantum before the end, and the last of all ticks if there is none.
    pub(crate) next: u64,
    /// How many quanta begin before the line changes, and before the end.
    pub(crate) limit: u64,
    /// Up to which tick the signals stay.
    pub(crate) until: u64,
}

/// Returns the level of a line that is dominant, or isn't.
pub(crate) fn level_of(dominant: bool) -> Level
    ensures { result ≡ level_of dominant }
{
    if dominant {
        Level::Dominant
    } else {
        Level::Recessive
    }
}

/// Returns the tick of this quantum if it is before the end, and else the last of all ticks.
fn next_tick(clock: &Clock, end: u64, quantum: u64) -> u64
    requires { quantum ≤ most_run_quanta }
    ensures { result ≡ next_of clock.now end quantum }
{
    let next = clock.at(quantum);
    if next < end { next } else { u64::MAX }
}

impl Probe {
    /// Returns the probe of node `i`, before its first quantum. Refused only if memory runs out.
    pub(crate) fn new(alloc: Global, plan: &CheckedPlan, i: usize) -> Result<Probe, AllocError>
        requires node { i < length plan.now.nodes }
        ensures remembers { IfOk result (λ probe. Remembers plan.now i 0 probe.line) }
        ensures awaits { IfOk result (λ probe. Awaits plan.now i 0 probe) }
        ensures limit { IfOk result (λ probe. probe.limit ≡ 0) }
    {
        let (setup, end) = (&plan.nodes.as_slice()[i], plan.end);
        let node = Rerun::new(alloc, setup)?;
        let snapshot = node.snapshot();
        Ok(Probe {
            line: PlaceLine::new(),
            node,
            snapshot,
            quanta: 0,
            next: next_tick(&setup.clock, end, 0),
            limit: 0,
            until: 0,
        })
    }

    /// Returns the signals.
    pub(crate) fn signals(&self) -> NodeSignals
        ensures { result
            ≡ signals_by self.now.snapshot self.now.line.cable.dominant self.now.line.disturbance.dominant }
    {
        let snapshot = self.snapshot;
        NodeSignals {
            tx: !snapshot.drive.is_dominant(),
            rx: !(self.line.cable.dominant || self.line.disturbance.dominant),
            cable: !self.line.cable.dominant,
            disturbance: self.line.disturbance.dominant,
            sample: snapshot.sampled,
            start: snapshot.started,
            state: snapshot.state,
        }
    }

    /// Goes on to tick `t`.
    pub(crate) fn go(&mut self, plan: &CheckedPlan, drives: &Drives, i: usize, t: u64)
        requires drives { drives.now ≡ drives_of (outcome_of plan.now) }
        requires node { i < length plan.now.nodes }
        requires early { t ≤ latest_end }
        requires remembers { Remembers plan.now i t self.old.line }
        requires limit { t < heard_until self.old.line → IsLimit plan.now i self.old }
        requires awaits { Awaits plan.now i t self.old }
        ensures { Watches plan.now i t self.new }
    {
        self.listen(plan, drives, i, t);
        self.see(plan, i, t);
        self.pass(plan, i, t);
    }

    /// Goes on from tick 0 to tick `t`, by way of the ticks at which its signals may change.
    pub(crate) fn follow(&mut self, plan: &CheckedPlan, drives: &Drives, i: usize, t: u64)
        requires drives { drives.now ≡ drives_of (outcome_of plan.now) }
        requires node { i < length plan.now.nodes }
        requires early { t ≤ latest_end }
        requires watches { Watches plan.now i 0 self.old }
        ensures { Watches plan.now i t self.new }
    {
        plan.laws();
        wl_plan::simulation_laws();
        while self.until <= t {
            let until = self.until;
            self.go(plan, drives, i, until);
        }
    }

    /// Asks again what the line is if that has run out at tick `t`.
    fn listen(&mut self, plan: &CheckedPlan, drives: &Drives, i: usize, t: u64)
        requires drives { drives.now ≡ drives_of (outcome_of plan.now) }
        requires node { i < length plan.now.nodes }
        requires early { t ≤ latest_end }
        requires remembers { Remembers plan.now i t self.old.line }
        requires limit { t < heard_until self.old.line → IsLimit plan.now i self.old }
        ensures hears { Hears plan.now i t self.new.line }
        ensures limit { IsLimit plan.now i self.new }
        ensures awaits { Awaits plan.now i t self.old → Awaits plan.now i t self.new }
    {
        plan.laws();
        if t < self.line.found().until {
            return;
        }
        self.line.hear(plan, drives, i, t);
        let (clock, end) = (&plan.nodes.as_slice()[i].clock, plan.end);
        self.limit = clock.first_not_before(self.line.found().until.min(end));
    }

    /// Sees the quantum of tick `t`, if one begins then.
    fn see(&mut self, plan: &CheckedPlan, i: usize, t: u64)
        requires node { i < length plan.now.nodes }
        requires early { t ≤ latest_end }
        requires hears { Hears plan.now i t self.old.line }
        requires awaits { Awaits plan.now i t self.old }
        ensures seen { SawUpTo plan.now i t self.new }
        ensures line { self.new.line ≡ self.old.line }
        ensures limit { self.new.limit ≡ self.old.limit }
    {
        plan.laws();
        wl_plan::simulation_laws();
        if self.next != t {
            return;
        }
        let setup = &plan.nodes.as_slice()[i];
        let level = level_of(self.line.found().dominant);
        let _ = self.node.quantum(setup, self.quanta, level);
        self.snapshot = self.node.snapshot();
        self.quanta += 1;
    }

    /// Sees the quanta after tick `t` that neither sample nor begin a bit, as long as the line stays.
    fn pass(&mut self, plan: &CheckedPlan, i: usize, t: u64)
        requires node { i < length plan.now.nodes }
        requires early { t ≤ latest_end }
        requires hears { Hears plan.now i t self.old.line }
        requires limit { IsLimit plan.now i self.old }
        requires seen { SawUpTo plan.now i t self.old }
        ensures { Watches plan.now i t self.new }
    {
        plan.laws();
        wl_plan::simulation_laws();
        let line = self.line.found();
        let (setup, end) = (&plan.nodes.as_slice()[i], plan.end);
        let most = self.limit.saturating_sub(self.quanta);
        let level = level_of(line.dominant);
        self.quanta += self.node.pass(setup, self.quanta, level, most);
        self.next = next_tick(&setup.clock, end, self.quanta);
        self.until = line.until.min(self.next);
    }
}
