//! The samples of a node of a simulation, one by one, or how it was synchronised: it runs again beside the line at its place. Only its begin
//! takes memory.
ghost use Rattle.std.specs.Prelude.{◌≡◌, ◌-◌, ◌<◌, ◌≤◌, ◌++◌, [], ◌∷◌, ℕ, true, false, None, Some, IfOk, length};
ghost use Rattle.wl_clock.specs.Timing.{tick_of};
ghost use Rattle.wl_level.specs.declared.Level.{Level};
ghost use Rattle.wl_node.specs.Limits.{most_run_quanta};
ghost use Rattle.wl_plan.specs.PlanLine.{line_of, setup_at};
ghost use Rattle.wl_plan.specs.Simulation.{history, seen};
ghost use Rattle.wl_serial.specs.Outcome.{drives_of, node_outcome_of, outcome_of};
ghost use Rattle.wl_trace.specs.StayingRerun.{sample_if};
ghost use Rattle.wl_trace.specs.Synced.{with_next};
ghost use Rattle.wl_trace.specs.declared.event.Noted.{Noted as GivenNoted};
ghost use Rattle.wl_trace.specs.declared.staying_rerun.Stride.{Stride as GivenStride};
ghost use Rattle.wl_views.specs.Sampling.{IsSampling, given_by, quanta_sampled, synced_by};
ghost use Rattle.wl_views.specs.TraceText.{syncs_at_end};

use crate::place_line::PlaceLine;
use crate::probe::level_of;
use std::alloc::{AllocError, Global};
use wl_level::Level;
use wl_plan::CheckedPlan;
use wl_serial::Drives;
use wl_trace::{Noted, Rerun, Stride};

/// The samples of a node, from the next one on.
#[derive(Drop)]
pub struct Sampling {
    /// What is known of the line at its place.
    pub(crate) line: PlaceLine,
    /// The node after the quanta that it has seen.
    pub(crate) node: Rerun,
    /// How many quanta the node has seen.
    pub(crate) quanta: u64,
    /// How many quanta begin before the tick up to which the line is known.
    pub(crate) limit: u64,
    /// The tick up to which the line is known.
    pub(crate) until: u64,
    /// What the node finds on the line up to there.
    pub(crate) level: Level,
}

impl Sampling {
    /// Returns the samples of node `i`. Refused only if memory runs out.
    pub fn new(alloc: Global, plan: &CheckedPlan, i: usize) -> Result<Sampling, AllocError>
        requires node { i < length plan.now.nodes }
        ensures is { IfOk result (IsSampling plan.now i) }
        ensures none { IfOk result (λ samples. given_by plan.now i samples ≡ []) }
        ensures no_syncs { IfOk result (λ samples. synced_by plan.now i samples ≡ []) }
    {
        Ok(Sampling {
            line: PlaceLine::new(),
            node: Rerun::new(alloc, &plan.nodes.as_slice()[i])?,
            quanta: 0,
            limit: 0,
            until: 0,
            level: Level::Recessive,
        })
    }

    /// Returns the next sample of node `i`: quantum and level. None if the run has ended.
    pub fn next(&mut self, plan: &CheckedPlan, drives: &Drives, i: usize) -> Option<(u64, Level)>
        requires drives { drives.now ≡ drives_of (outcome_of plan.now) }
        requires node { i < length plan.now.nodes }
        requires is { IsSampling plan.now i self.old }
        ensures is { IsSampling plan.now i self.new }
        ensures more { (sample : ℕ × Level) → result ≡ Some sample
            → given_by plan.now i self.new ≡ given_by plan.now i self.old ++ sample ∷ [] }
        ensures all { result ≡ None → given_by plan.now i self.old ≡ (node_outcome_of plan.now i).samples }
        ensures ended { result ≡ None → given_by plan.now i self.new ≡ given_by plan.now i self.old }
        ensures later { (sample : ℕ × Level) → result ≡ Some sample
            → quanta_sampled self.old < quanta_sampled self.new }
        ensures few { (sample : ℕ × Level) → result ≡ Some sample → quanta_sampled self.new ≤ most_run_quanta }
        ensures at { (sample : ℕ × Level) → result ≡ Some sample → sample.0 < quanta_sampled self.new }
    {
        while let Some(stride) = self.step(plan, drives, i) {
            if stride.sampled {
                return Some((self.quanta - 1, self.level));
            }
        }
        None
    }

    /// Returns how an edge synchronises node `i` next. None if the run has ended.
    pub(crate) fn next_sync(
        &mut self,
        plan: &CheckedPlan,
        drives: &Drives,
        i: usize,
    ) -> Option<Noted>
        requires drives { drives.now ≡ drives_of (outcome_of plan.now) }
        requires node { i < length plan.now.nodes }
        requires is { IsSampling plan.now i self.old }
        ensures is { IsSampling plan.now i self.new }
        ensures more { (sync : GivenNoted) → result ≡ Some sync
            → synced_by plan.now i self.new ≡ synced_by plan.now i self.old ++ sync ∷ [] }
        ensures all { result ≡ None → synced_by plan.now i self.old ≡ syncs_at_end plan.now i }
        ensures later { (sync : GivenNoted) → result ≡ Some sync
            → quanta_sampled self.old < quanta_sampled self.new }
        ensures few { (sync : GivenNoted) → result ≡ Some sync → quanta_sampled self.new ≤ most_run_quanta }
    {
        while let Some(stride) = self.step(plan, drives, i) {
            if stride.sync.is_some() {
                return stride.sync;
            }
        }
        None
    }

    /// Runs quanta while the line stays: up to and including the next sample, or some that have none; at least one. None if the run has ended.
    fn step(&mut self, plan: &CheckedPlan, drives: &Drives, i: usize) -> Option<Stride>
        requires drives { drives.now ≡ drives_of (outcome_of plan.now) }
        requires node { i < length plan.now.nodes }
        requires is { IsSampling plan.now i self.old }
        ensures is { IsSampling plan.now i self.new }
        ensures samples { (stride : GivenStride) → result ≡ Some stride → given_by plan.now i self.new
            ≡ given_by plan.now i self.old ++ sample_if stride.sampled (self.new.quanta - 1) self.new.level }
        ensures syncs { (stride : GivenStride) → result ≡ Some stride
            → synced_by plan.now i self.new ≡ with_next (synced_by plan.now i self.old) stride.sync }
        ensures later { (stride : GivenStride) → result ≡ Some stride → self.old.quanta < self.new.quanta }
        ensures few { (stride : GivenStride) → result ≡ Some stride → self.new.quanta ≤ most_run_quanta }
        ensures same { result ≡ None → self.new.quanta ≡ self.old.quanta }
        ensures all { result ≡ None
            → seen (line_of plan.now) i self.old.quanta ≡ (history (line_of plan.now) plan.now.end).seen i }
    {
        plan.laws();
        wl_plan::simulation_laws();
        if !self.listen(plan, drives, i) {
            return None;
        }
        let setup = &plan.nodes.as_slice()[i];
        let most = self.limit - self.quanta;
        let stride = self.node.stride(setup, self.quanta, self.level, most);
        self.quanta += stride.quanta;
        Some(stride)
    }

    /// Asks for the line up to the next quantum, and returns true if one comes before the end.
    fn listen(&mut self, plan: &CheckedPlan, drives: &Drives, i: usize) -> bool
        requires drives { drives.now ≡ drives_of (outcome_of plan.now) }
        requires node { i < length plan.now.nodes }
        requires is { IsSampling plan.now i self.old }
        ensures is { IsSampling plan.now i self.new }
        ensures quanta { self.new.quanta ≡ self.old.quanta }
        ensures more { result ≡ true → self.new.quanta < self.new.limit }
        ensures few { result ≡ true → self.new.limit ≤ most_run_quanta }
        ensures none { result ≡ false → plan.now.end ≤ tick_of (setup_at plan.now i).clock self.new.quanta }
    {
        plan.laws();
        wl_plan::simulation_laws();
        let clock = &plan.nodes.as_slice()[i].clock;
        while self.limit <= self.quanta && self.until < plan.end {
            self.line.hear(plan, drives, i, self.until);
            let found = self.line.found();
            self.level = level_of(found.dominant);
            self.until = found.until.min(plan.end);
            self.limit = clock.first_not_before(self.until);
        }
        self.quanta < self.limit
    }
}
