//! What is known of the line at a node's place from a tick on.
ghost use Rattle.std.specs.Prelude.{◌≡◌, ◌||◌, ◌≤◌, ◌<◌, ℕ, Bool, length, min};
ghost use Rattle.wl_plan.specs.declared.plan.Plan.{Plan};
ghost use Rattle.wl_plan.specs.Limits.{latest_end};
ghost use Rattle.wl_plan.specs.Line.{found};
ghost use Rattle.wl_plan.specs.PlanLine.{line_of};
ghost use Rattle.wl_plan.specs.Simulation.{level};
ghost use Rattle.wl_serial.specs.Outcome.{drives_of, outcome_of};
ghost use Rattle.wl_views.specs.PlaceLine.{Hears, Lasts, Remembers, heard_until};

use crate::signals::driven;
use wl_plan::CheckedPlan;
use wl_pulse::{Pulse, SILENCE, disturbed_at};
use wl_serial::Drives;
use wl_topology::MOST_NODES;

/// What is known of the line at a node's place, from a tick on.
#[derive(Drop)]
pub(crate) struct PlaceLine {
    /// Whether the cable is dominant there.
    pub(crate) cable: Pulse,
    /// Whether a disturbance is there.
    pub(crate) disturbance: Pulse,
    /// Of each node, whether its drive is dominant as it comes there.
    pub(crate) sources: [Pulse; MOST_NODES],
    /// How many changes of each node had come there when its drive was last asked for: that speeds up the next time, and decides nothing.
    come: [usize; MOST_NODES],
}

/// Returns whether one of two things is dominant, for as long as both stay.
fn either(one: Pulse, other: Pulse) -> Pulse
    ensures both { (f g : ℕ → Bool) (t : ℕ) → Lasts f t one → Lasts g t other
        → Lasts (λ u. f u || g u) t result }
    ensures dominant { result.dominant ≡ (one.dominant || other.dominant) }
    ensures until { result.until ≡ min one.until other.until }
{
    Pulse {
        from: one.from.max(other.from),
        until: one.until.min(other.until),
        dominant: one.dominant || other.dominant,
    }
}

impl PlaceLine {
    /// Returns what is known before tick 0: nothing.
    pub(crate) fn new() -> PlaceLine
        ensures { (plan : Plan) (i : ℕ) → Remembers plan i 0 result }
    {
        PlaceLine {
            cable: SILENCE,
            disturbance: SILENCE,
            sources: [SILENCE; MOST_NODES],
            come: [0; MOST_NODES],
        }
    }

    /// Asks again for cable and disturbances at node `i` if what was known of them has run out at tick `t`.
    pub(crate) fn hear(&mut self, plan: &CheckedPlan, drives: &Drives, i: usize, t: u64)
        requires drives { drives.now ≡ drives_of (outcome_of plan.now) }
        requires node { i < length plan.now.nodes }
        requires early { t ≤ latest_end }
        requires remembers { Remembers plan.now i t self.old }
        ensures { Hears plan.now i t self.new }
    {
        if self.cable.until <= t {
            self.cable = driven(plan, drives, i, t, &mut self.come, &mut self.sources);
        }
        if self.disturbance.until <= t {
            self.disturbance = disturbed_at(plan, i, t);
        }
    }

    /// Returns whether the node finds the line dominant, for as long as cable and disturbances stay.
    pub(crate) fn found(&self) -> Pulse
        ensures holds { (plan : Plan) (i t : ℕ) → Hears plan i t self.now
            → Lasts (found (line_of plan) (level (line_of plan)) i) t result }
        ensures dominant { result.dominant ≡ (self.now.cable.dominant || self.now.disturbance.dominant) }
        ensures until { result.until ≡ heard_until self.now }
    {
        either(self.cable, self.disturbance)
    }
}
