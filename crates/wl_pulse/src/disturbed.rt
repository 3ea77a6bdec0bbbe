//! Disturbances at a node, and for how long they stay as they are.
ghost use Rattle.std.specs.Prelude.{None, true, ◌+◌, ◌≤◌, ◌≡◌, ℕ, ◌-◌, ◌<◌, ◌^◌, ◌||◌, Bool, length};
ghost use Rattle.wl_plan.specs.Checked.{IsChecked, IsDisturbance};
ghost use Rattle.wl_plan.specs.Limits.{latest_end};
ghost use Rattle.wl_topology.specs.Limits.{longest_delay};
ghost use Rattle.wl_plan.specs.PlanLine.{disturbed, is_at};
ghost use Rattle.wl_pulse.specs.Pulses.{IsPulse};

use crate::pulse::Pulse;
use wl_plan::{Disturbance, Plan};
use wl_topology::LONGEST_DELAY;

/// Returns whether some disturbance makes the line dominant at node `j`, from tick `t` on and up to the next tick at which one arrives or
/// is over there; up to 2^64 - 1 if there is none.
pub fn disturbed_at(plan: &Plan, j: usize, t: u64) -> Pulse
    requires checked { IsChecked plan.now }
    requires node { j < length plan.now.nodes }
    requires early { t < 2 ^ 64 - 1 }
    ensures from { result.from ≡ t }
    ensures until { t < result.until }
    ensures dominant { IsPulse (disturbed plan.now j) result }
{
    let mut pulse = Pulse {
        from: t,
        until: u64::MAX,
        dominant: false,
    };
    for d in plan.disturbances.as_slice() {
        pulse = with_disturbance(pulse, plan, *d, j);
    }
    pulse
}

/// Returns the pulse of two things together, from the same tick on: of what was dominant before, and of a disturbance at node `j`. One that
/// begins after the pulse, or was over before it, has no part in it, whatever its delay.
#[inline(always)]
fn with_disturbance(before: Pulse, plan: &Plan, d: Disturbance, j: usize) -> Pulse
    requires checked { IsChecked plan.now }
    requires disturbance { IsDisturbance plan.now d }
    requires node { j < length plan.now.nodes }
    requires some { before.from < before.until }
    ensures from { result.from ≡ before.from }
    ensures until { result.from < result.until }
    ensures dominant { (f : ℕ → Bool) → IsPulse f before → IsPulse (λ t. f t || is_at plan.now j t d) result }
{
    if before.until <= d.from || is_over(d, before.from) {
        return before;
    }
    let mut pulse = before;
    let delay = plan.disturbance_delay(d, j as u8);
    let from = d.from + delay;
    let to = d.to + delay;
    if pulse.from < from {
        pulse.until = pulse.until.min(from);
    } else if pulse.from < to {
        pulse.until = pulse.until.min(to);
        pulse.dominant = true;
    }
    pulse
}

/// True only if a disturbance of the cable is over at each node by tick `t`. No delay of it is longer than the longest.
#[inline(always)]
fn is_over(d: Disturbance, t: u64) -> bool
    requires { d.to ≤ latest_end }
    ensures node { result ≡ true → d.node ≡ None }
    ensures over { result ≡ true → d.to + longest_delay ≤ t }
{
    d.node.is_none() && d.to + LONGEST_DELAY <= t
}
