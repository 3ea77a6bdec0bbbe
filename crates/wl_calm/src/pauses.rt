//! The first pause of a run that is long enough.
ghost use Rattle.std.specs.Prelude.{if◌then◌else◌, ◌≡◌, ◌+◌, ◌<◌, ◌≤◌, ◌^◌, ℕ, length, IfNone, IfSome};
ghost use Rattle.wl_plan.specs.Limits.{latest_end};
ghost use Rattle.wl_plan.specs.PlanLine.{line_of};
ghost use Rattle.wl_plan.specs.Simulation.{level};
ghost use Rattle.wl_pulse.specs.Pulses.{IsPulse};
ghost use Rattle.wl_serial.specs.Outcome.{drives_of, outcome_of};
ghost use Rattle.wl_onward.specs.Silences.{IsPause, is_driven};

use wl_plan::CheckedPlan;
use wl_pulse::{Pulse, pulse_of};
use wl_serial::Drives;
use wl_topology::MOST_NODES;

/// Returns whether node `i` drives dominant at tick `t`, and up to which tick that stays. `come` is how many of its changes had come when it was last
/// asked for. It speeds up the next time, and decides nothing.
fn drive_from(plan: &CheckedPlan, drives: &Drives, i: usize, t: u64, come: &mut usize) -> Pulse
    requires drives { drives.now ≡ drives_of (outcome_of plan.now) }
    requires node { i < length plan.now.nodes }
    requires early { t ≤ latest_end }
    ensures from { result.from ≡ t }
    ensures until { t < result.until }
    ensures dominant { IsPulse (level (line_of plan.now) i) result }
{
    plan.laws();
    wl_plan::simulation_laws();
    let all = drives.as_slice();
    let changes = all[i].as_slice();
    pulse_of(changes, 0, t, come)
}

/// Returns whether some node drives dominant at tick `t`, and up to which tick that stays. One that does is enough.
fn driven_from(plan: &CheckedPlan, drives: &Drives, t: u64, come: &mut [usize; MOST_NODES]) -> Pulse
    requires drives { drives.now ≡ drives_of (outcome_of plan.now) }
    requires early { t ≤ latest_end }
    ensures from { result.from ≡ t }
    ensures until { t < result.until }
    ensures dominant { IsPulse (is_driven plan.now) result }
{
    plan.laws();
    let mut until = u64::MAX;
    for i in 0..plan.nodes.len() {
        let held = drive_from(plan, drives, i, t, &mut come[i]);
        if held.dominant {
            return held;
        }
        until = until.min(held.until);
    }
    Pulse {
        from: t,
        until,
        dominant: false,
    }
}

/// Returns since when nobody drives dominant: since `from`, unless someone has done so up to `at`.
fn quiet_since(dominant: bool, from: u64, at: u64) -> u64
    ensures { result ≡ (if dominant then at else from) }
{
    if dominant { at } else { from }
}

/// Returns the first tick, `settled` or later, from which on nobody drives dominant for so long before the end of the run.
pub(crate) fn first_pause(
    plan: &CheckedPlan,
    drives: &Drives,
    settled: u128,
    long: u128,
) -> Option<u64>
    requires drives { drives.now ≡ drives_of (outcome_of plan.now) }
    requires few { long < 2 ^ 66 }
    ensures later { IfSome result (λ from. settled ≤ from) }
    ensures pause { IfSome result (IsPause plan.now long) }
    ensures first { IfSome result (λ from. (t : ℕ) → settled ≤ t → IsPause plan.now long t → from ≤ t) }
    ensures none { IfNone result ((t : ℕ) → settled ≤ t → IsPause plan.now long t → ⊥) }
{
    plan.laws();
    if u128::from(plan.end) <= settled {
        return None;
    }
    let mut come = [0usize; MOST_NODES];
    let mut from = settled as u64;
    let mut at = from;
    while at < plan.end {
        let pulse = driven_from(plan, drives, at, &mut come);
        at = pulse.until.min(plan.end);
        from = quiet_since(pulse.dominant, from, at);
        if u128::from(from) + long < u128::from(at) {
            return Some(from);
        }
    }
    None
}
