//! How a listener runs while one node alone is heard.
ghost use Rattle.std.specs.Prelude.{◌≡◌, ◌≢◌, ℕ, ◌+◌, ◌-◌, ◌<◌, ◌≤◌, false, IfOk, OnOk, length, slice_index_or};
ghost use Rattle.wl_record_core.specs.Truth.{count_below, IsIncreasing};
ghost use Rattle.wl_serial.specs.declared.running_node.Running.{Running as GivenRunning};
ghost use Rattle.wl_serial.specs.LineAt.{AreLines, AreHeard, HearsOnly};
ghost use Rattle.wl_serial.specs.Running.{AreSomewhere, RunsBelow, by_quanta, one_more};
ghost use Rattle.wl_serial.specs.Stretch.{HasRunAlong, HasStretched, TellsTheSame};

use crate::checked::Checked;
use crate::line_at::{LineAt, level_by, tell};
use crate::running_node::Running;
use std::alloc::AllocError;
use wl_pulse::{change_at, count_until};

/// Runs quanta of node `i` below a tick, up to the first that changes its drive, beside node `j`, which alone is heard there. All places
/// note its change. True if there was one.
pub(crate) fn run_alone(
    plan: &Checked,
    running: &mut [Running],
    lines: &mut [LineAt],
    j: usize,
    i: usize,
    until: u64,
) -> Result<bool, AllocError>
    requires node { i < length plan.now.nodes }
    requires leader { j < length plan.now.nodes }
    requires other { i ≢ j }
    requires somewhere { AreSomewhere plan.now running.old }
    requires lines { AreLines plan.now lines.old }
    requires heard { AreHeard plan.now running.old lines.old }
    requires ends { until ≤ plan.now.end }
    requires below { RunsBelow until running.old i }
    requires only { HearsOnly plan.now running.old j i until }
    ensures lines { OnOk result (AreLines plan.now lines.new) }
    ensures heard { OnOk result (AreHeard plan.now running.new lines.new) }
    ensures ran { OnOk result (HasStretched plan.now i until running.old running.new) }
    ensures same { IfOk result (λ changed. changed ≡ false → TellsTheSame i running.old running.new) }
{
    plan.laws();
    wl_plan::simulation_laws();
    let delay = lines[i].delays[j];
    let come = lines[i].sources.come[j];
    let change = run_along(plan, running, j, i, delay, come, until)?;
    running[i].arrive(plan, i);
    if let Some(tick) = change {
        tell(plan, lines, i, tick);
        return Ok(true);
    }
    Ok(false)
}

/// Runs quanta of node `i` below a tick, up to the first that changes its drive, as if node `j` alone were heard. It goes from change to
/// change of that one. Returns the tick of that quantum, if there is one. `guess` is how many changes had arrived when it was last asked
/// for; it decides nothing but speed. The tick of the next quantum isn't noted.
fn run_along(
    plan: &Checked,
    running: &mut [Running],
    j: usize,
    i: usize,
    delay: u64,
    guess: usize,
    until: u64,
) -> Result<Option<u64>, AllocError>
    requires node { i < length plan.now.nodes }
    requires leader { j < length plan.now.nodes }
    requires other { i ≢ j }
    requires somewhere { AreSomewhere plan.now running.old }
    requires ends { until ≤ plan.now.end }
    requires below { RunsBelow until running.old i }
    ensures ran { OnOk result (HasRunAlong plan.now j delay i until running.old running.new) }
    ensures later { OnOk result ((d : GivenRunning)
        → (slice_index_or running.old i d).next < (by_quanta plan.now i (slice_index_or running.new i d)).next) }
    ensures told { IfOk result (λ change. (d : GivenRunning) → (slice_index_or running.new i d).changes
        ≡ one_more (slice_index_or running.old i d).changes change) }
{
    plan.laws();
    wl_plan::simulation_laws();
    wl_record_core::table_laws();
    let mut from = running[i].next;
    let mut come = come_by(running[j].changes.as_slice(), delay, from, guess);
    while from < until {
        let next = change_at(running[j].changes.as_slice(), come);
        from = next.saturating_add(delay).min(until);
        let level = level_by(come % 2 == 1, false);
        if let Some(tick) = running[i].run(plan, i, level, from)? {
            return Ok(Some(tick));
        }
        come += 1;
    }
    Ok(None)
}

/// Returns how many of the changes have arrived by tick `t`, a delay later than they were; `guess` of them had arrived earlier.
fn come_by(changes: &[u64], delay: u64, t: u64, guess: usize) -> usize
    requires { IsIncreasing changes.now }
    ensures { result ≡ count_below (t + 1 - delay) changes.now }
{
    wl_record_core::table_laws();
    if t < delay {
        return 0;
    }
    count_until(changes, t - delay, guess)
}
