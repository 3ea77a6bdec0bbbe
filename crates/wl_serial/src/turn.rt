//! A node's turn: all its quanta below its horizon.
ghost use Rattle.std.specs.Prelude.{◌≡◌, ℕ, ◌<◌, ◌≤◌, Bool, false, IfOk, OnOk, length};
ghost use Rattle.wl_serial.specs.Engine.{GoesNext, IsEngine, IsNearer, KeepsLists};
ghost use Rattle.wl_serial.specs.LineAt.{AreLines, AreHeard, IsFound};
ghost use Rattle.wl_serial.specs.Running.{AllKeep, AreRunning, AreSomewhere, KnowsOthers, IsFewer, OnlyOne, RunsBelow};
ghost use Rattle.wl_serial.specs.Stretch.{HasStretched, TellsTheSame};

use crate::checked::Checked;
use crate::engine::Engine;
use crate::line_at::{Found, LineAt, tell};
use crate::running_node::Running;
use std::alloc::AllocError;

impl Engine {
    /// Runs all quanta of node `j` below its horizon, and notes up to which tick its drive is known then.
    pub(crate) fn turn(&mut self, plan: &Checked, j: usize) -> Result<(), AllocError>
        requires engine { IsEngine plan.now self.old }
        requires next { GoesNext plan.now j self.old }
        ensures engine { OnOk result (IsEngine plan.now self.new) }
        ensures nearer { OnOk result (IsNearer plan.now self.old self.new) }
        ensures keeps { (k : Bool) → KeepsLists k self.old → OnOk result (KeepsLists k self.new) }
    {
        let nodes: &mut [Running] = &mut self.nodes;
        let lines: &mut [LineAt] = &mut self.lines;
        let horizon = lines[j].horizon(plan, nodes, &self.known, j);
        run_below(plan, nodes, lines, j, horizon)?;
        nodes[j].promise(plan, j);
        self.known[j] = nodes[j].known;
        Ok(())
    }
}

/// Runs all quanta of node `j` below `horizon`; every level that arrives before it is known.
fn run_below(
    plan: &Checked,
    running: &mut [Running],
    lines: &mut [LineAt],
    j: usize,
    horizon: u64,
) -> Result<(), AllocError>
    requires node { j < length plan.now.nodes }
    requires running { AreRunning plan.now running.old }
    requires lines { AreLines plan.now lines.old }
    requires heard { AreHeard plan.now running.old lines.old }
    requires known { KnowsOthers plan.now j horizon running.old }
    requires ends { horizon ≤ plan.now.end }
    ensures running { OnOk result (AreRunning plan.now running.new) }
    ensures lines { OnOk result (AreLines plan.now lines.new) }
    ensures heard { OnOk result (AreHeard plan.now running.new lines.new) }
    ensures others { OnOk result (OnlyOne j running.old running.new) }
    ensures fewer { OnOk result (IsFewer plan.now.end horizon j running.old running.new) }
    ensures keeps { (k : Bool) → AllKeep k running.old → OnOk result (AllKeep k running.new) }
{
    plan.laws();
    wl_plan::simulation_laws();
    wl_record_core::table_laws();
    while running[j].next < horizon {
        stretch(plan, running, lines, j, horizon)?;
    }
    Ok(())
}

/// Runs quanta of node `j`: up to the next change of what it finds by the known changes, to the first quantum that changes its drive, or to
/// a tick. All places note its change. True if there was one.
pub(crate) fn stretch(
    plan: &Checked,
    running: &mut [Running],
    lines: &mut [LineAt],
    j: usize,
    until: u64,
) -> Result<bool, AllocError>
    requires node { j < length plan.now.nodes }
    requires somewhere { AreSomewhere plan.now running.old }
    requires lines { AreLines plan.now lines.old }
    requires heard { AreHeard plan.now running.old lines.old }
    requires ends { until ≤ plan.now.end }
    requires below { RunsBelow until running.old j }
    ensures lines { OnOk result (AreLines plan.now lines.new) }
    ensures heard { OnOk result (AreHeard plan.now running.new lines.new) }
    ensures ran { OnOk result (HasStretched plan.now j until running.old running.new) }
    ensures same { IfOk result (λ changed. changed ≡ false → TellsTheSame j running.old running.new) }
{
    let found = lines[j].level_at(plan, running, j, until);
    let changed = run_found(plan, running, lines, j, found)?;
    Ok(changed)
}

/// Runs quanta of node `j` as long as what it finds stays so, up to the first that changes its drive. All places note its change. True if
/// there was one.
#[inline(always)]
pub(crate) fn run_found(
    plan: &Checked,
    running: &mut [Running],
    lines: &mut [LineAt],
    j: usize,
    found: Found,
) -> Result<bool, AllocError>
    requires node { j < length plan.now.nodes }
    requires somewhere { AreSomewhere plan.now running.old }
    requires lines { AreLines plan.now lines.old }
    requires heard { AreHeard plan.now running.old lines.old }
    requires ends { found.until ≤ plan.now.end }
    requires found { IsFound plan.now j running.old found }
    ensures lines { OnOk result (AreLines plan.now lines.new) }
    ensures heard { OnOk result (AreHeard plan.now running.new lines.new) }
    ensures ran { OnOk result (HasStretched plan.now j found.until running.old running.new) }
    ensures same { IfOk result (λ changed. changed ≡ false → TellsTheSame j running.old running.new) }
{
    if let Some(tick) = running[j].go(plan, j, found.level, found.until)? {
        tell(plan, lines, j, tick);
        return Ok(true);
    }
    Ok(false)
}
