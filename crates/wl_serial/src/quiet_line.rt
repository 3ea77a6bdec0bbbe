//! A line at rest: all nodes go on at once.
ghost use Rattle.std.specs.Prelude.{◌≡◌, ℕ, ◌<◌, ◌≤◌, Bool, length};
ghost use Rattle.wl_serial.specs.Engine.{IsEngine, KeepsLists};
ghost use Rattle.wl_serial.specs.LineAt.{AreLines, AreHeard};
ghost use Rattle.wl_serial.specs.QuietLine.{AreLifted, AreSilent, AllStand, AllStay};
ghost use Rattle.wl_serial.specs.Running.{AllKeep, AreRunning, AreKnown};

use crate::checked::Checked;
use crate::engine::Engine;
use crate::line_at::LineAt;
use crate::running_node::{Running, Ticks};

impl Engine {
    /// Lifts the ticks below which the drives are known, if the line is at rest. Node `j` goes next. `asked` is the tick at which all nodes
    /// were last asked. If node `j` isn't known further they are not asked again. It decides nothing but speed.
    pub(crate) fn rest(&mut self, plan: &Checked, j: usize, asked: &mut u64)
        requires engine { IsEngine plan.now self.old }
        requires node { j < length self.old.nodes.items }
        ensures engine { IsEngine plan.now self.new }
        ensures lifted { AreLifted plan.now self.old.nodes.items self.new.nodes.items }
        ensures keeps { (k : Bool) → KeepsLists k self.old → KeepsLists k self.new }
    {
        let at = self.nodes[j].known;
        if at == *asked {
            return;
        }
        let until = rests_until(plan, &self.nodes, &self.lines, j, asked);
        if until <= at {
            return;
        }
        lift(plan, &mut self.nodes, &mut self.known, until);
    }
}

/// Returns the tick below which no node changes its drive: the earliest at which a dominant level could arrive anywhere, or a node that has
/// seen only recessive could drive dominant. It is 0 if that is no later than the tick below which the drive of node `j` is known. `asked`
/// becomes that tick if all nodes are asked.
fn rests_until(
    plan: &Checked,
    running: &[Running],
    lines: &[LineAt],
    j: usize,
    asked: &mut u64,
) -> u64
    requires running { AreRunning plan.now running.now }
    requires lines { AreLines plan.now lines.now }
    requires heard { AreHeard plan.now running.now lines.now }
    requires node { j < length running.now }
    ensures { AllStay plan.now result running.now }
{
    plan.laws();
    wl_plan::simulation_laws();
    wl_plan::a_line_at_rest_stays();
    wl_record_core::table_laws();
    wl_topology::driven_laws();
    let known = running[j].known;
    if lines[j].silent_until(running, j) <= known || running[j].stands_until(plan, j) <= known {
        return 0;
    }
    *asked = known;
    let silent = all_silent_until(plan, running, lines);
    if silent <= known {
        return 0;
    }
    all_stand_until(plan, running, silent, known)
}

/// Returns the tick below which nothing dominant arrives at a place from the next quantum of its node on; at most the end.
fn all_silent_until(plan: &Checked, running: &[Running], lines: &[LineAt]) -> u64
    requires running { AreRunning plan.now running.now }
    requires lines { AreLines plan.now lines.now }
    requires heard { AreHeard plan.now running.now lines.now }
    ensures silent { AreSilent plan.now running.now result }
{
    let mut until = plan.end();
    for j in 0..lines.len() {
        until = until.min(lines[j].silent_until(running, j));
    }
    until
}

/// Returns the tick up to which each node drives recessive if it sees recessive only, and no later than tick `most`. It is 0 if one drives
/// dominant, or isn't sure to drive recessive past tick `least`.
fn all_stand_until(plan: &Checked, running: &[Running], most: u64, least: u64) -> u64
    requires running { AreRunning plan.now running.now }
    ensures stand { 0 < result → AllStand plan.now result running.now }
    ensures few { result ≤ most }
{
    let mut until = most;
    for i in 0..running.len() {
        until = until.min(running[i].stands_until(plan, i));
        if until <= least {
            return 0;
        }
    }
    until
}

/// Notes that the drives of all nodes are known up to tick `until`; one that is known further stays so.
fn lift(plan: &Checked, running: &mut [Running], known: &mut Ticks, until: u64)
    requires running { AreRunning plan.now running.old }
    requires known { AreKnown plan.now.end running.old known.old }
    requires stay { AllStay plan.now until running.old }
    ensures running { AreRunning plan.now running.new }
    ensures known { AreKnown plan.now.end running.new known.new }
    ensures lifted { AreLifted plan.now running.old running.new }
    ensures keeps { (k : Bool) → AllKeep k running.old → AllKeep k running.new }
{
    for i in 0..running.len() {
        running[i].lift(plan, i, until);
        known[i] = running[i].known;
    }
}
