//! A guess: while one node sends and all others listen, nothing else is sent but by an error or at the end of the frame. So the sender runs
//! alone up to there, and then each listener runs as far beside what it sent. If none of them changes its drive, all did what they do
//! (`a_consistent_guess_holds` of `wl_plan`). Else all go back to where they were.
ghost use Rattle.std.specs.Prelude.{◌≡◌, ◌≢◌, ℕ, ◌<◌, ◌≤◌, Bool, false, true, IfOk, OnOk, MatchOption, List, length, slice_index_or};
ghost use Rattle.wl_serial.specs.declared.line_at.LineAt.{LineAt as GivenLineAt};
ghost use Rattle.wl_serial.specs.declared.running_node.Running.{Running as GivenRunning};
ghost use Rattle.wl_serial.specs.Guess.{AreAsFar, AreBack, AreBefore, AreLater, HaveListened, HavePassed, RanAlone};
ghost use Rattle.wl_serial.specs.Engine.{GoesNext, IsEngine, IsNearer, KeepsLists};
ghost use Rattle.wl_serial.specs.LineAt.{AreLines, AreHeard};
ghost use Rattle.wl_serial.specs.Running.{AllKeep, AreRunning, AreSomewhere, RunsBelow, ticks_left};
ghost use Rattle.wl_serial.specs.Stretch.{HasStretched, TellsTheSame};

use crate::alone::run_alone;
use crate::checked::Checked;
use crate::engine::{Engine, all_known};
use crate::line_at::LineAt;
use crate::running_node::{Before, Running};
use crate::turn::{run_found, stretch};
use std::alloc::{AllocError, Global};

/// With fewer bits before it than these a sender is not run ahead: the guess would cost more than it saves.
const FEWEST_BITS: usize = 8;

/// True if a guess pays: node `j` sends, and all others listen. It decides nothing but speed.
pub(crate) fn is_led(running: &[Running], j: usize) -> bool
    requires { j < length running.now }
{
    if running[j].node.to_send() < FEWEST_BITS {
        return false;
    }
    for i in 0..running.len() {
        if i != j && !running[i].node.listens() {
            return false;
        }
    }
    true
}

impl Engine {
    /// Runs all nodes ahead beside what node `j` sends. Returns `None` if they did what they do, and else the tick up to which they were run;
    /// then all are where they were.
    pub(crate) fn guess(
        &mut self,
        alloc: Global,
        plan: &Checked,
        j: usize,
    ) -> Result<Option<u64>, AllocError>
        requires engine { IsEngine plan.now self.old }
        requires next { GoesNext plan.now j self.old }
        ensures engine { OnOk result (IsEngine plan.now self.new) }
        ensures went { IfOk result (λ failed. MatchOption failed (IsNearer plan.now self.old self.new)
            (λ t. AreAsFar self.old.nodes.items self.new.nodes.items)) }
        ensures keeps { (k : Bool) → KeepsLists k self.old → OnOk result (KeepsLists k self.new) }
    {
        plan.laws();
        wl_plan::simulation_laws();
        wl_plan::a_consistent_guess_holds();
        wl_record_core::table_laws();
        wl_node::node_laws();
        let nodes: &mut [Running] = &mut self.nodes;
        let lines: &mut [LineAt] = &mut self.lines;
        let marks = keep(alloc, nodes)?;
        lead(plan, nodes, lines, j)?;
        let until = nodes[j].next.min(plan.end());
        if follow(plan, nodes, lines, j, until)? {
            promise_all(plan, nodes);
            self.known = all_known(plan, nodes);
            return Ok(None);
        }
        back(alloc, nodes, &marks)?;
        forget(plan, lines);
        Ok(Some(until))
    }
}

/// Returns where all nodes are.
fn keep(alloc: Global, running: &[Running]) -> Result<Vec<Before>, AllocError>
    ensures { IfOk result (λ marks. AreBefore running.now marks.items) }
{
    let mut marks = Vec::with_capacity(alloc, running.len())?;
    for i in 0..running.len() {
        marks.push(running[i].keep())?;
    }
    Ok(marks)
}

/// Runs node `j` on up to the end of its CRC sequence, beside the known changes of the others.
fn lead(
    plan: &Checked,
    running: &mut [Running],
    lines: &mut [LineAt],
    j: usize,
) -> Result<(), AllocError>
    requires node { j < length plan.now.nodes }
    requires somewhere { AreSomewhere plan.now running.old }
    requires lines { AreLines plan.now lines.old }
    requires heard { AreHeard plan.now running.old lines.old }
    requires below { RunsBelow plan.now.end running.old j }
    ensures lines { OnOk result (AreLines plan.now lines.new) }
    ensures heard { OnOk result (AreHeard plan.now running.new lines.new) }
    ensures ran { OnOk result (RanAlone plan.now j plan.now.end running.old running.new) }
    ensures later { OnOk result ((d : GivenRunning)
        → (slice_index_or running.old j d).next < (slice_index_or running.new j d).next) }
{
    plan.laws();
    wl_plan::simulation_laws();
    wl_plan::a_consistent_guess_holds();
    stretch(plan, running, lines, j, plan.end())?;
    let mut stop = running[j].sends_until(plan, j);
    while running[j].next < stop {
        stretch(plan, running, lines, j, stop)?;
        stop = running[j].sends_until(plan, j);
    }
    Ok(())
}

/// Runs each node but node `j` on up to a tick, beside all known changes. True if none of them changed its drive; else not all have run.
fn follow(
    plan: &Checked,
    running: &mut [Running],
    lines: &mut [LineAt],
    j: usize,
    until: u64,
) -> Result<bool, AllocError>
    requires leader { j < length plan.now.nodes }
    requires somewhere { AreSomewhere plan.now running.old }
    requires lines { AreLines plan.now lines.old }
    requires heard { AreHeard plan.now running.old lines.old }
    requires ends { until ≤ plan.now.end }
    ensures lines { OnOk result (AreLines plan.now lines.new) }
    ensures heard { OnOk result (AreHeard plan.now running.new lines.new) }
    ensures later { OnOk result (AreLater running.old running.new) }
    ensures listened { IfOk result (λ right. right ≡ true
        → HaveListened plan.now j until (length plan.now.nodes) running.old running.new) }
{
    wl_plan::simulation_laws();
    for i in 0..running.len() {
        if i != j && !listen(plan, running, lines, j, i, until)? {
            return Ok(false);
        }
    }
    Ok(true)
}

/// Runs node `i` on up to a tick, beside all known changes, as long as it doesn't change its drive. True if it never did. Node `j` is the
/// sender.
fn listen(
    plan: &Checked,
    running: &mut [Running],
    lines: &mut [LineAt],
    j: usize,
    i: usize,
    until: u64,
) -> Result<bool, AllocError>
    requires node { i < length plan.now.nodes }
    requires leader { j < length plan.now.nodes }
    requires other { i ≢ j }
    requires somewhere { AreSomewhere plan.now running.old }
    requires lines { AreLines plan.now lines.old }
    requires heard { AreHeard plan.now running.old lines.old }
    requires ends { until ≤ plan.now.end }
    ensures lines { OnOk result (AreLines plan.now lines.new) }
    ensures heard { OnOk result (AreHeard plan.now running.new lines.new) }
    ensures ran { OnOk result (RanAlone plan.now i until running.old running.new) }
    ensures same { IfOk result (λ right. right ≡ true → TellsTheSame i running.old running.new) }
    ensures reached { IfOk result (λ right. right ≡ true
        → (d : GivenRunning) → until ≤ (slice_index_or running.new i d).next) }
{
    plan.laws();
    wl_plan::simulation_laws();
    wl_plan::a_consistent_guess_holds();
    while running[i].next < until {
        if stretch_alone(plan, running, lines, j, i, until)? {
            return Ok(false);
        }
    }
    Ok(true)
}

/// Runs quanta of node `i` as `stretch` does. If it hears node `j` alone, it goes on as long as that is so.
fn stretch_alone(
    plan: &Checked,
    running: &mut [Running],
    lines: &mut [LineAt],
    j: usize,
    i: usize,
    until: u64,
) -> Result<bool, AllocError>
    requires node { i < length plan.now.nodes }
    requires leader { j < length plan.now.nodes }
    requires other { i ≢ j }
    requires somewhere { AreSomewhere plan.now running.old }
    requires lines { AreLines plan.now lines.old }
    requires heard { AreHeard plan.now running.old lines.old }
    requires ends { until ≤ plan.now.end }
    requires below { RunsBelow until running.old i }
    ensures lines { OnOk result (AreLines plan.now lines.new) }
    ensures heard { OnOk result (AreHeard plan.now running.new lines.new) }
    ensures ran { OnOk result (HasStretched plan.now i until running.old running.new) }
    ensures same { IfOk result (λ changed. changed ≡ false → TellsTheSame i running.old running.new) }
{
    let found = lines[i].level_at(plan, running, i, until);
    let alone = lines[i].alone_until(plan, running, j, i).min(until);
    if running[i].next < alone {
        let changed = run_alone(plan, running, lines, j, i, alone)?;
        return Ok(changed);
    }
    let changed = run_found(plan, running, lines, i, found)?;
    Ok(changed)
}

/// Notes of each node up to which tick its drive is known, whatever it sees.
fn promise_all(plan: &Checked, running: &mut [Running])
    requires running { AreRunning plan.now running.old }
    ensures running { AreRunning plan.now running.new }
    ensures heard { (lines : List GivenLineAt) → AreHeard plan.now running.old lines
        → AreHeard plan.now running.new lines }
    ensures left { ticks_left plan.now.end running.new ≤ ticks_left plan.now.end running.old }
    ensures keeps { (k : Bool) → AllKeep k running.old → AllKeep k running.new }
{
    for i in 0..running.len() {
        running[i].promise(plan, i);
    }
}

/// Puts all nodes back to where they were. Refused only when out of memory.
fn back(alloc: Global, running: &mut [Running], marks: &[Before]) -> Result<(), AllocError>
    requires { HavePassed marks.now running.old }
    ensures { OnOk result ((rs : List GivenRunning) → AreBefore rs marks.now → AreLater rs running.old
        → AreBack rs running.new) }
{
    for i in 0..running.len() {
        running[i].back(alloc, &marks[i])?;
    }
    Ok(())
}

/// Drops all that the places have found.
fn forget(plan: &Checked, lines: &mut [LineAt])
    requires lines { AreLines plan.now lines.old }
    ensures lines { AreLines plan.now lines.new }
    ensures heard { (rs : List GivenRunning) → AreHeard plan.now rs lines.new }
{
    for j in 0..lines.len() {
        lines[j] = LineAt::new(plan, j);
    }
}
