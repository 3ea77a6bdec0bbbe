//! The engine. The node whose drive is known the least far always runs all quanta that it can, until none is left before the end.
ghost use Rattle.std.specs.Prelude.{◌≡◌, ◌<◌, ◌≤◌, Bool, true, IfOk, OnOk, MatchOption, length, map, List, slice_index};
ghost use Rattle.std.specs.List.{range_with_len};
ghost use Rattle.wl_plan.specs.Checked.{IsChecked};
ghost use Rattle.wl_serial.specs.Outcome.{node_outcome_of, node_totals, outcome_of, totals_of};
ghost use Rattle.wl_serial.specs.Engine.{GoesNext, IsEngine, IsNearer, KeepsLists};
ghost use Rattle.wl_serial.specs.LineAt.{AreLines, AreHeard};
ghost use Rattle.wl_serial.specs.Running.{AllKeep, AreRunning, AreKnown, AllKnown, NoneBefore, IsNext};

use crate::checked::Checked;
use crate::guess::is_led;
use crate::line_at::LineAt;
use crate::outcome::{NodeOutcomes, Outcome, Totals};
use crate::running_node::{Running, Ticks};
use std::alloc::{AllocError, Global};
use wl_level::Listed;
use wl_plan::Plan;
use wl_topology::MOST_NODES;

/// The nodes of a plan as far as they have run, the line at each place, and for each node the tick below which its drive is known.
#[derive(Drop)]
pub(crate) struct Engine {
    pub(crate) nodes: Vec<Running>,
    pub(crate) lines: Vec<LineAt>,
    /// The nodes have these ticks too: here they are read faster.
    pub(crate) known: Ticks,
}

/// Returns the outcome of the tick-by-tick simulation of a plan that passed its check.
///
/// Only quanta whose tick is below the end are run. Refused only when out of memory.
pub fn run_serial(alloc: Global, plan: &Plan) -> Result<Outcome, AllocError>
    requires { IsChecked plan.now }
    ensures { IfOk result (λ outcome. outcome ≡ outcome_of plan.now) }
{
    let checked = Checked::new(plan);
    let nodes = simulate(alloc, &checked, true)?;
    Ok(Outcome {
        nodes: finish(alloc, &checked, nodes)?,
        end: plan.end,
    })
}

/// Returns what a report says of the outcome of [`run_serial`]. No sample or phase error is listed, which takes less memory and time.
///
/// Refused only when out of memory.
pub fn run_totals(alloc: Global, plan: &Plan) -> Result<Totals, AllocError>
    requires { IsChecked plan.now }
    ensures { IfOk result (λ totals. totals ≡ totals_of (outcome_of plan.now)) }
{
    let checked = Checked::new(plan);
    let nodes = simulate(alloc, &checked, false)?;
    let totals = totals_at_end(alloc, &checked, nodes)?;
    Ok(totals)
}

/// Returns all nodes after all quanta before the end. They list their samples if `keeps`, and else only count them.
pub(crate) fn simulate(
    alloc: Global,
    plan: &Checked,
    keeps: bool,
) -> Result<Vec<Running>, AllocError>
    ensures running { IfOk result (λ running. AreRunning plan.now running.items) }
    ensures ended { IfOk result (λ running. NoneBefore plan.now.end running.items) }
    ensures keeps { IfOk result (λ running. AllKeep keeps running.items) }
{
    let mut engine = Engine::new(alloc, plan, keeps)?;
    engine.run(alloc, plan)?;
    Ok(engine.nodes)
}

/// True if a node has a frame to send. It decides nothing but how much memory the nodes take at first.
fn any_sends(plan: &Checked) -> bool {
    for i in 0..plan.nodes() {
        if 0 < plan.node(i).queue.len() {
            return true;
        }
    }
    false
}

/// Returns all nodes before their first quanta. They list their samples if `keeps`, and else only count them.
fn begin(alloc: Global, plan: &Checked, keeps: bool) -> Result<Vec<Running>, AllocError>
    ensures running { IfOk result (λ running. AreRunning plan.now running.items) }
    ensures keeps { IfOk result (λ running. AllKeep keeps running.items) }
{
    let busy = any_sends(plan);
    let mut running = Vec::new(alloc);
    for i in 0..plan.nodes() {
        running.push(Running::begin(alloc, plan, i, keeps, busy)?)?;
    }
    Ok(running)
}

/// Returns the line at each place, before anything is heard.
fn listen(alloc: Global, plan: &Checked) -> Result<Vec<LineAt>, AllocError>
    ensures lines { IfOk result (λ lines. AreLines plan.now lines.items) }
    ensures heard { IfOk result (λ lines. (running : List Running) → AreHeard plan.now running lines.items) }
{
    let mut lines = Vec::new(alloc);
    for j in 0..plan.nodes() {
        lines.push(LineAt::new(plan, j))?;
    }
    Ok(lines)
}

/// Returns up to which ticks the drives are known.
pub(crate) fn all_known(plan: &Checked, running: &[Running]) -> Ticks
    requires running { AreRunning plan.now running.now }
    ensures { AreKnown plan.now.end running.now result }
{
    plan.laws();
    let mut known = [u64::MAX; MOST_NODES];
    for i in 0..running.len() {
        known[i] = running[i].known;
    }
    known
}

impl Engine {
    /// Returns the engine before the first quanta. Its nodes list their samples if `keeps`, and else only count them.
    fn new(alloc: Global, plan: &Checked, keeps: bool) -> Result<Engine, AllocError>
        ensures engine { IfOk result (IsEngine plan.now) }
        ensures keeps { IfOk result (KeepsLists keeps) }
    {
        let nodes = begin(alloc, plan, keeps)?;
        let lines = listen(alloc, plan)?;
        let known = all_known(plan, &nodes);
        Ok(Engine {
            nodes,
            lines,
            known,
        })
    }

    /// Runs all quanta before the end.
    fn run(&mut self, alloc: Global, plan: &Checked) -> Result<(), AllocError>
        requires { IsEngine plan.now self.old }
        ensures engine { OnOk result (IsEngine plan.now self.new) }
        ensures ended { OnOk result (NoneBefore plan.now.end self.new.nodes.items) }
        ensures keeps { (k : Bool) → KeepsLists k self.old → OnOk result (KeepsLists k self.new) }
    {
        let mut refused = 0;
        let mut asked = 0;
        while let Some(j) = next_before(plan, &self.nodes, &self.known) {
            let led = refused <= self.nodes[j].next && is_led(&self.nodes, j);
            if let Some(t) = self.step(alloc, plan, j, led, &mut asked)? {
                refused = t;
            }
        }
        Ok(())
    }

    /// Lets node `j` go next. If all can go ahead by a guess they do; if not, or if the guess fails, the node has its turn. Returns the tick
    /// up to which a guess failed, if one did.
    fn step(
        &mut self,
        alloc: Global,
        plan: &Checked,
        j: usize,
        led: bool,
        asked: &mut u64,
    ) -> Result<Option<u64>, AllocError>
        requires engine { IsEngine plan.now self.old }
        requires next { GoesNext plan.now j self.old }
        ensures engine { OnOk result (IsEngine plan.now self.new) }
        ensures nearer { OnOk result (IsNearer plan.now self.old self.new) }
        ensures keeps { (k : Bool) → KeepsLists k self.old → OnOk result (KeepsLists k self.new) }
    {
        if !led {
            self.plain(plan, j, asked)?;
            return Ok(None);
        }
        let failed = self.guess(alloc, plan, j)?;
        if failed.is_some() {
            self.plain(plan, j, asked)?;
        }
        Ok(failed)
    }

    /// Gives node `j` its turn, if the line doesn't rest up to there.
    fn plain(&mut self, plan: &Checked, j: usize, asked: &mut u64) -> Result<(), AllocError>
        requires engine { IsEngine plan.now self.old }
        requires next { GoesNext plan.now j self.old }
        ensures engine { OnOk result (IsEngine plan.now self.new) }
        ensures nearer { OnOk result (IsNearer plan.now self.old self.new) }
        ensures keeps { (k : Bool) → KeepsLists k self.old → OnOk result (KeepsLists k self.new) }
    {
        self.rest(plan, j, asked);
        self.turn(plan, j)
    }
}

/// Returns the node whose drive is known the least far, of those that have a quantum before the end: all others wait for it.
fn next_before(plan: &Checked, running: &[Running], known: &Ticks) -> Option<usize>
    requires running { AreRunning plan.now running.now }
    requires known { AreKnown plan.now.end running.now known.now }
    ensures { MatchOption result (NoneBefore plan.now.end running.now) (IsNext plan.now.end running.now) }
{
    if let Some(j) = least_known(plan, running, known) {
        return Some(j);
    }
    left_before(plan, running)
}

/// Returns the node whose drive is known the least far, unless all are known up to the end.
fn least_known(plan: &Checked, running: &[Running], known: &Ticks) -> Option<usize>
    requires running { AreRunning plan.now running.now }
    requires known { AreKnown plan.now.end running.now known.now }
    ensures { MatchOption result (AllKnown plan.now.end running.now) (IsNext plan.now.end running.now) }
{
    let mut node = 0;
    let mut least = known[0];
    for i in 1..plan.nodes() {
        if known[i] < least {
            least = known[i];
            node = i;
        }
    }
    if plan.end() <= least {
        return None;
    }
    Some(node)
}

/// Returns a node that has a quantum before the end, if all are known up to the end.
fn left_before(plan: &Checked, running: &[Running]) -> Option<usize>
    requires { AllKnown plan.now.end running.now }
    ensures { MatchOption result (NoneBefore plan.now.end running.now) (IsNext plan.now.end running.now) }
{
    for (i, r) in running.iter().enumerate() {
        if r.next < plan.end() {
            return Some(i);
        }
    }
    None
}

/// Returns what the nodes did; all have run to the end, and list their samples.
fn finish(alloc: Global, plan: &Checked, running: Vec<Running>) -> Result<NodeOutcomes, AllocError>
    requires running { AreRunning plan.now running.items }
    requires ended { NoneBefore plan.now.end running.items }
    requires keeps { AllKeep true running.items }
    ensures { IfOk result (λ nodes. nodes ≡ map (node_outcome_of plan.now) (range_with_len 0 (length plan.now.nodes))) }
{
    plan.laws();
    let mut nodes = Listed::new(alloc);
    for r in running {
        nodes.push(r.finish())?;
    }
    Ok(nodes)
}

/// Returns what a report says of the nodes; all have run to the end.
fn totals_at_end(alloc: Global, plan: &Checked, running: Vec<Running>) -> Result<Totals, AllocError>
    requires running { AreRunning plan.now running.items }
    requires ended { NoneBefore plan.now.end running.items }
    ensures { IfOk result (λ totals. totals
        ≡ map (λ i. node_totals (node_outcome_of plan.now i)) (range_with_len 0 (length plan.now.nodes))) }
{
    plan.laws();
    let mut totals = Listed::new(alloc);
    for r in running {
        totals.push(r.totals())?;
    }
    Ok(totals)
}
