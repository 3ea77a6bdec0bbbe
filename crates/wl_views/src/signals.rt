//! The signals of a simulation's nodes at a tick, and how long they stay.
ghost use Rattle.std.specs.Prelude.{◌≡◌, ℕ, Bool, ◌+◌, ◌-◌, ◌<◌, ◌≤◌, ◌&&◌, ◌||◌, ◌++◌, nat_le, nat_lt, IfOk, length};
ghost use Rattle.arrayvec.specs.ArrayVec.{array_vec_len};
ghost use Rattle.wl_topology.specs.Limits.{never};
ghost use Rattle.wl_topology.specs.Delays.{delay_of};
ghost use Rattle.wl_topology.specs.Driven.{driven};
ghost use Rattle.wl_plan.specs.Limits.{latest_end};
ghost use Rattle.wl_plan.specs.Line.{found};
ghost use Rattle.wl_plan.specs.PlanLine.{disturbed, is_at, line_of};
ghost use Rattle.wl_plan.specs.Simulation.{level};
ghost use Rattle.wl_serial.specs.LineAt.{comes};
ghost use Rattle.wl_serial.specs.Outcome.{drives_of, outcome_of};
ghost use Rattle.wl_views.specs.Limits.{longest_node_changes, longest_tick_changes, piece_room};
ghost use Rattle.wl_views.specs.PlaceLine.{Comes, Lasts};
ghost use Rattle.wl_views.specs.Probe.{AllWatched, IsCalendarOf, Watches};
ghost use Rattle.wl_views.specs.Signals.{driven_at, node_signals, signals};
ghost use Rattle.wl_views.specs.Vcd.{changes_from, node_changes};

use crate::calendar::Calendar;
use crate::lines::{Lines, push_node_changes};
use crate::probe::Probe;
use std::alloc::{AllocError, Global};
use wl_plan::CheckedPlan;
use wl_pulse::{Pulse, pulse_of};
use wl_serial::Drives;
use wl_topology::MOST_NODES;
use wl_trace::NodeState;

/// The signals of a node at a tick, as logic levels: true is high.
#[derive(Clone, Copy, Debug, PartialEq, Eq)]
pub struct NodeSignals {
    /// What it drives: low is dominant.
    pub tx: bool,
    /// What it finds on the line at its place, disturbances too: low is dominant.
    pub rx: bool,
    /// What the nodes' drives make of the cable at its place: low is dominant.
    pub cable: bool,
    /// High if a disturbance is at its place.
    pub disturbance: bool,
    /// Low at first, and turned at each of its samples.
    pub sample: bool,
    /// Low at first, and turned at each start of a bit.
    pub start: bool,
    /// What it is at: its error counters, and what it does.
    pub state: NodeState,
}

/// Returns the drive of node `i` as it arrives at node `j` at tick `t`, and up to which tick it stays. That is `held` if `held` reaches beyond
/// `t`; else it is read from the node's changes, and kept in `held`.
fn ask_again(
    plan: &CheckedPlan,
    drives: &Drives,
    i: usize,
    j: usize,
    t: u64,
    come: &mut usize,
    held: &mut Pulse,
) -> Pulse
    requires drives { drives.now ≡ drives_of (outcome_of plan.now) }
    requires from { i < length plan.now.nodes }
    requires node { j < length plan.now.nodes }
    requires early { t ≤ latest_end }
    requires was { t < held.old.until → Lasts (comes plan.now i j) t held.old }
    ensures held { Lasts (comes plan.now i j) t held.new }
    ensures answer { result ≡ held.new }
{
    plan.laws();
    wl_plan::simulation_laws();
    if t < held.until {
        return *held;
    }
    let delay = plan.topology.delay(i as u8, j as u8);
    let all = drives.as_slice();
    let changes = all[i].as_slice();
    *held = pulse_of(changes, delay, t, come);
    *held
}

/// Returns whether some node's drive is dominant at node `j` at tick `t`. `come` and `sources` are what was known of each node's. One that
/// is dominant is enough, so those after it aren't asked.
pub(crate) fn driven(
    plan: &CheckedPlan,
    drives: &Drives,
    j: usize,
    t: u64,
    come: &mut [usize; MOST_NODES],
    sources: &mut [Pulse; MOST_NODES],
) -> Pulse
    requires drives { drives.now ≡ drives_of (outcome_of plan.now) }
    requires node { j < length plan.now.nodes }
    requires early { t ≤ latest_end }
    requires was { Comes plan.now j t sources.old }
    ensures drives { Lasts (driven_at plan.now j) t result }
    ensures sources { Comes plan.now j t sources.new }
{
    plan.laws();
    let mut until = u64::MAX;
    for i in 0..plan.nodes.len() {
        let held = ask_again(plan, drives, i, j, t, &mut come[i], &mut sources[i]);
        if held.dominant {
            return held;
        }
        until = until.min(held.until);
    }
    Pulse {
        from: t,
        until,
        dominant: false,
    }
}

/// Returns a probe of each node, from tick `at` on. Refused only if memory runs out.
pub(crate) fn all_probes(
    alloc: Global,
    plan: &CheckedPlan,
    drives: &Drives,
    at: u64,
) -> Result<Vec<Probe>, AllocError>
    requires drives { drives.now ≡ drives_of (outcome_of plan.now) }
    requires early { at ≤ latest_end }
    ensures { IfOk result (λ probes. AllWatched plan.now at probes.items) }
{
    let nodes = plan.nodes.len();
    let mut probes = Vec::with_capacity(alloc, nodes)?;
    for i in 0..nodes {
        let mut node = Probe::new(alloc, plan, i)?;
        node.go(plan, drives, i, 0);
        node.follow(plan, drives, i, at);
        probes.push(node)?;
    }
    Ok(probes)
}

/// Returns the signals of all nodes at the tick of their probes. Refused only if memory runs out.
pub(crate) fn first_signals(
    alloc: Global,
    plan: &CheckedPlan,
    probes: &[Probe],
) -> Result<Vec<NodeSignals>, AllocError>
    ensures { IfOk result (λ now. (t : ℕ) → AllWatched plan.now t probes.now → now.items ≡ signals plan.now t) }
{
    plan.laws();
    wl_plan::simulation_laws();
    let mut now = Vec::with_capacity(alloc, probes.len())?;
    for i in 0..probes.len() {
        now.push(probes[i].signals())?;
    }
    Ok(now)
}

/// Returns when the turn of each node comes: its signals stay up to then.
pub(crate) fn calendar_of(plan: &CheckedPlan, probes: &[Probe]) -> Calendar
    requires probes { (t : ℕ) × AllWatched plan.now t probes.now }
    ensures { IsCalendarOf plan.now.end probes.now result }
{
    plan.laws();
    let mut calendar = Calendar::new(probes.len());
    for i in 0..probes.len() {
        calendar.put(i, probes[i].until.min(plan.end));
    }
    calendar
}

/// Adds those signals of node `i` that change at tick `t`, up to which they stayed. Its probe is at that tick afterwards.
fn push_node(
    text: &mut Lines,
    plan: &CheckedPlan,
    drives: &Drives,
    i: usize,
    t: u64,
    probe: &mut Probe,
)
    requires drives { drives.now ≡ drives_of (outcome_of plan.now) }
    requires node { i < length plan.now.nodes }
    requires some { 0 < t }
    requires early { t ≤ latest_end }
    requires was { Watches plan.now i (t - 1) probe.old }
    requires past { probe.old.until ≤ t }
    requires room { array_vec_len text.old + longest_node_changes ≤ piece_room }
    ensures lines { text.new.items ≡ text.old.items
        ++ node_changes i (node_signals plan.now (t - 1) i) (node_signals plan.now t i) }
    ensures grown { array_vec_len text.new ≤ array_vec_len text.old + longest_node_changes }
    ensures watches { Watches plan.now i t probe.new }
{
    plan.laws();
    wl_plan::simulation_laws();
    let was = probe.signals();
    probe.go(plan, drives, i, t);
    push_node_changes(text, i, was, probe.signals());
}

/// Adds those signals of all nodes that change at tick `t`, and returns a later tick up to which none of them changes again. Only nodes whose
/// turn has come are looked at, the first one first.
pub(crate) fn push_changes(
    text: &mut Lines,
    plan: &CheckedPlan,
    drives: &Drives,
    t: u64,
    probes: &mut [Probe],
    calendar: &mut Calendar,
) -> u64
    requires drives { drives.now ≡ drives_of (outcome_of plan.now) }
    requires some { 0 < t }
    requires early { t < plan.now.end }
    requires probes { AllWatched plan.now (t - 1) probes.old }
    requires calendar { IsCalendarOf plan.now.end probes.old calendar.old }
    requires room { array_vec_len text.old + longest_tick_changes ≤ piece_room }
    ensures lines { text.new.items ≡ text.old.items ++ changes_from 0 (signals plan.now (t - 1)) (signals plan.now t) }
    ensures grown { array_vec_len text.new ≤ array_vec_len text.old + longest_tick_changes }
    ensures later { t < result }
    ensures inside { result ≤ plan.now.end }
    ensures stays { (u : ℕ) → t ≤ u → u < result → signals plan.now u ≡ signals plan.now t }
    ensures probes { AllWatched plan.now (result - 1) probes.new }
    ensures calendar { IsCalendarOf plan.now.end probes.new calendar.new }
{
    plan.laws();
    wl_plan::simulation_laws();
    let mut next = 0;
    let mut first = calendar.first();
    while next < probes.len() && first.0 <= t {
        let i = first.1;
        push_node(text, plan, drives, i, t, &mut probes[i]);
        calendar.put(i, probes[i].until.min(plan.end));
        next = i + 1;
        first = calendar.first();
    }
    first.0.min(plan.end)
}
