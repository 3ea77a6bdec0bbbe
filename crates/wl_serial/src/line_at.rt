//! What a node finds on the line, and for how long, by how far the nodes have run.
ghost use Rattle.std.specs.Prelude.{◌≡◌, ℕ, ◌+◌, ◌<◌, ◌≤◌, ◌^◌, ◌||◌, List, length, set, slice_index_or};
ghost use Rattle.wl_level.specs.Levels.{level_of};
ghost use Rattle.wl_plan.specs.declared.plan.Plan.{Plan as GivenPlan};
ghost use Rattle.wl_serial.specs.LineAt.{AreDelays, AreOthers, AreSooner, IsLineAt, AreLines, IsFound, IsHeard, AreHeard, HasChanged, HearsOnly};
ghost use Rattle.wl_serial.specs.QuietLine.{IsSilent};
ghost use Rattle.wl_serial.specs.Running.{AreRunning, AreSomewhere, AreKnown, KnowsOthers, RunsBelow, AllKnown};

use crate::checked::Checked;
use crate::running_node::{Running, Ticks};
use crate::sources::Sources;
use wl_level::Level;
use wl_pulse::{Pulse, SILENCE, disturbed_at};
use wl_topology::MOST_NODES;

/// What a place keeps of the line. It has the delay from each node and from each other node, and what arrives from each node. It has what
/// the disturbances make, and what the nodes make by the changes that are known.
#[derive(Drop)]
pub(crate) struct LineAt {
    pub(crate) delays: Ticks,
    pub(crate) others: Ticks,
    pub(crate) sources: Sources,
    pub(crate) disturbance: Pulse,
    pub(crate) heard: Pulse,
}

/// The level that a node finds below a tick.
#[derive(Clone, Copy)]
pub(crate) struct Found {
    pub(crate) until: u64,
    pub(crate) level: Level,
}

impl LineAt {
    /// Returns the line at the place of node `j`, before anything is heard.
    pub(crate) fn new(plan: &Checked, j: usize) -> LineAt
        requires node { j < length plan.now.nodes }
        ensures line { IsLineAt plan.now j result }
        ensures heard { (running : List Running) → IsHeard plan.now running j result }
    {
        LineAt {
            delays: delays_to(plan, j),
            others: delays_of_others(plan, j),
            sources: Sources::new(plan),
            disturbance: SILENCE,
            heard: SILENCE,
        }
    }

    /// Returns the tick below which all that arrives at node `j` from the others is known; at most the end.
    pub(crate) fn horizon(
        &self,
        plan: &Checked,
        running: &[Running],
        known: &Ticks,
        j: usize,
    ) -> u64
        requires running { AreRunning plan.now running.now }
        requires known { AreKnown plan.now.end running.now known.now }
        requires node { j < length plan.now.nodes }
        requires line { IsLineAt plan.now j self.now }
        ensures known { KnowsOthers plan.now j result running.now }
        ensures ends { result ≤ plan.now.end }
        ensures later { (t : ℕ) → t < plan.now.end → AllKnown t running.now → t < result }
    {
        plan.laws();
        let mut horizon = plan.end();
        for i in 0..plan.nodes() {
            horizon = horizon.min(known[i].saturating_add(self.others[i]));
        }
        horizon
    }

    /// Returns what node `j` finds from its next quantum on, below a tick, by the changes that are known.
    #[inline(always)]
    pub(crate) fn level_at(
        &mut self,
        plan: &Checked,
        running: &[Running],
        j: usize,
        until: u64,
    ) -> Found
        requires node { j < length plan.now.nodes }
        requires somewhere { AreSomewhere plan.now running.now }
        requires line { IsLineAt plan.now j self.old }
        requires ends { until ≤ plan.now.end }
        requires below { RunsBelow until running.now j }
        requires heard { IsHeard plan.now running.now j self.old }
        ensures line { IsLineAt plan.now j self.new }
        ensures heard { IsHeard plan.now running.now j self.new }
        ensures few { result.until ≤ until }
        ensures found { IsFound plan.now j running.now result }
    {
        plan.laws();
        let t = running[j].next;
        self.refresh(plan, running, j, t);
        if self.disturbance.until <= t {
            self.disturbance = disturbed_at(plan, j, t);
        }
        Found {
            until: self.heard.until.min(self.disturbance.until).min(until),
            level: level_by(self.heard.dominant, self.disturbance.dominant),
        }
    }

    /// Returns the tick below which nothing dominant arrives at node `j` from its next quantum on, by the known changes and by the
    /// disturbances.
    pub(crate) fn silent_until(&self, running: &[Running], j: usize) -> u64
        requires node { j < length running.now }
        ensures { (plan : GivenPlan) (d : Running) → IsLineAt plan j self.now → IsHeard plan running.now j self.now
            → IsSilent plan running.now j (slice_index_or running.now j d).next result }
    {
        if self.heard.dominant || self.disturbance.dominant {
            return 0;
        }
        self.heard.until.min(self.disturbance.until)
    }

    /// Returns the tick below which node `i` finds what node `j` drove, from its next quantum on, by the known changes; 0 if something else
    /// may be there.
    pub(crate) fn alone_until(&self, plan: &Checked, running: &[Running], j: usize, i: usize) -> u64
        requires node { i < length plan.now.nodes }
        requires leader { j < length plan.now.nodes }
        requires all { length running.now ≡ length plan.now.nodes }
        requires line { IsLineAt plan.now i self.now }
        requires heard { IsHeard plan.now running.now i self.now }
        ensures { HearsOnly plan.now running.now j i result }
    {
        plan.laws();
        if self.disturbance.dominant {
            return 0;
        }
        self.sources
            .alone_until(plan, j)
            .min(self.disturbance.until)
    }

    /// Asks what arrives from the nodes, if the last answer doesn't say it for tick `t`, at which node `j` has its next quantum.
    fn refresh(&mut self, plan: &Checked, running: &[Running], j: usize, t: u64)
        requires node { j < length plan.now.nodes }
        requires somewhere { AreSomewhere plan.now running.now }
        requires early { t < 2 ^ 63 }
        requires next { (d : Running) → t ≡ (slice_index_or running.now j d).next }
        requires line { IsLineAt plan.now j self.old }
        requires heard { IsHeard plan.now running.now j self.old }
        ensures line { IsLineAt plan.now j self.new }
        ensures heard { IsHeard plan.now running.now j self.new }
        ensures from { self.new.heard.from ≤ t }
        ensures until { t < self.new.heard.until }
        ensures disturbance { self.new.disturbance ≡ self.old.disturbance }
    {
        if self.heard.until <= t {
            self.heard = self.sources.hear(plan, running, &self.delays, j, t);
        }
    }

    /// Notes that a change of node `i` at this tick will arrive.
    fn expect(&mut self, i: usize, tick: u64)
        requires delays { i < length self.old.delays }
        requires nexts { i < length self.old.sources.nexts }
        ensures delays { self.new.delays ≡ self.old.delays }
        ensures others { self.new.others ≡ self.old.others }
        ensures disturbance { self.new.disturbance ≡ self.old.disturbance }
        ensures from { self.new.heard.from ≡ self.old.heard.from }
        ensures few { self.new.heard.until ≤ self.old.heard.until }
        ensures comes { self.new.heard.until ≤ tick + slice_index_or self.old.delays i 0 }
        ensures dominant { self.new.heard.dominant ≡ self.old.heard.dominant }
        ensures sources { AreSooner i (tick + slice_index_or self.old.delays i 0) self.old.sources self.new.sources }
    {
        let comes = tick.saturating_add(self.delays[i]);
        self.sources.expect(i, comes);
        self.heard.until = self.heard.until.min(comes);
    }
}

/// Returns the delay from each node to place `j`.
fn delays_to(plan: &Checked, j: usize) -> Ticks
    requires node { j < length plan.now.nodes }
    ensures { AreDelays plan.now j result }
{
    plan.laws();
    let mut delays = [0; MOST_NODES];
    for i in 0..plan.nodes() {
        delays[i] = plan.delay(i, j);
    }
    delays
}

/// Returns the delay from each other node to place `j`, and from its own one more than any tick.
fn delays_of_others(plan: &Checked, j: usize) -> Ticks
    requires node { j < length plan.now.nodes }
    ensures { AreOthers plan.now j result }
{
    plan.laws();
    let mut others = [u64::MAX; MOST_NODES];
    for i in 0..plan.nodes() {
        if i != j {
            others[i] = plan.delay(i, j);
        }
    }
    others
}

/// Notes for all places that node `i` changed its drive at this tick.
pub(crate) fn tell(plan: &Checked, lines: &mut [LineAt], i: usize, tick: u64)
    requires lines { AreLines plan.now lines.old }
    requires node { i < length plan.now.nodes }
    ensures lines { AreLines plan.now lines.new }
    ensures heard { (rs : List Running) (r : Running) → i < length rs → AreHeard plan.now rs lines.old
        → HasChanged i tick rs r → AreHeard plan.now (set rs i r) lines.new }
{
    plan.laws();
    wl_record_core::table_laws();
    for m in 0..lines.len() {
        lines[m].expect(i, tick);
    }
}

/// Returns the level that nodes and disturbances make.
pub(crate) fn level_by(driven: bool, disturbed: bool) -> Level
    ensures { result ≡ level_of (driven || disturbed) }
{
    if driven || disturbed {
        return Level::Dominant;
    }
    Level::Recessive
}
