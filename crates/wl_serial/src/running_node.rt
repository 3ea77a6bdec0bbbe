//! One node as far as the engine has run it.
ghost use Rattle.std.specs.Prelude.{◌≡◌, ℕ, true, ◌^◌, ◌<◌, ◌≤◌, ◌⊎◌, ◌++◌, [], ◌∷◌, if◌then◌else◌, List, None, IfOk, OnOk, length, take};
ghost use Rattle.wl_clock.specs.Timing.{tick_of};
ghost use Rattle.wl_level.specs.Levels.{same};
ghost use Rattle.wl_plan.specs.Checked.{IsChecked};
ghost use Rattle.wl_plan.specs.declared.plan.Plan.{Plan as GivenPlan};
ghost use Rattle.wl_node.specs.Limits.{most_run_quanta};
ghost use Rattle.wl_node.specs.Marks.{HasPassed};
ghost use Rattle.wl_node.specs.Reached.{IsNode, keeps_lists, node_setup, quanta_of};
ghost use Rattle.wl_plan.specs.Limits.{most_quanta};
ghost use Rattle.wl_plan.specs.PlanLine.{setup_at, table_of};
ghost use Rattle.wl_serial.specs.declared.running_node.Running.{Running as GivenRunning};
ghost use Rattle.wl_serial.specs.Guess.{IsBefore, IsBack};
ghost use Rattle.wl_serial.specs.Outcome.{node_outcome_of, node_totals};
ghost use Rattle.wl_serial.specs.QuietLine.{NodeStands, Stays};
ghost use Rattle.wl_serial.specs.Running.{IsRunning, IsSomewhere, GoesOn, RanBelow, IsKnownOn, IsLater, by_quanta, one_more};
ghost use Rattle.wl_serial.specs.Stretch.{HasFollowed, RunsAny};

use crate::checked::Checked;
use crate::outcome::{Changes, NodeOutcome, NodeTotals};
use std::alloc::{AllocError, Global};
use wl_clock::Clock;
use wl_level::{Level, Listed};
use wl_node::{MOST_RUN_QUANTA, Mark, Node};
use wl_topology::MOST_NODES;

/// For each node a tick.
pub(crate) type Ticks = [u64; MOST_NODES];

/// A node, the changes of its drive so far, the tick of its next quantum, and the tick below which its drive is known.
#[derive(Drop)]
pub(crate) struct Running {
    pub(crate) node: Node,
    pub(crate) changes: Changes,
    pub(crate) next: u64,
    pub(crate) known: u64,
}

/// Where a node was: its mark, how many changes were known, and its ticks.
#[derive(Drop)]
pub(crate) struct Before {
    pub(crate) mark: Mark,
    pub(crate) changes: usize,
    pub(crate) next: u64,
    pub(crate) known: u64,
}

/// No frame has more bits before the end of its CRC sequence (Bosch CAN 2.0 part B, section 3.1).
const MOST_BITS: u64 = 118;

impl Running {
    /// Returns node `i` before its first quantum. It lists its samples if `keeps`, and else only counts them. With `busy` it has room for
    /// what a node samples on a bus that is never idle.
    pub(crate) fn begin(
        alloc: Global,
        plan: &Checked,
        i: usize,
        keeps: bool,
        busy: bool,
    ) -> Result<Running, AllocError>
        requires node { i < length plan.now.nodes }
        ensures running { IfOk result (IsRunning plan.now i) }
        ensures keeps { IfOk result (λ r. keeps_lists r.node ≡ keeps) }
    {
        plan.laws();
        wl_plan::simulation_laws();
        wl_node::node_laws();
        let setup = plan.node(i);
        let next = setup.clock.at(0);
        Ok(Running {
            node: new_node(alloc, plan, i, keeps, busy)?,
            changes: Listed::new(alloc),
            next,
            known: next,
        })
    }

    /// Runs the quanta below tick `until`, up to the first that changes the drive; the node finds this level there as long as its drive
    /// stays. Returns the tick of that quantum, if there is one.
    #[inline(always)]
    pub(crate) fn go(
        &mut self,
        plan: &Checked,
        i: usize,
        level: Level,
        until: u64,
    ) -> Result<Option<u64>, AllocError>
        requires node { i < length plan.now.nodes }
        requires somewhere { IsSomewhere plan.now i self.old }
        requires below { self.old.next < until }
        requires ends { until ≤ plan.now.end }
        ensures somewhere { OnOk result (IsSomewhere plan.now i self.new) }
        ensures goes { OnOk result (GoesOn plan.now i (λ t. level) until self.old self.new) }
        ensures below { OnOk result (RanBelow plan.now i until self.new) }
        ensures known { OnOk result (IsKnownOn self.old self.new) }
        ensures further { OnOk result (IsLater self.old self.new) }
        ensures told { IfOk result (λ change. self.new.changes ≡ one_more self.old.changes change) }
        ensures later { OnOk result (self.old.next < self.new.next) }
    {
        plan.laws();
        let change = self.run(plan, i, level, until)?;
        self.arrive(plan, i);
        Ok(change)
    }

    /// Runs the quanta below tick `until` as `go` does, or none if there is none. The tick of the next quantum isn't noted.
    #[inline(always)]
    pub(crate) fn run(
        &mut self,
        plan: &Checked,
        i: usize,
        level: Level,
        until: u64,
    ) -> Result<Option<u64>, AllocError>
        requires node { i < length plan.now.nodes }
        requires somewhere { IsSomewhere plan.now i (by_quanta plan.now i self.old) }
        requires ends { until ≤ plan.now.end }
        ensures ran { OnOk result (HasFollowed plan.now i until (λ t. level) (by_quanta plan.now i self.old)
            (by_quanta plan.now i self.new)) }
        ensures told { IfOk result (λ change. self.new.changes ≡ one_more self.old.changes change) }
        ensures later { OnOk result (RunsAny until (by_quanta plan.now i self.old) (by_quanta plan.now i self.new)) }
        ensures reached { IfOk result (λ change. (levels : List Level) → IsNode levels self.old.node → change ≡ None
            → until ≤ (by_quanta plan.now i self.new).next) }
    {
        plan.laws();
        wl_plan::simulation_laws();
        wl_record_core::table_laws();
        let clock = &plan.node(i).clock;
        let quanta = self.node.quanta();
        let stop = clock.first_not_before(until);
        if stop <= quanta {
            return Ok(None);
        }
        let before = self.node.drive();
        let last = quanta + self.node.go(level, stop - quanta)? - 1;
        let after = self.node.drive();
        let change = keep_change(&mut self.changes, clock, last, before, after)?;
        Ok(change)
    }

    /// Notes the tick of the next quantum. The drive is known up to there.
    #[inline(always)]
    pub(crate) fn arrive(&mut self, plan: &Checked, i: usize)
        requires node { i < length plan.now.nodes }
        requires few { quanta_of self.old.node ≤ most_quanta }
        ensures node { self.new.node ≡ self.old.node }
        ensures changes { self.new.changes ≡ self.old.changes }
        ensures next { self.new.next ≡ (by_quanta plan.now i self.old).next }
        ensures promised { self.new.next ≤ self.new.known }
        ensures known { (self.new.known ≤ self.old.known) ⊎ (self.new.known ≤ self.new.next) }
    {
        self.next = plan.node(i).clock.at(self.node.quanta());
        self.known = self.known.max(self.next);
    }

    /// Notes up to which tick the drive is known, whatever the node sees.
    pub(crate) fn promise(&mut self, plan: &Checked, i: usize)
        requires node { i < length plan.now.nodes }
        requires running { IsRunning plan.now i self.old }
        ensures running { IsRunning plan.now i self.new }
        ensures node { self.new.node ≡ self.old.node }
        ensures next { self.new.next ≡ self.old.next }
        ensures changes { self.new.changes ≡ self.old.changes }
    {
        plan.laws();
        wl_plan::simulation_laws();
        let last = self.node.quanta() + self.node.quiet() as u64;
        self.known = plan.node(i).clock.at(last);
    }

    /// Returns where the node is.
    pub(crate) fn keep(&self) -> Before
        ensures { IsBefore self.now result }
    {
        Before {
            mark: self.node.keep(),
            changes: self.changes.len(),
            next: self.next,
            known: self.known,
        }
    }

    /// Puts the node back to where it was. Refused only when out of memory.
    pub(crate) fn back(&mut self, alloc: Global, before: &Before) -> Result<(), AllocError>
        requires { HasPassed before.now.mark self.old.node }
        ensures { OnOk result ((old : GivenRunning) → IsBefore old before.now → IsLater old self.old
            → IsBack old self.new) }
    {
        self.node.back(&before.mark);
        self.next = before.next;
        self.known = before.known;
        cut(alloc, &mut self.changes, before.changes)?;
        Ok(())
    }

    /// Returns the tick at which a transmitter is sure to be near the end of its CRC sequence, or before it; at most the end. 0 for a node
    /// that doesn't transmit.
    pub(crate) fn sends_until(&self, plan: &Checked, i: usize) -> u64
        requires node { i < length plan.now.nodes }
        requires somewhere { IsSomewhere plan.now i self.now }
        ensures { result ≤ plan.now.end }
    {
        plan.laws();
        let bits = (self.node.to_send() as u64).min(MOST_BITS);
        if bits == 0 || plan.end() <= self.next {
            return 0;
        }
        let setup = plan.node(i);
        let last = self.node.quanta() + bits * setup.segments.bit_quanta();
        setup.clock.at(last).min(plan.end())
    }

    /// Returns up to which tick the node is sure to drive recessive, if it sees recessive only; 0 if it drives dominant.
    pub(crate) fn stands_until(&self, plan: &Checked, i: usize) -> u64
        requires node { i < length plan.now.nodes }
        requires running { IsRunning plan.now i self.now }
        ensures { 0 < result → NodeStands plan.now result i self.now }
    {
        plan.laws();
        wl_plan::simulation_laws();
        let stays = self.node.stays();
        if stays == 0 || self.node.drive().is_dominant() {
            return 0;
        }
        let last = self.node.quanta() + stays;
        plan.node(i).clock.at(last.min(MOST_RUN_QUANTA))
    }

    /// Notes that the drive is known below a tick, if it isn't known further.
    pub(crate) fn lift(&mut self, plan: &Checked, i: usize, until: u64)
        requires running { IsRunning plan.now i self.old }
        requires stays { Stays plan.now until i self.old }
        ensures running { IsRunning plan.now i self.new }
        ensures node { self.new.node ≡ self.old.node }
        ensures next { self.new.next ≡ self.old.next }
        ensures changes { self.new.changes ≡ self.old.changes }
        ensures known { self.old.known ≤ self.new.known }
    {
        self.known = self.known.max(until);
    }

    /// Returns what the node did; it has run all its quanta before the end, and lists its samples.
    pub(crate) fn finish(self) -> NodeOutcome
        ensures { (plan : GivenPlan) (i : ℕ) → IsChecked plan → i < length plan.nodes → IsRunning plan i self
            → plan.end ≤ self.next → keeps_lists self.node ≡ true → result ≡ node_outcome_of plan i }
    {
        wl_plan::checked_is_sound();
        wl_plan::simulation_laws();
        let counters = self.node.counters();
        let hards = self.node.hards();
        let errors = self.node.errors();
        let unsent = self.node.unsent();
        let lists = self.node.into_lists();
        NodeOutcome {
            changes: self.changes,
            samples: lists.samples,
            frames: lists.frames,
            counters,
            phases: lists.phases,
            hards,
            errors,
            unsent,
        }
    }

    /// Returns what a report says of the node; it has run all its quanta before the end.
    pub(crate) fn totals(self) -> NodeTotals
        ensures { (plan : GivenPlan) (i : ℕ) → IsChecked plan → i < length plan.nodes → IsRunning plan i self
            → plan.end ≤ self.next → result ≡ node_totals (node_outcome_of plan i) }
    {
        self.counted().1
    }

    /// Returns the ticks at which its drive changed, and what a report says of it; it has run all its quanta before the end.
    pub(crate) fn counted(self) -> (Changes, NodeTotals)
        ensures drives { (plan : GivenPlan) (i : ℕ) → IsChecked plan → i < length plan.nodes → IsRunning plan i self
            → plan.end ≤ self.next → result.0 ≡ table_of plan i }
        ensures totals { (plan : GivenPlan) (i : ℕ) → IsChecked plan → i < length plan.nodes → IsRunning plan i self
            → plan.end ≤ self.next → result.1 ≡ node_totals (node_outcome_of plan i) }
    {
        wl_plan::checked_is_sound();
        wl_plan::simulation_laws();
        let samples = self.node.sample_count();
        let counters = self.node.counters();
        let hards = self.node.hards();
        let errors = self.node.errors();
        let unsent = self.node.unsent();
        let phases = self.node.phase_totals();
        let lists = self.node.into_lists();
        let totals = NodeTotals {
            samples,
            frames: lists.frames,
            counters,
            phases,
            hards,
            errors,
            unsent,
        };
        (self.changes, totals)
    }
}

/// Returns node `i` before its first quantum, that lists its samples or only counts them.
fn fresh_node(alloc: Global, plan: &Checked, i: usize, keeps: bool) -> Result<Node, AllocError>
    requires node { i < length plan.now.nodes }
    ensures node { IfOk result (IsNode []) }
    ensures setup { IfOk result (λ node. node_setup node ≡ setup_at plan.now i) }
    ensures keeps { IfOk result (λ node. keeps_lists node ≡ keeps) }
{
    let setup = plan.node(i).clone_in(alloc)?;
    if keeps {
        Node::new(alloc, setup)
    } else {
        Node::counting(alloc, setup)
    }
}

/// Returns such a node. With `busy` it has room for 5 runs of samples in 8 bits up to the end, and for an edge in 5 bits: most frames have no
/// more of them. More room is made where it is needed.
fn new_node(
    alloc: Global,
    plan: &Checked,
    i: usize,
    keeps: bool,
    busy: bool,
) -> Result<Node, AllocError>
    requires node { i < length plan.now.nodes }
    ensures node { IfOk result (IsNode []) }
    ensures setup { IfOk result (λ node. node_setup node ≡ setup_at plan.now i) }
    ensures keeps { IfOk result (λ node. keeps_lists node ≡ keeps) }
{
    plan.laws();
    let mut node = fresh_node(alloc, plan, i, keeps)?;
    if busy {
        let setup = plan.node(i);
        let bits = setup.clock.first_not_before(plan.end()) / setup.segments.bit_quanta();
        node.reserve((bits / 8 * 5) as usize, (bits / 5) as usize)?;
    }
    Ok(node)
}

/// Adds the tick of a quantum that changed the drive, and returns it; nothing if the drive is as before.
#[inline(always)]
fn keep_change(
    changes: &mut Changes,
    clock: &Clock,
    quantum: u64,
    before: Level,
    after: Level,
) -> Result<Option<u64>, AllocError>
    requires { quantum ≤ most_run_quanta }
    ensures kept { OnOk result (changes.new
        ≡ (if same after before then changes.old else changes.old ++ tick_of clock.now quantum ∷ [])) }
    ensures told { IfOk result (λ change. changes.new ≡ one_more changes.old change) }
{
    if after.is(before) {
        return Ok(None);
    }
    let tick = clock.at(quantum);
    changes.push(tick)?;
    Ok(Some(tick))
}

/// Keeps this many changes, the first ones. Refused only when out of memory.
fn cut(alloc: Global, changes: &mut Changes, count: usize) -> Result<(), AllocError>
    ensures { OnOk result (changes.new ≡ take count changes.old) }
{
    if changes.len() <= count {
        return Ok(());
    }
    let kept = Vec::from_slice(alloc, &changes.as_slice()[..count])?;
    *changes = Listed::from_vec(kept);
    Ok(())
}
