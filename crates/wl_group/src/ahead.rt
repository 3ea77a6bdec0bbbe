//! The line ahead of a member: stretches that it finds, one after another, and its quanta in all of them.
ghost use Rattle.std.specs.Prelude.{◌≡◌, ℕ, ◌<◌, ◌≤◌, ◌-◌, ◌^◌, ◌++◌, true, length, IfOk, OnErr};
ghost use Rattle.wl_record_core.specs.Limits.{most_edges};
ghost use Rattle.wl_replica.specs.State.{slots_of, state_with_records};
ghost use Rattle.wl_replica.specs.Known.{place_horizon};
ghost use Rattle.wl_node.specs.Reached.{quanta_of};
ghost use Rattle.wl_plan.specs.PlanLine.{line_of};
ghost use Rattle.wl_plan.specs.Simulation.{AreInside};
ghost use Rattle.wl_group.specs.Heard.{IsStretch};
ghost use Rattle.wl_group.specs.Kept.{IsCell};
ghost use Rattle.wl_group.specs.Running.{HasNotGone};
ghost use Rattle.wl_group.specs.Through.{AreAhead, HasGoneIn, HasGoneOver, MaySayOver};

use crate::advance::{append, make_room, prepare};
use crate::answer::Emission;
use crate::cell::Cell;
use crate::group::Group;
use crate::heard::{disturbance_around, stretch_around};
use crate::laws::{group_laws, value_laws};
use std::alloc::{AllocError, Global};
use wl_plan::CheckedPlan;
use wl_pulse::{Pulse, SILENCE};
use wl_record_core::Record;
use wl_replica::Replica;

/// How many stretches of the line a member finds ahead at most.
pub(crate) const MOST_AHEAD: usize = 16;

/// Stretches of the line at a member's place, one after another, and how many there are.
#[derive(Drop)]
pub(crate) struct Ahead {
    pub(crate) stretches: [Pulse; MOST_AHEAD],
    pub(crate) count: usize,
}

impl Ahead {
    /// Returns room for stretches that are still to be found.
    pub(crate) fn nothing() -> Ahead {
        Ahead {
            stretches: [SILENCE; MOST_AHEAD],
            count: 0,
        }
    }
}

impl Group {
    ghost use Rattle.wl_group.specs.GroupValue.{belongs, members_now};
    ghost use Rattle.wl_group.specs.Member.{next_tick};

    /// Finds the stretches of the line at a member's place, one after another from its next quantum on, up to a tick up to which it is known
    /// there: the first one, and at most this many more. They take the place of those that were found before.
    pub(crate) fn look_ahead(&mut self, i: u8, end: u64, more: u8, ahead: &mut Ahead)
        requires member { belongs self.old i ≡ true }
        requires early { end < 2 ^ 64 - 1 }
        requires due { next_tick (line_of self.old.plan) i (members_now self.old i) < end }
        requires known { let l = line_of self.old.plan in
            end ≤ place_horizon l.nodes l.delay (slots_of self.old.replica) i }
        ensures same { self.new ≡ self.old }
        ensures some { 0 < ahead.new.count }
        ensures ahead { let l = line_of self.old.plan in
            AreAhead l i (next_tick l i (members_now self.old i)) ahead.new.stretches ahead.new.count }
    {
        value_laws();
        let tick = self.due(i);
        ahead.stretches[0] = self.find(i, tick);
        ahead.count = 1;
        for _ in 0..more {
            if !self.look_on(i, end, ahead) {
                return;
            }
        }
    }

    /// Finds one stretch more, if there is room for it and the last one is over before a tick up to which the line is known. Returns whether
    /// it did.
    fn look_on(&mut self, i: u8, end: u64, ahead: &mut Ahead) -> bool
        requires member { belongs self.old i ≡ true }
        requires early { end < 2 ^ 64 - 1 }
        requires known { let l = line_of self.old.plan in
            end ≤ place_horizon l.nodes l.delay (slots_of self.old.replica) i }
        requires some { 0 < ahead.old.count }
        requires few { ahead.old.count ≤ length ahead.old.stretches }
        ensures same { self.new ≡ self.old }
        ensures some { 0 < ahead.new.count }
        ensures few { ahead.new.count ≤ length ahead.new.stretches }
        ensures ahead { (t : ℕ) → AreAhead (line_of self.old.plan) i t ahead.old.stretches ahead.old.count
            → AreAhead (line_of self.old.plan) i t ahead.new.stretches ahead.new.count }
    {
        if ahead.count >= MOST_AHEAD {
            return false;
        }
        let tick = ahead.stretches[ahead.count - 1].until;
        if tick >= end {
            return false;
        }
        let stretch = self.find(i, tick);
        ahead.stretches[ahead.count] = stretch;
        ahead.count += 1;
        true
    }

    /// Returns the stretch of the line at a member's place that has this tick, at which it is known there.
    fn find(&mut self, i: u8, tick: u64) -> Pulse
        requires member { belongs self.old i ≡ true }
        requires early { tick < 2 ^ 64 - 1 }
        requires known { let l = line_of self.old.plan in
            tick < place_horizon l.nodes l.delay (slots_of self.old.replica) i }
        ensures same { self.new ≡ self.old }
        ensures from { result.from ≤ tick }
        ensures until { tick < result.until }
        ensures found { IsStretch (line_of self.old.plan) i result }
    {
        value_laws();
        wl_plan::checked_is_sound();
        let Some(cell) = &self.cells[i as usize] else {
            unreachable!()
        };
        let disturbance = disturbance_around(&self.plan, self.disturbances[i as usize], i, tick);
        self.disturbances[i as usize] = disturbance;
        let stretch = stretch_around(
            &self.plan,
            &self.replica,
            &mut self.sources[i as usize],
            &cell.ways,
            &mut self.lead,
            self.heard[i as usize],
            disturbance,
            i,
            tick,
        );
        self.heard[i as usize] = stretch;
        stretch
    }
}

/// Runs quanta of a member in a row, through stretches of the line and before a tick: one at least, and none after one that changes its
/// drive. The replica takes what it says after them, and it is appended to what was emitted. All growth comes first. Refused when out of
/// memory, all is as it was.
pub(crate) fn run_over(
    alloc: Global,
    plan: &CheckedPlan,
    cell: &mut Cell,
    i: u8,
    ahead: &Ahead,
    end: u64,
    replica: &mut Replica,
    emitted: &mut Vec<Record>,
) -> Result<Emission, AllocError>
    requires node { i < length plan.now.nodes }
    requires cell { IsCell plan.now i cell.old }
    requires some { 0 < ahead.now.count }
    requires ahead { AreAhead (line_of plan.now) i cell.old.next ahead.now.stretches ahead.now.count }
    requires inside { AreInside (line_of plan.now) i (quanta_of cell.old.node) }
    requires due { cell.old.next < end }
    requires stop { end ≤ plan.now.end }
    requires says { MaySayOver plan.now i end cell.old replica.old.nodes }
    requires changed { cell.old.changed ≤ most_edges }
    ensures gone { IfOk result (λ said. HasGoneOver plan.now i end cell.old cell.new said.items) }
    ensures taken { IfOk result (λ said. replica.new ≡ state_with_records replica.old said.items) }
    ensures emitted { IfOk result (λ said. emitted.new.items ≡ emitted.old.items ++ said.items) }
    ensures stays { OnErr result (HasNotGone cell.old cell.new) }
    ensures not_taken { OnErr result (replica.new ≡ replica.old) }
    ensures not_emitted { OnErr result (emitted.new.items ≡ emitted.old.items) }
{
    wl_replica::joining_is_a_join();
    make_room(emitted)?;
    let prepared = prepare(alloc, replica, cell.next_slots(i))?;
    match cell.go_over(plan, i, ahead, end) {
        Ok(said) => {
            *replica = prepared.take_all(&said);
            append(emitted, &said);
            Ok(said)
        }
        Err(_) => {
            *replica = prepared.take_all(&[]);
            Err(AllocError)
        }
    }
}

impl Cell {
    /// Runs quanta of node `i` in a row, through stretches of the line and before a tick: one at least, and none after one that changes its
    /// drive. Returns what it says of all of them. Refused if memory runs out before the first, and the member is where it was.
    fn go_over(
        &mut self,
        plan: &CheckedPlan,
        i: u8,
        ahead: &Ahead,
        end: u64,
    ) -> Result<Emission, AllocError>
        requires node { i < length plan.now.nodes }
        requires cell { IsCell plan.now i self.old }
        requires some { 0 < ahead.now.count }
        requires ahead { AreAhead (line_of plan.now) i self.old.next ahead.now.stretches ahead.now.count }
        requires inside { AreInside (line_of plan.now) i (quanta_of self.old.node) }
        requires due { self.old.next < end }
        requires stop { end ≤ plan.now.end }
        ensures gone { IfOk result (λ said. HasGoneOver plan.now i end self.old self.new said.items) }
        ensures err { OnErr result (HasNotGone self.old self.new) }
    {
        plan.laws();
        wl_plan::simulation_laws();
        let turned = self.go_through(plan, i, ahead, end)?;
        Ok(self.speak(plan, i, turned))
    }

    /// Runs quanta of node `i` in a row, through stretches of the line and before a tick: one at least, and none after one that changes its
    /// drive. Returns true if the last one changed it. Refused if memory runs out before the first, and the member is where it was.
    fn go_through(
        &mut self,
        plan: &CheckedPlan,
        i: u8,
        ahead: &Ahead,
        end: u64,
    ) -> Result<bool, AllocError>
        requires node { i < length plan.now.nodes }
        requires cell { IsCell plan.now i self.old }
        requires some { 0 < ahead.now.count }
        requires ahead { AreAhead (line_of plan.now) i self.old.next ahead.now.stretches ahead.now.count }
        requires inside { AreInside (line_of plan.now) i (quanta_of self.old.node) }
        requires due { self.old.next < end }
        requires stop { end ≤ plan.now.end }
        ensures gone { IfOk result (λ turned. HasGoneIn plan.now i end self.old self.new turned) }
        ensures err { OnErr result (HasNotGone self.old self.new) }
    {
        plan.laws();
        wl_plan::simulation_laws();
        let mut turned = self.go_in(plan, i, ahead.stretches[0], end)?;
        for m in 1..ahead.count {
            let reached = ahead.stretches[m - 1].until;
            if turned || self.next < reached || self.next >= end {
                return Ok(turned);
            }
            let stretch = ahead.stretches[m];
            if self.next < stretch.until {
                match self.go_in(plan, i, stretch, end) {
                    Ok(more) => turned = more,
                    Err(_) => return Ok(turned),
                }
            }
        }
        Ok(turned)
    }

    /// Runs quanta of node `i` in a row in one stretch of the line and before a tick: one at least, and none after one that changes its
    /// drive. Returns true if the last one changed it. Refused if memory runs out before the first, and the member is where it was.
    fn go_in(
        &mut self,
        plan: &CheckedPlan,
        i: u8,
        stretch: Pulse,
        end: u64,
    ) -> Result<bool, AllocError>
        requires node { i < length plan.now.nodes }
        requires cell { IsCell plan.now i self.old }
        requires stretch { IsStretch (line_of plan.now) i stretch }
        requires from { stretch.from ≤ self.old.next }
        requires until { self.old.next < stretch.until }
        requires due { self.old.next < end }
        requires stop { end ≤ plan.now.end }
        ensures gone { IfOk result (λ turned. HasGoneIn plan.now i end self.old self.new turned) }
        ensures err { OnErr result (HasNotGone self.old self.new) }
    {
        plan.laws();
        wl_plan::simulation_laws();
        let ran = self.node.quanta();
        let last = self
            .node
            .setup()
            .clock
            .first_not_before(stretch.until.min(end));
        self.go(stretch.level(), last - ran)
    }
}
