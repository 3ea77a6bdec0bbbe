//! Settling: records are delivered to all groups and nodes advance, round by round, until all are at the end.
ghost use Rattle.std.specs.Prelude.{◌≡◌, ◌↔◌, ℕ, ◌<◌, ◌≤◌, true, false, Ok, IsTrue, IfOk, OnOk, OnErr, IfSome, IfNone};
ghost use Rattle.wl_replica.specs.KnownLaws.{KnownLaws};
ghost use Rattle.wl_plan.specs.Checked.{CheckedIsSound};
ghost use Rattle.wl_plan.specs.Groupings.{GroupingLaws};
ghost use Rattle.wl_plan.specs.SimulationLaws.{SimulationLaws};
ghost use Rattle.wl_group.specs.GroupLaws.{GroupLaws};
ghost use Rattle.wl_group.specs.PartyLaws.{PartyLaws};
ghost use Rattle.wl_group.specs.GroupValue.{belongs as has, has_ended};

use crate::world::World;
use crate::worlds_are_faithful;
use std::alloc::AllocError;
use wl_group::Group;

/// True if all members of a group are at the end.
fn is_at_end(group: &Group) -> bool
    ensures { IsTrue result ↔ ((i : ℕ) → has group.now i ≡ true → has_ended group.now i ≡ true) }
{
    for i in 0..group.replica().nodes() {
        if group.has(i) && !group.has_ended(i) {
            return false;
        }
    }
    true
}

/// What the numbers of rounds and of quanta that are left rest on.
fn laws_of_rounds()
    ensures simulation { SimulationLaws }
    ensures sound { CheckedIsSound }
    ensures grouping { GroupingLaws }
    ensures known { KnownLaws }
    ensures groups { GroupLaws }
    ensures family { PartyLaws }
{
    wl_plan::simulation_laws();
    wl_plan::checked_is_sound();
    wl_plan::grouping_laws();
    wl_replica::known_laws();
    wl_group::group_laws();
    wl_group::party_laws();
}

impl World {
    ghost use Rattle.wl_plan.specs.PlanLine.{line_of};
    ghost use Rattle.wl_plan.specs.Groupings.{groups_of};
    ghost use Rattle.wl_world.specs.Ended.{AreAtEnd, quanta_left_of};
    ghost use Rattle.wl_world.specs.Faithful.{IsFaithfulValue, HasGrown};
    ghost use Rattle.wl_world.specs.Moves.{MovesLed};
    ghost use Rattle.wl_world.specs.WorldSteps.{SettlesIn, MovesOn, RoundsOn, HandsTo, HandsToAll, Exhausts, ExhaustsAll, MayAdvance, IsStuckIn};
    ghost use Rattle.wl_world.specs.WorldValue.{cast_of};

    /// True if all nodes are at the end: the next quantum of each isn't below it.
    pub fn at_end(&self) -> bool
        ensures { IsTrue result ↔ AreAtEnd self.now }
    {
        for group in &self.groups {
            if !is_at_end(group) {
                return false;
            }
        }
        true
    }

    /// Goes on until all nodes are at the end, and returns in how many rounds. In a round each group is handed all records that were
    /// emitted before it, and then nodes advance until none can. There are no more rounds than quanta were left, and none if all were at
    /// the end. Refused when out of memory, the deliveries and advances that were made stay.
    pub fn settle(&mut self) -> Result<u64, AllocError>
        ensures settled { IfOk result (λ n. SettlesIn self.old self.new n) }
        ensures few { IfOk result (λ n. n ≤ quanta_left_of self.old) }
        ensures ended { OnOk result (AreAtEnd self.new) }
        ensures moved { OnErr result (MovesOn self.old self.new) }
        ensures nothing { AreAtEnd self.old → (result ≡ Ok 0) × (self.new ≡ self.old) }
        ensures faithful { IsFaithfulValue self.new }
        ensures grows { HasGrown self.old self.new }
        ensures plan { self.new.plan ≡ self.old.plan }
        ensures grouping { self.new.numbers ≡ self.old.numbers }
    {
        worlds_are_faithful();
        // (reading a part gives the proof what the type keeps)
        let _ = &self.plan;
        let rounds = self.go_round();
        let _ = &self.plan;
        rounds
    }

    /// Runs round after round, until all nodes are at the end. Returns how many.
    fn go_round(&mut self) -> Result<u64, AllocError>
        ensures settled { IfOk result (λ n. SettlesIn self.old self.new n) }
        ensures few { IfOk result (λ n. n ≤ quanta_left_of self.old) }
        ensures ended { OnOk result (AreAtEnd self.new) }
        ensures moved { OnErr result (MovesOn self.old self.new) }
        ensures nothing { AreAtEnd self.old → (result ≡ Ok 0) × (self.new ≡ self.old) }
        ensures plan { self.new.plan ≡ self.old.plan }
        ensures grouping { self.new.numbers ≡ self.old.numbers }
    {
        laws_of_rounds();
        let mut rounds = 0;
        let mut known = 0;
        // (reading a part gives the proof what the type keeps)
        let _ = &self.plan;
        while !self.at_end() {
            known = self.round(known)?;
            let _ = &self.plan;
            rounds += 1;
        }
        Ok(rounds)
    }

    /// Runs one round, before which each group has taken the first `from` records. Returns how many each has taken then.
    fn round(&mut self, from: u64) -> Result<u64, AllocError>
        ensures rounded { IfOk result (λ to. RoundsOn from to self.old self.new) }
        ensures moved { OnErr result (MovesLed (line_of self.old.plan) (cast_of self.old.numbers) self.old self.new) }
        ensures plan { self.new.plan ≡ self.old.plan }
        ensures grouping { self.new.numbers ≡ self.old.numbers }
    {
        wl_group::party_laws();
        let to = self.emitted.len() as u64;
        self.deliver_to_all(from, to)?;
        self.advance_all()?;
        Ok(to)
    }

    /// Hands each group the emitted records from number `from` up to number `to`.
    fn deliver_to_all(&mut self, from: u64, to: u64) -> Result<(), AllocError>
        ensures handed { OnOk result (HandsToAll from to self.old self.new) }
        ensures moved { OnErr result (MovesLed (line_of self.old.plan) (cast_of self.old.numbers) self.old self.new) }
        ensures plan { self.new.plan ≡ self.old.plan }
        ensures grouping { self.new.numbers ≡ self.old.numbers }
    {
        wl_group::party_laws();
        for group in 0..self.grouping.groups() {
            self.deliver_to(group, from, to)?;
        }
        Ok(())
    }

    /// Hands a group the emitted records from number `from` up to number `to`.
    fn deliver_to(&mut self, group: u8, from: u64, to: u64) -> Result<(), AllocError>
        requires { group < groups_of self.old.numbers }
        ensures handed { OnOk result (HandsTo group from to self.old self.new) }
        ensures moved { OnErr result (MovesLed (line_of self.old.plan) (cast_of self.old.numbers) self.old self.new) }
        ensures plan { self.new.plan ≡ self.old.plan }
        ensures grouping { self.new.numbers ≡ self.old.numbers }
    {
        wl_group::party_laws();
        for number in from..to {
            self.deliver(group, number)?;
        }
        Ok(())
    }

    /// Advances each group until no node of it can.
    fn advance_all(&mut self) -> Result<(), AllocError>
        ensures stuck { OnOk result (ExhaustsAll self.old self.new) }
        ensures moved { OnErr result (MovesLed (line_of self.old.plan) (cast_of self.old.numbers) self.old self.new) }
        ensures plan { self.new.plan ≡ self.old.plan }
        ensures grouping { self.new.numbers ≡ self.old.numbers }
    {
        wl_group::party_laws();
        for group in 0..self.grouping.groups() {
            self.advance_group(group)?;
        }
        Ok(())
    }

    /// Advances a group until no node of it can.
    fn advance_group(&mut self, group: u8) -> Result<(), AllocError>
        ensures stuck { OnOk result (Exhausts group self.old self.new) }
        ensures moved { OnErr result (MovesLed (line_of self.old.plan) (cast_of self.old.numbers) self.old self.new) }
        ensures plan { self.new.plan ≡ self.old.plan }
        ensures grouping { self.new.numbers ≡ self.old.numbers }
    {
        laws_of_rounds();
        // (reading a part gives the proof what the type keeps)
        let _ = &self.plan;
        while let Some(node) = self.ready(group) {
            self.advance(group, node)?;
            let _ = &self.plan;
        }
        Ok(())
    }

    /// Returns the least node of a group that may run its next quantum; any number may be asked.
    fn ready(&self, group: u8) -> Option<u8>
        ensures ready { IfSome result (MayAdvance self.now group) }
        ensures stuck { IfNone result (IsStuckIn self.now group) }
    {
        wl_plan::grouping_laws();
        wl_group::value_laws();
        if group as usize >= self.groups.len() {
            return None;
        }
        self.groups[group as usize].ready()
    }
}
