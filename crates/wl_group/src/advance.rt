//! The advances of a group: quanta of its members, one at a time, several in a row, or all that may run.

ghost use Rattle.std.specs.Prelude.{◌≡◌, ℕ, suc, ◌+◌, ◌<◌, ◌≤◌, ◌++◌, true, false, List, IfOk, IsOk, OnOk, OnErr, IfSome, IfNone, IsTrue, length, vec_len, vec_capacity};
ghost use Rattle.wl_plan.specs.PlanLine.{line_of};
ghost use Rattle.wl_group.specs.declared.advance.TheConstants.{MOST_EMITTED};

use crate::ahead::{Ahead, MOST_AHEAD, run_over};
use crate::answer::{Advance, Emission};
use crate::group::Group;
use crate::heard::{known_by, known_of};
use crate::laws::{group_laws, value_laws};
use std::alloc::{AllocError, Global};
use std::mem;
use wl_record_core::{Record, Slot};
use wl_replica::{PREPARED_SLOTS, Prepared, Replica};

impl Group {
    ghost use Rattle.wl_record_core.specs.declared.record.Record.{Record};
    ghost use Rattle.wl_group.specs.Member.{next_tick};
    ghost use Rattle.wl_group.specs.GroupValue.{belongs, members_now, may_run};
    ghost use Rattle.wl_group.specs.Running.{HasRunNext, HasReplied, Ran};
    ghost use Rattle.wl_group.specs.Going.{HasGoneOn, IsKnownAt, IsKnownUpTo};
    ghost use Rattle.wl_group.specs.Said.{reply_of_answer, HasAnswered};

    /// Runs the next quantum of a node, if it may run. Any number may be asked. Refused out of memory, the group is as it was; only a node
    /// that may run can be refused, since else nothing grows.
    pub fn advance(&mut self, node: u8) -> Result<Advance, AllocError>
        ensures value { IfOk result (λ a. HasReplied node self.old self.new (reply_of_answer a)) }
        ensures answer { IfOk result (λ a. HasAnswered node self.old self.new a) }
        ensures plan { self.new.plan ≡ self.old.plan }
        ensures lists { self.new.lists ≡ self.old.lists }
        ensures members { belongs self.new ≡ belongs self.old }
        ensures calm { may_run self.old node ≡ false → IsOk result }
        ensures err { OnErr result (self.new ≡ self.old) }
    {
        value_laws();
        if self.can_advance(node) {
            let emission = self.run_next(node)?;
            return Ok(Advance::Emitted(emission));
        }
        if self.has_ended(node) {
            return Ok(Advance::Ended);
        }
        Ok(Advance::Blocked)
    }

    /// Runs quanta of a node in a row, if it may run one. Returns the change of its drive, if there is one, and one promise in the place of
    /// each quantum's; none if the node may not run, and then nothing changed. Any number may be asked.
    ///
    /// It goes on up to the first quantum that changes the drive. It stays below the end and below what is known of the line at its place
    /// before, and goes through a few stretches of the line. So it may run fewer quanta than it could. Refused out of memory, the group is as
    /// it was.
    pub fn go(&mut self, node: u8) -> Result<Option<Emission>, AllocError>
        ensures none { IfOk result (λ gone. IfNone gone ((may_run self.old node ≡ false) × (self.new ≡ self.old))) }
        ensures gone { IfOk result (λ gone. IfSome gone (λ said. HasGoneOn node self.old self.new said.items)) }
        ensures plan { self.new.plan ≡ self.old.plan }
        ensures lists { self.new.lists ≡ self.old.lists }
        ensures members { belongs self.new ≡ belongs self.old }
        ensures calm { may_run self.old node ≡ false → IsOk result }
        ensures err { OnErr result (self.new ≡ self.old) }
    {
        value_laws();
        group_laws();
        wl_record_core::table_laws();
        wl_replica::slots_laws();
        wl_replica::known_laws();
        wl_replica::slots_of_states();
        wl_plan::simulation_laws();
        wl_plan::checked_is_sound();
        // (reading a part gives the proof what the type keeps)
        let _ = self.plan();
        let Some(known) = self.known_for(node) else {
            return Ok(None);
        };
        let said = self.run_row(node, known, self.far[node as usize])?;
        Ok(Some(said))
    }

    /// Runs quanta of a member in a row before a tick up to which the line at its place is known: one at least, none after one that changes
    /// its drive. It goes through a stretch of the line and at most this many more, and takes what the member says after them. Refused out
    /// of memory, the group is as it was.
    fn run_row(&mut self, i: u8, known: u64, more: u8) -> Result<Emission, AllocError>
        requires may { may_run self.old i ≡ true }
        requires known { IsKnownUpTo self.old i known }
        ensures gone { IfOk result (λ said. HasGoneOn i self.old self.new said.items) }
        ensures next { known ≡ suc (next_tick (line_of self.old.plan) i (members_now self.old i))
            → IfOk result (λ said. HasRunNext i self.old self.new said.items) }
        ensures err { OnErr result (self.new ≡ self.old) }
    {
        value_laws();
        group_laws();
        wl_record_core::table_laws();
        wl_replica::slots_laws();
        wl_replica::known_laws();
        wl_replica::slots_of_states();
        wl_plan::simulation_laws();
        wl_plan::checked_is_sound();
        let end = known.min(self.plan.end);
        let mut ahead = Ahead::nothing();
        self.look_ahead(i, end, more, &mut ahead);
        let Some(cell) = &mut self.cells[i as usize] else {
            unreachable!()
        };
        let said = run_over(
            self.alloc,
            &self.plan,
            cell,
            i,
            &ahead,
            end,
            &mut self.replica,
            &mut self.emitted,
        )?;
        self.far[i as usize] = far_after(self.far[i as usize], said.len());
        Ok(said)
    }

    /// Returns the tick below which the line is known at a node's place, if the node may run its next quantum. Any number may be asked.
    ///
    /// It looks first at the node that this one waited for last.
    fn known_for(&mut self, node: u8) -> Option<u64>
        ensures may { IfSome result (λ _. may_run self.old node ≡ true) }
        ensures known { IfSome result (IsKnownAt self.old node) }
        ensures stuck { IfNone result (may_run self.old node ≡ false) }
        ensures same { self.new ≡ self.old }
    {
        value_laws();
        wl_plan::checked_is_sound();
        wl_plan::simulation_laws();
        if !self.has(node) {
            return None;
        }
        if self.waits_for(self.awaited[node as usize], node) {
            return None;
        }
        let known = self.known_at(node);
        if self.is_before(node, known) {
            return Some(known);
        }
        self.awaited[node as usize] = self.first_awaited(node);
        None
    }

    /// Returns the tick below which the line is known at a member's place.
    fn known_at(&self, node: u8) -> u64
        requires { belongs self.now node ≡ true }
        ensures { IsKnownAt self.now node result }
    {
        value_laws();
        known_by(&self.replica, self.ways(node))
    }

    /// True if a member's next quantum is before the end and before what is known at its place, which is known up to this tick.
    fn is_before(&self, node: u8, known: u64) -> bool
        requires member { belongs self.now node ≡ true }
        requires known { IsKnownAt self.now node known }
        ensures { result ≡ may_run self.now node }
    {
        let due = self.due(node);
        due < self.plan().end && due < known
    }

    /// True if what node `i` drives isn't known yet at a member's place at its next quantum; false of a number that is no node.
    fn waits_for(&self, i: u8, node: u8) -> bool
        requires { belongs self.now node ≡ true }
        ensures { IsTrue result → may_run self.now node ≡ false }
    {
        value_laws();
        wl_replica::known_laws();
        wl_plan::checked_is_sound();
        i < self.replica.nodes() && known_of(&self.replica, self.ways(node), i) <= self.due(node)
    }

    /// Returns the first node that a member waits for, or else the number of nodes.
    fn first_awaited(&self, node: u8) -> u8
        requires { belongs self.now node ≡ true }
    {
        for i in 0..self.replica.nodes() {
            if self.waits_for(i, node) {
                return i;
            }
        }
        self.replica.nodes()
    }

    /// Advances the members until none can, and returns what they emitted, in order. Refused out of memory, the advances that were made
    /// stay, and `emitted` has their records.
    pub fn advance_all(&mut self, alloc: Global) -> Result<Vec<Record>, AllocError>
        ensures all { IfOk result (λ rs. Ran self.old rs.items self.new) }
        ensures some { OnErr result ((rs : List Record) × Ran self.old rs self.new) }
        ensures stuck { OnOk result ((i : ℕ) → may_run self.new i ≡ false) }
        ensures plan { self.new.plan ≡ self.old.plan }
        ensures lists { self.new.lists ≡ self.old.lists }
        ensures members { belongs self.new ≡ belongs self.old }
    {
        value_laws();
        let mut all = Vec::new(alloc);
        while let Some(i) = self.ready() {
            all.reserve(MOST_EMITTED)?;
            let emission = self.run_next(i)?;
            append(&mut all, &emission);
        }
        Ok(all)
    }

    /// Returns the least member that may run its next quantum; none exactly if none may.
    pub fn ready(&self) -> Option<u8>
        ensures ready { IfSome result (λ i. may_run self.now i ≡ true) }
        ensures least { IfSome result (λ i. (j : ℕ) → j < i → may_run self.now j ≡ false) }
        ensures stuck { IfNone result ((i : ℕ) → may_run self.now i ≡ false) }
    {
        value_laws();
        for i in 0..self.replica.nodes() {
            if self.can_advance(i) {
                return Some(i);
            }
        }
        None
    }

    /// Runs the next quantum of a member that may run, and takes what it emits: a row of one quantum. Refused out of memory, the group is as
    /// it was.
    fn run_next(&mut self, i: u8) -> Result<Emission, AllocError>
        requires { may_run self.old i ≡ true }
        ensures ran { IfOk result (λ emission. HasRunNext i self.old self.new emission.items) }
        ensures err { OnErr result (self.new ≡ self.old) }
    {
        value_laws();
        wl_plan::checked_is_sound();
        // (reading a part gives the proof what the type keeps)
        let _ = self.plan();
        let next = self.due(i) + 1;
        self.run_row(i, next, 0)
    }
}

/// Returns how many stretches of the line a member looks for next: more after a row without a change, which says one record, and few else.
fn far_after(far: u8, said: usize) -> u8 {
    if said > 1 {
        return far / 2;
    }
    far.saturating_mul(2)
        .saturating_add(1)
        .min(MOST_AHEAD as u8)
}

/// The most records that one advance emits.
const MOST_EMITTED: usize = 2;

/// Moves what a replica knows into one that has room in these slots. Refused when out of memory, the
/// replica is as it was.
pub(crate) fn prepare(
    alloc: Global,
    replica: &mut Replica,
    slots: [Slot; PREPARED_SLOTS],
) -> Result<Prepared, AllocError>
    ensures known { IfOk result (λ prepared. prepared.known ≡ replica.old) }
    ensures slots { IfOk result (λ prepared. prepared.slots ≡ slots) }
    ensures err { OnErr result (replica.new ≡ replica.old) }
{
    let nothing = Replica::of_no_nodes(alloc);
    match mem::replace(replica, nothing).prepare(slots) {
        Ok(prepared) => Ok(prepared),
        Err(known) => {
            *replica = known;
            Err(AllocError)
        }
    }
}

/// Makes room for what one advance emits. Refused when out of memory.
pub(crate) fn make_room(emitted: &mut Vec<Record>) -> Result<(), AllocError>
    ensures same { emitted.new.items ≡ emitted.old.items }
    ensures room { OnOk result (vec_len emitted.new + MOST_EMITTED ≤ vec_capacity emitted.new) }
{
    if emitted.capacity() - emitted.len() >= MOST_EMITTED {
        return Ok(());
    }
    emitted.reserve(MOST_EMITTED)
}

/// Appends records for which there is room.
pub(crate) fn append(emitted: &mut Vec<Record>, more: &[Record])
    requires { vec_len emitted.old + length more.now ≤ vec_capacity emitted.old }
    ensures { emitted.new.items ≡ emitted.old.items ++ more.now }
{
    match emitted.extend_from_slice(more) {
        Ok(()) => {}
        Err(_) => unreachable!(),
    }
}
