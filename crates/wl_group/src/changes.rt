//! The changes of a member, out of what its group knows.

ghost use Rattle.std.specs.Prelude.{◌≡◌, ◌<◌, ◌≤◌, ℕ, true, take, IfOk};
ghost use Rattle.wl_record_core.specs.Truth.{count_below};
ghost use Rattle.wl_replica.specs.State.{slots_of};
ghost use Rattle.wl_replica.specs.Known.{is_tick, ticks};
ghost use Rattle.wl_plan.specs.PlanLine.{line_of, table_of};
ghost use Rattle.wl_group.specs.Member.{next_tick};

use crate::group::Group;
use crate::laws::value_laws;
use std::alloc::{AllocError, Global};
use wl_lattice::FlatWord;
use wl_level::Listed;
use wl_record_core::Slot;
use wl_replica::{Replica, Word};

impl Group {
    ghost use Rattle.wl_group.specs.GroupValue.{belongs, members_now, has_ended};

    /// Returns the ticks, in order, at which a member's drive changes in the one-thread simulation
    /// before its next quantum; at the end these are all that it has. Refused only when out of
    /// memory.
    pub fn changes(&self, alloc: Global, node: u8) -> Result<Listed<u64>, AllocError>
        requires { belongs self.now node ≡ true }
        ensures so_far { IfOk result (λ list. list
            ≡ take
            (count_below (next_tick (line_of self.now.plan) node (members_now self.now node))
            (table_of self.now.plan node))
            (table_of self.now.plan node)) }
        ensures whole { has_ended self.now node ≡ true → IfOk result (λ list. list ≡ table_of self.now.plan node) }
    {
        value_laws();
        wl_record_core::table_laws();
        wl_replica::known_laws();
        wl_plan::simulation_laws();
        wl_plan::checked_is_sound();
        match &self.cells[node as usize] {
            Some(cell) => first_changes(alloc, &self.replica, node, cell.changed),
            None => unreachable!(),
        }
    }
}

/// Returns the ticks of a node's first changes, which the replica holds.
fn first_changes(
    alloc: Global,
    replica: &Replica,
    node: u8,
    count: u32,
) -> Result<Listed<u64>, AllocError>
    requires { (n : ℕ) → n < count → is_tick ((slots_of replica.now).edge node n) ≡ true }
    ensures { IfOk result (λ list. list ≡ ticks ((slots_of replica.now).edge node) count) }
{
    let mut list = Listed::new(alloc);
    for seq in 0..count {
        match replica.slot(Slot::EdgeAt { node, seq }) {
            Word::Edge(FlatWord::Value(tick)) => list.push(tick)?,
            _ => unreachable!(),
        }
    }
    Ok(list)
}
