//! Groupings: which group each node of a plan is in.
ghost use Rattle.std.specs.Prelude.{◌≡◌, ◌≤◌, ◌^◌, ◌↔◌, IsTrue, IfOk, OnOk, Err, length, slice_get};
ghost use Rattle.wl_plan.specs.Groupings.{IsGrouping, groups_of, members_of, most_groups};

use crate::plan::Plan;
use std::alloc::{AllocError, Global};
use std::marker::Model;
use thiserror::Error;
use wl_level::Listed;

/// The most groups of a grouping: they count from 0.
pub const MOST_GROUPS: u8 = 16;

/// Why numbers make no grouping: the first that applies, in this order.
#[derive(Clone, Copy, Debug, PartialEq, Eq, Error)]
pub enum GroupingFault {
    /// There is not one number of at most 15 for each node.
    #[error("Grouping")]
    Grouping,
    /// There is no memory for them.
    #[error("Memory")]
    Memory,
}

/// Which group each node of a plan is in.
///
/// The number of groups is the greatest number plus one. A group without nodes is allowed, and only watches.
#[derive(Debug, Drop)]
pub struct Grouping {
    numbers: Listed<u8>,
}

impl Model for Grouping {
    ghost use Rattle.std.specs.Prelude.{List, ℕ, ◌<◌, All};
    ghost use Rattle.wl_plan.specs.Groupings.{most_groups};

    ghost Value = { List ℕ };

    ghost view = { λ g. g.numbers };

    ghost invariant = { λ g. All (λ n. n < most_groups) g.numbers };
}

impl Grouping {
    /// Returns the grouping that puts node `i` of the plan into the group of number `i`. `Grouping` if there is not one number of at most
    /// 15 for each node, whatever else the plan is; `Memory` if there is none.
    pub fn new(alloc: Global, plan: &Plan, numbers: &[u8]) -> Result<Grouping, GroupingFault>
        ensures grouping { (result ≡ Err GroupingFault.Grouping) ↔ ¬ IsGrouping (length plan.now.nodes) numbers.now }
        ensures ok { IfOk result (λ made. made ≡ numbers.now) }
        ensures kept { OnOk result (IsGrouping (length plan.now.nodes) numbers.now) }
    {
        if !is_grouping(plan.nodes.len(), numbers) {
            return Err(GroupingFault::Grouping);
        }
        match Vec::from_slice(alloc, numbers) {
            Ok(copies) => Ok(Grouping {
                numbers: Listed::from_vec(copies),
            }),
            Err(_) => Err(GroupingFault::Memory),
        }
    }

    /// Returns the number of nodes.
    pub fn nodes(&self) -> usize
        ensures { result ≡ length self.now }
    {
        self.numbers.len()
    }

    /// Returns how many groups there are, those without nodes too: the greatest number of a group plus one, at most 16.
    pub fn groups(&self) -> u8
        ensures count { result ≡ groups_of self.now }
        ensures few { result ≤ most_groups }
    {
        let mut groups: u8 = 0;
        for number in self.numbers.as_slice() {
            groups = groups.max(*number + 1);
        }
        groups
    }

    /// Returns the group of a node; none if there is no such node.
    pub fn group_of(&self, node: u8) -> Option<u8>
        ensures { result ≡ slice_get self.now node }
    {
        self.numbers.as_slice().get(node as usize).copied()
    }

    /// Returns the nodes of a group in ascending order: none if there is no such group. A plan that can be run has no more nodes than the
    /// condition asks for.
    pub fn members(&self, alloc: Global, group: u8) -> Result<Listed<u8>, AllocError>
        requires { length self.now ≤ 2 ^ 8 }
        ensures { IfOk result (λ members. members ≡ members_of self.now group) }
    {
        let mut members = Listed::new(alloc);
        for (i, number) in self.numbers.as_slice().iter().enumerate() {
            if *number == group {
                members.push(i as u8)?;
            }
        }
        Ok(members)
    }
}

/// True if there is one number of at most 15 for each of this many nodes.
fn is_grouping(nodes: usize, numbers: &[u8]) -> bool
    ensures { IsTrue result ↔ IsGrouping nodes numbers.now }
{
    numbers.len() == nodes && numbers.iter().all(|number| *number < MOST_GROUPS)
}
