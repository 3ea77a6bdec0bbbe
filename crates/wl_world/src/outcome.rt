//! The outcome of a world whose nodes are all at the end.
ghost use Rattle.std.specs.Prelude.{◌≡◌, ◌<◌, IfOk, length};
ghost use Rattle.wl_serial.specs.Outcome.{node_outcome_of, outcome_of};

use crate::world::World;
use std::alloc::{AllocError, Global};
use wl_level::Listed;
use wl_serial::{NodeOutcome, Outcome, node_outcome, outcome_node_by_node};

impl World {
    ghost use Rattle.wl_world.specs.Ended.{AreAtEnd};

    /// Returns what the nodes did; all of them are at the end. It is the outcome of the one-thread simulation of the plan. Refused only
    /// when out of memory.
    pub fn outcome(&self, alloc: Global) -> Result<Outcome, AllocError>
        requires { AreAtEnd self.now }
        ensures { IfOk result (λ outcome. outcome ≡ outcome_of self.now.plan) }
    {
        outcome_node_by_node();
        let mut nodes = Listed::new(alloc);
        for i in 0..self.plan.nodes() {
            nodes.push(self.node_outcome(alloc, i)?)?;
        }
        Ok(Outcome {
            nodes,
            end: self.plan.end,
        })
    }

    /// Returns what node `i` did; all nodes are at the end.
    fn node_outcome(&self, alloc: Global, i: u8) -> Result<NodeOutcome, AllocError>
        requires ended { AreAtEnd self.now }
        requires node { i < length self.now.plan.nodes }
        ensures { IfOk result (λ outcome. outcome ≡ node_outcome_of self.now.plan i) }
    {
        wl_plan::grouping_laws();
        wl_plan::checked_is_sound();
        wl_group::group_laws();
        match self.grouping.group_of(i) {
            Some(h) => {
                let group = &self.groups[h as usize];
                let changes = group.changes(alloc, i)?;
                node_outcome(alloc, group.node(i), changes)
            }
            None => unreachable!(),
        }
    }
}
