//! All groups of a plan together.
ghost use Rattle.std.specs.Prelude.{◌≡◌, ◌<◌, length, IfOk, Some, slice_get};

use crate::begin::{first_groups, first_records};
use crate::worlds_are_faithful;
use std::alloc::{AllocError, Global};
use std::marker::Model;
use wl_group::Group;
use wl_plan::{CheckedPlan, Grouping, Plan};
use wl_record_core::Record;

/// The groups of a grouping of a plan's nodes, and all records that they ever emitted.
///
/// Every world is a scene of the machine of groups: some events led to it. So in every world all that
/// was emitted is true, and each node is where the one-thread simulation has it (Chandy and Misra, 1979).
#[derive(Drop)]
pub struct World {
    pub(crate) alloc: Global,
    pub(crate) plan: CheckedPlan,
    pub(crate) grouping: Grouping,
    pub(crate) groups: Vec<Group>,
    pub(crate) emitted: Vec<Record>,
}

impl Model for World {
    ghost use Rattle.wl_world.specs.WorldValue.{WorldValue, world_value, IsWorldValue};

    ghost Value = { WorldValue };

    ghost use Rattle.wl_world.specs.Stored.{coded_world};

    ghost coded = { coded_world };

    ghost view = { λ w. world_value w.plan w.grouping w.groups.items w.emitted.items };

    ghost invariant = { λ w. IsWorldValue (world_value w.plan w.grouping w.groups.items w.emitted.items) };
}

impl World {
    ghost use Rattle.wl_plan.specs.Checked.{IsChecked};
    ghost use Rattle.wl_plan.specs.PlanLine.{line_of};
    ghost use Rattle.wl_world.specs.Faithful.{IsFaithfulValue};
    ghost use Rattle.wl_world.specs.Steps.{HasStarted};
    ghost use Rattle.wl_world.specs.WorldValue.{IsWorldAt, IsWorldValue, cast_of};

    /// Returns the world of a plan that passed its check and a grouping of its nodes, before the first quanta: the first silence of each
    /// node is emitted, in the order of the nodes, and each group has taken those of its members. Refused only when out of memory.
    pub fn new(alloc: Global, plan: Plan, grouping: Grouping) -> Result<World, AllocError>
        requires checked { IsChecked plan }
        requires grouping { length grouping ≡ length plan.nodes }
        ensures started { IfOk result (λ world. HasStarted IsWorldAt (line_of plan) (cast_of grouping) world) }
        ensures faithful { IfOk result IsFaithfulValue }
        ensures plan { IfOk result (λ world. world.plan ≡ plan) }
        ensures grouping { IfOk result (λ world. world.numbers ≡ grouping) }
    {
        worlds_are_faithful();
        let plan = CheckedPlan::of(plan);
        let groups = first_groups(alloc, &plan, &grouping)?;
        let emitted = first_records(alloc, &plan)?;
        Ok(World {
            alloc,
            plan,
            grouping,
            groups,
            emitted,
        })
    }

    /// Returns how many groups there are, those without nodes too.
    pub fn groups(&self) -> usize
        ensures { result ≡ length self.now.groups }
    {
        self.groups.len()
    }

    /// Returns a group, as it is by now: `g` counts from 0 and is below `groups`.
    pub fn group(&self, g: u8) -> &Group
        requires { g < length self.now.groups }
        ensures group { slice_get self.now.groups g ≡ Some result.now }
        ensures faithful { IsFaithfulValue self.now }
        ensures holds { IsWorldValue self.now }
    {
        worlds_are_faithful();
        &self.groups[g as usize]
    }

    /// Returns all records that were ever emitted, the oldest first. Each of them is true of the plan.
    pub fn emitted(&self) -> &[Record]
        ensures value { result.now ≡ self.now.emitted }
        ensures faithful { IsFaithfulValue self.now }
        ensures holds { IsWorldValue self.now }
    {
        worlds_are_faithful();
        &self.emitted
    }
}
