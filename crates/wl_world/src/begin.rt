//! What a world begins with.
ghost use Rattle.std.specs.Prelude.{◌≡◌, ◌<◌, true, length, IfOk};
ghost use Rattle.wl_plan.specs.Groupings.{IsGrouping, groups_of};
ghost use Rattle.wl_plan.specs.PlanLine.{line_of};
ghost use Rattle.wl_group.specs.GroupValue.{Matches, belongs as has};
ghost use Rattle.wl_group.specs.Party.{initial_party, initial_silences};
ghost use Rattle.wl_world.specs.Scene.{is_of_group};
ghost use Rattle.wl_world.specs.WorldValue.{cast_of, AreFirst};

use std::alloc::{AllocError, Global};
use wl_group::{Group, first_silence};
use wl_plan::{CheckedPlan, Grouping};
use wl_record_core::Record;

/// Returns the groups of a grouping, each before the first quanta of its nodes.
pub(crate) fn first_groups(
    alloc: Global,
    plan: &CheckedPlan,
    grouping: &Grouping,
) -> Result<Vec<Group>, AllocError>
    requires grouping { IsGrouping (length plan.now.nodes) grouping.now }
    ensures count { IfOk result (λ groups. length groups.items ≡ groups_of grouping.now) }
    ensures first { IfOk result (λ groups. AreFirst plan.now grouping.now groups.items) }
{
    let mut groups = Vec::new(alloc);
    for h in 0..grouping.groups() {
        groups.push(first_group(alloc, plan, grouping, h)?)?;
    }
    Ok(groups)
}

/// Returns group `h` of a grouping, before the first quanta of its nodes.
fn first_group(
    alloc: Global,
    plan: &CheckedPlan,
    grouping: &Grouping,
    h: u8,
) -> Result<Group, AllocError>
    requires grouping { IsGrouping (length plan.now.nodes) grouping.now }
    requires group { h < 16 }
    ensures plan { IfOk result (λ group. group.plan ≡ plan.now) }
    ensures lists { IfOk result (λ group. group.lists ≡ true) }
    ensures members { IfOk result (λ group. has group ≡ is_of_group (cast_of grouping.now) h) }
    ensures begun { IfOk result (λ group.
        Matches (initial_party (line_of plan.now) (is_of_group (cast_of grouping.now) h)) group) }
{
    wl_plan::grouping_laws();
    plan.laws();
    let members = grouping.members(alloc, h)?;
    Group::new(alloc, plan, members.as_slice())
}

/// Returns the first silence of each node: that it keeps its first drive up to its first quantum.
pub(crate) fn first_records(alloc: Global, plan: &CheckedPlan) -> Result<Vec<Record>, AllocError>
    ensures { IfOk result (λ records.
        records.items ≡ initial_silences (line_of plan.now) (λ i. true) (length plan.now.nodes)) }
{
    let mut records = Vec::new(alloc);
    for i in 0..plan.nodes() {
        records.push(first_silence(plan, i))?;
    }
    Ok(records)
}
