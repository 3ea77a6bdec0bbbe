//! The nodes of a worker.
ghost use Rattle.std.specs.Prelude.{◌≡◌, ◌<◌, ◌%◌, ◌==◌, ◌||◌, ◌&&◌, ℕ, IfOk, OnOk, length};
ghost use Rattle.wl_group.specs.GroupValue.{names};
ghost use Rattle.wl_worker.specs.NodesOfWorker.{AreBelow, IsShare};

use std::alloc::{AllocError, Global};
use wl_group::Group;
use wl_plan::CheckedPlan;

/// Returns the group of a worker, before its first quanta: the nodes `i` with `i` mod `workers` equal to `worker`.
pub fn share_of(
    alloc: Global,
    plan: &CheckedPlan,
    workers: u8,
    worker: u8,
) -> Result<Group, AllocError>
    requires worker { worker < workers }
    ensures { IfOk result (IsShare plan.now workers worker) }
{
    let members = members_of(alloc, plan.nodes(), workers, worker)?;
    Group::new(alloc, plan, members.as_slice())
}

/// Returns its numbers, of this many nodes.
fn members_of(alloc: Global, nodes: u8, workers: u8, worker: u8) -> Result<Vec<u8>, AllocError>
    requires { worker < workers }
    ensures below { IfOk result (λ members. AreBelow nodes members.items) }
    ensures all { IfOk result (λ members. (i : ℕ) → i < nodes → names members.items i ≡ (i % workers == worker)) }
{
    let mut members = Vec::new(alloc);
    for i in 0..nodes {
        add_member(&mut members, i, i % workers == worker)?;
    }
    Ok(members)
}

/// Adds one number more, if it is wanted.
fn add_member(members: &mut Vec<u8>, i: u8, wanted: bool) -> Result<(), AllocError>
    ensures below { OnOk result ((n : ℕ) → i < n → AreBelow n members.old.items → AreBelow n members.new.items) }
    ensures named { OnOk result ((k : ℕ)
        → names members.new.items k ≡ (names members.old.items k || (wanted && (i == k)))) }
{
    if wanted {
        members.push(i)?;
    }
    Ok(())
}
