//! Runs over links that are made here.
ghost use Rattle.std.specs.Prelude.{◌≤◌, All, IfOk, length};
ghost use Rattle.wl_hub.specs.Passes.{IsPassOf};
ghost use Rattle.wl_worker.specs.PlanName.{AreNumbered, IsOfPlan};

use crate::by_work::run_by_work;
use crate::runs::{End, Task, end_of};
use crate::steps::Way;
use crate::watch::Watch;
use std::alloc::{AllocError, Global};
use std::sync::Wait;
use std::thread::Threads;
use test_words::Stop;
use wl_group::{Group, first_silence};
use wl_hub::{Hub, Pass};
use wl_mail::posts;
use wl_plan::CheckedPlan;
use wl_worker::{
    Bell, Link, LinkFault, LinkKind, PlanName, hub_links, mail_links, shape_of_plan, simulate_over,
};

/// Does what a step says over links that are made here.
pub fn run_over<R: Threads + Wait + Sync>(
    rt: &R,
    alloc: Global,
    task: Task<'_>,
    gate: &Watch,
) -> Result<End, Stop> {
    let bell = Bell::new(alloc, task.workers())?;
    match task.step.link {
        LinkKind::Hub => run_over_hub(rt, alloc, task, gate, &bell),
        LinkKind::Mail => run_over_mail(rt, alloc, task, gate, &bell),
    }
}

/// Does it over links of one hub.
fn run_over_hub<R: Threads + Wait + Sync>(
    rt: &R,
    alloc: Global,
    task: Task<'_>,
    gate: &Watch,
    bell: &Bell,
) -> Result<End, Stop> {
    let (hub, pass) = start_hub(alloc, task.plan)?;
    let links = hub_links(rt, alloc, &hub, pass, bell, task.workers())?;
    run_links(rt, alloc, task, gate, links)
}

/// Returns a hub of a plan, and its first pass.
fn start_hub(
    alloc: Global,
    plan: &CheckedPlan,
) -> Result<(Hub<PlanName>, Pass<PlanName>), AllocError>
    ensures here { IfOk result (λ r. IsPassOf r.0 r.1) }
    ensures of { IfOk result (λ r. IsOfPlan r.0 r.1 plan.now) }
{
    let shape = shape_of_plan(alloc, plan)?;
    let name = PlanName {
        plan: plan.clone_in(alloc)?,
    };
    Hub::start(alloc, shape.as_slice(), &name)
}

/// Does it over links by letters, whose readers are held meanwhile.
fn run_over_mail<R: Threads + Wait + Sync>(
    rt: &R,
    alloc: Global,
    task: Task<'_>,
    gate: &Watch,
    bell: &Bell,
) -> Result<End, Stop> {
    let (posts, _hold) = posts(alloc, task.workers())?;
    let links = mail_links(rt, alloc, posts, task.plan, bell)?;
    run_links(rt, alloc, task, gate, links)
}

/// Does it over these links.
fn run_links<R: Threads + Wait + Sync, L: Link + Send + Drop>(
    rt: &R,
    alloc: Global,
    task: Task<'_>,
    gate: &Watch,
    links: Vec<L>,
) -> Result<End, Stop>
    requires links { All (λ link. L.is_of link task.plan.now) links.items }
    requires numbered { AreNumbered L.number links.items }
{
    match task.step.way {
        Way::Links => tell_links(alloc, task.plan, links),
        Way::Work => end_of(alloc, task, run_by_work(rt, alloc, task.plan, links, gate)),
        _ => {
            let plan = task.plan.clone_in(alloc)?;
            end_of(alloc, task, simulate_over(rt, alloc, plan, links, gate))
        }
    }
}

/// Returns what comes by the last of some links of what the one before it gives.
fn tell_links<L: Link + Drop>(alloc: Global, plan: &CheckedPlan, links: Vec<L>) -> Result<End, Stop>
    requires { All (λ link. L.is_of link plan.now) links.items }
{
    let mut links = links;
    if plan.nodes() < 2 {
        return Err(Stop::Unread);
    }
    let (Some(bringing), Some(giving)) = (links.pop(), links.pop()) else {
        return Err(Stop::Unread);
    };
    let (mut giving, mut bringing) = (giving, bringing);
    match tell_two(alloc, plan, &mut giving, &mut bringing) {
        Ok(end) => Ok(end),
        Err(_) => Err(Stop::Memory),
    }
}

/// Gives the first silence of node 0 by one link. The other one brings what there is to a group of node 1, twice.
fn tell_two<L: Link>(
    alloc: Global,
    plan: &CheckedPlan,
    giving: &mut L,
    bringing: &mut L,
) -> Result<End, LinkFault>
    requires nodes { 2 ≤ length plan.now.nodes }
    requires giving { L.is_of giving.old plan.now }
    requires bringing { L.is_of bringing.old plan.now }
{
    giving.give(alloc, &[first_silence(plan, 0)])?;
    let mut group = Group::new(alloc, plan, &[1])?;
    fetch_twice(alloc, &mut group, bringing)
}

/// Fetches twice, and returns what that brought.
fn fetch_twice<L: Link>(alloc: Global, group: &mut Group, link: &mut L) -> Result<End, LinkFault>
    requires { L.is_of link.old group.old.plan }
{
    let first = link.fetch(alloc, group)?;
    let second = link.fetch(alloc, group)?;
    Ok(End::Came(first, second, horizon(group)))
}

/// Returns up to which tick a group knows node 0.
fn horizon(group: &Group) -> u64 {
    let replica = group.replica();
    if replica.nodes() == 0 {
        return 0;
    }
    replica.horizon(0)
}
