//! Workers that this crate runs itself, each by `work` in a thread of its own.
ghost use Rattle.std.specs.Prelude.{All};

use crate::watch::Watch;
use std::alloc::{AllocError, Global};
use std::sync::Wait;
use std::thread::{Threads, map_vec};
use wl_group::Group;
use wl_level::Listed;
use wl_plan::CheckedPlan;
use wl_serial::{NodeOutcome, Outcome, node_outcome};
use wl_worker::{Fault, Link, share_of, work};

/// What the workers of a run share.
#[derive(Clone, Copy)]
struct Run<'r> {
    plan: &'r CheckedPlan,
    workers: u8,
    gate: &'r Watch,
}

/// Runs a worker for each of these links, and returns their outcome, or the first of their faults.
pub fn run_by_work<R: Threads + Wait + Sync, L: Link + Send + Drop>(
    rt: &R,
    alloc: Global,
    plan: &CheckedPlan,
    links: Vec<L>,
    gate: &Watch,
) -> Result<Outcome, Fault>
    requires { All (λ link. L.is_of link plan.now) links.items }
{
    let run = Run {
        plan,
        workers: u8::try_from(links.len()).unwrap_or(u8::MAX),
        gate,
    };
    let ends = map_vec(
        rt,
        links,
        &|link: L| -> Result<Group, Fault>
            requires { L.is_of link run.plan.now }
        { run_worker(rt, alloc, run, link) },
    )?;
    outcome_of(alloc, plan, ends.as_slice())
}

/// Runs the worker of a link, which has the nodes `i` with `i` modulo the number of workers equal to its own.
fn run_worker<R: Wait, L: Link + Drop>(
    rt: &R,
    alloc: Global,
    run: Run<'_>,
    link: L,
) -> Result<Group, Fault>
    requires { L.is_of link run.plan.now }
{
    let worker = link.worker();
    if worker >= run.workers {
        return Err(Fault::Workers);
    }
    match share_of(alloc, run.plan, run.workers, worker) {
        Ok(group) => work(rt, alloc, group, link, run.gate),
        Err(AllocError) => {
            let mut link = link;
            link.stop();
            Err(Fault::Memory)
        }
    }
}

/// Returns the outcome of workers that have ended, by the group of each node; or the first of their faults.
fn outcome_of(
    alloc: Global,
    plan: &CheckedPlan,
    ends: &[Result<Group, Fault>],
) -> Result<Outcome, Fault> {
    let mut nodes = Listed::new(alloc);
    for i in 0..plan.nodes() {
        nodes.push(node_from(alloc, ends, i)?)?;
    }
    Ok(Outcome {
        nodes,
        end: plan.end,
    })
}

/// Returns what node `i` did, by the group that has it.
fn node_from(alloc: Global, ends: &[Result<Group, Fault>], i: u8) -> Result<NodeOutcome, Fault> {
    for end in ends {
        match end {
            Err(fault) => return Err(*fault),
            Ok(group) if group.has(i) => {
                let changes = group.changes(alloc, i)?;
                return Ok(node_outcome(alloc, group.node(i), changes)?);
            }
            Ok(_) => {}
        }
    }
    Err(Fault::Workers)
}
