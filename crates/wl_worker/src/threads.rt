//! All workers of a plan, each in a thread of its own, and their outcome.
ghost use Rattle.std.specs.Prelude.{◌≡◌, ◌≢◌, ◌<◌, ◌≤◌, ◌⊎◌, ◌↔◌, ℕ, true, All, Err, IsOk, IfOk, IfErr, IfSome, IfNone, Some, get_or, length, vec_len, vec_capacity};
ghost use Rattle.wl_plan.specs.Checked.{IsChecked};
ghost use Rattle.wl_group.specs.GroupValue.{belongs, has_ended};
ghost use Rattle.wl_serial.specs.Outcome.{outcome_of, node_outcome_of};
ghost use Rattle.wl_worker.specs.Faults.{IsLowestFault, IsNextFault};
ghost use Rattle.wl_worker.specs.NodesOfWorker.{IsEnd, IsPromise, EndsKept, HaveEnded, IsFaultOfEnds, IsFaultOfRun};
ghost use Rattle.wl_worker.specs.PlanName.{AreNumbered};

use crate::bell::MOST_WORKERS;
use crate::link::{Fault, Gate, Link};
use crate::nodes_of_worker::share_of;
use crate::turns::work;
use std::alloc::{AllocError, Global};
use std::snapshot::Snapshot;
use std::sync::Wait;
use std::sync::atomic::{AtomicU64, Ordering};
use std::thread;
use std::thread::{Promise, PromisedHandle, Scope, Threads};
use wl_group::Group;
use wl_level::Listed;
use wl_plan::{CheckedPlan, Plan};
use wl_serial::{NodeOutcome, Outcome, node_outcome, outcome_node_by_node};

/// What a worker's thread promises of the group that it hands back.
#[derive(Drop)]
pub(crate) struct OfShare {
    plan: Snapshot<CheckedPlan>,
    workers: u8,
    worker: u8,
}

impl Promise<Result<Group, Fault>> for OfShare {
    ghost use Rattle.wl_worker.specs.NodesOfWorker.{KeepsPromise};

    ghost kept_by = { KeepsPromise };
}

/// A worker's thread, which promises what it returns.
type Child = PromisedHandle<Result<Group, Fault>, OfShare>;

/// Returns the outcome of the one-thread simulation of a plan, by one worker for each link. Link `w` is that of worker `w`, which runs the
/// nodes `i` with `i` mod workers equal to `w`, in a thread of its own.
///
/// If it fails there is no partial outcome. Of several faults it is the first by `Fault`'s order, and of these the lowest worker's. If no
/// thread can be made for a worker, that worker has stopped, and no more are started.
pub fn simulate_over<R: Threads + Wait + Sync, L: Link + Send + Drop, G: Gate + Sync>(
    rt: &R,
    alloc: Global,
    plan: Plan,
    links: Vec<L>,
    gate: &G,
) -> Result<Outcome, Fault>
    requires checked { IsChecked plan }
    requires links { All (λ l. L.is_of l plan) links.items }
    requires numbered { AreNumbered L.number links.items }
    ensures outcome { IfOk result (λ outcome. outcome ≡ outcome_of plan) }
    ensures workers { result ≡ Err Fault.Workers ↔ (vec_len links ≡ 0) ⊎ (8 < vec_len links) }
    ensures fault { IfErr result (IsFaultOfRun plan (vec_len links)) }
{
    simulate_links(rt, alloc, &CheckedPlan::of(plan), links, gate)
}

/// Returns what `simulate_over` returns, of a checked plan.
pub(crate) fn simulate_links<R: Threads + Wait + Sync, L: Link + Send + Drop, G: Gate + Sync>(
    rt: &R,
    alloc: Global,
    plan: &CheckedPlan,
    links: Vec<L>,
    gate: &G,
) -> Result<Outcome, Fault>
    requires links { All (λ l. L.is_of l plan.now) links.items }
    requires numbered { AreNumbered L.number links.items }
    ensures outcome { IfOk result (λ outcome. outcome ≡ outcome_of plan.now) }
    ensures workers { result ≡ Err Fault.Workers ↔ (vec_len links ≡ 0) ⊎ (8 < vec_len links) }
    ensures fault { IfErr result (IsFaultOfRun plan.now (vec_len links)) }
{
    if links.is_empty() || links.len() > MOST_WORKERS {
        return Err(Fault::Workers);
    }
    let workers = links.len() as u8;
    let ends = run_all(rt, alloc, plan, links, gate)?;
    outcome_of_ends(alloc, plan, workers, ends.as_slice())
}

/// Returns the outcome of all workers together, or the first of their faults.
fn outcome_of_ends(
    alloc: Global,
    plan: &CheckedPlan,
    workers: u8,
    ends: &[Result<Group, Fault>],
) -> Result<Outcome, Fault>
    requires some { 0 < workers }
    requires ends { HaveEnded plan.now workers ends.now }
    ensures outcome { IfOk result (λ outcome. outcome ≡ outcome_of plan.now) }
    ensures fault { IfErr result (IsFaultOfEnds ends.now) }
    ensures cause { result ≢ Err Fault.Workers }
{
    if let Some(fault) = first_fault(ends) {
        return Err(fault);
    }
    match outcome_from(alloc, plan, workers, ends) {
        Ok(outcome) => Ok(outcome),
        Err(AllocError) => Err(Fault::Memory),
    }
}

/// What the threads of all workers have in common.
#[derive(Drop)]
struct Shared<'s, R, G> {
    rt: &'s R,
    alloc: Global,
    plan: &'s CheckedPlan,
    workers: u8,
    gate: &'s G,
    /// The worker for which no thread could be made.
    refusal: &'s AtomicU64,
}

/// Runs all workers, each in a thread of its own, and returns their ends, in order: of all of them, or of those up to one for which no
/// thread could be made. Refused only when out of memory, before any began.
fn run_all<'x, R: Threads + Wait + Sync, L: Link + Send + Drop, G: Gate + Sync>(
    rt: &'x R,
    alloc: Global,
    plan: &'x CheckedPlan,
    links: Vec<L>,
    gate: &'x G,
) -> Result<Vec<Result<Group, Fault>>, Fault>
    requires links { All (λ l. L.is_of l plan.now) links.items }
    requires numbered { AreNumbered L.number links.items }
    requires count { vec_len links ≤ 8 }
    ensures ends { IfOk result (λ ends. HaveEnded plan.now (vec_len links) ends.items) }
    ensures fault { IfErr result (λ fault. fault ≡ Fault.Memory) }
{
    let refused = AtomicU64::new(u64::MAX);
    let shared = Shared {
        rt,
        alloc,
        plan,
        workers: links.len() as u8,
        gate,
        refusal: &refused,
    };
    let all = &shared;
    thread::scope(
        thread::scope_env(),
        rt,
        |scope| -> Result<Vec<Result<Group, Fault>>, Fault>
            requires { All (λ l. L.is_of l all.now.plan.now) links.items
                × AreNumbered L.number links.items × (vec_len links ≡ all.now.workers) }
            ensures ends { IfOk result (λ ends. HaveEnded all.entry.now.plan.now all.entry.now.workers ends.items) }
            ensures fault { IfErr result (λ fault. fault ≡ Fault.Memory) }
        { run_in(scope, all, links) },
    )
}

/// Starts a thread of this scope for each link, and joins them. Room for their ends is made before the first begins.
fn run_in<'s, E, R: Threads + Wait + Sync, L: Link + Send + Drop + 's, G: Gate + Sync>(
    scope: &Scope<'s, E>,
    shared: &'s Shared<'s, R, G>,
    links: Vec<L>,
) -> Result<Vec<Result<Group, Fault>>, Fault>
    requires links { All (λ l. L.is_of l shared.now.plan.now) links.items }
    requires numbered { AreNumbered L.number links.items }
    requires count { vec_len links ≡ shared.now.workers }
    ensures ends { IfOk result (λ ends. HaveEnded shared.now.plan.now shared.now.workers ends.items) }
    ensures fault { IfErr result (λ fault. fault ≡ Fault.Memory) }
{
    let workers = usize::from(shared.workers);
    let children = Vec::with_capacity(shared.alloc, workers)?;
    let ends = Vec::with_capacity(shared.alloc, workers + 1)?;
    let (children, unstarted) = start_all(scope, shared, links, children);
    let mut ends = join_all(shared, children, ends);
    if let Some(fault) = unstarted {
        ends.push_reserved(Err(fault));
    }
    Ok(ends)
}

/// Starts a thread of this scope for each link, up to one for which none can be made. Returns the threads, and the fault of that worker, if
/// there is one.
fn start_all<'s, E, R: Threads + Wait + Sync, L: Link + Send + Drop + 's, G: Gate + Sync>(
    scope: &Scope<'s, E>,
    shared: &'s Shared<'s, R, G>,
    links: Vec<L>,
    children: Vec<Child>,
) -> (Vec<Child>, Option<Fault>)
    requires links { All (λ l. L.is_of l shared.now.plan.now) links.items }
    requires numbered { AreNumbered L.number links.items }
    requires count { vec_len links ≡ shared.now.workers }
    requires room { (vec_len children ≡ 0) × (shared.now.workers ≤ vec_capacity children) }
    ensures count { vec_len result.0 ≤ shared.now.workers }
    ensures promises { (w : ℕ) (d : _) → w < vec_len result.0
        → IsPromise shared.now.plan.now shared.now.workers w (get_or result.0.items w d).promise }
    ensures all { IfNone result.1 (vec_len result.0 ≡ shared.now.workers) }
    ensures fault { IfSome result.1 (λ fault. (fault ≢ Fault.Workers) × (vec_len result.0 < shared.now.workers)) }
    ensures worker { IfSome result.1 (λ fault. fault ≡ Fault.Worker (vec_len result.0)) }
{
    let mut children = children;
    let mut worker = 0;
    for link in links {
        match start(scope, shared, worker, link) {
            Ok(child) => children.push_reserved(child),
            Err(fault) => return (children, Some(fault)),
        }
        worker += 1;
    }
    (children, None)
}

/// Joins the threads of workers 0, 1 and so on, and puts their ends into a list with room.
fn join_all<R: Threads, G>(
    shared: &Shared<'_, R, G>,
    children: Vec<Child>,
    ends: Vec<Result<Group, Fault>>,
) -> Vec<Result<Group, Fault>>
    requires promises { (w : ℕ) (d : _) → w < vec_len children
        → IsPromise shared.now.plan.now shared.now.workers w (get_or children.items w d).promise }
    requires room { (vec_len ends ≡ 0) × (vec_len children < vec_capacity ends) }
    ensures count { vec_len result ≡ vec_len children }
    ensures room { vec_capacity result ≡ vec_capacity ends }
    ensures kept { EndsKept shared.now.plan.now shared.now.workers result.items }
{
    let mut ends = ends;
    for child in children {
        ends.push_reserved(child.join(shared.rt));
    }
    ends
}

/// Starts the thread of a worker. If none can be made, the worker stops, and so do all that wait.
fn start<'s, E, R: Wait + Sync, L: Link + Send + Drop + 's, G: Gate + Sync>(
    scope: &Scope<'s, E>,
    shared: &'s Shared<'s, R, G>,
    worker: u8,
    link: L,
) -> Result<Child, Fault>
    requires worker { worker < shared.now.workers }
    requires link { L.is_of link shared.now.plan.now }
    requires number { L.number link ≡ worker }
    ensures promise { IfOk result (λ child. IsPromise shared.now.plan.now shared.now.workers worker child.promise) }
    ensures fault { IfErr result (λ fault. fault ≢ Fault.Workers) }
    ensures worker { IfErr result (λ fault. fault ≡ Fault.Worker worker) }
{
    let promise = OfShare {
        plan: Snapshot::of(shared.plan),
        workers: shared.workers,
        worker,
    };
    match scope.spawn_with(promise, move || run_one(shared, worker, link)) {
        Ok(child) => Ok(child),
        Err(no_thread) => {
            // Its part is run here: it stops at once, and with it all workers that wait.
            shared.refusal.store(u64::from(worker), Ordering::SeqCst);
            let ended = (no_thread.value)();
            drop(ended);
            Err(Fault::Worker(worker))
        }
    }
}

/// Runs one worker, from its group before the first quanta to its end. The worker for which no thread could be made stops.
fn run_one<R: Wait, L: Link + Drop, G: Gate>(
    shared: &Shared<'_, R, G>,
    worker: u8,
    link: L,
) -> Result<Group, Fault>
    requires worker { worker < shared.now.workers }
    requires link { L.is_of link shared.now.plan.now }
    requires number { L.number link ≡ worker }
    ensures { IsEnd shared.now.plan.now shared.now.workers worker result }
{
    let mut link = link;
    if shared.refusal.load(Ordering::SeqCst) == u64::from(worker) {
        link.stop();
        return Err(Fault::Worker(worker));
    }
    match share_of(shared.alloc, shared.plan, shared.workers, worker) {
        Ok(group) => work(shared.rt, shared.alloc, group, link, shared.gate),
        Err(AllocError) => {
            link.stop();
            Err(Fault::Memory)
        }
    }
}

/// Returns the first fault of these ends: by the order of faults, and then by worker.
fn first_fault(ends: &[Result<Group, Fault>]) -> Option<Fault>
    ensures { IsLowestFault ends.now result }
{
    let mut first = None;
    for i in 0..ends.len() {
        first = with_end(first, &ends[i]);
    }
    first
}

/// Returns the first fault so far, or that of one end more.
fn with_end(first: Option<Fault>, end: &Result<Group, Fault>) -> Option<Fault>
    ensures { IsNextFault first end.now result }
{
    match (first, end) {
        (Some(fault), _) => Some(lower_of(fault, end)),
        (None, Err(fault)) => Some(*fault),
        (None, Ok(_)) => None,
    }
}

/// Returns the first of a fault and of that of one end more.
fn lower_of(first: Fault, end: &Result<Group, Fault>) -> Fault
    ensures { IsNextFault (Some first) end.now (Some result) }
{
    match end {
        Err(fault) => fault.or_lower(first),
        Ok(_) => first,
    }
}

/// Returns the outcome of all groups together; they are at their ends. Refused only when out of memory.
fn outcome_from(
    alloc: Global,
    plan: &CheckedPlan,
    workers: u8,
    ends: &[Result<Group, Fault>],
) -> Result<Outcome, AllocError>
    requires count { (0 < workers) × (length ends.now ≡ workers) }
    requires ended { All IsOk ends.now }
    requires kept { EndsKept plan.now workers ends.now }
    ensures { IfOk result (λ outcome. outcome ≡ outcome_of plan.now) }
{
    outcome_node_by_node();
    let mut nodes = Listed::new(alloc);
    for i in 0..plan.nodes() {
        let outcome = node_from(alloc, plan, workers, ends, i)?;
        nodes.push(outcome)?;
    }
    Ok(Outcome {
        nodes,
        end: plan.end,
    })
}

/// Returns what node `i` did, by the group that has it.
fn node_from(
    alloc: Global,
    plan: &CheckedPlan,
    workers: u8,
    ends: &[Result<Group, Fault>],
    i: u8,
) -> Result<NodeOutcome, AllocError>
    requires count { (0 < workers) × (length ends.now ≡ workers) }
    requires ended { All IsOk ends.now }
    requires kept { EndsKept plan.now workers ends.now }
    requires node { i < length plan.now.nodes }
    ensures { IfOk result (λ outcome. outcome ≡ node_outcome_of plan.now i) }
{
    let _ = plan;
    let Ok(group) = &ends[usize::from(i % workers)] else {
        unreachable!()
    };
    outcome_at_end(alloc, group, i)
}

/// Returns what a member did, at the end.
fn outcome_at_end(alloc: Global, group: &Group, i: u8) -> Result<NodeOutcome, AllocError>
    requires node { i < length group.now.plan.nodes }
    requires member { belongs group.now i ≡ true }
    requires ended { has_ended group.now i ≡ true }
    requires lists { group.now.lists ≡ true }
    ensures { IfOk result (λ outcome. outcome ≡ node_outcome_of group.now.plan i) }
{
    wl_plan::checked_is_sound();
    wl_group::group_laws();
    let changes = group.changes(alloc, i)?;
    node_outcome(alloc, group.node(i), changes)
}
