//! Links by which nothing comes: workers over them learn nothing of one another.
ghost use Rattle.std.specs.Prelude.{◌≡◌, IfOk};
ghost use Rattle.wl_worker.specs.PlanName.{AreNumbered};

use crate::runs::{End, Task, end_of};
use crate::watch::{Rule, Watch};
use std::alloc::{AllocError, Global};
use std::sync::Wait;
use std::sync::atomic::{AtomicU64, Ordering};
use std::thread::Threads;
use test_words::Stop;
use wl_group::Group;
use wl_record_core::Record;
use wl_worker::{Fault, Link, LinkFault, nothing_is_taken, share_of, simulate_over, work};

/// What the links of a run share.
#[derive(Drop)]
struct Shared {
    /// The last worker that stopped; none so far.
    stopped: AtomicU64,
    /// How often a link was rewound and something given by it next.
    restarts: AtomicU64,
}

/// No worker stopped.
const NONE_STOPPED: u64 = u64::MAX;

impl Shared {
    /// Returns what links share before a run.
    fn new() -> Shared {
        Shared {
            stopped: AtomicU64::new(NONE_STOPPED),
            restarts: AtomicU64::new(0),
        }
    }
}

/// How a link fails.
#[derive(Clone, Copy)]
struct Failure {
    /// At which of its calls of `give` and `fetch`, from 1; 0 if never.
    nth: u64,
    fault: LinkFault,
}

/// A link that keeps what is given to itself and brings nothing.
#[derive(Drop)]
struct Deaf<'s> {
    worker: u8,
    failure: Failure,
    // How many calls there were.
    calls: u64,
    // Whether its last call was a rewind.
    is_rewound: bool,
    shared: &'s Shared,
}

impl<'s> Deaf<'s> {
    /// Returns the link of this worker.
    fn new(worker: u8, failure: Failure, shared: &'s Shared) -> Deaf<'s>
        ensures { result.worker ≡ worker }
    {
        Deaf {
            worker,
            failure,
            calls: 0,
            is_rewound: false,
            shared,
        }
    }

    /// Counts a call, and fails if it is the one that fails.
    fn call(&mut self) -> Result<(), LinkFault>
        ensures { self.new.worker ≡ self.old.worker }
    {
        self.is_rewound = false;
        self.calls = self.calls.saturating_add(1);
        if self.calls == self.failure.nth {
            return Err(self.failure.fault);
        }
        Ok(())
    }
}

impl<'s> Link for Deaf<'s> {
    ghost use Rattle.std.specs.Prelude.{⊤};

    ghost is_of = { λ link plan. ⊤ };

    ghost number = { λ link. link.worker };

    fn worker(&self) -> u8 {
        self.worker
    }

    fn give(&mut self, _alloc: Global, _records: &[Record]) -> Result<(), LinkFault> {
        if self.is_rewound {
            self.shared.restarts.fetch_add(1, Ordering::SeqCst);
        }
        self.call()
    }

    fn fetch(&mut self, _alloc: Global, _group: &mut Group) -> Result<bool, LinkFault> {
        nothing_is_taken();
        self.call()?;
        Ok(false)
    }

    fn rewind(&mut self) {
        self.is_rewound = true;
    }

    fn wait(&mut self) -> Option<u8> {
        u8::try_from(self.shared.stopped.load(Ordering::SeqCst)).ok()
    }

    fn stop(&mut self) {
        let worker = u64::from(self.worker);
        self.shared.stopped.store(worker, Ordering::SeqCst);
    }
}

/// Returns the fault of this number, by their order.
fn fault_of(number: u64) -> LinkFault {
    match number {
        0 => LinkFault::Foreign,
        1 => LinkFault::Gone,
        _ => LinkFault::Memory,
    }
}

/// Runs a plan by 2 workers whose links fail as a step says.
pub fn failing<R: Threads + Wait + Sync>(
    rt: &R,
    alloc: Global,
    task: Task<'_>,
) -> Result<End, Stop> {
    let shared = Shared::new();
    let links = two_links(alloc, task.step.numbers, &shared)?;
    let plan = task.plan.clone_in(alloc)?;
    let gate = Watch::new(Rule::Any);
    end_of(alloc, task, simulate_over(rt, alloc, plan, links, &gate))
}

/// Returns the links of 2 workers: when and how each fails.
fn two_links<'s>(
    alloc: Global,
    numbers: [u64; 4],
    shared: &'s Shared,
) -> Result<Vec<Deaf<'s>>, AllocError>
    ensures { IfOk result (λ links. AreNumbered (λ link. link.worker) links.items) }
{
    let [nth, fault, other_nth, other_fault] = numbers;
    let first = Failure {
        nth,
        fault: fault_of(fault),
    };
    let second = Failure {
        nth: other_nth,
        fault: fault_of(other_fault),
    };
    let mut links = Vec::new(alloc);
    links.push(Deaf::new(0, first, shared))?;
    links.push(Deaf::new(1, second, shared))?;
    Ok(links)
}

/// Runs one worker of a step over a link that brings nothing, in this thread. Returns how it ended.
pub fn alone<R: Wait>(rt: &R, alloc: Global, task: Task<'_>) -> Result<String, Stop> {
    let [worker, workers, ..] = task.step.numbers;
    let (worker, workers) = (worker.min(255) as u8, workers.min(255) as u8);
    if worker >= workers {
        return Err(Stop::Unread);
    }
    let shared = Shared::new();
    let gate = Watch::new(task.step.rule);
    let never = Failure {
        nth: 0,
        fault: LinkFault::Gone,
    };
    let group = share_of(alloc, task.plan, workers, worker)?;
    let link = Deaf::new(worker, never, &shared);
    let fault = work(rt, alloc, group, link, &gate).err();
    told(
        alloc,
        fault,
        gate.turns(),
        shared.restarts.load(Ordering::SeqCst),
    )
}

/// Returns how a worker ended.
fn told(alloc: Global, fault: Option<Fault>, turns: u64, restarts: u64) -> Result<String, Stop> {
    Ok(match fault {
        None => String::from_str(alloc, ": at its end")?,
        Some(fault) => format!(in alloc; ": fault: {fault}, {turns} turns, {restarts} restarts")?,
    })
}
