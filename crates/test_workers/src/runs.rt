//! Runs of a plan by workers, and how they ended.

use crate::links::run_over;
use crate::steps::{Step, Way};
use crate::watch::Watch;
use std::alloc::{AllocError, Global};
use std::fmt;
use std::fmt::{Display, Formatter, Write};
use std::sync::Wait;
use std::thread::Threads;
use test_words::Stop;
use wl_plan::CheckedPlan;
use wl_report::report_of_totals;
use wl_serial::Outcome;
use wl_worker::{Fault, LinkKind, simulate, simulate_by};

/// How a run ended, or what came over two links.
#[derive(Clone, Copy, PartialEq, Eq)]
pub enum End {
    /// With the outcome of one thread.
    AsOneThread,
    /// With another outcome.
    Differs,
    /// The gate didn't see what it is for.
    NotMet,
    /// With a fault.
    Fault(Fault),
    /// Whether the first fetch brought something, and the second, and up to which tick node 0 is known then.
    Came(bool, bool, u64),
}

impl Display for End {
    fn fmt<W: Write>(&self, f: &mut Formatter<W>) -> fmt::Result {
        match self {
            End::AsOneThread => f.write_str("as one thread"),
            End::Differs => f.write_str("differs"),
            End::NotMet => f.write_str("not as the gate wants it"),
            End::Fault(fault) => write!(f, "fault: {fault}"),
            End::Came(first, second, horizon) => {
                write!(f, "came {first}, then {second}, horizon {horizon}")
            }
        }
    }
}

/// A step, with the plan that it is about and the report of its one-thread simulation.
#[derive(Clone, Copy)]
pub struct Task<'t> {
    pub plan: &'t CheckedPlan,
    pub alone: &'t [u8],
    pub step: Step,
}

impl Task<'_> {
    /// Returns the number of workers that a step names; 255 for more.
    pub fn workers(&self) -> u8 {
        u8::try_from(self.step.numbers[0]).unwrap_or(u8::MAX)
    }
}

/// Runs a plan several times, and returns how the first run ended that isn't as one thread.
pub fn again<R: Threads + Wait + Sync>(rt: &R, alloc: Global, task: Task<'_>) -> Result<End, Stop> {
    let [_, runs, ..] = task.step.numbers;
    for number in 0..runs {
        let gate = Watch::new(task.step.rule.later(number));
        let end = run(rt, alloc, task, &gate)?;
        if end != End::AsOneThread {
            return Ok(end);
        }
    }
    Ok(End::AsOneThread)
}

/// Runs a plan once, and returns how that ended.
fn run<R: Threads + Wait + Sync>(
    rt: &R,
    alloc: Global,
    task: Task<'_>,
    gate: &Watch,
) -> Result<End, Stop> {
    let end = match task.step.way {
        Way::Simulate => run_by_library(rt, alloc, task, gate)?,
        _ => run_over(rt, alloc, task, gate)?,
    };
    Ok(if gate.is_met() { end } else { End::NotMet })
}

/// Runs a plan by threads of the library, over its links.
fn run_by_library<R: Threads + Wait + Sync>(
    rt: &R,
    alloc: Global,
    task: Task<'_>,
    gate: &Watch,
) -> Result<End, Stop> {
    let plan = task.plan.clone_in(alloc)?;
    let workers = task.workers();
    let ran = match task.step.link {
        LinkKind::Hub => simulate(rt, alloc, plan, workers, gate),
        LinkKind::Mail => simulate_by(rt, alloc, plan, workers, LinkKind::Mail, gate),
    };
    end_of(alloc, task, ran)
}

/// Returns the end of a run by its outcome or fault.
pub fn end_of(alloc: Global, task: Task<'_>, ran: Result<Outcome, Fault>) -> Result<End, Stop> {
    match ran {
        Ok(outcome) if is_alone(alloc, task, &outcome)? => Ok(End::AsOneThread),
        Ok(_) => Ok(End::Differs),
        Err(fault) => Ok(End::Fault(fault)),
    }
}

/// True if the report of an outcome is that of one thread.
fn is_alone(alloc: Global, task: Task<'_>, outcome: &Outcome) -> Result<bool, AllocError> {
    let totals = outcome.totals(alloc)?;
    let said = report_of_totals(alloc, &totals)?;
    Ok(said.as_slice() == task.alone)
}
