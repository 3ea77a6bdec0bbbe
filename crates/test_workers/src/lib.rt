//! Simulates plans by workers in threads, and compares their outcomes with the one-thread simulation's.
//!
//! A text has a step a line, then a line `plan`, and the plan's text. A step is answered by a line: the step, a colon and how it ended. The
//! steps:
//!
//! - `simulate N K`: K runs by N workers in threads of the library, one after another; how the first one ended that isn't as one thread.
//! - `over N K`: the same, over links that this crate makes.
//! - `work N K`: the same, each worker by `work` in a thread of this crate.
//! - `links 2 1`: of two links one gives the first silence of node 0; whether the other one brings something to a group of node 1 by its
//!   first fetch and by its second, and how far that group knows node 0 then.
//! - `failing A F B G`: a run by 2 workers, over links that bring nothing. The link of worker 0 fails at its call A, that of worker 1 at its
//!   call B; calls count from 1, and one of number 0 never comes. F and G say how: 0 is Foreign, 1 Gone, 2 Memory.
//! - `alone W N`: worker W of N by `work`, over a link that brings nothing: how it ended, how many turns it asked for, and how often its link
//!   was rewound and something given next.
//! - `reader-gone`, `writer-gone`: what posts answer if the other one is given up.
//! - `letter`: what a post answers to a letter of all that node 0 emits, and how many records a group of node 1 then knows.
//! - `foreign-letter`: the same of a letter of another plan: the same one with its end one tick later.
//!
//! After the word `mail` links are by letters, else over a hub. The first three and `alone` may have a gate, after a comma:
//!
//! - `stop W T P`: worker W is held before its turn T for P polls, and then refused it; turns count from 0. If P isn't 0, all workers
//!   together may have a few turns only: the others wait.
//! - `overlap T P`: workers 0 and 1 are each held in their turn T until the other one is in its turn T, for at most P polls; then the turn
//!   is refused.
//! - `restart W T U L`: worker W restarts before its turns T and U. Its turn L is refused if it isn't 0.
//! - `random S`: random workers restart before random turns, at least one a run. The number S seeds what is random.
//!
//! A run is as one thread if its report is the one-thread simulation's, byte for byte, and the gate saw what it is for.
#![tactic(auto)]

mod by_work;
mod deaf;
mod letters;
mod links;
mod runs;
mod steps;
mod watch;

use crate::runs::Task;
use crate::steps::Way;
use std::alloc::{AllocError, Global};
use std::sync::Wait;
use std::thread::Threads;
use test_words::{Stop, answered};
use wl_device::Host;
use wl_plan::CheckedPlan;
use wl_report::report_of_totals;
use wl_serial::run_totals;
use wl_setup::{SetupFault, read_checked};

/// Returns what is answered to the steps of a text, or the fault of its plan. Refused only when out of memory.
pub fn answer_rows<R: Threads + Wait + Sync>(
    rt: &R,
    alloc: Global,
    text: &str,
) -> Result<String, AllocError> {
    let (lines, text) = text.split_once("plan\n").unwrap_or((text, ""));
    match read_checked(alloc, &mut Host::new(text.as_bytes())) {
        Ok((plan, _)) => of_plan(rt, alloc, &plan, lines),
        Err(SetupFault::Memory) => Err(AllocError),
        Err(fault) => format!(in alloc; "fault: {fault}\n"),
    }
}

/// Returns what is answered to the steps of a plan, a line each.
fn of_plan<R: Threads + Wait + Sync>(
    rt: &R,
    alloc: Global,
    plan: &CheckedPlan,
    lines: &str,
) -> Result<String, AllocError> {
    let alone = report_alone(alloc, plan)?;
    let mut told = String::new(alloc);
    for line in lines.lines() {
        let said = of_line(rt, alloc, plan, alone.as_slice(), line)?;
        writeln!(told, "{said}")?;
    }
    Ok(told)
}

/// Returns the report of a plan's one-thread simulation.
fn report_alone(alloc: Global, plan: &CheckedPlan) -> Result<Vec<u8>, AllocError> {
    let totals = run_totals(alloc, plan)?;
    report_of_totals(alloc, &totals)
}

/// Returns a line and what is answered to it, by the report of the one-thread simulation.
fn of_line<R: Threads + Wait + Sync>(
    rt: &R,
    alloc: Global,
    plan: &CheckedPlan,
    alone: &[u8],
    line: &str,
) -> Result<String, AllocError> {
    let said = match steps::read(line) {
        Some(step) => of_step(rt, alloc, Task { plan, alone, step }),
        None => Err(Stop::Unread),
    };
    answered(alloc, line, said)
}

/// Returns what is answered to a step.
fn of_step<R: Threads + Wait + Sync>(
    rt: &R,
    alloc: Global,
    task: Task<'_>,
) -> Result<String, Stop> {
    let end = match task.step.way {
        Way::Alone => return deaf::alone(rt, alloc, task),
        Way::Failing => deaf::failing(rt, alloc, task)?,
        Way::Simulate | Way::Over | Way::Work | Way::Links => runs::again(rt, alloc, task)?,
        _ => return letters::exchanged(rt, alloc, task),
    };
    Ok(format!(in alloc; ": {end}")?)
}
