//! Drives a world of groups by a script.
//!
//! A line `groups` has the number of each node's group, in the order of the nodes. After it is a step a line, then a line `plan`, and the
//! plan's text. The steps:
//!
//! - `A g i`: group g runs the next quantum of its node i. Answers `Done` or `Idle`, as the next three do.
//! - `D g k`: group g takes emitted record number k, the oldest being 0.
//! - `J g h`: group g takes all that group h has taken.
//! - `R g`: group g begins again.
//! - `settle`: records are delivered to all groups and nodes advance, round by round, until all are at the end. Answers the number of rounds.
//! - `text g`: the canonical text of the replica of group g, and a line `.`.
//! - `place g i`: the tick below which group g knows the line at the place of its node i, and how many quanta that node has run.
//! - `emitted`: how many records were emitted.
//! - `report`: the report of what the nodes did, and a line `.`; `not at the end`, if a node isn't.
//!
//! If memory is refused amid events, `Stopped n` is in place of their answers, n being how many of them were handled; the steps after them
//! go on. Each step but `text` and `report` has a line.
//!
//! If the script or the plan is refused, the answer is one line `fault: ..`, as the plan's text has it or one of these:
//!
//! - `Groups`: the first line is not `groups` and numbers.
//! - `Line(n)`: line n, counted from 1, is no step, a `text` of no group, or a `place` of no group or none of its nodes.
//! - `NoPlan`: there is no line `plan`.
//! - `Grouping`: there is not one number of at most 15 for each node.
#![tactic(auto)]

mod play;
mod script;
mod stop;

use script::Script;
use std::alloc::{AllocError, Global};
use stop::Stop;
use wl_device::Host;
use wl_setup::{SetupFault, read_checked};

/// Returns what a script is answered. Refused only when out of memory.
pub fn answer_rows(alloc: Global, text: &str) -> Result<String, AllocError> {
    match played(alloc, text) {
        Ok(told) => Ok(told),
        Err(Stop::Fault(fault)) => format!(in alloc; "fault: {fault}\n"),
        Err(Stop::Memory) => Err(AllocError),
    }
}

/// Returns what the script of a text is answered.
fn played(alloc: Global, text: &str) -> Result<String, Stop> {
    let (script, plan) = script::read(alloc, text)?;
    played_on(alloc, &script, plan)
}

/// Returns what a script is answered over the plan of a text.
fn played_on(alloc: Global, script: &Script, text: &str) -> Result<String, Stop> {
    match read_checked(alloc, &mut Host::new(text.as_bytes())) {
        Ok((plan, _)) => play::play(alloc, plan, script),
        Err(fault) => Err(stop_of(alloc, &fault)),
    }
}

fn stop_of(alloc: Global, fault: &SetupFault) -> Stop {
    match fault {
        SetupFault::Memory => Stop::Memory,
        _ => match format!(in alloc; "{fault}") {
            Ok(text) => Stop::Fault(text),
            Err(_) => Stop::Memory,
        },
    }
}
