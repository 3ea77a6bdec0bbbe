//! Reading the lines before a plan.

use crate::stop::{Stop, fault, fault_of_line};
use std::alloc::{AllocError, Global};
use test_words::{numbers, parts};
use wl_world::Event;

/// One step of a script.
#[derive(Clone, Copy)]
pub enum Step {
    /// An event of the world.
    Event(Event),
    /// The canonical text of a group's replica.
    Text(u8),
    /// How far a group knows the line at the place of its node `.1`, and how far the node is.
    Place(u8, u8),
    /// How many records were emitted.
    Emitted,
    /// On to the end, round by round.
    Settle,
    /// The report of what the nodes did.
    Report,
}

/// The lines before a plan.
#[derive(Drop)]
pub struct Script {
    /// The number of each node's group.
    pub groups: Vec<u8>,
    /// The steps; step i is on line i + 2.
    pub steps: Vec<Step>,
}

/// Returns the script of a text, and the plan's text after it.
pub fn read(alloc: Global, text: &str) -> Result<(Script, &str), Stop> {
    let (lines, plan) = match text.split_once("\nplan\n") {
        Some((lines, plan)) => (lines, Some(plan)),
        None => (text, None),
    };
    let script = script_of(alloc, lines)?;
    match plan {
        Some(plan) => Ok((script, plan)),
        None => Err(fault(alloc, "NoPlan")),
    }
}

/// Returns the script of its lines.
fn script_of(alloc: Global, lines: &str) -> Result<Script, Stop> {
    let (head, rest) = parts(lines, '\n');
    let Some(groups) = groups_of(alloc, head)? else {
        return Err(fault(alloc, "Groups"));
    };
    let mut steps = Vec::new(alloc);
    for (i, line) in rest.lines().enumerate() {
        match step_of(alloc, line)? {
            Some(step) => push(&mut steps, step)?,
            None => return Err(fault_of_line(alloc, (i as u64).saturating_add(2))),
        }
    }
    Ok(Script { groups, steps })
}

/// Adds a step.
fn push(steps: &mut Vec<Step>, step: Step) -> Result<(), AllocError> {
    steps.push(step)?;
    Ok(())
}

/// Returns the numbers of a line `groups`.
fn groups_of(alloc: Global, line: &str) -> Result<Option<Vec<u8>>, AllocError> {
    match parts(line, ' ') {
        ("groups", words) => numbers(alloc, words),
        _ => Ok(None),
    }
}

/// Returns the step of a line.
fn step_of(alloc: Global, line: &str) -> Result<Option<Step>, AllocError> {
    let (verb, rest) = parts(line, ' ');
    match numbers::<u64>(alloc, rest)? {
        Some(numbers) => Ok(step_by(verb, numbers.as_slice())),
        None => Ok(None),
    }
}

fn step_by(verb: &str, numbers: &[u64]) -> Option<Step> {
    match numbers {
        [] => step_alone(verb),
        [group] => step_of_group(verb, u8::try_from(*group).ok()?),
        [group, second] => step_of_two(verb, u8::try_from(*group).ok()?, *second),
        _ => None,
    }
}

fn step_alone(verb: &str) -> Option<Step> {
    match verb {
        "emitted" => Some(Step::Emitted),
        "settle" => Some(Step::Settle),
        "report" => Some(Step::Report),
        _ => None,
    }
}

fn step_of_group(verb: &str, group: u8) -> Option<Step> {
    match verb {
        "R" => Some(Step::Event(Event::Restart(group))),
        "text" => Some(Step::Text(group)),
        _ => None,
    }
}

fn step_of_two(verb: &str, group: u8, number: u64) -> Option<Step> {
    if verb == "D" {
        return Some(Step::Event(Event::Deliver(group, number)));
    }
    let second = u8::try_from(number).ok()?;
    match verb {
        "A" => Some(Step::Event(Event::Advance(group, second))),
        "J" => Some(Step::Event(Event::Join(group, second))),
        "place" => Some(Step::Place(group, second)),
        _ => None,
    }
}
