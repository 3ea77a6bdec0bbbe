//! A row: steps of two holders, and what the first of them knows.
ghost use Rattle.std.specs.Prelude.{◌≡◌, ◌<◌, OnOk};
ghost use Rattle.wl_replica.specs.State.{Fits};

use crate::form::Form;
use std::alloc::{AllocError, Global};
use test_words::{Stop, numbers, parts};
use wl_record_core::{MOST_NODES, Record, wide_record_limits_hold};

/// What a holder does.
#[derive(Clone, Copy)]
pub enum What {
    /// It takes a record.
    Take(Record),
    /// It joins in what the other holder knows.
    Join,
    /// It says what it knows.
    Tell,
}

/// What the first or the second holder does.
#[derive(Clone, Copy)]
pub struct Step {
    second: bool,
    what: What,
}

/// Returns the record of a kind and its numbers. A number past its limit stays past it, so that no holder takes the record.
fn record_of(kind: &str, numbers: &[u64]) -> Option<Record> {
    let (first, second) = match numbers {
        [first, second] | [first, second, _] => (*first, *second),
        _ => return None,
    };
    let (node, seq) = (first.min(255) as u8, second.min(u64::from(u32::MAX)) as u32);
    match (kind, numbers) {
        ("E", [_, _, tick]) => Some(Record::Edge {
            node,
            seq,
            tick: *tick,
        }),
        ("C", [_, _]) => Some(Record::Clash { node, seq }),
        ("S", [_, _, until]) => Some(Record::Silence {
            node,
            count: seq,
            until: *until,
        }),
        _ => None,
    }
}

/// Returns the record that a text spells.
fn record(alloc: Global, text: &str) -> Result<Record, Stop> {
    let (kind, rest) = parts(text, ' ');
    match numbers::<u64>(alloc, rest)? {
        Some(numbers) => record_of(kind, numbers.as_slice()).ok_or(Stop::Unread),
        None => Err(Stop::Unread),
    }
}

/// Returns what a text bids a holder do.
fn bidden(alloc: Global, text: &str) -> Result<What, Stop> {
    match text {
        "join" => Ok(What::Join),
        "tell" => Ok(What::Tell),
        _ => Ok(What::Take(record(alloc, text)?)),
    }
}

/// Returns the step that a text spells.
fn step_of(alloc: Global, text: &str) -> Result<Step, Stop> {
    let (second, text) = match text.strip_prefix("+ ") {
        Some(rest) => (true, rest),
        None => (false, text),
    };
    let what = bidden(alloc, text)?;
    Ok(Step { second, what })
}

/// Returns the steps of a row.
pub fn steps(alloc: Global, row: &str) -> Result<Vec<Step>, Stop> {
    let mut all = Vec::new(alloc);
    for part in row.split(";") {
        all.push(step_of(alloc, part.trim())?)?;
    }
    Ok(all)
}

/// Writes a node's run length, horizon and wave.
fn tell_node<F: Form>(alloc: Global, form: &F, node: u8, said: &mut String) -> Result<(), Stop>
    requires { node < F.count form.now }
{
    let (run, horizon) = (form.run_of(node), form.horizon_of(node));
    write!(said, " H {node} {run} {horizon};")?;
    let wave = form.wave_of(alloc, node)?;
    Ok(tell_wave(node, wave.as_slice(), said)?)
}

/// Writes the intervals in which a node is dominant.
fn tell_wave(node: u8, wave: &[(u64, u64)], said: &mut String) -> Result<(), AllocError> {
    for (from, to) in wave {
        write!(said, " D {node} {from} {to};")?;
    }
    Ok(())
}

/// Writes the records of a holder, and what they say of each node that they name.
fn tell<F: Form>(alloc: Global, form: &F, said: &mut String) -> Result<(), Stop>
    requires { F.count form.now ≡ MOST_NODES }
{
    let all = form.records(alloc)?;
    tell_records(all.as_slice(), said)?;
    for node in 0..MOST_NODES {
        if all.iter().any(|told| told.node() == node) {
            tell_node(alloc, form, node, said)?;
        }
    }
    Ok(())
}

/// Writes records.
fn tell_records(all: &[Record], said: &mut String) -> Result<(), AllocError> {
    said.push_str(" =")?;
    for told in all {
        write!(said, " {told};")?;
    }
    Ok(())
}

/// Lets one holder do something, beside the other.
fn act<F: Form>(
    alloc: Global,
    holder: &mut F,
    other: &F,
    what: What,
    said: &mut String,
) -> Result<(), Stop>
    requires mine { F.count holder.old ≡ MOST_NODES }
    requires theirs { F.count other.now ≡ MOST_NODES }
    ensures { OnOk result (F.count holder.new ≡ MOST_NODES) }
{
    match what {
        What::Take(told) => {
            if told.node() >= MOST_NODES || !told.within() {
                return Err(Stop::Unread);
            }
            wide_record_limits_hold();
            holder.learn(told)?;
        }
        What::Join => holder.learn_from(alloc, other)?,
        What::Tell => tell(alloc, holder, said)?,
    }
    Ok(())
}

/// Returns what two holders of one form answer, step by step, and the first of them at the end.
pub fn answers<F: Form + Drop>(alloc: Global, steps: &[Step]) -> Result<String, Stop> {
    let mut first = F::empty(alloc, MOST_NODES)?;
    let mut second = F::empty(alloc, MOST_NODES)?;
    answers_of(alloc, &mut first, &mut second, steps)
}

fn answers_of<F: Form>(
    alloc: Global,
    first: &mut F,
    second: &mut F,
    steps: &[Step],
) -> Result<String, Stop>
    requires first { F.count first.old ≡ MOST_NODES }
    requires second { F.count second.old ≡ MOST_NODES }
{
    let mut said = String::new(alloc);
    for step in steps {
        if step.second {
            act(alloc, second, first, step.what, &mut said)?;
        } else {
            act(alloc, first, second, step.what, &mut said)?;
        }
    }
    tell(alloc, first, &mut said)?;
    Ok(said)
}
