//! Rows of plan texts, and the faults that no text brings about.
ghost use Rattle.std.specs.Prelude.{◌≤◌, ◌^◌, length};

use crate::answer::{fault_line, wrong_numbers};
use crate::shown::{shown_plan, shown_text};
use std::alloc::{AllocError, Global};
use test_words::numbers;
use wl_device::{ScriptedReader, WriteFault};
use wl_plan::{Grouping, GroupingFault, Plan, PlanFault};
use wl_record::TextFault;
use wl_setup::{Names, PlanText, SetupFault, read_plan, read_text};
use wl_topology::MOST_NODES;

/// Returns the answer to a word about the parts of a plan's text, or the fault of the text.
pub fn of_text(
    alloc: Global,
    reader: &mut ScriptedReader,
    word: &str,
) -> Result<String, AllocError> {
    match read_text(alloc, reader) {
        Ok(text) => asked_of_text(alloc, &text, word),
        Err(fault) => fault_line(alloc, fault),
    }
}

fn asked_of_text(alloc: Global, text: &PlanText, word: &str) -> Result<String, AllocError> {
    match word {
        "read_text" => String::from_str(alloc, "ok\n"),
        _ => shown_text(alloc, text),
    }
}

/// Returns the answer to a word about the plan of a text, or the fault of the text.
pub fn of_plan(
    alloc: Global,
    reader: &mut ScriptedReader,
    word: &str,
    rest: &str,
) -> Result<String, AllocError> {
    match read_plan(alloc, reader) {
        Ok((plan, names)) => asked_of_plan(alloc, &plan, &names, word, rest),
        Err(fault) => fault_line(alloc, fault),
    }
}

fn asked_of_plan(
    alloc: Global,
    plan: &Plan,
    names: &Names,
    word: &str,
    rest: &str,
) -> Result<String, AllocError> {
    match word {
        "disturbed" => disturbances(alloc, plan, rest),
        "grouping" => groups(alloc, plan, rest),
        _ => shown_plan(alloc, plan, names),
    }
}

/// Returns whether the node that is the first number is disturbed at each of the ticks that follow it.
fn disturbances(alloc: Global, plan: &Plan, words: &str) -> Result<String, AllocError> {
    let Some(numbers) = numbers::<u64>(alloc, words)? else {
        return wrong_numbers(alloc);
    };
    let Some((node, ticks)) = numbers.as_slice().split_first() else {
        return wrong_numbers(alloc);
    };
    if *node >= u64::from(plan.topology.nodes()) {
        return wrong_numbers(alloc);
    }
    let mut shown = String::new(alloc);
    for tick in ticks {
        let is_disturbed = plan.disturbed(*node as u8, *tick);
        writeln!(shown, "{tick} {is_disturbed}")?;
    }
    Ok(shown)
}

/// Returns the grouping of a plan that these numbers make.
fn groups(alloc: Global, plan: &Plan, words: &str) -> Result<String, AllocError> {
    let Some(groups) = numbers::<u8>(alloc, words)? else {
        return wrong_numbers(alloc);
    };
    match Grouping::new(alloc, plan, groups.as_slice()) {
        Ok(grouping) => shown_grouping(alloc, &grouping, plan.topology.nodes()),
        Err(fault) => fault_line(alloc, fault),
    }
}

/// Returns a grouping of at most 64 nodes: its groups and their nodes, one group more than there are, then each node's group, and one node
/// more than there are.
fn shown_grouping(alloc: Global, grouping: &Grouping, most: u8) -> Result<String, AllocError> {
    let (nodes, groups) = (grouping.nodes(), grouping.groups());
    if nodes > MOST_NODES {
        return String::from_str(alloc, "row: too many nodes\n");
    }
    let mut shown = format!(in alloc; "nodes {nodes} groups {groups}\n")?;
    for group in 0..=groups {
        push_members(alloc, &mut shown, grouping, group)?;
    }
    for node in 0..=most {
        push_group_of(&mut shown, grouping, node)?;
    }
    Ok(shown)
}

fn push_members(
    alloc: Global,
    shown: &mut String,
    grouping: &Grouping,
    group: u8,
) -> Result<(), AllocError>
    requires { length grouping.now ≤ 2 ^ 8 }
{
    let members = grouping.members(alloc, group)?;
    let members = members.as_slice();
    writeln!(shown, "group {group} nodes {members:?}")
}

fn push_group_of(shown: &mut String, grouping: &Grouping, node: u8) -> Result<(), AllocError> {
    match grouping.group_of(node) {
        Some(group) => writeln!(shown, "node {node} group {group}"),
        None => writeln!(shown, "node {node} none"),
    }
}

/// Returns the faults that no text brings about, as they are shown.
pub fn faults(alloc: Global) -> Result<String, AllocError> {
    let (text, setup, grouping) = (TextFault::Memory, SetupFault::Memory, GroupingFault::Memory);
    let (nodes, write) = (PlanFault::Nodes, WriteFault);
    format!(in alloc; "{text}\n{setup}\n{grouping}\n{nodes}\n{write}\n")
}
