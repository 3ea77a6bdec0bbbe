//! What groups of the nodes of one plan answer.
ghost use Rattle.std.specs.Prelude.{◌≡◌, ◌<◌, IfOk, length};

use std::alloc::{AllocError, Global};
use wl_group::{Advance, Group, first_silence};
use wl_plan::CheckedPlan;
use wl_record_core::Record;

/// What was written, if there was memory for it.
type Told = Result<(), AllocError>;

/// Runs groups of a plan's nodes, and writes what they answer.
pub fn of_plan(alloc: Global, plan: &CheckedPlan) -> Result<String, AllocError> {
    let mut told = String::new(alloc);
    tell_each_alone(alloc, plan, &mut told)?;
    tell_groups(alloc, plan, &mut told)?;
    Ok(told)
}

fn tell_each_alone(alloc: Global, plan: &CheckedPlan, told: &mut String) -> Told {
    for i in 0..plan.nodes() {
        tell_alone(alloc, plan, i, told)?;
    }
    Ok(())
}

/// Runs two groups of all nodes, and begins with the first again.
fn tell_groups(alloc: Global, plan: &CheckedPlan, told: &mut String) -> Told {
    let mut all = group_of_all(alloc, plan)?;
    tell_course(alloc, plan, &mut all, told)
}

/// Runs a group of all nodes and another one, and begins with the first again.
fn tell_course(alloc: Global, plan: &CheckedPlan, all: &mut Group, told: &mut String) -> Told
    requires plan { all.old.plan ≡ plan.now }
{
    tell_run(alloc, plan, all, told)?;
    tell_other(alloc, plan, told)?;
    all.restart()?;
    told.push_str("begun again: ")?;
    tell_progress(all, "first", told)
}

fn tell_other(alloc: Global, plan: &CheckedPlan, told: &mut String) -> Told {
    let mut other = group_of_all(alloc, plan)?;
    tell_rows(alloc, plan, &mut other, told)
}

/// Runs a group of all nodes to its end.
fn tell_run(alloc: Global, plan: &CheckedPlan, all: &mut Group, told: &mut String) -> Told
    requires plan { all.old.plan ≡ plan.now }
{
    tell_first(all, told)?;
    tell_rest(alloc, all, told)?;
    tell_rest(alloc, all, told)?;
    tell_ends(alloc, plan, all, told)
}

/// Writes where each node is in a group of all, and what a group of it alone does with that.
fn tell_ends(alloc: Global, plan: &CheckedPlan, all: &Group, told: &mut String) -> Told
    requires plan { all.now.plan ≡ plan.now }
{
    for i in 0..plan.nodes() {
        tell_node(alloc, all, i, told)?;
        tell_joined(alloc, plan, all, i, told)?;
    }
    Ok(())
}

/// No plan has more rows of quanta here.
const MOST_ROWS: u32 = 10_000;

/// Runs a group of all nodes in rows, each of the least member that may run. Writes how many rows that were, how many records the group has
/// emitted, and where each node is in the end.
fn tell_rows(alloc: Global, plan: &CheckedPlan, all: &mut Group, told: &mut String) -> Told {
    let rows = run_rows(all)?;
    write!(told, "in {rows} rows: ")?;
    tell_progress(all, "then", told)?;
    for i in 0..plan.nodes() {
        tell_node(alloc, all, i, told)?;
    }
    Ok(())
}

/// Runs a group in rows, and returns how many that were.
fn run_rows(all: &mut Group) -> Result<u32, AllocError> {
    let mut rows = 0u32;
    for _ in 0..MOST_ROWS {
        let Some(i) = all.ready() else {
            break;
        };
        if all.go(i)?.is_some() {
            rows = rows.saturating_add(1);
        }
    }
    Ok(rows)
}

/// Writes how many records a group has emitted, and which member may run.
fn tell_progress(group: &Group, next: &str, told: &mut String) -> Told {
    let (emitted, ready) = (group.emitted().len(), group.ready());
    writeln!(told, "{emitted} told, {next} {ready:?}")
}

/// Returns a group of all nodes.
fn group_of_all(alloc: Global, plan: &CheckedPlan) -> Result<Group, AllocError>
    ensures { IfOk result (λ group. group.plan ≡ plan.now) }
{
    let mut members = Vec::new(alloc);
    for i in 0..plan.nodes() {
        members.push(i)?;
    }
    Group::new(alloc, plan, members.as_slice())
}

/// Returns what node `i` may do next in a group.
fn state(group: &Group, i: u8) -> &'static str {
    if group.can_advance(i) {
        "may run"
    } else if group.has_ended(i) {
        "is at the end"
    } else {
        "waits"
    }
}

/// Writes whether node `i` may run by itself, and whether it may once it has taken the other nodes' first silences.
fn tell_alone(alloc: Global, plan: &CheckedPlan, i: u8, told: &mut String) -> Told
    requires node { i < length plan.now.nodes }
{
    let mut alone = Group::new(alloc, plan, &[i])?;
    tell_silences(plan, &mut alone, i, told)
}

/// Writes whether node `i` may run in a group, and whether it may once the group has taken all first silences.
fn tell_silences(plan: &CheckedPlan, group: &mut Group, i: u8, told: &mut String) -> Told
    requires plan { group.old.plan ≡ plan.now }
{
    let before = state(group, i);
    take_silences(plan, group)?;
    let after = state(group, i);
    writeln!(told, "alone {i} {before}, with the first silences {after}")
}

/// Takes the first silence of each node.
fn take_silences(plan: &CheckedPlan, group: &mut Group) -> Told
    requires plan { group.old.plan ≡ plan.now }
{
    for j in 0..plan.nodes() {
        group.take(first_silence(plan, j))?;
    }
    Ok(())
}

/// Runs the least member that may run, and writes what it emitted.
fn tell_first(group: &mut Group, told: &mut String) -> Told
    ensures { group.new.plan ≡ group.old.plan }
{
    let Some(i) = group.ready() else {
        return told.push_str("none may run\n");
    };
    match group.advance(i)? {
        Advance::Emitted(emission) => tell_records(i, emission.as_slice(), told),
        Advance::Blocked => told.push_str("blocked\n"),
        Advance::Ended => told.push_str("ended\n"),
    }
}

/// Writes the records that a member emitted.
fn tell_records(i: u8, records: &[Record], told: &mut String) -> Told {
    for record in records {
        writeln!(told, "{i} says {record}")?;
    }
    Ok(())
}

/// Runs all that may run, and writes how many records that emitted and how many the group has emitted by now.
fn tell_rest(alloc: Global, group: &mut Group, told: &mut String) -> Told
    ensures { group.new.plan ≡ group.old.plan }
{
    let said = group.advance_all(alloc)?.len();
    write!(told, "all: {said} more, ")?;
    tell_progress(group, "then", told)
}

/// Writes where node `i` is in a group, and at which ticks it changed.
fn tell_node(alloc: Global, group: &Group, i: u8, told: &mut String) -> Told {
    if !group.has(i) {
        return writeln!(told, "node {i} is no member");
    }
    let (state, quanta) = (state(group, i), group.node(i).quanta());
    write!(told, "node {i} {state} after {quanta} quanta, changes")?;
    tell_changes(group.changes(alloc, i)?.as_slice(), told)
}

fn tell_changes(changes: &[u64], told: &mut String) -> Told {
    for tick in changes {
        write!(told, " {tick}")?;
    }
    told.push_str("\n")
}

/// Writes how far a group of node `i` alone comes that knows what a group of all does.
fn tell_joined(alloc: Global, plan: &CheckedPlan, all: &Group, i: u8, told: &mut String) -> Told
    requires node { i < length plan.now.nodes }
    requires plan { all.now.plan ≡ plan.now }
{
    let mut alone = Group::new(alloc, plan, &[i])?;
    follow(alloc, &mut alone, all, i, told)
}

/// Runs a group with what another one knows, and writes how many records that emitted, and what node `i` may do next.
fn follow(alloc: Global, group: &mut Group, other: &Group, i: u8, told: &mut String) -> Told
    requires plan { group.old.plan ≡ other.now.plan }
{
    group.join(other.replica())?;
    let said = group.advance_all(alloc)?.len();
    let state = state(group, i);
    writeln!(
        told,
        "alone {i} with all that is known: {said} told, {state}"
    )
}
