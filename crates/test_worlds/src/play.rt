//! Playing a script over a world.
ghost use Rattle.std.specs.Prelude.{◌≡◌, ◌++◌, ◌∷◌, [], IfOk, OnOk, length};

use crate::script::{Script, Step};
use crate::stop::{Stop, fault, fault_of_line};
use std::alloc::{AllocError, Global};
use wl_group::Group;
use wl_plan::{CheckedPlan, Grouping, GroupingFault};
use wl_replica::Replica;
use wl_report::report_of_totals;
use wl_serial::Outcome;
use wl_world::{Answer, Event, World};

/// Plays a script over the world of its groups and a plan. Returns what is answered.
pub fn play(alloc: Global, plan: CheckedPlan, script: &Script) -> Result<String, Stop> {
    let grouping = grouping_of(alloc, &plan, script.groups.as_slice())?;
    let mut world = World::new(alloc, plan.into_plan(), grouping)?;
    take_all(alloc, &mut world, script.steps.as_slice())
}

/// Returns the grouping of a plan's nodes that numbers make.
fn grouping_of(alloc: Global, plan: &CheckedPlan, numbers: &[u8]) -> Result<Grouping, Stop>
    ensures { IfOk result (λ made. length made ≡ length plan.now.nodes) }
{
    match Grouping::new(alloc, plan, numbers) {
        Ok(grouping) => Ok(grouping),
        Err(GroupingFault::Grouping) => Err(fault(alloc, "Grouping")),
        Err(GroupingFault::Memory) => Err(Stop::Memory),
    }
}

/// Takes steps, events that follow one another in one call. Returns what is answered.
fn take_all(alloc: Global, world: &mut World, steps: &[Step]) -> Result<String, Stop> {
    let mut told = String::new(alloc);
    let mut events = Vec::new(alloc);
    for (i, step) in steps.iter().enumerate() {
        if let Step::Event(event) = step {
            add(&mut events, *event)?;
            continue;
        }
        run(alloc, world, &events, &mut told)?;
        events.clear();
        if !act(alloc, world, *step, &mut told)? {
            return Err(fault_of_line(alloc, (i as u64).saturating_add(2)));
        }
    }
    run(alloc, world, &events, &mut told)?;
    Ok(told)
}

/// Adds an event.
fn add(events: &mut Vec<Event>, event: Event) -> Result<(), AllocError>
    ensures { OnOk result (events.new.items ≡ events.old.items ++ event ∷ []) }
{
    events.push(event)?;
    Ok(())
}

/// Handles events in one call, and writes what each was answered, or how many were handled before memory was refused.
fn run(alloc: Global, world: &mut World, events: &[Event], told: &mut String) -> Result<(), Stop> {
    let answers = match world.run(alloc, events) {
        Ok(answers) => answers,
        Err(stopped) => {
            let done = stopped.done;
            writeln!(told, "Stopped {done}")?;
            return Ok(());
        }
    };
    for answer in answers.as_slice() {
        match answer {
            Answer::Done => told.push_str("Done\n")?,
            Answer::Idle => told.push_str("Idle\n")?,
        }
    }
    Ok(())
}

/// Does a step that is no event, and writes what is answered. True if it could: a text is of a group, a place of one of a group's nodes.
fn act(alloc: Global, world: &mut World, step: Step, told: &mut String) -> Result<bool, Stop> {
    match step {
        Step::Event(_) => {}
        Step::Settle => {
            let rounds = world.settle()?;
            writeln!(told, "{rounds}")?;
        }
        Step::Report => tell_report(alloc, world, told)?,
        Step::Emitted => {
            let count = world.emitted().len();
            writeln!(told, "{count}")?;
        }
        Step::Text(group) => {
            if group as usize >= world.groups() {
                return Ok(false);
            }
            tell_text(alloc, world.group(group).replica(), told)?;
        }
        Step::Place(group, node) => {
            if group as usize >= world.groups() {
                return Ok(false);
            }
            return Ok(tell_place(world.group(group), node, told)?);
        }
    }
    Ok(true)
}

/// Writes the report of what the nodes did, if all are at the end.
fn tell_report(alloc: Global, world: &World, told: &mut String) -> Result<(), AllocError> {
    if !world.at_end() {
        return told.push_str("not at the end\n");
    }
    let outcome = world.outcome(alloc)?;
    tell_outcome(alloc, &outcome, told)
}

/// Writes the report of an outcome.
fn tell_outcome(alloc: Global, outcome: &Outcome, told: &mut String) -> Result<(), AllocError> {
    let totals = outcome.totals(alloc)?;
    let text = report_of_totals(alloc, &totals)?;
    match str::from_utf8(text.as_slice()) {
        Ok(text) => told.push_str(text)?,
        Err(_) => told.push_str("no letters\n")?,
    }
    told.push_str(".\n")
}

/// Writes the canonical text of a replica.
fn tell_text(alloc: Global, replica: &Replica, told: &mut String) -> Result<(), AllocError> {
    for record in replica.canonical(alloc)?.as_slice() {
        writeln!(told, "{record}")?;
    }
    told.push_str(".\n")
}

/// Writes how far a group knows the line at a node's place, and how many quanta the node has run. True if the node is in it.
fn tell_place(group: &Group, node: u8, told: &mut String) -> Result<bool, AllocError> {
    let replica = group.replica();
    let topology = &group.plan().topology;
    if !group.has(node) || node >= replica.nodes() || replica.nodes() != topology.nodes() {
        return Ok(false);
    }
    let horizon = replica.place_horizon(topology, node);
    let quanta = group.node(node).quanta();
    writeln!(told, "{horizon} {quanta}")?;
    Ok(true)
}
