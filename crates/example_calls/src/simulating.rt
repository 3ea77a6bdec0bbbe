//! A plan made in code, checked, simulated on one thread, and reported.

use anyhow::{Context, Result, bail};
use std::alloc::Global;
use wl_clock::Clock;
use wl_frame::frame::Frame;
use wl_level::Listed;
use wl_node::{NodeSetup, Queue, QueueOrder, Queued};
use wl_plan::Plan;
use wl_report::report;
use wl_segments::Segments;
use wl_serial::{Outcome, records_of, run_serial};
use wl_topology::{Place, Topology};

/// Returns a node whose quanta take 100 ticks and whose bits have 10 quanta, with these frames to send.
fn node(queue: Queue) -> Result<NodeSetup> {
    Ok(NodeSetup {
        clock: Clock::new(0, 100, 1).context("a clock of 100 ticks a quantum")?,
        segments: Segments::new(3, 3, 3, 2).context("bits of 10 quanta")?,
        queue,
        order: QueueOrder::Fifo,
        until: None,
    })
}

/// Returns a place on the cable: a controller that takes a tick to read the line.
fn place(x: u32) -> Place {
    Place {
        x,
        out_delay: 0,
        in_delay: 1,
        listens: false,
    }
}

/// Returns a frame of identifier 0, to be sent from the first quantum on.
fn first_frame() -> Result<Queued> {
    let frame = Frame::base(0, false, 0, &[]).context("an empty frame")?;
    Ok(Queued { frame, ready: 0 })
}

/// Returns two nodes: the first sends that frame, the second only listens.
fn nodes(alloc: Global) -> Result<Listed<NodeSetup>> {
    let mut queue: Queue = Listed::new(alloc);
    queue.push(first_frame()?)?;
    let mut nodes = Listed::new(alloc);
    nodes.push(node(queue)?)?;
    nodes.push(node(Listed::new(alloc))?)?;
    Ok(nodes)
}

/// Returns a plan of these two nodes at some places.
fn plan(alloc: Global, places: &[Place]) -> Result<Plan> {
    let topology = Topology::new(places, 1).context("a cable")?;
    Ok(Plan {
        nodes: nodes(alloc)?,
        topology,
        disturbances: Listed::new(alloc),
        end: 70_000,
    })
}

/// Returns what refuses the plan with one place, which no plan text can ask for.
fn one_place(alloc: Global) -> Result<String> {
    match plan(alloc, &[place(0)])?.check() {
        Ok(()) => bail!("two nodes at one place"),
        Err(fault) => Ok(fault.to_string(alloc)?),
    }
}

/// Returns the simulation of the plan with its two places, which are 50 ticks apart. `run_serial` owes an answer for a plan that passed its
/// check, and for no other.
fn simulated(alloc: Global) -> Result<Outcome> {
    let plan = plan(alloc, &[place(0), place(50)])?;
    plan.check().context("a plan that can be run")?;
    Ok(run_serial(alloc, &plan)?)
}

/// Returns the report of an outcome.
fn report_of(alloc: Global, outcome: &Outcome) -> Result<String> {
    String::from_utf8(report(alloc, outcome)?)
        .ok()
        .context("reports are letters and digits")
}

/// Returns how many records say when each node changed its drive, and that it didn't after that. `records_of` asks for an outcome that
/// records can tell, and `recordable` is the test.
fn record_count(alloc: Global, outcome: &Outcome) -> Result<usize> {
    if !outcome.recordable() {
        bail!("an outcome that records can tell");
    }
    Ok(records_of(alloc, outcome)?.len())
}

/// Writes the report of the plan's simulation, the number of its records, and what refuses the plan with one place.
pub fn tell(alloc: Global, out: &mut String) -> Result<()> {
    let outcome = simulated(alloc)?;
    writeln!(out, "{}", report_of(alloc, &outcome)?.as_str())?;
    writeln!(out, "records of it: {}", record_count(alloc, &outcome)?)?;
    let refusal = one_place(alloc)?;
    writeln!(
        out,
        "with one place for its two nodes: {}",
        refusal.as_str()
    )?;
    Ok(())
}
