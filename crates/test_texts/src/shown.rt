//! Plan texts and plans, part by part.

use std::alloc::{AllocError, Global};
use wl_node::{NodeSetup, Queued};
use wl_plan::Plan;
use wl_setup::{ClockText, FrameText, Names, NodeText, PlanText, RateText, SegmentsText};
use wl_topology::Topology;

/// What was written, if there was memory for it.
type Told = Result<(), AllocError>;

/// Adds numbers, each after its name.
fn push_numbers(shown: &mut String, numbers: &[(&str, u64)]) -> Told {
    for (name, number) in numbers {
        write!(shown, " {name} {number}")?;
    }
    Ok(())
}

/// Returns what a plan's text says: a line for the top table, and one for each table after it.
pub fn shown_text(alloc: Global, plan: &PlanText) -> Result<String, AllocError> {
    let (version, end, per) = (plan.version, plan.end, plan.per);
    let mut shown = format!(in alloc; "version {version} end {end} per {per}\n")?;
    for node in plan.node.as_slice() {
        push_node_text(&mut shown, node)?;
    }
    for disturbance in plan.disturbance.as_slice() {
        push_disturbance(&mut shown, disturbance.x, disturbance.from, disturbance.to)?;
    }
    Ok(shown)
}

fn push_name(shown: &mut String, name: &str) -> Told {
    shown.push_str("node ")?;
    shown.push_str(name)
}

/// Adds the line of a node, and one for each of its frames.
fn push_node_text(shown: &mut String, node: &NodeText) -> Told {
    push_name(shown, node.name.as_str())?;
    push_numbers(shown, &[("offset", node.offset)])?;
    for rate in node.rates.as_slice() {
        push_rate_text(shown, rate)?;
    }
    push_segments_text(shown, node)?;
    push_numbers(
        shown,
        &[
            ("x", u64::from(node.x)),
            ("out", node.out_delay),
            ("in", node.in_delay),
        ],
    )?;
    shown.push_str("\n")?;
    for frame in node.frame.as_slice() {
        push_frame_text(shown, frame)?;
    }
    Ok(())
}

/// Adds a rate, and from which quantum on, if that is not the first.
fn push_rate_text(shown: &mut String, rate: &RateText) -> Told {
    if rate.from > 0 {
        push_numbers(shown, &[("from", rate.from)])?;
    }
    match rate.clock {
        ClockText::Rate { num, den } => push_numbers(shown, &[("num", num), ("den", den)]),
        ClockText::Ppm { quantum, ppm } => write!(shown, " quantum {quantum} ppm {ppm}"),
        ClockText::Fraction { num, den, ppm } => {
            push_numbers(shown, &[("num", num), ("den", den)])?;
            write!(shown, " ppm {ppm}")
        }
    }
}

/// Adds the segments of a node as they are written.
fn push_segments_text(shown: &mut String, node: &NodeText) -> Told {
    match node.segments {
        SegmentsText::Each { prop, ps1, ps2 } => push_segments(shown, [prop, ps1, ps2, node.sjw]),
        SegmentsText::Controller { tseg1, tseg2 } => push_numbers(
            shown,
            &[("tseg1", tseg1), ("tseg2", tseg2), ("sjw", node.sjw)],
        ),
    }
}

/// Adds PROP_SEG, both PHASE_SEG and SJW.
fn push_segments(shown: &mut String, segments: [u64; 4]) -> Told {
    let [prop, ps1, ps2, sjw] = segments;
    push_numbers(
        shown,
        &[("prop", prop), ("ps1", ps1), ("ps2", ps2), ("sjw", sjw)],
    )
}

fn push_disturbance(shown: &mut String, x: u32, from: u64, to: u64) -> Told {
    shown.push_str("disturbance")?;
    push_numbers(shown, &[("x", u64::from(x)), ("from", from), ("to", to)])?;
    shown.push_str("\n")
}

fn push_frame_text(shown: &mut String, frame: &FrameText) -> Told {
    push_identifier(shown, frame.id, frame.dlc)?;
    push_content(shown, frame.remote, frame.bytes.as_slice(), frame.ready)
}

fn push_queued(shown: &mut String, queued: &Queued) -> Told {
    let frame = &queued.frame;
    push_identifier(shown, frame.id(), frame.dlc())?;
    push_content(shown, frame.remote(), frame.bytes(), queued.ready)
}

fn push_identifier(shown: &mut String, id: u32, dlc: u32) -> Told {
    shown.push_str("frame")?;
    push_numbers(shown, &[("id", u64::from(id)), ("dlc", u64::from(dlc))])
}

fn push_content(shown: &mut String, remote: bool, bytes: &[u8], ready: u64) -> Told {
    writeln!(shown, " remote {remote} bytes {bytes:?} ready {ready}")
}

/// Returns a plan: its end, its nodes with their frames, how long a level takes between each two, and its disturbances.
pub fn shown_plan(alloc: Global, plan: &Plan, names: &Names) -> Result<String, AllocError> {
    let (end, count) = (plan.end, names.len());
    let mut shown = format!(in alloc; "end {end} names {count}\n")?;
    for (i, node) in plan.nodes.as_slice().iter().enumerate() {
        let name = names.name(i).unwrap_or("without a name");
        push_setup(&mut shown, name, node)?;
    }
    push_delays(&mut shown, &plan.topology)?;
    for disturbance in plan.disturbances.as_slice() {
        push_disturbance(&mut shown, disturbance.x, disturbance.from, disturbance.to)?;
    }
    Ok(shown)
}

/// Adds a node's name, the ticks of four of its quanta, its segments, and a line for each of its frames.
fn push_setup(shown: &mut String, name: &str, node: &NodeSetup) -> Told {
    push_name(shown, name)?;
    for k in [0u64, 1, 2, 10_000] {
        push_numbers(shown, &[("at", node.clock.at(k))])?;
    }
    let segments = &node.segments;
    push_segments(
        shown,
        [
            segments.prop(),
            segments.ps1(),
            segments.ps2(),
            segments.sjw(),
        ],
    )?;
    shown.push_str("\n")?;
    for queued in node.queue.as_slice() {
        push_queued(shown, queued)?;
    }
    Ok(())
}

fn push_delays(shown: &mut String, topology: &Topology) -> Told {
    let nodes = topology.nodes();
    for i in 0..nodes {
        for j in 0..nodes {
            let delay = topology.delay(i, j);
            writeln!(shown, "delay {i} {j} {delay}")?;
        }
    }
    Ok(())
}
