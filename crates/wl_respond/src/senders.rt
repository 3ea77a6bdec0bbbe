//! The family of a plan and its text: each node sends that has a message, before the plan's end or later.
ghost use Rattle.std.specs.Prelude.{◌≡◌, ◌+◌, ◌<◌, ◌≤◌, ◌++◌, length, IfOk, IfSome, OnOk};
ghost use Rattle.wl_respond.specs.Senders.{family_with_text, first_of_node, is_of_node, one_entry, senders, sending_plan, with_one_entry};
ghost use Rattle.wl_topology.specs.Limits.{most_places};

use crate::message::MessageWait;
use crate::table::messages_of;
use std::alloc::{AllocError, Global};
use wl_bound::{Family, Oscillator};
use wl_level::Listed;
use wl_node::{NodeSetup, Queue, Queued};
use wl_plan::{CheckedPlan, Nodes, Plan};
use wl_setup::PlanText;

/// True if message `e` is of node `i`.
fn is_of_node(messages: &[MessageWait], i: u8, e: usize) -> bool
    requires { e < length messages.now }
    ensures { result ≡ is_of_node messages.now i e }
{
    messages[e].node == i
}

/// Returns the first message of node `i`.
fn first_of_node(messages: &[MessageWait], i: u8) -> Option<usize>
    ensures first { result ≡ first_of_node messages.now i }
    ensures inside { IfSome result (λ e. e < length messages.now) }
{
    let mut first = None;
    for e in 0..messages.len() {
        if first.is_none() && is_of_node(messages, i, e) {
            first = Some(e);
        }
    }
    first
}

/// Returns a queue with one frame of node `i`, if it has a message. Refused only when out of memory.
fn one_entry(alloc: Global, messages: &[MessageWait], i: u8) -> Result<Queue, AllocError>
    ensures { IfOk result (λ queue. queue ≡ one_entry messages.now i) }
{
    let mut queue = Listed::new(alloc);
    if let Some(e) = first_of_node(messages, i) {
        let frame = messages[e].frame;
        queue.push(Queued { frame, ready: 0 })?;
    }
    Ok(queue)
}

/// Returns node `i` with that queue. Refused only when out of memory.
fn with_one_entry(
    alloc: Global,
    messages: &[MessageWait],
    i: u8,
    node: &NodeSetup,
) -> Result<NodeSetup, AllocError>
    ensures { IfOk result (λ sender. sender ≡ with_one_entry messages.now i node.now) }
{
    let queue = one_entry(alloc, messages, i)?;
    Ok(NodeSetup {
        clock: node.clock,
        segments: node.segments,
        queue,
        order: node.order,
        until: node.until,
    })
}

/// Adds these nodes, from node `i` on, with such queues. Refused only when out of memory.
fn push_senders(
    nodes: &mut Nodes,
    alloc: Global,
    messages: &[MessageWait],
    i: u8,
    from: &[NodeSetup],
) -> Result<(), AllocError>
    requires { i + length from.now ≤ most_places }
    ensures { OnOk result (nodes.new ≡ nodes.old ++ senders messages.now i from.now) }
{
    match from {
        [] => Ok(()),
        [node, later @ ..] => {
            nodes.push(with_one_entry(alloc, messages, i, node)?)?;
            push_senders(nodes, alloc, messages, i + 1, later)
        }
    }
}

/// Returns the plan of these nodes on which one frame waits at each that has a message. Refused only when out of memory.
fn sending_plan(
    alloc: Global,
    plan: &CheckedPlan,
    messages: &[MessageWait],
) -> Result<CheckedPlan, AllocError>
    ensures { IfOk result (λ sending. sending ≡ sending_plan plan.now messages.now) }
{
    let mut nodes = Listed::new(alloc);
    push_senders(&mut nodes, alloc, messages, 0, plan.nodes.as_slice())?;
    Ok(CheckedPlan::of(Plan {
        nodes,
        topology: plan.topology,
        disturbances: Listed::new(alloc),
        end: 0,
    }))
}

/// Returns the family of a plan, its text and the oscillators of its nodes: each node sends that has a message. Refused only when out of memory.
pub(crate) fn family_with_text(
    alloc: Global,
    plan: &CheckedPlan,
    text: &PlanText,
    oscillators: &[Oscillator],
) -> Result<Family, AllocError>
    requires one_each { length oscillators.now ≡ length plan.now.nodes }
    ensures { IfOk result (λ family. family ≡ family_with_text plan.now text.now oscillators.now) }
{
    let messages = messages_of(alloc, plan, text)?;
    let sending = sending_plan(alloc, plan, messages.as_slice())?;
    Family::of_plan(alloc, &sending, oscillators)
}
