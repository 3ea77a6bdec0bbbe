//! The levels of messages, by the order of their nodes' queues.
ghost use Rattle.std.specs.Prelude.{◌≡◌, ◌<◌, length};
ghost use Rattle.wl_topology.specs.Driven.{any_below};
ghost use Rattle.wl_plan.specs.PlanLine.{setup_at};
ghost use Rattle.wl_respond.specs.Levels.{has_levels, lacks_level, level_for, level_in, top_of};
ghost use Rattle.wl_respond.specs.Tests.{message_at};

use crate::message::MessageWait;
use wl_node::QueueOrder;
use wl_plan::CheckedPlan;

/// Returns the greatest field of the messages of node `i`.
fn top_of(messages: &[MessageWait], i: u8) -> u64
    ensures { result ≡ top_of messages.now i }
{
    let mut greatest = 0;
    for e in 0..messages.len() {
        if messages[e].node == i {
            greatest = messages[e].field.max(greatest);
        }
    }
    greatest
}

/// Returns the order of the queue of node `i`, and first in, first out of a node that isn't there.
fn order_at(plan: &CheckedPlan, i: u8) -> QueueOrder
    ensures { result ≡ (setup_at plan.now i).order }
{
    if i < plan.nodes() {
        plan.node(i).order
    } else {
        QueueOrder::Fifo
    }
}

/// Returns the level of a message among all: the greatest field of its node's messages if the queue is first in, first out, and else its own.
pub(crate) fn level_in(plan: &CheckedPlan, messages: &[MessageWait], message: &MessageWait) -> u64
    ensures { result ≡ level_in plan.now messages.now message.now }
{
    match order_at(plan, message.node) {
        QueueOrder::Fifo => top_of(messages, message.node),
        QueueOrder::Priority => message.field,
    }
}

/// True if message `e` has another level than that.
fn lacks_level(plan: &CheckedPlan, messages: &[MessageWait], e: usize) -> bool
    requires { e < length messages.now }
    ensures { result ≡ lacks_level plan.now messages.now e }
{
    messages[e].level != level_in(plan, messages, &messages[e])
}

/// True if each message has the level that its node's queue gives it.
pub fn has_levels(plan: &CheckedPlan, messages: &[MessageWait]) -> bool
    ensures { result ≡ has_levels plan.now messages.now }
{
    let mut lacks = false;
    for e in 0..messages.len() {
        lacks = lacks || lacks_level(plan, messages, e);
    }
    !lacks
}
