//! Whether the queues of a plan have the frames of a table of messages.
ghost use Rattle.std.specs.Prelude.{◌≡◌, ◌+◌, ◌*◌, ◌<◌, ◌==◌, ◌&&◌, length, IfSome};
ghost use Rattle.std.specs.Bool.{Decides};
ghost use Rattle.wl_bound.specs.Fields.{field_of};
ghost use Rattle.wl_level.specs.Places.{first_place};
ghost use Rattle.wl_respond.specs.Plans.{GoInOrder, HasMessage, IsWithinBits, KeepsTable, comes_from, eleventh_sample, is_message, is_spaced, message_of, starts_after};
ghost use Rattle.wl_plan.specs.PlanLine.{setup_at};
ghost use Rattle.wl_respond.specs.Tests.{message_at};

use crate::message::MessageWait;
use wl_bound::field_of;
use wl_frame::frame::Frame;
use wl_node::Queued;
use wl_plan::CheckedPlan;

/// True if message `e` is that of node `i` with this field.
fn is_message(messages: &[MessageWait], i: u8, field: u64, e: usize) -> bool
    requires { e < length messages.now }
    ensures { result ≡ is_message messages.now i field e }
{
    messages[e].node == i && messages[e].field == field
}

/// Returns the first message of node `i` with the field of a frame.
pub(crate) fn message_of(messages: &[MessageWait], i: u8, frame: &Frame) -> Option<usize>
    ensures first { result ≡ message_of messages.now i frame.now }
    ensures inside { IfSome result (λ e. e < length messages.now) }
{
    let field = field_of(frame);
    let mut first = None;
    for e in 0..messages.len() {
        if first.is_none() && is_message(messages, i, field, e) {
            first = Some(e);
        }
    }
    first
}

/// Returns the most bits of a frame of message `e`.
fn bits_at(messages: &[MessageWait], e: usize) -> u8
    requires { e < length messages.now }
    ensures { result ≡ (message_at messages.now e).bits }
{
    messages[e].bits
}

/// True if a frame has no more bits up to the end of its CRC sequence, stuff bits among them.
fn is_within_bits(frame: &Frame, most: u8) -> bool
    ensures { Decides result (IsWithinBits frame.now most) }
{
    wl_frame::laws::a_list_has_one_stuffing();
    let bits = frame.stuffed();
    bits.len() <= most as usize
}

/// True if an entry of node `i` is a frame of a message, and no longer than that says.
fn has_message(messages: &[MessageWait], i: u8, entry: &Queued) -> bool
    ensures { Decides result (HasMessage messages.now i entry.now) }
{
    match message_of(messages, i, &entry.frame) {
        Some(e) => is_within_bits(&entry.frame, bits_at(messages, e)),
        None => false,
    }
}

/// True if the first of these entries is ready at that quantum or later.
fn starts_after(ready: u64, later: &[Queued]) -> bool
    ensures { result ≡ starts_after ready later.now }
{
    match later {
        [] => true,
        [next, ..] => ready <= next.ready,
    }
}

/// True if the first of these entries with that field is ready at that quantum or later.
fn comes_from(field: u64, earliest: u128, later: &[Queued]) -> bool
    ensures { result ≡ comes_from field earliest later.now }
{
    match later {
        [] => true,
        [next, rest @ ..] => {
            if field_of(&next.frame) == field {
                earliest <= next.ready as u128
            } else {
                comes_from(field, earliest, rest)
            }
        }
    }
}

/// True if the next entry of the same message is its period later.
fn is_spaced(messages: &[MessageWait], i: u8, entry: &Queued, later: &[Queued]) -> bool
    ensures { result ≡ is_spaced messages.now i entry.now later.now }
{
    match message_of(messages, i, &entry.frame) {
        Some(e) => {
            let earliest = entry.ready as u128 + messages[e].every as u128;
            comes_from(field_of(&entry.frame), earliest, later)
        }
        None => false,
    }
}

/// True if the queue of node `i` has frames of these messages, in the order in which they become ready. None is ready before that quantum, and
/// two of one message are its period apart.
fn go_in_order(messages: &[MessageWait], i: u8, from: u64, queue: &[Queued]) -> bool
    ensures { Decides result (GoInOrder messages.now i from queue.now) }
{
    match queue {
        [] => true,
        [entry, later @ ..] => {
            from <= entry.ready
                && has_message(messages, i, entry)
                && starts_after(entry.ready, later)
                && is_spaced(messages, i, entry, later)
                && go_in_order(messages, i, from, later)
        }
    }
}

/// True if it is so at a node of a plan, from the node's eleventh sample on.
fn node_keeps(plan: &CheckedPlan, messages: &[MessageWait], i: u8) -> bool
    requires { i < length plan.now.nodes }
    ensures { Decides result (GoInOrder messages.now i (eleventh_sample plan.now i) (setup_at plan.now i).queue) }
{
    let node = plan.node(i);
    let from = 10 * node.segments.bit_quanta() + node.segments.sample_at();
    go_in_order(messages, i, from, node.queue.as_slice())
}

/// True if both are.
fn both(one: bool, other: bool) -> bool
    ensures { result ≡ one && other }
{
    one && other
}

/// True if the queues of a plan have the frames of these messages, and only then. Each queue has them in the order in which they become ready,
/// and none before its node's eleventh sample. Two frames of one message are its period apart.
pub fn keeps_table(plan: &CheckedPlan, messages: &[MessageWait]) -> bool
    ensures { Decides result (KeepsTable plan.now messages.now) }
{
    let mut keeps = true;
    for i in 0..plan.nodes() {
        let here = node_keeps(plan, messages, i);
        keeps = both(keeps, here);
    }
    keeps
}
