//! The table of messages of a plan, without bounds.
ghost use Rattle.std.specs.Prelude.{◌≡◌, ◌+◌, ◌<◌, IfOk, OnOk, length};
ghost use Rattle.wl_frame.specs.Grammar.{Content};
ghost use Rattle.wl_plan.specs.PlanLine.{setup_at};
ghost use Rattle.wl_respond.specs.Asks.{frames_at};
ghost use Rattle.wl_respond.specs.Plans.{IsWithinBits};
ghost use Rattle.wl_respond.specs.Tables.{HasBits, HasNumbers, HaveNumbers, IsMostBits, IsTable, first_of, frame_in, gap_after, is_of, last_ready, least_gap, messages_below, messages_of, messages_with, with_entries, with_frame, with_text, with_texts};

use crate::asked::frames_at;
use crate::level::level_in;
use crate::message::MessageWait;
use crate::plan::message_of;
use std::alloc::{AllocError, Global};
use wl_bound::field_of;
use wl_frame::frame::Frame;
use wl_level::Listed;
use wl_node::Queued;
use wl_plan::CheckedPlan;
use wl_setup::{FrameText, PlanText};

/// The period of a message that comes once.
pub const ONCE: u64 = u64::MAX;

/// Returns a message with the first of its frames, before its numbers are known.
fn first_of(i: u8, frame: &Frame) -> MessageWait
    ensures { result ≡ first_of i frame.now }
{
    let field = field_of(frame);
    MessageWait {
        node: i,
        frame: *frame,
        field,
        level: field,
        bits: 0,
        every: ONCE,
        window: 0,
        wait: 0,
        first: 0,
    }
}

/// Adds the message of a frame of node `i`, if it isn't there. Refused only when out of memory.
fn see(messages: &mut Listed<MessageWait>, i: u8, frame: &Frame) -> Result<(), AllocError>
    ensures { OnOk result (messages.new ≡ with_frame messages.old i frame.now) }
{
    match message_of(messages.as_slice(), i, frame) {
        Some(_) => Ok(()),
        None => messages.push(first_of(i, frame)),
    }
}

/// Adds the messages of a queue of node `i`.
fn see_entries(
    messages: &mut Listed<MessageWait>,
    i: u8,
    queue: &[Queued],
) -> Result<(), AllocError>
    ensures { OnOk result (messages.new ≡ with_entries messages.old i queue.now (length queue.now)) }
{
    for n in 0..queue.len() {
        see(messages, i, &queue[n].frame)?;
    }
    Ok(())
}

/// Adds the messages of a plan's queues to none.
fn see_plan(messages: &mut Listed<MessageWait>, plan: &CheckedPlan) -> Result<(), AllocError>
    requires { messages.old ≡ messages_below plan.now 0 }
    ensures { OnOk result (messages.new ≡ messages_below plan.now (length plan.now.nodes)) }
{
    for i in 0..plan.nodes() {
        see_entries(messages, i, plan.node(i).queue.as_slice())?;
    }
    Ok(())
}

/// Returns the frame of a text, if it is one.
fn frame_in(text: &FrameText) -> Option<Frame>
    ensures { result ≡ frame_in text.now }
{
    let bytes = text.bytes.as_slice();
    let made = if text.extended {
        Frame::extended(text.id, text.remote, text.dlc, bytes)
    } else {
        Frame::base(text.id, text.remote, text.dlc, bytes)
    };
    match made {
        Ok(frame) => Some(frame),
        Err(_) => None,
    }
}

/// Adds the message of a frame that the text has for node `i`, if it isn't there: none of its instances comes before the plan's end.
fn see_text(messages: &mut Listed<MessageWait>, i: u8, text: &FrameText) -> Result<(), AllocError>
    ensures { OnOk result (messages.new ≡ with_text messages.old i text.now) }
{
    match frame_in(text) {
        Some(frame) => see(messages, i, &frame),
        None => Ok(()),
    }
}

/// Adds the messages of all frames that the text has for node `i`.
fn see_texts(
    messages: &mut Listed<MessageWait>,
    i: u8,
    frames: &[FrameText],
) -> Result<(), AllocError>
    ensures { OnOk result (messages.new ≡ with_texts messages.old i frames.now) }
{
    match frames {
        [] => Ok(()),
        [text, later @ ..] => {
            see_text(messages, i, text)?;
            see_texts(messages, i, later)
        }
    }
}

/// Returns the messages of a plan with this text, before their numbers are known: those of its queues, by nodes, each in the order of its first
/// frame, and after them those that no queue has before the plan's end. Refused only when out of memory.
pub(crate) fn messages_of(
    alloc: Global,
    plan: &CheckedPlan,
    text: &PlanText,
) -> Result<Listed<MessageWait>, AllocError>
    ensures { IfOk result (λ messages. messages ≡ messages_of plan.now text.now) }
{
    let mut messages = Listed::new(alloc);
    see_plan(&mut messages, plan)?;
    for i in 0..plan.nodes() {
        see_texts(&mut messages, i, frames_at(text, i))?;
    }
    Ok(messages)
}

/// True if entry `n` of a queue has that field.
fn is_of(queue: &[Queued], field: u64, n: usize) -> bool
    requires { n < length queue.now }
    ensures { result ≡ is_of queue.now field n }
{
    field_of(&queue[n].frame) == field
}

/// Returns how long after that quantum another one is, or `ONCE`.
fn gap_after(last: Option<u64>, ready: u64) -> u64
    ensures { result ≡ gap_after last ready }
{
    match last {
        Some(last) => ready.saturating_sub(last),
        None => ONCE,
    }
}

/// Returns the least number of quanta between two entries of a queue with that field that follow one another, or `ONCE`.
fn least_gap(queue: &[Queued], field: u64) -> u64
    ensures { result ≡ least_gap queue.now field (length queue.now) }
{
    let mut last = None;
    let mut least = ONCE;
    for n in 0..queue.len() {
        if is_of(queue, field, n) {
            let ready = queue[n].ready;
            least = gap_after(last, ready).min(least);
            last = Some(ready);
        }
    }
    least
}

/// Returns how many bits a frame has up to the end of its CRC sequence, stuff bits among them.
fn bits_in(frame: &Frame) -> u8
    ensures has { HasBits frame.now result }
    ensures within { IsWithinBits frame.now result }
{
    wl_frame::laws::a_list_has_one_stuffing();
    frame.stuffed().len() as u8
}

/// Returns the most bits of a frame and of the first `n + 1` entries of a queue with that field, from those of the first `n`.
fn more_bits(queue: &[Queued], field: u64, n: usize, most: u8) -> u8
    requires { n < length queue.now }
    ensures { (frame : Content) → IsMostBits queue.now field frame n most
        → IsMostBits queue.now field frame (n + 1) result }
{
    if is_of(queue, field, n) {
        bits_in(&queue[n].frame).max(most)
    } else {
        most
    }
}

/// Returns the most bits of a frame and of the entries of a queue with that field.
fn most_bits(queue: &[Queued], field: u64, frame: &Frame) -> u8
    ensures { IsMostBits queue.now field frame.now (length queue.now) result }
{
    let mut most = bits_in(frame);
    for n in 0..queue.len() {
        most = more_bits(queue, field, n, most);
    }
    most
}

/// Returns the queue of node `i`, and none of a node that isn't there.
fn queue_at(plan: &CheckedPlan, i: u8) -> &[Queued]
    ensures { result.now ≡ (setup_at plan.now i).queue }
{
    if i < plan.nodes() {
        plan.node(i).queue.as_slice()
    } else {
        &[]
    }
}

/// Returns a message with its numbers among all.
fn with_numbers(plan: &CheckedPlan, messages: &[MessageWait], message: &MessageWait) -> MessageWait
    ensures { HasNumbers plan.now messages.now message.now result }
{
    let queue = queue_at(plan, message.node);
    MessageWait {
        level: level_in(plan, messages, message),
        bits: most_bits(queue, message.field, &message.frame),
        every: least_gap(queue, message.field),
        ..*message
    }
}

/// Returns these messages with their numbers. Refused only when out of memory.
fn all_with_numbers(
    alloc: Global,
    plan: &CheckedPlan,
    messages: &[MessageWait],
) -> Result<Vec<MessageWait>, AllocError>
    ensures { IfOk result (λ table. HaveNumbers plan.now messages.now table.items) }
{
    let mut table = Vec::new(alloc);
    for e in 0..messages.len() {
        table.push(with_numbers(plan, messages, &messages[e]))?;
    }
    Ok(table)
}

/// Returns the messages of a plan with this text: the frames of one node with one field each. Those of its queues come by nodes, each in the
/// order of its first frame, and after them those that no queue has before the plan's end. A message has the most bits of its frames, and the
/// least number of quanta between two of them that follow one another, or `ONCE`. They have no bounds yet. Refused only when out of memory.
pub fn table_of(
    alloc: Global,
    plan: &CheckedPlan,
    text: &PlanText,
) -> Result<Vec<MessageWait>, AllocError>
    ensures { IfOk result (λ table. IsTable plan.now text.now table.items) }
{
    let messages = messages_of(alloc, plan, text)?;
    all_with_numbers(alloc, plan, messages.as_slice())
}
