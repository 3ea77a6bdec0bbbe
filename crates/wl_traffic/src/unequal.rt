//! The messages with sent frames that some node misses, or has taken twice.
ghost use Rattle.std.specs.Prelude.{◌≡◌, ◌<◌, ◌++◌, length, IfOk, OnOk, true, false};
ghost use Rattle.std.specs.List.{All, list_any};
ghost use Rattle.wl_delivery.specs.Messages.{message_ticks};
ghost use Rattle.wl_report.specs.Lines.{GrowsBy};
ghost use Rattle.wl_traffic.specs.Known.{IsKnownQueue};
ghost use Rattle.wl_traffic.specs.Unequal.{count_line, unequal_words, is_missing, is_twice_taken, said_of, message_end_words, sends_too, unequal_at, unequal_by, unequal_deliveries, unequal_in, unequal_line, unequal_lines, unequal_message, unequal_of_node};

use crate::queues::NodeQueue;
use std::alloc::{AllocError, Global};
use wl_delivery::{Delivery, any_sent, delivery_of, is_first_sent, message_ticks, presence_of};
use wl_frame::frame::Frame;
use wl_report::push_id;
use wl_setup::Names;

/// A message and a node that misses frames of it that were sent, or has taken some twice.
#[derive(Clone, Copy, Debug)]
pub struct Unequal {
    /// The number of the node that sends it.
    pub(crate) sender: usize,
    /// A frame of it.
    pub(crate) frame: Frame,
    /// How many of its frames were sent.
    pub(crate) sent: usize,
    /// The number of the node that misses frames, or has taken some twice.
    pub(crate) node: usize,
    /// How many it misses.
    pub(crate) missed: u64,
    /// How many it has taken twice or more often.
    pub(crate) twice: u64,
}

/// True if another node than `node` has sent frames of a message.
fn any_other(queues: &[NodeQueue], node: usize, frame: &Frame) -> bool
    ensures { result ≡ list_any (sends_too node frame.now) queues.now }
{
    queues.iter().any(|queue| queue.node != node && any_sent(frame, queue.frames.as_slice()))
}

/// Returns what is said of a message of a sender and another node, if that node misses frames or has taken some twice.
fn unequal_by(
    sender: usize,
    frame: &Frame,
    sent: usize,
    node: usize,
    found: Delivery,
) -> Option<Unequal>
    ensures { result ≡ unequal_by sender frame.now sent node found }
{
    if found.missed == 0 && found.twice == 0 {
        return None;
    }
    Some(Unequal {
        sender,
        frame: *frame,
        sent,
        node,
        missed: found.missed,
        twice: found.twice,
    })
}

/// Returns what is said of a message, whose frames a sender has sent at these ticks, and of a node.
fn unequal_at(
    alloc: Global,
    sender: &NodeQueue,
    frame: &Frame,
    sent: &[u64],
    queue: &NodeQueue,
) -> Result<Option<Unequal>, AllocError>
    requires { IsKnownQueue queue.now }
    ensures { IfOk result (λ found. found ≡ unequal_at sender.now frame.now sent.now queue.now) }
{
    if queue.node == sender.node {
        return Ok(None);
    }
    let taken = message_ticks(alloc, &queue.clock, false, frame, queue.frames.as_slice())?;
    let presence = presence_of(&queue.clock, queue.joined, queue.last);
    let found = delivery_of(alloc, presence, sent, &taken)?;
    Ok(unequal_by(sender.node, frame, sent.len(), queue.node, found))
}

/// Adds what is said of a message and a node, if something is.
fn push_said(all: &mut Vec<Unequal>, found: Option<Unequal>) -> Result<(), AllocError>
    ensures { OnOk result (all.new.items ≡ all.old.items ++ said_of found) }
{
    if let Some(unequal) = found {
        all.push(unequal)?;
    }
    Ok(())
}

/// Returns the nodes that miss frames of a sender's message, or have taken some twice.
fn unequal_in(
    alloc: Global,
    queues: &[NodeQueue],
    sender: &NodeQueue,
    frame: &Frame,
) -> Result<Vec<Unequal>, AllocError>
    requires queues { All IsKnownQueue queues.now }
    requires sender { IsKnownQueue sender.now }
    ensures { IfOk result (λ found. found.items ≡ unequal_in queues.now sender.now frame.now) }
{
    let sent = message_ticks(alloc, &sender.clock, true, frame, sender.frames.as_slice())?;
    let mut all = Vec::new(alloc);
    for queue in queues {
        let found = unequal_at(alloc, sender, frame, &sent, queue)?;
        push_said(&mut all, found)?;
    }
    Ok(all)
}

/// Returns what is said of the message of frame `k` of a sender, if that is the first sent one and nobody else has sent one.
fn unequal_message(
    alloc: Global,
    queues: &[NodeQueue],
    sender: &NodeQueue,
    k: usize,
) -> Result<Vec<Unequal>, AllocError>
    requires queues { All IsKnownQueue queues.now }
    requires sender { IsKnownQueue sender.now }
    requires within { k < length sender.now.frames }
    ensures { IfOk result (λ found. found.items ≡ unequal_message queues.now sender.now k) }
{
    let frames = sender.frames.as_slice();
    if !is_first_sent(frames, k) || any_other(queues, sender.node, &frames[k].frame) {
        return Ok(Vec::new(alloc));
    }
    unequal_in(alloc, queues, sender, &frames[k].frame)
}

/// Adds what is said of the messages of a sender.
fn push_node(
    alloc: Global,
    all: &mut Vec<Unequal>,
    queues: &[NodeQueue],
    sender: &NodeQueue,
) -> Result<(), AllocError>
    requires queues { All IsKnownQueue queues.now }
    requires sender { IsKnownQueue sender.now }
    ensures { OnOk result (all.new.items ≡ all.old.items ++ unequal_of_node queues.now sender.now) }
{
    for k in 0..sender.frames.len() {
        let found = unequal_message(alloc, queues, sender, k)?;
        all.extend_from_slice(&found)?;
    }
    Ok(())
}

/// Returns the messages and nodes, if the node misses sent frames of the message or has taken some twice.
pub(crate) fn unequal_deliveries(
    alloc: Global,
    queues: &[NodeQueue],
) -> Result<Vec<Unequal>, AllocError>
    requires { All IsKnownQueue queues.now }
    ensures { IfOk result (λ found. found.items ≡ unequal_deliveries queues.now) }
{
    let mut all = Vec::new(alloc);
    for sender in queues {
        push_node(alloc, &mut all, queues, sender)?;
    }
    Ok(all)
}

/// True if a node misses a frame.
pub(crate) fn any_missed(all: &[Unequal]) -> bool
    ensures { result ≡ list_any is_missing all.now }
{
    all.iter().any(|unequal| unequal.missed != 0)
}

/// True if a node has taken a frame twice.
pub(crate) fn any_twice(all: &[Unequal]) -> bool
    ensures { result ≡ list_any is_twice_taken all.now }
{
    all.iter().any(|unequal| unequal.twice != 0)
}

/// Adds which node misses how many of the frames that were sent, or has taken them twice.
fn push_count_words(
    text: &mut String,
    names: &Names,
    word: &str,
    count: u64,
    unequal: &Unequal,
) -> Result<(), AllocError>
    ensures { OnOk result (GrowsBy text.old text.new (unequal_words names.now word.now count unequal.now)) }
{
    let node = names.name_of(unequal.node);
    let sent = unequal.sent;
    write!(text, "{word} {node} {count} of {sent} frames of ")
}

/// Adds the sender and the identifier of a message, with the end of the line.
fn push_sender(text: &mut String, names: &Names, unequal: &Unequal) -> Result<(), AllocError>
    ensures { OnOk result (GrowsBy text.old text.new (message_end_words names.now unequal.now)) }
{
    let sender = names.name_of(unequal.sender);
    write!(text, "{sender} ")?;
    push_id(text, &unequal.frame)?;
    text.push_str("\n")
}

/// Adds how many frames of a message a node misses or has taken twice, if it is some.
fn push_count(
    text: &mut String,
    names: &Names,
    word: &str,
    count: u64,
    unequal: &Unequal,
) -> Result<(), AllocError>
    ensures { OnOk result (GrowsBy text.old text.new (count_line names.now word.now count unequal.now)) }
{
    if count == 0 {
        return Ok(());
    }
    push_count_words(text, names, word, count, unequal)?;
    push_sender(text, names, unequal)
}

/// Adds the lines of a message and a node.
fn push_line(text: &mut String, names: &Names, unequal: &Unequal) -> Result<(), AllocError>
    ensures { OnOk result (GrowsBy text.old text.new (unequal_line names.now unequal.now)) }
{
    push_count(text, names, "missed", unequal.missed, unequal)?;
    push_count(text, names, "twice", unequal.twice, unequal)
}

/// Adds the lines of all of them.
pub(crate) fn push_unequal(
    text: &mut String,
    names: &Names,
    all: &[Unequal],
) -> Result<(), AllocError>
    ensures { OnOk result (GrowsBy text.old text.new (unequal_lines names.now all.now)) }
{
    for unequal in all {
        push_line(text, names, unequal)?;
    }
    Ok(())
}
