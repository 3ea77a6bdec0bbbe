//! The lines of messages.
ghost use Rattle.std.specs.Prelude.{◌≡◌, ◌<◌, length, count_by, slice_index_or, OnOk, IfOk};
ghost use Rattle.std.specs.List.{All, list_any, sum_by};
ghost use Rattle.wl_plan.specs.PlanLine.{setup_at};
ghost use Rattle.wl_report.specs.Lines.{GrowsBy};
ghost use Rattle.wl_serial.specs.Outcome.{node_outcome_of};
ghost use Rattle.wl_traffic.specs.Entries.{node_queue, node_queues};
ghost use Rattle.wl_traffic.specs.Known.{IsKnown, IsSoon};
ghost use Rattle.wl_traffic.specs.Messages.{all_messages, message_counts, has_id_of, is_left_entry, is_sent_entry, line_at, lines_of, message_line, message_words, node_lines, wait_words, with_id_of};
ghost use Rattle.wl_traffic.specs.Waits.{final_sample};

use crate::entries::Entry;
use crate::nodes::setup_of;
use crate::queues::{NodeQueue, queues_are_known};
use crate::statistics::push_statistics;
use crate::waits::{most_waiting, quanta_waited, time_waited};
use std::alloc::{AllocError, Global};
use wl_clock::Clock;
use wl_frame::frame::Frame;
use wl_plan::CheckedPlan;
use wl_report::push_id;
use wl_setup::Names;
use wl_views::Tick;

/// True if a frame of a queue has the identifier of a frame.
fn has_id_of(frame: &Frame, entry: &Entry) -> bool
    ensures { result ≡ has_id_of frame.now entry.now }
{
    frame.is_extended() == entry.frame.is_extended() && frame.id() == entry.frame.id()
}

/// Returns the frames of a queue with the identifier of a frame.
pub(crate) fn with_id_of(
    alloc: Global,
    frame: &Frame,
    entries: &[Entry],
) -> Result<Vec<Entry>, AllocError>
    ensures { IfOk result (λ mine. mine.items ≡ with_id_of frame.now entries.now) }
{
    let mut mine = Vec::new(alloc);
    for entry in entries {
        if has_id_of(frame, entry) {
            mine.push(*entry)?;
        }
    }
    Ok(mine)
}

/// True if one of these frames has the identifier of a frame.
pub(crate) fn is_among(frame: &Frame, entries: &[Entry]) -> bool
    ensures { result ≡ list_any (has_id_of frame.now) entries.now }
{
    entries.iter().any(|entry| has_id_of(frame, entry))
}

/// Returns how many frames were sent.
fn sent_count(mine: &[Entry]) -> u64
    ensures { result ≡ count_by is_sent_entry mine.now }
{
    let mut count = 0;
    for entry in mine {
        if entry.sent.is_some() {
            count += 1;
        }
    }
    count
}

/// Returns how many frames were not sent.
fn left_count(mine: &[Entry]) -> u64
    ensures { result ≡ count_by is_left_entry mine.now }
{
    let mut count = 0;
    for entry in mine {
        if entry.sent.is_none() {
            count += 1;
        }
    }
    count
}

/// Returns how many attempts lost the arbitration.
fn lost_count(mine: &[Entry]) -> u128
    ensures { result ≡ sum_by (λ e. e.lost) mine.now }
{
    let mut count = 0u128;
    for entry in mine {
        count += u128::from(entry.lost);
    }
    count
}

/// Returns how many attempts broke off at an error.
fn broken_count(mine: &[Entry]) -> u128
    ensures { result ≡ sum_by (λ e. e.broken) mine.now }
{
    let mut count = 0u128;
    for entry in mine {
        count += u128::from(entry.broken);
    }
    count
}

/// Adds a node and an identifier.
fn push_message_words(
    text: &mut String,
    names: &Names,
    i: usize,
    frame: &Frame,
) -> Result<(), AllocError>
    ensures { OnOk result (GrowsBy text.old text.new (message_words names.now i frame.now)) }
{
    let name = names.name_of(i);
    write!(text, "message {i} {name} ")?;
    push_id(text, frame)
}

/// Adds what became of frames, and how many waited at once.
fn push_counts(text: &mut String, last: Option<u64>, mine: &[Entry]) -> Result<(), AllocError>
    ensures { OnOk result (GrowsBy text.old text.new (message_counts last mine.now)) }
{
    let sent = sent_count(mine);
    let left = left_count(mine);
    let waiting = most_waiting(last, mine);
    let lost = lost_count(mine);
    let broken = broken_count(mine);
    write!(
        text,
        " sent {sent} left {left} waiting {waiting} lost {lost} broken {broken}"
    )
}

/// Adds how long frames waited.
fn push_waits(
    alloc: Global,
    text: &mut String,
    tick: Tick,
    clock: &Clock,
    mine: &[Entry],
) -> Result<(), AllocError>
    requires known { All IsKnown mine.now }
    requires soon { All (IsSoon clock.now) mine.now }
    ensures { OnOk result (GrowsBy text.old text.new (wait_words tick clock.now mine.now)) }
{
    let quanta = quanta_waited(alloc, mine)?;
    let times = time_waited(alloc, tick, clock, mine)?;
    text.push_str(" quanta ")?;
    push_statistics(text, &quanta)?;
    text.push_str(" us ")?;
    push_statistics(text, &times)?;
    text.push_str("\n")
}

/// Adds the line of the frames of node `i` with one identifier. `last` is the quantum of the node's last sample.
fn push_message(
    alloc: Global,
    text: &mut String,
    tick: Tick,
    plan: &CheckedPlan,
    names: &Names,
    i: usize,
    last: Option<u64>,
    frame: &Frame,
    mine: &[Entry],
) -> Result<(), AllocError>
    requires node { i < length plan.now.nodes }
    requires last { last ≡ final_sample (node_outcome_of plan.now i).samples }
    requires known { All IsKnown mine.now }
    requires soon { All (IsSoon (setup_at plan.now i).clock) mine.now }
    ensures { OnOk result (GrowsBy text.old text.new (message_line tick plan.now names.now i frame.now mine.now)) }
{
    let clock = &setup_of(plan, i).clock;
    push_message_words(text, names, i, frame)?;
    push_counts(text, last, mine)?;
    push_waits(alloc, text, tick, clock, mine)
}

/// Adds the line of the messages of frame `k` if that is the first frame with its identifier.
fn push_line_at(
    alloc: Global,
    text: &mut String,
    tick: Tick,
    plan: &CheckedPlan,
    names: &Names,
    i: usize,
    last: Option<u64>,
    entries: &[Entry],
    k: usize,
) -> Result<(), AllocError>
    requires node { i < length plan.now.nodes }
    requires last { last ≡ final_sample (node_outcome_of plan.now i).samples }
    requires known { All IsKnown entries.now }
    requires soon { All (IsSoon (setup_at plan.now i).clock) entries.now }
    requires entry { k < length entries.now }
    ensures { (d : Entry) → OnOk result (GrowsBy text.old text.new
        (line_at tick plan.now names.now i entries.now (k, slice_index_or entries.now k d))) }
{
    let frame = &entries[k].frame;
    if is_among(frame, &entries[..k]) {
        return Ok(());
    }
    let mine = with_id_of(alloc, frame, entries)?;
    push_message(alloc, text, tick, plan, names, i, last, frame, &mine)
}

/// Adds the lines of node `i`, whose frames these are.
fn push_node(
    alloc: Global,
    text: &mut String,
    tick: Tick,
    plan: &CheckedPlan,
    names: &Names,
    i: usize,
    queue: &NodeQueue,
) -> Result<(), AllocError>
    requires node { i < length plan.now.nodes }
    requires queue { queue.now ≡ node_queue plan.now i }
    ensures { OnOk result (GrowsBy text.old text.new (node_lines tick plan.now names.now i)) }
{
    queues_are_known(plan);
    let entries = queue.entries.as_slice();
    for k in 0..entries.len() {
        push_line_at(alloc, text, tick, plan, names, i, queue.last, entries, k)?;
    }
    Ok(())
}

/// Adds the lines of all nodes, whose frames these are.
pub(crate) fn push_messages(
    alloc: Global,
    text: &mut String,
    tick: Tick,
    plan: &CheckedPlan,
    names: &Names,
    queues: &[NodeQueue],
) -> Result<(), AllocError>
    requires { queues.now ≡ node_queues plan.now }
    ensures { OnOk result (GrowsBy text.old text.new (all_messages tick plan.now names.now)) }
{
    for i in 0..queues.len() {
        push_node(alloc, text, tick, plan, names, i, &queues[i])?;
    }
    Ok(())
}
