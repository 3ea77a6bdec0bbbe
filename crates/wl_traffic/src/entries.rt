//! The frames of a queue, and what became of them.
ghost use Rattle.std.specs.Prelude.{◌≡◌, List, fold, map, IfOk, OnOk};
ghost use Rattle.std.specs.Option.{option_copied};
ghost use Rattle.wl_trace.specs.declared.event.Noted.{Noted as GivenNoted};
ghost use Rattle.wl_trace.specs.Replay.{IsWatchedNode, SampledPast, past_after};
ghost use Rattle.wl_traffic.specs.Entries.{entries_after_event, entries_tried, entries_with, entry_with, is_pending, queue_with_sample, waiting_entry};

use std::alloc::{AllocError, Global};
use wl_frame::frame::Frame;
use wl_level::Level;
use wl_node::{NodeSetup, Queued};
use wl_trace::{FrameField, NodeEvent, Noted, WatchedNode};

/// A frame of a queue, and what became of it.
#[derive(Clone, Copy, Debug)]
pub struct Entry {
    /// What is to be sent.
    pub(crate) frame: Frame,
    /// The quantum from which on it may be sent.
    pub(crate) ready: u64,
    /// The quantum at which it was sent, if it was.
    pub(crate) sent: Option<u64>,
    /// How many attempts lost the arbitration.
    pub(crate) lost: u64,
    /// How many attempts broke off at an error.
    pub(crate) broken: u64,
}

/// What becomes of a frame.
#[derive(Clone, Copy, Debug)]
pub enum Fate {
    /// It is sent at this quantum.
    Sent(u64),
    /// An attempt loses the arbitration.
    Lost,
    /// An attempt breaks off at an error.
    Broken,
}

/// Returns a frame of a queue before the run.
fn waiting_entry(queued: &Queued) -> Entry
    ensures { result ≡ waiting_entry queued.now }
{
    Entry {
        frame: queued.frame,
        ready: queued.ready,
        sent: None,
        lost: 0,
        broken: 0,
    }
}

/// Returns the frames of a queue before the run.
pub(crate) fn waiting_entries(alloc: Global, queue: &[Queued]) -> Result<Vec<Entry>, AllocError>
    ensures { IfOk result (λ entries. entries.items ≡ map waiting_entry queue.now) }
{
    let mut entries = Vec::new(alloc);
    for queued in queue {
        entries.push(waiting_entry(queued))?;
    }
    Ok(entries)
}

/// Returns a frame after this became of it.
fn entry_with(fate: Fate, entry: Entry) -> Entry
    ensures { result ≡ entry_with fate entry }
{
    match fate {
        Fate::Sent(quantum) => Entry {
            sent: Some(quantum),
            ..entry
        },
        Fate::Lost => Entry {
            lost: entry.lost.saturating_add(1),
            ..entry
        },
        Fate::Broken => Entry {
            broken: entry.broken.saturating_add(1),
            ..entry
        },
    }
}

/// True if a frame of a queue carries this and wasn't sent yet.
fn is_pending(frame: &Frame, entry: &Entry) -> bool
    ensures { result ≡ is_pending frame.now entry.now }
{
    entry.sent.is_none() && entry.frame == *frame
}

/// Notes what became of the first frame that carries this and wasn't sent yet.
fn note(entries: &mut Vec<Entry>, fate: Fate, frame: &Frame)
    ensures { entries.new.items ≡ entries_with fate frame.now entries.old.items }
{
    for k in 0..entries.len() {
        if is_pending(frame, &entries[k]) {
            entries[k] = entry_with(fate, entries[k]);
            return;
        }
    }
}

/// Notes what became of the frame that is tried, if one is.
fn note_tried(entries: &mut Vec<Entry>, fate: Fate, head: Option<&Frame>)
    ensures { entries.new.items ≡ entries_tried fate (option_copied head.entry) entries.old.items }
{
    if let Some(frame) = head {
        note(entries, fate, frame);
    }
}

/// Notes an event of a stretch that sends this head.
fn note_event(entries: &mut Vec<Entry>, head: Option<&Frame>, noted: &Noted)
    ensures { entries.new.items
        ≡ entries_after_event (option_copied head.entry) noted.now.quantum entries.old.items noted.now.event }
{
    match noted.event {
        NodeEvent::Sent(frame) => note(entries, Fate::Sent(noted.quantum), &frame),
        NodeEvent::ArbitrationLost(_) => note_tried(entries, Fate::Lost, head),
        NodeEvent::Error { sends, place, .. } => {
            if sends && place.field != FrameField::FlagDelimiter {
                note_tried(entries, Fate::Broken, head);
            }
        }
        _ => {}
    }
}

/// Notes the events of a sample, in a stretch that sends this head.
fn note_events(entries: &mut Vec<Entry>, head: Option<&Frame>, events: &[Noted])
    ensures { entries.new.items ≡ fold (λ (es : List Entry) (n : GivenNoted).
        entries_after_event (option_copied head.entry) n.quantum es n.event) entries.old.items events.now }
{
    for noted in events {
        note_event(entries, head, noted);
    }
}

/// Notes what a sample does, of this quantum and level.
pub(crate) fn note_sample(
    alloc: Global,
    setup: &NodeSetup,
    kept: &mut WatchedNode,
    entries: &mut Vec<Entry>,
    sample: (u64, Level),
) -> Result<(), AllocError>
    ensures past { (p : SampledPast) → IsWatchedNode setup.now kept.old p
        → OnOk result (IsWatchedNode setup.now kept.new (past_after setup.now p sample)) }
    ensures entries { (p : SampledPast) → IsWatchedNode setup.now kept.old p
        → OnOk result (entries.new.items ≡ (queue_with_sample setup.now (p, entries.old.items) sample).1) }
{
    let head = kept.head();
    let (quantum, level) = sample;
    let events = kept.take(alloc, setup, quantum, 0, level)?; // no event is asked for its bit
    note_events(entries, head.as_ref(), &events);
    Ok(())
}
