//! The messages that wait for longer than they may.
ghost use Rattle.std.specs.Prelude.{◌≡◌, ◌<◌, ◌≤◌, ◌++◌, ℕ, length, OnOk, IfOk};
ghost use Rattle.std.specs.List.{All, filter, list_all, list_any};
ghost use Rattle.wl_node.specs.Limits.{most_run_quanta};
ghost use Rattle.wl_traffic.specs.Known.{IsKnown, IsKnownQuantum, IsKnownQueue};
ghost use Rattle.wl_traffic.specs.Late.{allowed_by, are_in_step, distance_of, entry_at, in_time, is_beaten, is_first, is_in_step, is_late, late_at, late_by, late_in, late_messages, longest_period_in, longest_period, longest_wait, period_at, period_of, quantum_or, ticks_waited, timely_at};
ghost use Rattle.wl_traffic.specs.Messages.{is_left_entry};

use crate::entries::Entry;
use crate::messages::{is_among, with_id_of};
use crate::queues::NodeQueue;
use crate::waits::is_in_time;
use std::alloc::{AllocError, Global};
use wl_frame::frame::Frame;

/// A message that waits for longer than it may, by the longest time for which a frame of it waits.
#[derive(Clone, Copy, Debug)]
pub struct LateMessage {
    /// The number of the node that sends it.
    pub(crate) node: usize,
    /// A frame with its identifier.
    pub(crate) frame: Frame,
    /// For how many ticks the frame waits that waits longest.
    pub(crate) waited: u64,
    /// For how many ticks it may.
    pub(crate) allowed: u64,
    /// Whether frames of other nodes were sent while each such frame waited.
    pub(crate) beaten: bool,
    /// Whether one of these frames was never sent.
    pub(crate) left: bool,
}

/// Returns the frames that became ready in time for some sample.
fn in_time(alloc: Global, last: Option<u64>, mine: &[Entry]) -> Result<Vec<Entry>, AllocError>
    ensures { IfOk result (λ timely. timely.items ≡ in_time last mine.now) }
{
    let mut timely = Vec::new(alloc);
    for entry in mine {
        if is_in_time(last, entry.ready) {
            timely.push(*entry)?;
        }
    }
    Ok(timely)
}

/// True if frame `k` became ready `k` distances of the first two after the first.
fn is_in_step(timely: &[Entry], k: usize) -> bool
    requires two { 1 < length timely.now }
    requires within { k < length timely.now }
    ensures { result ≡ is_in_step timely.now k }
{
    let first = timely[0].ready;
    let distance = timely[1].ready.saturating_sub(first);
    u128::from(timely[k].ready) == u128::from(first) + k as u128 * u128::from(distance)
}

/// True if there are three frames or more, and they became ready at equal distances.
fn are_in_step(timely: &[Entry]) -> bool
    ensures { result ≡ are_in_step timely.now }
{
    if timely.len() < 3 {
        return false;
    }
    let mut all = true;
    for k in 0..timely.len() {
        all = all && is_in_step(timely, k);
    }
    all
}

/// Returns the period of a message in ticks, by its frames that became ready in time, or 0 if it has none.
fn period_of(queue: &NodeQueue, timely: &[Entry]) -> u64
    requires { All (λ e. e.ready ≤ most_run_quanta) timely.now }
    ensures { result ≡ period_of queue.now timely.now }
{
    if !are_in_step(timely) {
        return 0;
    }
    let first = queue.clock.at(timely[0].ready);
    let second = queue.clock.at(timely[1].ready);
    second.saturating_sub(first)
}

/// Returns for how many ticks a frame waits: until it is sent, or up to the last sample.
fn ticks_waited(queue: &NodeQueue, entry: &Entry) -> u64
    requires last { IsKnownQuantum queue.now.last }
    requires sent { IsKnown entry.now }
    ensures { result ≡ ticks_waited queue.now entry.now }
{
    let until = entry.sent.unwrap_or(queue.last.unwrap_or(0));
    let ready = entry.ready.min(until);
    queue.clock.at(until).saturating_sub(queue.clock.at(ready))
}

/// Returns for how many ticks a message may wait.
fn allowed_by(longest: u64, period: u64) -> u64
    ensures { result ≡ allowed_by longest period }
{
    if period == 0 { longest } else { period }
}

/// True if a frame of a message with this period waits for longer than it may.
fn is_late(longest: u64, queue: &NodeQueue, period: u64, entry: &Entry) -> bool
    requires last { IsKnownQuantum queue.now.last }
    requires sent { IsKnown entry.now }
    ensures { result ≡ is_late longest queue.now period entry.now }
{
    let allowed = allowed_by(longest, period);
    (period != 0 || entry.sent.is_none()) && 0 < allowed && allowed < ticks_waited(queue, entry)
}

/// Returns the frames of a message with this period that wait for longer than they may.
fn late_frames(
    alloc: Global,
    longest: u64,
    queue: &NodeQueue,
    period: u64,
    timely: &[Entry],
) -> Result<Vec<Entry>, AllocError>
    requires last { IsKnownQuantum queue.now.last }
    requires sent { All IsKnown timely.now }
    ensures { IfOk result (λ late. late.items ≡ filter (is_late longest queue.now period) timely.now) }
{
    let mut late = Vec::new(alloc);
    for entry in timely {
        if is_late(longest, queue, period, entry) {
            late.push(*entry)?;
        }
    }
    Ok(late)
}

/// True if a frame of another node was sent while this one waited.
fn is_beaten(queue: &NodeQueue, entry: &Entry) -> bool
    ensures { result ≡ is_beaten queue.now entry.now }
{
    let until = entry.sent.unwrap_or(queue.last.unwrap_or(0));
    let received = queue.received.as_slice();
    received
        .iter()
        .any(|quantum| entry.ready < *quantum && *quantum <= until)
}

/// True if frames of other nodes were sent while each of the late ones waited.
fn all_beaten(queue: &NodeQueue, late: &[Entry]) -> bool
    ensures { result ≡ list_all (is_beaten queue.now) late.now }
{
    late.iter().all(|entry| is_beaten(queue, entry))
}

/// True if one of these frames was never sent.
fn any_left(late: &[Entry]) -> bool
    ensures { result ≡ list_any is_left_entry late.now }
{
    late.iter().any(|entry| entry.sent.is_none())
}

/// Returns for how many ticks the frame that waits longest waits.
fn longest_wait(queue: &NodeQueue, late: &[Entry]) -> u64
    requires last { IsKnownQuantum queue.now.last }
    requires sent { All IsKnown late.now }
    ensures { result ≡ longest_wait queue.now late.now }
{
    let mut longest = 0u64;
    for entry in late {
        longest = longest.max(ticks_waited(queue, entry));
    }
    longest
}

/// Adds a message with these frames, if some of them wait for longer than they may.
fn push_late(
    alloc: Global,
    all: &mut Vec<LateMessage>,
    longest: u64,
    queue: &NodeQueue,
    timely: &[Entry],
) -> Result<(), AllocError>
    requires queue { IsKnownQueue queue.now }
    requires ready { All (λ e. e.ready ≤ most_run_quanta) timely.now }
    requires sent { All IsKnown timely.now }
    ensures { OnOk result (all.new.items ≡ all.old.items ++ late_by longest queue.now timely.now) }
{
    let period = period_of(queue, timely);
    let late = late_frames(alloc, longest, queue, period, timely)?;
    if late.is_empty() {
        return Ok(());
    }
    all.push(LateMessage {
        node: queue.node,
        frame: late[0].frame,
        waited: longest_wait(queue, &late),
        allowed: allowed_by(longest, period),
        beaten: all_beaten(queue, &late),
        left: any_left(&late),
    })?;
    Ok(())
}

/// True if frame `k` is the first with its identifier.
fn is_first(entries: &[Entry], k: usize) -> bool
    requires { k < length entries.now }
    ensures { result ≡ is_first entries.now k }
{
    !is_among(&entries[k].frame, &entries[..k])
}

/// Returns the frames with the identifier of frame `k` that became ready in time.
fn timely_at(alloc: Global, queue: &NodeQueue, k: usize) -> Result<Vec<Entry>, AllocError>
    requires queue { IsKnownQueue queue.now }
    requires within { k < length queue.now.entries }
    ensures frames { IfOk result (λ timely. timely.items ≡ timely_at queue.now k) }
    ensures ready { IfOk result (λ timely. All (λ e. e.ready ≤ most_run_quanta) timely.items) }
    ensures sent { IfOk result (λ timely. All IsKnown timely.items) }
{
    let entries = queue.entries.as_slice();
    let mine = with_id_of(alloc, &entries[k].frame, entries)?;
    in_time(alloc, queue.last, &mine)
}

/// Returns the period of the message of frame `k` in ticks, or 0 if that isn't its first frame.
fn period_at(alloc: Global, queue: &NodeQueue, k: usize) -> Result<u64, AllocError>
    requires queue { IsKnownQueue queue.now }
    requires within { k < length queue.now.entries }
    ensures { IfOk result (λ period. period ≡ period_at queue.now k) }
{
    if !is_first(queue.entries.as_slice(), k) {
        return Ok(0);
    }
    let timely = timely_at(alloc, queue, k)?;
    Ok(period_of(queue, &timely))
}

/// Returns the longest period of the messages of a node, in ticks.
fn longest_period_in(alloc: Global, queue: &NodeQueue) -> Result<u64, AllocError>
    requires { IsKnownQueue queue.now }
    ensures { IfOk result (λ longest. longest ≡ longest_period_in queue.now) }
{
    let mut longest = 0u64;
    for k in 0..queue.entries.len() {
        longest = longest.max(period_at(alloc, queue, k)?);
    }
    Ok(longest)
}

/// Returns the longest period of all messages, in ticks.
fn longest_period(alloc: Global, queues: &[NodeQueue]) -> Result<u64, AllocError>
    requires { All IsKnownQueue queues.now }
    ensures { IfOk result (λ longest. longest ≡ longest_period queues.now) }
{
    let mut longest = 0u64;
    for queue in queues {
        longest = longest.max(longest_period_in(alloc, queue)?);
    }
    Ok(longest)
}

/// Adds the message of frame `k`, if that is its first frame and it is late.
fn push_late_at(
    alloc: Global,
    all: &mut Vec<LateMessage>,
    longest: u64,
    queue: &NodeQueue,
    k: usize,
) -> Result<(), AllocError>
    requires queue { IsKnownQueue queue.now }
    requires within { k < length queue.now.entries }
    ensures { OnOk result (all.new.items ≡ all.old.items ++ late_at longest queue.now k) }
{
    if !is_first(queue.entries.as_slice(), k) {
        return Ok(());
    }
    let timely = timely_at(alloc, queue, k)?;
    push_late(alloc, all, longest, queue, &timely)
}

/// Adds the late messages of a node.
fn push_node(
    alloc: Global,
    all: &mut Vec<LateMessage>,
    longest: u64,
    queue: &NodeQueue,
) -> Result<(), AllocError>
    requires { IsKnownQueue queue.now }
    ensures { OnOk result (all.new.items ≡ all.old.items ++ late_in longest queue.now) }
{
    for k in 0..queue.entries.len() {
        push_late_at(alloc, all, longest, queue, k)?;
    }
    Ok(())
}

/// Returns the late messages of all nodes.
pub(crate) fn late_messages(
    alloc: Global,
    queues: &[NodeQueue],
) -> Result<Vec<LateMessage>, AllocError>
    requires { All IsKnownQueue queues.now }
    ensures { IfOk result (λ late. late.items ≡ late_messages queues.now) }
{
    let longest = longest_period(alloc, queues)?;
    let mut all = Vec::new(alloc);
    for queue in queues {
        push_node(alloc, &mut all, longest, queue)?;
    }
    Ok(all)
}
