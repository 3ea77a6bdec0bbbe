//! The messages of a bus, and the test of their bounds.
ghost use Rattle.std.specs.Prelude.{◌≡◌, ◌-◌, ◌<◌, ◌≤◌, map, IfOk, length};
ghost use Rattle.wl_bound.specs.Limits.{drift_limit, fast_limit};
ghost use Rattle.wl_bound.specs.Rooms.{plain_bus};
ghost use Rattle.wl_respond.specs.Rows.{cost_limit, wait_limit};
ghost use Rattle.wl_respond.specs.Tests.{are_fair, cost_of, is_fair, pass, period_of, row_for, shortest_at, tail_of};
ghost use Rattle.wl_topology.specs.Driven.{any_below};

use crate::inequality::{Common, are_enough};
use crate::row::{Parts, Row, WAIT_LIMIT};
use std::alloc::{AllocError, Global};
use wl_bound::{BusTimes, Family};
use wl_frame::frame::Frame;
use wl_level::Listed;

/// A message of a bus: the frames of one node with one arbitration field. With bounds of it.
#[derive(Clone, Copy, Debug)]
pub struct MessageWait {
    /// Its node.
    pub node: u8,
    /// The first of its frames.
    pub frame: Frame,
    /// Its arbitration field as a number (`field_of` of wl_bound).
    pub field: u64,
    /// The greatest field that may go before it: that of any message of its node if the queue is first in, first out, and else its own.
    pub level: u64,
    /// The most bits of a frame up to the end of its CRC sequence, stuff bits among them.
    pub bits: u8,
    /// The least number of quanta of its node between two frames.
    pub every: u64,
    /// The length of a window of its frames, in millionths of a tick: a window of the frames that win without a gap up to one of them.
    pub window: u128,
    /// How long a frame waits at most, from `ready` to its end, in millionths of a tick.
    pub wait: u128,
    /// The place of its first instance's window in the list of windows of all messages.
    pub first: usize,
}

/// Returns the shortest quantum of node `i`, and 0 of a node that isn't there.
pub(crate) fn shortest_at(family: &Family, i: u8) -> u128
    ensures value { result ≡ shortest_at (plain_bus family.now) i }
    ensures most { result ≤ fast_limit }
{
    if i < family.nodes() {
        family.shortest_quantum(i)
    } else {
        0
    }
}

/// Returns a message in numbers.
pub(crate) fn row(family: &Family, times: BusTimes, message: &MessageWait) -> Row
    requires bit { times.bit < drift_limit }
    requires sample { times.sample < drift_limit }
    requires shift { times.shift < drift_limit }
    ensures { result ≡ row_for (plain_bus family.now) times message.now }
{
    let bits = message.bits as u128;
    let period = message.every as u128 * shortest_at(family, message.node);
    let parts = Parts {
        node: message.node,
        field: message.field,
        level: message.level,
        cost: (bits + 13) * times.bit + times.shift,
        tail: (bits + 9) * times.bit + times.sample + times.shift,
        period: period.max(1),
    };
    let window = message.window.min(WAIT_LIMIT - 1);
    let wait = message.wait.min(WAIT_LIMIT - 1);
    Row::of(parts).with(window, wait, message.first)
}

/// Returns the messages in numbers. Refused only when out of memory.
pub(crate) fn rows(
    alloc: Global,
    family: &Family,
    times: BusTimes,
    messages: &[MessageWait],
) -> Result<Listed<Row>, AllocError>
    requires bit { times.bit < drift_limit }
    requires sample { times.sample < drift_limit }
    requires shift { times.shift < drift_limit }
    ensures { IfOk result (λ rows. rows ≡ map (row_for (plain_bus family.now) times) messages.now) }
{
    let mut rows = Listed::new(alloc);
    for message in messages {
        rows.push(row(family, times, message))?;
    }
    Ok(rows)
}

/// True if a message's node is there, its period isn't 0, and no number is too great.
fn is_fair(family: &Family, message: &MessageWait) -> bool
    ensures { result ≡ is_fair (plain_bus family.now) message.now }
{
    let period = message.every as u128 * shortest_at(family, message.node);
    message.node < family.nodes()
        && period > 0
        && (message.window < WAIT_LIMIT && message.wait < WAIT_LIMIT)
}

/// True if each message is so.
fn are_fair(family: &Family, messages: &[MessageWait]) -> bool
    ensures { result ≡ are_fair (plain_bus family.now) messages.now }
{
    match messages {
        [] => true,
        [first, later @ ..] => is_fair(family, first) && are_fair(family, later),
    }
}

/// True if the windows and waits of these messages pass the inequalities on the bus of a family. `windows` has the windows of the instances of
/// all messages, in millionths of a tick: those of a message begin at its place `first`. Then no frame waits longer than its message says, on any
/// plan of the family with these messages (`respond_law` of wl_proved). Refused only when out of memory.
pub fn pass(
    alloc: Global,
    family: &Family,
    messages: &[MessageWait],
    windows: &[u128],
) -> Result<bool, AllocError>
    ensures { IfOk result (λ passes. passes ≡ pass (plain_bus family.now) messages.now windows.now) }
{
    if !are_fair(family, messages) {
        return Ok(false);
    }
    let times = family.times();
    let rows = rows(alloc, family, times, messages)?;
    let common = Common {
        lead: times.lead,
        wake: times.wake,
    };
    Ok(are_enough(common, rows.as_slice(), windows))
}
