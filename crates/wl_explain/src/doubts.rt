//! What is doubtful of a plan that can be run, as numbers.
ghost use Rattle.std.specs.Prelude.{◌≡◌, ◌+◌, ◌*◌, ◌^◌, ◌<◌, ◌≤◌, nat_lt, length};
ghost use Rattle.wl_clock.specs.Timing.{tick_of};
ghost use Rattle.wl_plan.specs.PlanLine.{setup_at};
ghost use Rattle.wl_explain.specs.Doubts.{begins_before, bit_length, borne, difference, first_early, first_late, frame_bits, has_no_room, idle_from, least_quanta, left, longest_round, queue_bits, round_trip, wanted_bits};

use crate::{Quantum, tolerance};
use wl_bound::idle_at;
use wl_frame::frame::Frame;
use wl_node::NodeSetup;
use wl_plan::CheckedPlan;
use wl_segments::Segments;

/// Returns the mean length of a node's bit up to tick `end`, in millionths of a tick.
fn bit_length(end: u64, node: &NodeSetup) -> u128
    requires { end < 2 ^ 48 }
    ensures value { result ≡ bit_length end node.now }
    ensures some { 0 < result }
    ensures most { result < 2 ^ 60 }
{
    let quanta = node.segments.bit_quanta();
    quanta as u128 * Quantum::of_clock(&node.clock, end).num() as u128
}

/// Returns by how many millionths of the shorter of two nodes' bits the longer one is longer, rounded down. A bit is the mean of those up
/// to tick `end`, which is below 2^48.
pub fn difference(end: u64, one: &NodeSetup, other: &NodeSetup) -> u128
    requires { end < 2 ^ 48 }
    ensures { result ≡ difference end one.now other.now }
{
    let first = bit_length(end, one);
    let second = bit_length(end, other);
    1_000_000 * first.abs_diff(second) / first.min(second)
}

/// Returns by how many parts per million the bits of two nodes may differ: each by what the segments of both bear.
pub fn borne(one: &NodeSetup, other: &NodeSetup) -> u128
    ensures { result ≡ borne one.now other.now }
{
    2 * tolerance(&one.segments).min(tolerance(&other.segments)) as u128
}

/// Returns the least, over all other nodes, of what the clocks of node `i` and that node may still differ by, in parts per million.
pub fn left(plan: &CheckedPlan, i: u8) -> u128
    requires node { i < length plan.now.nodes }
    ensures { result ≡ left plan.now i }
{
    let node = plan.node(i);
    let mut left = 2 * tolerance(&node.segments) as u128;
    for j in 0..plan.nodes() {
        let other = plan.node(j);
        left = left.min(borne(node, other).saturating_sub(difference(plan.end, node, other)));
    }
    left
}

/// Returns how many ticks a level takes from node `i` to node `j` and back.
pub fn round_trip(plan: &CheckedPlan, i: u8, j: u8) -> u64
    requires from { i < length plan.now.nodes }
    requires to { j < length plan.now.nodes }
    ensures { result ≡ round_trip plan.now i j }
{
    plan.topology.propagation(i, j) + plan.topology.propagation(j, i)
}

/// Returns the most ticks there and back with which a level has arrived by the earlier sample of two nodes. Their mean quanta up to tick
/// `end` count, which is below 2^48.
pub fn longest_round(end: u64, one: &NodeSetup, other: &NodeSetup) -> u64
    requires { end < 2 ^ 48 }
    ensures { result ≡ longest_round end one.now other.now }
{
    let first = Quantum::of_clock(&one.clock, end).longest_trip(&one.segments);
    let second = Quantum::of_clock(&other.clock, end).longest_trip(&other.segments);
    first.min(second)
}

/// Returns the bits of a frame without stuff bits, and three of intermission.
fn frame_bits(frame: &Frame) -> u128
    ensures value { result ≡ frame_bits frame.now }
    ensures few { result ≤ 131 }
{
    let own = if frame.is_extended() { 67 } else { 47 };
    own + 8 * frame.bytes().len() as u128
}

/// Returns those of all frames that wait at a node.
fn queue_bits(node: &NodeSetup) -> u128
    ensures value { result ≡ queue_bits node.now }
    ensures few { result < 2 ^ 80 }
{
    let mut bits = 0;
    // the frames are fewer than 2^64
    let _ = node.queue.len();
    for waiting in node.queue.as_slice() {
        bits += frame_bits(&waiting.frame);
    }
    bits
}

/// Returns the least bits that a node takes until the last frame of its queue is out: the 11 that it waits for, and the frames, with
/// intermission between two. Stuff bits, and bits in which it doesn't send, are more.
pub fn wanted_bits(node: &NodeSetup) -> u128
    ensures value { result ≡ wanted_bits node.now }
    ensures some { 0 < result }
    ensures few { result < 2 ^ 81 }
{
    11 + queue_bits(node) - 3
}

/// Returns the least quanta of this many bits, however early edges come.
fn least_quanta(segments: &Segments, bits: u128) -> u128
    requires few { bits < 2 ^ 81 }
    ensures { result ≡ least_quanta segments.now bits }
{
    bits * (1 + segments.least_way()) as u128
}

/// Returns the tick from which on all nodes can be idle.
pub fn idle_from(plan: &CheckedPlan) -> u64
    ensures value { result ≡ idle_from plan.now }
    ensures soon { result < 2 ^ 40 }
{
    let mut latest = 0;
    for j in 0..plan.nodes() {
        latest = latest.max(idle_at(plan.node(j)));
    }
    latest
}

/// True if quantum `k` of a node begins before tick `t`.
fn begins_before(node: &NodeSetup, k: u128, t: u64) -> bool
    requires { t < 2 ^ 48 }
    ensures { result ≡ begins_before node.now k t }
{
    wl_clock::ticks_increase();
    node.clock.first_not_before(t) as u128 > k
}

/// Returns the number of the first frame of a node that becomes ready before tick `t`.
pub fn first_early(t: u64, node: &NodeSetup) -> Option<usize>
    requires { t < 2 ^ 48 }
    ensures { result ≡ first_early t node.now }
{
    node.queue
        .as_slice()
        .iter()
        .position(|waiting| begins_before(node, waiting.ready as u128, t))
}

/// Returns the number of the first frame of a node that becomes ready at tick `t` or later.
pub fn first_late(t: u64, node: &NodeSetup) -> Option<usize>
    requires { t < 2 ^ 48 }
    ensures { result ≡ first_late t node.now }
{
    node.queue
        .as_slice()
        .iter()
        .position(|waiting| !begins_before(node, waiting.ready as u128, t))
}

/// True if some frames wait at a node and can't all be sent before tick `end`, which is below 2^48: the least quanta of its least bits, by
/// its own clock, last beyond it.
///
/// If it says so, it is so. A node sends its frames one after another, and each of their bits takes a sample. Between two samples there are
/// the start of a bit and the least way after it. It may be so without being said: stuff bits aren't counted, nor what other nodes send,
/// since equal frames may go out at once.
pub fn has_no_room(end: u64, node: &NodeSetup) -> bool
    requires { end < 2 ^ 48 }
    ensures { result ≡ has_no_room end node.now }
{
    let last = least_quanta(&node.segments, wanted_bits(node)) - 1;
    !node.queue.is_empty() && !begins_before(node, last, end)
}
