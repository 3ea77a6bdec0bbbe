//! Whether the frames of a plan test the clocks: whether the edges of one are as far apart as they can be.
ghost use Rattle.std.specs.Prelude.{◌≡◌, ◌↔◌, ◌<◌, ◌≤◌, ◌^◌, true, false, length};
ghost use Rattle.wl_level.specs.Places.{at, before};
ghost use Rattle.wl_frame.specs.Laws.{up_to_ack};
ghost use Rattle.wl_sweep_engine.specs.Payload.{NoFrameTests, NoneTests, TestsClocks, edge_within, has_far_edges, is_edge, is_far};

use wl_frame::Frame;
use wl_frame::laws::a_list_has_one_stuffing;
use wl_level::Level;
use wl_node::{NodeSetup, Queued};

/// Returns the level of a bit: of the stuffed bits of a frame, or the CRC delimiter or an ACK slot that is acknowledged after them.
fn level_at(stuffed: &[Level], k: usize) -> Level
    ensures { result ≡ at (up_to_ack stuffed.now) k }
{
    match stuffed.get(k) {
        Some(level) => *level,
        None => {
            if k > 0 && stuffed.len() == k - 1 {
                Level::Dominant
            } else {
                Level::Recessive
            }
        }
    }
}

/// Returns the level of the bit before.
fn level_before(stuffed: &[Level], k: usize) -> Level
    ensures { result ≡ before (up_to_ack stuffed.now) k }
{
    if k == 0 {
        Level::Recessive
    } else {
        level_at(stuffed, k - 1)
    }
}

/// True if a bit begins with an edge from recessive to dominant.
fn is_edge(stuffed: &[Level], k: usize) -> bool
    ensures { result ≡ is_edge (up_to_ack stuffed.now) k }
{
    !level_before(stuffed, k).is_dominant() && level_at(stuffed, k).is_dominant()
}

/// True if one of nine bits from a place on begins with an edge.
fn edge_within(stuffed: &[Level], from: usize) -> bool
    requires { from ≤ 2 ^ 16 }
    ensures { result ≡ edge_within (up_to_ack stuffed.now) from 9 }
{
    let mut found = false;
    for n in 0..9 {
        if is_edge(stuffed, from + n) {
            found = true;
        }
    }
    found
}

/// True if a bit begins with an edge, and the next edge is ten bits later.
fn is_far(stuffed: &[Level], k: usize) -> bool
    requires { k < 2 ^ 16 }
    ensures { result ≡ is_far (up_to_ack stuffed.now) k }
{
    is_edge(stuffed, k) && !edge_within(stuffed, k + 1) && is_edge(stuffed, k + 10)
}

/// True if two edges that follow each other are ten bits apart.
fn has_far_edges(stuffed: &[Level]) -> bool
    requires { length stuffed.now < 2 ^ 15 }
    ensures { result ≡ has_far_edges (up_to_ack stuffed.now) }
{
    let mut found = false;
    for k in 0..stuffed.len() + 2 {
        if is_far(stuffed, k) {
            found = true;
        }
    }
    found
}

/// True if a frame tests the clocks: two edges of it that follow each other are ten bits apart, which is the most that there can be.
fn tests_clocks(frame: &Frame) -> bool
    ensures { (result ≡ true) ↔ TestsClocks frame.now }
{
    a_list_has_one_stuffing();
    has_far_edges(frame.stuffed().as_slice())
}

/// True if none of some frames tests the clocks.
fn no_frame_tests(queue: &[Queued]) -> bool
    ensures yes { result ≡ true → NoFrameTests queue.now }
    ensures no { result ≡ false → ¬ NoFrameTests queue.now }
{
    for queued in queue {
        if tests_clocks(&queued.frame) {
            return false;
        }
    }
    true
}

/// True if no frame of some nodes tests the clocks.
pub(crate) fn none_tests(nodes: &[NodeSetup]) -> bool
    ensures yes { result ≡ true → NoneTests nodes.now }
    ensures no { result ≡ false → ¬ NoneTests nodes.now }
{
    for node in nodes {
        if !no_frame_tests(node.queue.as_slice()) {
            return false;
        }
    }
    true
}
