//! Frames that test the clocks: their edges are as far apart as those of a frame can be.
ghost use Rattle.std.specs.Prelude.{◌≡◌, ◌≤◌, ◌<◌, IfOk};
ghost use Rattle.std.specs.List.{list_any};
ghost use Rattle.wl_sweep.specs.Worst.{add_frames, free_id, has_id, last_ready, later_end, longest_bit, next_frame, next_id, sender_count, sends, some_have_id, with_frame, worst_frame, worst_text};

use crate::change::{node_again, text_again};
use crate::family::bit_in;
use std::alloc::{AllocError, Global};
use wl_level::Listed;
use wl_setup::{FrameText, NodeText, PlanText};

/// One more than the greatest base identifier that may be sent: the first seven bits aren't all recessive (Bosch CAN 2.0 part B, section 3.2.1).
const IDS: u32 = 0x7f0;

/// Two dominant bits, four recessive ones and two dominant ones. With its two stuff bits it has five dominant bits and five recessive ones.
const WORST_BYTE: u8 = 0x3c;

/// The bytes of a frame.
const BYTES: usize = 8;

/// The bits that a frame takes at most, with stuff bits and intermission.
const FRAME_BITS: u64 = 160;

/// Returns a data frame with edges ten bits apart, of this identifier, to be sent from this quantum on.
fn worst_frame(alloc: Global, id: u32, ready: u64) -> Result<FrameText, AllocError>
    ensures { IfOk result (λ frame. frame ≡ worst_frame id ready) }
{
    let bytes = vec![in alloc; WORST_BYTE; BYTES]?;
    Ok(FrameText {
        id,
        dlc: BYTES as u32,
        remote: false,
        bytes: Listed::from_vec(bytes),
        ready,
        extended: false,
        every: None,
        count: None,
        deadline: None,
        jitter: None,
    })
}

/// True if a frame of a node has a base identifier.
fn has_id(id: u32, node: &NodeText) -> bool
    ensures { result ≡ has_id id node.now }
{
    for frame in node.frame.as_slice() {
        if !frame.extended && frame.id == id {
            return true;
        }
    }
    false
}

/// True if a frame of some node has a base identifier.
fn some_have_id(id: u32, nodes: &[NodeText]) -> bool
    ensures { result ≡ some_have_id id nodes.now }
{
    for node in nodes {
        if has_id(id, node) {
            return true;
        }
    }
    false
}

/// Returns the greatest base identifier below one that no frame has; 0 if there is none.
fn free_id(nodes: &[NodeText], below: u32) -> u32
    ensures { result ≡ free_id nodes.now below }
{
    let mut id = below;
    while id > 0 {
        id -= 1;
        if !some_have_id(id, nodes) {
            return id;
        }
    }
    0
}

/// Returns from which quantum on the last frame of a node may be sent.
fn last_ready(frames: &[FrameText]) -> u64
    ensures { result ≡ last_ready frames.now }
{
    let mut ready = 0;
    for frame in frames {
        ready = frame.ready;
    }
    ready
}

/// True if a node has a frame to send.
fn sends(node: &NodeText) -> bool
    ensures { result ≡ sends node.now }
{
    !node.frame.is_empty()
}

/// Returns a node with a frame of this identifier more.
fn with_frame(alloc: Global, node: &NodeText, id: u32) -> Result<NodeText, AllocError>
    ensures { IfOk result (λ n. n ≡ with_frame id node.now) }
{
    let ready = last_ready(node.frame.as_slice());
    let mut copy = node_again(alloc, node, node.offset, node.rates.clone_in(alloc)?)?;
    copy.frame.push(worst_frame(alloc, id, ready)?)?;
    Ok(copy)
}

/// Returns the identifier of a node's new frame; the one before, if the node sends none.
fn next_id(nodes: &[NodeText], node: &NodeText, below: u32) -> u32
    ensures { result ≡ next_id nodes.now below node.now }
{
    if sends(node) {
        free_id(nodes, below)
    } else {
        below
    }
}

/// Returns a node with a frame of this identifier more, if it sends any.
fn next_frame(alloc: Global, node: &NodeText, id: u32) -> Result<NodeText, AllocError>
    ensures { IfOk result (λ n. n ≡ next_frame id node.now) }
{
    if sends(node) {
        with_frame(alloc, node, id)
    } else {
        node_again(alloc, node, node.offset, node.rates.clone_in(alloc)?)
    }
}

/// Returns nodes, in which each that sends has a frame more.
fn add_frames(alloc: Global, nodes: &[NodeText]) -> Result<Listed<NodeText>, AllocError>
    ensures { IfOk result (λ all. all ≡ add_frames nodes.now IDS nodes.now) }
{
    let mut all = Listed::new(alloc);
    let mut id = IDS;
    for node in nodes {
        id = next_id(nodes, node, id);
        all.push(next_frame(alloc, node, id)?)?;
    }
    Ok(all)
}

/// Returns how many nodes have a frame to send.
fn sender_count(nodes: &[NodeText]) -> u64
    ensures { result ≡ sender_count nodes.now }
{
    let mut count = 0u64;
    for node in nodes {
        if sends(node) {
            count = count.saturating_add(1);
        }
    }
    count
}

/// Returns the ticks of the longest bit.
fn longest_bit(nodes: &[NodeText]) -> u64
    ensures { result ≡ longest_bit nodes.now }
{
    let mut most = 0u64;
    for node in nodes {
        most = most.max(bit_in(node));
    }
    most
}

/// Returns the end of a plan with the new frames: later by 160 of the longest bits for each.
fn later_end(text: &PlanText) -> u64
    ensures { result ≡ later_end text.now }
{
    let nodes = text.node.as_slice();
    let ticks = longest_bit(nodes).saturating_mul(FRAME_BITS);
    text.end
        .saturating_add(ticks.saturating_mul(sender_count(nodes)))
}

/// Returns a plan text in which each node that sends has one frame more, and which ends later by the time that these take.
///
/// The frame is a data frame of 8 bytes 3C, ready when the last frame of the node is. Its edges are ten bits apart, stuff bits counted, which is
/// the most that a frame can have (Bosch CAN 2.0 part B, sections 6 and 10). Its identifier is the greatest one up to 7EF that no other frame
/// has. Refused only out of memory.
pub fn worst_text(alloc: Global, text: &PlanText) -> Result<PlanText, AllocError>
    ensures { IfOk result (λ t. t ≡ worst_text text.now) }
{
    let nodes = add_frames(alloc, text.node.as_slice())?;
    let copy = text_again(alloc, text, nodes)?;
    Ok(PlanText {
        end: later_end(text),
        ..copy
    })
}
