//! Why a run didn't work.
ghost use Rattle.std.specs.Prelude.{◌≡◌};
ghost use Rattle.std.specs.List.{list_any};
ghost use Rattle.wl_traffic.specs.Reasons.{has_errors, has_unsent, is_overload, is_stuck, misses_frames, most_passed, reason_by, reason_word, waiting_by, waiting_reason};

use crate::late::LateMessage;
use crate::unequal::{Unequal, any_missed, any_twice};
use wl_serial::NodeTotals;

/// Why a run didn't work, or that it did.
#[derive(Clone, Copy, Debug, PartialEq, Eq)]
pub enum Reason {
    /// No node found an error, all frames were sent, none came late, and each node has seen all of them.
    Works,
    /// Some node found an error.
    Errors,
    /// There was no error, but a message waits for longer than it may. The bus has no pause any more, or no other node sent meanwhile.
    Overloaded,
    /// There was no error, but messages wait for longer than they may while others are sent.
    Starved,
    /// There was no error, and no message waits for longer than it may, but frames are left.
    EndsTooEarly,
    /// Some node was bus off at some time (Bosch CAN 2.0 part B, section 8, rule 10).
    BusOff,
    /// There was no error, and all frames were sent in time, but not all of them passed through each node.
    Deaf,
    /// Some node misses a frame that was sent while the node took part.
    Missed,
    /// Some node has taken a frame twice.
    TakenTwice,
}

impl Reason {
    /// Returns the reason in words: `works`, `errors`, `overloaded`, `starved`, `ends too early`, `bus off`, `deaf`, `missed` or `taken twice`.
    pub fn word(self) -> &'static str
        ensures { result.now ≡ reason_word self }
    {
        match self {
            Reason::Works => "works",
            Reason::Errors => "errors",
            Reason::Overloaded => "overloaded",
            Reason::Starved => "starved",
            Reason::EndsTooEarly => "ends too early",
            Reason::BusOff => "bus off",
            Reason::Deaf => "deaf",
            Reason::Missed => "missed",
            Reason::TakenTwice => "taken twice",
        }
    }
}

/// True if some node found an error.
fn any_errors(nodes: &[NodeTotals]) -> bool
    ensures { result ≡ list_any has_errors nodes.now }
{
    nodes.iter().any(|node| 0 < node.errors)
}

/// True if some node has a frame left.
fn any_unsent(nodes: &[NodeTotals]) -> bool
    ensures { result ≡ list_any has_unsent nodes.now }
{
    nodes.iter().any(|node| 0 < node.unsent)
}

/// Returns the most frames that passed through a node.
pub(crate) fn most_passed(nodes: &[NodeTotals]) -> usize
    ensures { result ≡ most_passed nodes.now }
{
    let mut most = 0;
    for node in nodes {
        most = most.max(node.frames.len());
    }
    most
}

/// True if a node takes part and fewer frames than this many passed through it.
pub(crate) fn misses_frames(most: usize, node: &NodeTotals) -> bool
    ensures { result ≡ misses_frames most node.now }
{
    0 < node.samples && node.frames.len() < most
}

/// True if fewer frames passed through some node than through another.
fn any_deaf(nodes: &[NodeTotals]) -> bool
    ensures { result ≡ list_any (misses_frames (most_passed nodes.now)) nodes.now }
{
    let most = most_passed(nodes);
    nodes.iter().any(|node| misses_frames(most, node))
}

/// True if a late frame waits at the end, and the bus had no pause for longer than the frame may wait.
pub(crate) fn is_stuck(full: u64, message: &LateMessage) -> bool
    ensures { result ≡ is_stuck full message.now }
{
    message.left && message.allowed < full
}

/// True if a message is late although no other node sends, or the bus has no pause any more.
fn is_overload(full: u64, message: &LateMessage) -> bool
    ensures { result ≡ is_overload full message.now }
{
    !message.beaten || is_stuck(full, message)
}

/// True if there is more to send than the bus carries.
fn any_overload(full: u64, late: &[LateMessage]) -> bool
    ensures { result ≡ list_any (is_overload full) late.now }
{
    late.iter().any(|message| is_overload(full, message))
}

/// Returns why frames came late or not at all, the first reason that applies.
fn waiting_reason(overload: bool, late: bool, unsent: bool, deaf: bool) -> Reason
    ensures { result ≡ waiting_reason overload late unsent deaf }
{
    if overload {
        Reason::Overloaded
    } else if late {
        Reason::Starved
    } else if unsent {
        Reason::EndsTooEarly
    } else if deaf {
        Reason::Deaf
    } else {
        Reason::Works
    }
}

/// Returns why frames of these nodes came late or not at all. The bus was full for this many ticks at the end.
fn waiting_by(full: u64, late: &[LateMessage], nodes: &[NodeTotals]) -> Reason
    ensures { result ≡ waiting_by full late.now nodes.now }
{
    let overload = any_overload(full, late);
    let unsent = any_unsent(nodes);
    let deaf = any_deaf(nodes);
    waiting_reason(overload, !late.is_empty(), unsent, deaf)
}

/// Returns why a run of these totals didn't work, in which some node was bus off or none, and of whose messages these came unequally.
pub(crate) fn reason_by(
    off: bool,
    unequal: &[Unequal],
    full: u64,
    late: &[LateMessage],
    nodes: &[NodeTotals],
) -> Reason
    ensures { result ≡ reason_by off unequal.now full late.now nodes.now }
{
    if off {
        return Reason::BusOff;
    }
    if any_missed(unequal) {
        return Reason::Missed;
    }
    if any_twice(unequal) {
        return Reason::TakenTwice;
    }
    if any_errors(nodes) {
        return Reason::Errors;
    }
    waiting_by(full, late, nodes)
}
