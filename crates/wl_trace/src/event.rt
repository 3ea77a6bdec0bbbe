//! What happens to a node: the events of a trace.
use wl_confine::{Counters, ErrorKind};
use wl_frame::field::FramePlace;
use wl_frame::frame::Frame;

/// What a flag looks like.
#[derive(Clone, Copy, Debug, PartialEq, Eq)]
pub enum FlagForm {
    /// Of an error: six dominant bits.
    Active,
    /// Of an error: six recessive bits.
    Passive,
    /// Of an overload.
    Overload,
}

/// What one sample of a node did, or how an edge synchronised it.
#[derive(Clone, Copy, Debug)]
pub enum NodeEvent {
    /// The node sent a recessive bit of the arbitration, found it dominant, and is a receiver from then on.
    ArbitrationLost(FramePlace),
    /// An error was found.
    Error {
        /// Its kind.
        kind: ErrorKind,
        /// Whether the node found it as the transmitter of the frame.
        sends: bool,
        /// Whether it is in the stuff bit after the place, and not in the place.
        stuff: bool,
        /// Where it is.
        place: FramePlace,
    },
    /// A flag begins with the next bit.
    Flag(FlagForm),
    /// A frame was sent.
    Sent(Frame),
    /// A frame was received.
    Received(Frame),
    /// The mode is another than before: that of these counters.
    ModeChanged(Counters),
    /// An edge synchronised the node hard (Bosch CAN 2.0 part B, section 10).
    HardSynchronised,
    /// An edge with this phase error, in quanta, resynchronised the node, error 0 too (section 10).
    Resynchronised(i16),
}

/// An event with its quantum.
#[derive(Clone, Copy, Debug)]
pub struct Noted {
    /// The quantum at which it came, counted from 0.
    pub quantum: u64,
    /// How many samples there were before that quantum.
    pub bit: u64,
    /// What happened there.
    pub event: NodeEvent,
}
