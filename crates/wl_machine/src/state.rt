//! Where a machine is: its states, and what it keeps in each.

use wl_level::Level;

/// Whether a node is the transmitter of the current frame (Bosch CAN 2.0 part B, section 3.4).
#[derive(Clone, Copy, Debug, PartialEq, Eq)]
pub enum Role {
    /// It began the frame, and has not lost the arbitration.
    Tx,
    /// All others.
    Rx,
}

/// What a flag of six dominant bits is sent for.
#[derive(Clone, Copy, Debug, PartialEq, Eq)]
pub enum Cause {
    Error,
    Overload,
}

/// Where a machine is, with the counts that its next sample needs.
#[derive(Clone, Copy, Debug, PartialEq, Eq)]
pub enum State {
    /// `run`: recessive samples in a row, below 11.
    Integrating {
        run: u8,
    },
    Idle,
    /// Transmitter, up to the last stuffed bit. `last`: the sample before; `run`: how many are equal to it, up to 5.
    Sending {
        last: Level,
        run: u8,
    },
    /// Receiver, likewise.
    Receiving {
        last: Level,
        run: u8,
    },
    /// Transmitter after the stuffed bits: 0 is the CRC delimiter, 9 the last bit of the end of frame.
    SentTail {
        place: u8,
    },
    /// Receiver, likewise.
    ReceivedTail {
        place: u8,
        is_crc_right: bool,
    },
    /// A dominant flag: how many of its bits are over, and how many dominant samples end them.
    Flag {
        cause: Cause,
        role: Role,
        count: u8,
        run: u8,
    },
    /// A passive flag: `run` samples are equal to `last`; `counts_missing_ack`: its first dominant sample is still to count.
    PassiveFlag {
        role: Role,
        counts_missing_ack: bool,
        last: Level,
        run: u8,
    },
    /// The wait for a recessive sample: whether a dominant one now comes right after an error flag of a receiver, and how many
    /// more dominant ones make the run too long.
    Wait {
        role: Role,
        is_late: bool,
        until_long: u8,
    },
    /// `count`: recessive bits so far, 1 to 7.
    Delimiter {
        role: Role,
        count: u8,
    },
    /// `count`: recessive bits so far, up to 2.
    Intermission {
        role: Role,
        count: u8,
    },
    /// `count`: recessive bits so far, up to 7.
    Suspended {
        count: u8,
    },
    /// `runs`: of eleven recessive samples, below 128; `run`: recessive samples in a row after the last of them, below 11.
    BusOff {
        runs: u8,
        run: u8,
    },
}
