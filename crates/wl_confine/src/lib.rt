//! Fault confinement: the error counters of a node, and the mode that they give (Bosch CAN 2.0
//! part B, section 8).
#![tactic(auto)]

ghost use Rattle.std.specs.Prelude.{◌≡◌, List, [], ◌∷◌, ◌++◌, ◌≤◌};
ghost use Rattle.wl_confine.specs.Counts.{Counts, AreCounts, counts_after, counts_of, is_error, mode_of, rec_up, tec_up};
ghost use Rattle.wl_confine.specs.declared.Happened.{Happened};

use std::marker::Model;

/// What kind of error was found (Bosch CAN 2.0 part B, section 7.1).
#[derive(Clone, Copy, Debug, PartialEq, Eq)]
pub enum ErrorKind {
    /// The level sampled differs from the level sent.
    Bit,
    /// A sixth equal level where stuffing holds.
    Stuff,
    /// A dominant level where the frame's form wants a recessive one.
    Form,
    /// The CRC sequence received is not that of the bits received.
    Crc,
    /// No node acknowledged the frame.
    Ack,
}

/// What one sampled bit did that the counters, or the count of errors, know of.
#[derive(Clone, Copy, Debug, PartialEq, Eq)]
pub enum Happened {
    /// Nothing that is counted.
    Nothing,
    /// A receiver found an error.
    RxError(ErrorKind),
    /// A receiver sampled a dominant bit right after its error flag.
    RxAfterFlag,
    /// A receiver sampled a recessive bit in a dominant flag of its own.
    RxFlagBit,
    /// A receiver sampled too long a run of dominant bits after its flag.
    RxLong,
    /// A transmitter found an error.
    TxError(ErrorKind),
    /// A transmitter found an error that leaves its counter alone.
    TxFree,
    /// A passive transmitter without acknowledgement sampled a dominant bit in its error flag.
    PassiveAck,
    /// A transmitter sampled a recessive bit in a dominant flag of its own.
    TxFlagBit,
    /// A transmitter sampled too long a run of dominant bits after its flag.
    TxLong,
    /// A frame was sent to its end.
    Sent,
    /// A receiver sent the acknowledgement and sampled it dominant.
    Acked,
    /// A node in bus off saw eleven recessive bits 128 times.
    Recovered,
}

impl Happened {
    /// True if an error was found: by a receiver or by a transmitter, counted or not.
    pub fn is_error(self) -> bool
        ensures { result ≡ is_error self }
    {
        matches!(
            &self,
            Happened::RxError(_) | Happened::TxError(_) | Happened::TxFree
        )
    }
}

/// How far a node takes part in the traffic (Bosch CAN 2.0 part B, section 8).
#[derive(Clone, Copy, Debug, PartialEq, Eq)]
pub enum Mode {
    /// Error active: errors are signalled by dominant flags.
    Active,
    /// Error passive: errors are signalled by recessive flags.
    Passive,
    /// Bus off: nothing is sent.
    Off,
}

/// The transmit error count from which on a node is bus off, and at which it is kept.
const OFF_AT: u16 = 256;

/// The error count from which on a node is error passive.
const PASSIVE_AT: u16 = 128;

/// Where the receive error count stops.
const GREATEST_REC: u16 = 255;

/// What a greater receive error count becomes by a reception.
const LOWERED_REC: u16 = 127;

/// What most rules add to a counter.
const PENALTY: u16 = 8;

/// The error counters of a node: the transmit error count is at most 256, the receive error count
/// at most 255.
#[derive(Clone, Copy, Debug, PartialEq, Eq)]
pub struct Counters {
    tec: u16,
    rec: u16,
}

impl Model for Counters {
    ghost Value = { Counts };

    ghost view = { λ c. record { tec = c.tec; rec = c.rec } };

    ghost inverse = { λ v. record { tec = v.tec; rec = v.rec } };

    ghost invariant = { λ c. AreCounts (record { tec = c.tec; rec = c.rec }) };
}

impl Counters {
    /// Returns the counters of a node to which nothing happened: both zero.
    pub fn new() -> Counters
        ensures { result ≡ counts_of [] }
    {
        Counters { tec: 0, rec: 0 }
    }

    /// Counts what happened at one sampled bit.
    pub fn apply(&mut self, happened: Happened)
        ensures step { self.new ≡ counts_after self.old happened }
        ensures whole { (past : List Happened) → self.old ≡ counts_of past
            → self.new ≡ counts_of (past ++ happened ∷ []) }
    {
        match happened {
            Happened::Nothing | Happened::TxFree => {}
            Happened::RxError(_) => self.raise_rec(1),
            Happened::RxAfterFlag | Happened::RxFlagBit | Happened::RxLong => {
                self.raise_rec(PENALTY);
            }
            Happened::TxError(_) | Happened::PassiveAck | Happened::TxFlagBit | Happened::TxLong =>
                {
                    self.raise_tec(PENALTY);
                }
            Happened::Sent => self.tec = self.tec.saturating_sub(1),
            Happened::Acked => self.lower_rec(),
            Happened::Recovered => *self = Counters::new(),
        }
    }

    fn raise_tec(&mut self, by: u16)
        requires { by ≤ 8 }
        ensures { self.new ≡ tec_up by self.old }
    {
        self.tec = (self.tec + by).min(OFF_AT);
    }

    fn raise_rec(&mut self, by: u16)
        requires { by ≤ 8 }
        ensures { self.new ≡ rec_up by self.old }
    {
        self.rec = (self.rec + by).min(GREATEST_REC);
    }

    fn lower_rec(&mut self)
        ensures { self.new ≡ counts_after self.old Happened.Acked }
    {
        self.rec = if self.rec > LOWERED_REC {
            LOWERED_REC
        } else {
            self.rec.saturating_sub(1)
        };
    }

    /// Returns the transmit error count, 0 to 256.
    pub fn tec(&self) -> u64
        ensures value { result ≡ self.now.tec }
        ensures limits { AreCounts self.now }
    {
        u64::from(self.tec)
    }

    /// Returns the receive error count, 0 to 255.
    pub fn rec(&self) -> u64
        ensures value { result ≡ self.now.rec }
        ensures limits { AreCounts self.now }
    {
        u64::from(self.rec)
    }

    /// Returns the mode that the counters give.
    pub fn mode(&self) -> Mode
        ensures { result ≡ mode_of self.now }
    {
        if self.tec >= OFF_AT {
            Mode::Off
        } else if self.tec >= PASSIVE_AT || self.rec >= PASSIVE_AT {
            Mode::Passive
        } else {
            Mode::Active
        }
    }
}
