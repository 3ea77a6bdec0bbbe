//! What a machine keeps between two samples, and how the stretches begin.

ghost use Rattle.std.specs.Prelude.{◌≡◌, [], ◌∷◌, Some};
ghost use Rattle.std.specs.Option.{option_copied};
ghost use Rattle.wl_level.specs.declared.Level.{Level};
ghost use Rattle.wl_machine.specs.Stretch.{free};
ghost use Rattle.wl_machine.specs.Stretch.Sort.{Framing as FramingSort, Flagging as FlaggingSort};
ghost use Rattle.wl_machine.specs.Stretch.Flag.{OverloadFlag as OverloadSort};
ghost use Rattle.wl_machine.specs.Flags.{error_of, error_flag};
ghost use Rattle.wl_machine.specs.Stretch.{Stretch};
ghost use Rattle.wl_machine.specs.Stretch.Sort.{OffBus};
ghost use Rattle.wl_machine.specs.States.{IsIn, IsReachedBy, Meets, awaits_state, state_drive, is_free_state, is_idle_state, sample_of, stretch_by};

use crate::Done;
use crate::framing::ACKNOWLEDGEMENT;
use crate::state::{Cause, Role, State};
use wl_confine::{ErrorKind, Happened, Mode};
use wl_frame::frame::{Frame, FrameBits};
use wl_level::Level;

/// What one sample did.
#[derive(Drop)]
pub struct Step {
    pub happened: Happened,
    pub done: Done,
}

/// What a machine keeps between two samples.
#[derive(Drop)]
pub struct Progress {
    pub state: State,
    /// The bits of the running frame so far, without stuff bits.
    pub bits: FrameBits,
    /// All bits of the frame that is sent, without stuff bits.
    pub sent: FrameBits,
}

pub fn plain(happened: Happened) -> Step
    ensures { result ≡ record { happened = happened; done = Done.Nothing } }
{
    Step {
        happened,
        done: Done::Nothing,
    }
}

pub fn error_of(role: Role, kind: ErrorKind) -> Happened
    ensures { result ≡ error_of role kind }
{
    match role {
        Role::Tx => Happened::TxError(kind),
        Role::Rx => Happened::RxError(kind),
    }
}

impl Progress {
    /// Frees the bus: the head is sent from its start of frame on, if there is one.
    pub fn free(&mut self, head: Option<&Frame>)
        ensures { IsIn self.new (stretch_by (free (option_copied head.entry)) []) }
    {
        match head {
            Some(frame) => {
                self.sent = frame.bits();
                self.bits.clear();
                self.state = State::Sending {
                    last: Level::Recessive,
                    run: 0,
                };
            }
            None => self.state = State::Idle,
        }
    }

    /// Begins a frame that another node sends: its start of frame was sampled.
    pub fn receive(&mut self)
        ensures { IsIn self.new (stretch_by (FramingSort None) (Level.Dominant ∷ [])) }
    {
        self.bits.clear();
        self.bits.push(Level::Dominant);
        self.state = State::Receiving {
            last: Level::Dominant,
            run: 1,
        };
    }

    /// Joins in the frame that another node has begun, as its sender: its start of frame was sampled, and its next bit is sent next.
    pub fn join(&mut self, frame: &Frame)
        ensures { IsIn self.new (stretch_by (FramingSort (Some frame.now)) (Level.Dominant ∷ [])) }
    {
        self.sent = frame.bits();
        self.bits.clear();
        self.bits.push(Level::Dominant);
        self.state = State::Sending {
            last: Level::Dominant,
            run: 1,
        };
    }

    /// Begins the flag of an overload with the next bit.
    pub fn overload(&mut self, role: Role)
        ensures { IsIn self.new (stretch_by (FlaggingSort OverloadSort role) []) }
    {
        self.state = State::Flag {
            cause: Cause::Overload,
            role,
            count: 0,
            run: 0,
        };
    }

    /// Begins the flag of an error with the next bit.
    pub fn fail(&mut self, role: Role, mode: Mode)
        ensures { IsIn self.new (stretch_by (FlaggingSort (error_flag mode) role) []) }
    {
        self.state = if mode == Mode::Active {
            State::Flag {
                cause: Cause::Error,
                role,
                count: 0,
                run: 0,
            }
        } else {
            State::PassiveFlag {
                role,
                counts_missing_ack: false,
                last: Level::Recessive,
                run: 0,
            }
        };
    }

    /// Returns what a machine keeps before the first sample.
    pub fn new() -> Progress
        ensures { IsReachedBy result [] }
    {
        Progress {
            state: State::Integrating { run: 0 },
            bits: FrameBits::new(),
            sent: FrameBits::new(),
        }
    }

    /// Takes one sample, in the stretch that runs.
    pub fn step(&mut self, level: Level, head: Option<&Frame>, mode: Mode) -> Step
        requires { ∥ ((s : Stretch) × IsIn self.old s) ∥₁ }
        ensures { (s : Stretch) → IsIn self.old s
            → Meets self.new result s (sample_of level (option_copied head.entry) mode) }
    {
        match self.state {
            State::Integrating { run } => self.integrating(run, level, head),
            State::Idle => self.idle_bit(level, head),
            State::Sending { last, run } => self.sending(last, run, level, mode),
            State::Receiving { last, run } => self.receiving(last, run, level, mode),
            State::SentTail { place } => self.sent_tail(place, level, mode),
            State::ReceivedTail {
                place,
                is_crc_right,
            } => self.received_tail(place, is_crc_right, level, mode),
            State::Flag {
                cause,
                role,
                count,
                run,
            } => self.dominant_flag(cause, role, count, run, level),
            State::PassiveFlag {
                role,
                counts_missing_ack,
                last,
                run,
            } => self.passive_flag(role, counts_missing_ack, last, run, level),
            State::Wait {
                role,
                is_late,
                until_long,
            } => self.waiting(role, is_late, until_long, level),
            State::Delimiter { role, count } => self.delimiting(role, count, level, mode),
            State::Intermission { role, count } => self.intermission(
                role, count, level, head, mode,
            ),
            State::Suspended { count } => self.suspended(count, level, head),
            State::BusOff { runs, run } => self.bus_off_bit(runs, run, level, head),
        }
    }

    /// Returns the level that is driven at the next bit.
    pub fn drive(&self) -> Level
        ensures { result ≡ state_drive self.now.state self.now.bits.items self.now.sent.items }
    {
        match self.state {
            State::Sending { last, run } => self.sent_level(last, run),
            State::ReceivedTail {
                place,
                is_crc_right,
            } => {
                if place == ACKNOWLEDGEMENT && is_crc_right {
                    Level::Dominant
                } else {
                    Level::Recessive
                }
            }
            State::Flag { .. } => Level::Dominant,
            _ => Level::Recessive,
        }
    }

    /// True if the bus is idle to a node that has nothing to send, or is suspended.
    pub fn is_idle(&self) -> bool
        ensures { result ≡ is_idle_state self.now.state }
    {
        match self.state {
            State::Idle | State::Suspended { .. } => true,
            _ => false,
        }
    }

    /// True if the next edge may be a start of frame to the node, up to its own: in a frame that it has decided to send, no bit was sampled
    /// yet.
    pub fn awaits_start(&self) -> bool
        ensures { result ≡ awaits_state self.now.state }
    {
        match self.state {
            State::Integrating { .. } | State::Idle | State::Suspended { .. } => true,
            State::Intermission { count, .. } => 0 < count,
            State::Sending { run, .. } | State::Receiving { run, .. } => run == 0,
            _ => false,
        }
    }

    /// True if the bus is free, and the node has nothing to send.
    pub fn is_free(&self) -> bool
        ensures { result ≡ is_free_state self.now.state }
    {
        match self.state {
            State::Idle => true,
            _ => false,
        }
    }

    /// Goes off the bus, with no recessive sample yet.
    pub fn switch_off(&mut self)
        ensures { IsIn self.new (stretch_by OffBus []) }
    {
        self.state = State::BusOff { runs: 0, run: 0 };
    }
}
