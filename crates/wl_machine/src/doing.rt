//! What a machine does, in one word.

ghost use Rattle.std.specs.Prelude.{◌≡◌, List};
ghost use Rattle.wl_machine.specs.Doing.{doing_of, state_doing};
ghost use Rattle.wl_machine.specs.Judged.{stretch_of};
ghost use Rattle.wl_machine.specs.Reached.{IsMachine};
ghost use Rattle.wl_machine.specs.Stretch.{Input};

use crate::Machine;
use crate::progress::Progress;
use crate::state::{Cause, State};

/// What a node does.
#[derive(Clone, Copy, Debug, PartialEq, Eq)]
pub enum Doing {
    /// It waits until it may take part, after power-up or bus off.
    Integrating,
    /// The bus is idle to it.
    Idle,
    /// It receives a frame.
    Receiving,
    /// It transmits a frame.
    Transmitting,
    /// It sends an active error flag.
    ActiveFlag,
    /// It sends a passive error flag.
    PassiveFlag,
    /// It sends an overload flag.
    OverloadFlag,
    /// After its flag it waits for a recessive bit.
    Waiting,
    /// It samples the delimiter of a flag.
    Delimiting,
    /// It samples the intermission after a frame or a delimiter.
    Intermission,
    /// It is suspended, as an error passive transmitter.
    Suspended,
    /// It is bus off.
    OffBus,
}

impl Progress {
    /// Returns what a node does in its state.
    pub fn doing(&self) -> Doing
        ensures { result ≡ state_doing self.now.state }
    {
        match self.state {
            State::Integrating { .. } => Doing::Integrating,
            State::Idle => Doing::Idle,
            State::Sending { .. } | State::SentTail { .. } => Doing::Transmitting,
            State::Receiving { .. } | State::ReceivedTail { .. } => Doing::Receiving,
            State::Flag { cause, .. } => match cause {
                Cause::Error => Doing::ActiveFlag,
                Cause::Overload => Doing::OverloadFlag,
            },
            State::PassiveFlag { .. } => Doing::PassiveFlag,
            State::Wait { .. } => Doing::Waiting,
            State::Delimiter { .. } => Doing::Delimiting,
            State::Intermission { .. } => Doing::Intermission,
            State::Suspended { .. } => Doing::Suspended,
            State::BusOff { .. } => Doing::OffBus,
        }
    }
}

impl Machine {
    /// Returns what the node does after all samples so far: a transmitter that lost the arbitration
    /// receives.
    pub fn doing(&self) -> Doing
        ensures { (past : List Input) → IsMachine self.now past → result ≡ doing_of (stretch_of past) }
    {
        self.progress.doing()
    }
}
