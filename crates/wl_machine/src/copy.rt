//! A second machine that is where a machine is, and how many bits it has to send.

ghost use Rattle.std.specs.Prelude.{◌≡◌, List};
ghost use Rattle.wl_machine.specs.Judged.{stretch_of};
ghost use Rattle.wl_machine.specs.Reached.{IsMachine};
ghost use Rattle.wl_machine.specs.Sending.{state_to_send, to_send};
ghost use Rattle.wl_machine.specs.States.{IsReachedBy};
ghost use Rattle.wl_machine.specs.Stretch.{Input};

use crate::Machine;
use crate::progress::Progress;
use crate::state::State;
use wl_frame::frame::FrameBits;

impl Machine {
    /// Returns a machine that is where this one is. It takes no memory.
    pub fn copy(&self) -> Machine
        ensures { (past : List Input) → IsMachine self.now past → IsMachine result past }
    {
        Machine {
            progress: self.progress.copy(),
        }
    }

    /// Returns how many bits of its frame a transmitter still has, without stuff bits, up to the end of the CRC sequence: at most 118. It
    /// is 0 for a node that doesn't transmit, and after that end (Bosch CAN 2.0 part B, sections 3.2.1 and 5).
    pub fn to_send(&self) -> usize
        ensures { (past : List Input) → IsMachine self.now past → result ≡ to_send (stretch_of past) }
    {
        self.progress.to_send()
    }
}

impl Progress {
    /// Returns how many bits of its frame a transmitter still has, as `Machine::to_send`.
    pub fn copy(&self) -> Progress
        ensures { (past : List Input) → IsReachedBy self.now past → IsReachedBy result past }
    {
        Progress {
            state: self.state,
            bits: copied(&self.bits),
            sent: copied(&self.sent),
        }
    }

    /// Returns how many bits are to be sent up to the end of what is stuffed.
    pub fn to_send(&self) -> usize
        ensures { result ≡ state_to_send self.now.state self.now.bits.items self.now.sent.items }
    {
        match self.state {
            State::Sending { .. } => self.sent.len().saturating_sub(self.bits.len()),
            _ => 0,
        }
    }
}

/// Returns an equal list of bits.
fn copied(bits: &FrameBits) -> FrameBits
    ensures { result.items ≡ bits.now.items }
{
    let mut copy = FrameBits::new();
    let _ = copy.try_extend_from_slice(bits.as_slice());
    copy
}
