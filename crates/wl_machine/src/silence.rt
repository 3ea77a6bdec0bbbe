//! For how long a machine is sure to drive recessive.

ghost use Rattle.std.specs.Prelude.{◌≡◌};
ghost use Rattle.wl_machine.specs.Silence.{state_silence};

use crate::progress::Progress;
use crate::state::State;
use wl_frame::places::bits_left;

/// With this many recessive samples in a row an integration ends.
const INTEGRATED: u16 = 11;

/// This many equal samples in a row are a stuff error, and end a passive flag.
const SIX: u16 = 6;

/// The bits of a suspension.
pub const SUSPENDED: u16 = 8;

/// With this many runs of eleven recessive samples a bus off ends.
const RECOVERED: u16 = 128;

impl Progress {
    /// Returns for how many samples more the machine is sure to drive recessive, with heads or
    /// without.
    pub fn silence(&self, heads: bool) -> u16
        ensures { result ≡ state_silence heads self.now.state self.now.bits.items }
    {
        match self.state {
            State::Integrating { run } => (INTEGRATED - 1).saturating_sub(run as u16),
            State::Receiving { run, .. } => {
                let bits = bits_left(&self.bits) as u16;
                (SIX - 1).saturating_sub(run as u16).min(bits)
            }
            State::PassiveFlag { run, .. } => (SIX + 1).saturating_sub(run as u16),
            State::Wait { .. } => 1,
            State::Suspended { count } if heads => {
                (SUSPENDED - 1).saturating_sub(count as u16).min(SIX - 1)
            }
            State::Idle if heads => 0,
            State::Idle | State::Suspended { .. } => SIX - 1,
            State::BusOff { runs, run } => {
                let left = RECOVERED.saturating_sub(runs as u16) * INTEGRATED;
                left.saturating_sub(run as u16 + 1)
            }
            _ => 0,
        }
    }
}
