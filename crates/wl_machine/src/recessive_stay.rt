//! For how long a machine is sure to want recessive on a recessive line.

ghost use Rattle.std.specs.Prelude.{◌≡◌, ◌<◌};
ghost use Rattle.wl_machine.specs.RecessiveStay.{rest_at, state_rest};

use crate::progress::Progress;
use crate::silence::SUSPENDED;
use crate::state::State;

/// The last place of a frame after what is stuffed.
const LAST_PLACE: u8 = 9;

/// The bits of an intermission after which no frame can begin.
const INTERMISSION: u16 = 2;

/// With those of a delimiter.
const DELIMITER: u16 = 8 + INTERMISSION;

/// With those of a passive flag.
const PASSIVE_FLAG: u16 = 6 + DELIMITER;

impl Progress {
    /// Returns for how many recessive samples more the machine is sure to want recessive; `None` if it isn't at rest.
    pub fn rest(&self) -> Option<u16>
        ensures { result ≡ state_rest self.now.state self.now.bits.items }
    {
        match self.state {
            State::Integrating { .. } | State::BusOff { .. } => Some(self.silence(true)),
            State::Idle => Some(0),
            State::SentTail { place } => tail(place),
            State::ReceivedTail {
                place,
                is_crc_right,
            } => { if is_crc_right { tail(place) } else { None } }
            State::PassiveFlag { last, run, .. } => {
                let run = if last.is_dominant() { 0 } else { run };
                Some(PASSIVE_FLAG.saturating_sub(run as u16))
            }
            State::Wait { .. } => Some(DELIMITER),
            State::Delimiter { count, .. } => Some(DELIMITER.saturating_sub(count as u16)),
            State::Intermission { count, .. } => Some(INTERMISSION.saturating_sub(count as u16)),
            State::Suspended { count } => Some((SUSPENDED - 1).saturating_sub(count as u16)),
            State::Sending { .. } | State::Receiving { .. } | State::Flag { .. } => None,
        }
    }
}

/// Returns that number at a place after what is stuffed.
fn tail(place: u8) -> Option<u16>
    ensures { result ≡ rest_at place }
{
    if 2 <= place && place <= LAST_PLACE {
        Some((LAST_PLACE + 1 - place) as u16 + INTERMISSION)
    } else {
        None
    }
}
