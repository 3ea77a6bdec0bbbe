//! The greatest length of a frame, whatever its data are, with its stuff bits (Bosch CAN 2.0 part B, section 6).
#![tactic(auto)]

ghost use Rattle.std.specs.Prelude.{◌≡◌, ◌<◌, ◌≤◌};
ghost use Rattle.wl_longest.specs.Longest.{free_bits, head_ending, longest_frame};

mod ending;
pub mod laws;

use ending::{Ending, level_of};
use wl_level::Level;

/// Below it is the part of an extended identifier that is sent second, of 18 bits.
const SECOND_PART: u32 = 1 << 18;

/// Returns the greatest number of bits of a frame with this header, whatever its data are. It is up to
/// the last bit of the CRC sequence, with stuff bits. Any bits count as a CRC sequence, so the number
/// may be above that of the longest frame.
///
/// An identifier or data length code that has too many bits counts by its low ones, and a code above 8
/// means 8 bytes.
pub fn longest_frame(extended: bool, id: u32, remote: bool, dlc: u32) -> u8
    ensures { result ≡ longest_frame extended id remote dlc }
{
    let head = if extended { 39 } else { 19 };
    let free = free_bits(remote, dlc);
    head + free + head_ending(extended, id, remote, dlc).most_stuffed(free)
}

/// Returns how many bits of a frame are data and CRC sequence, 15 to 79.
fn free_bits(remote: bool, dlc: u32) -> u8
    ensures value { result ≡ free_bits remote dlc }
    ensures room { result ≤ 79 }
{
    let bytes = if remote { 0 } else { dlc.min(8) as u8 };
    8 * bytes + 15
}

/// Returns how a header ends.
fn head_ending(extended: bool, id: u32, remote: bool, dlc: u32) -> Ending
    ensures value { result ≡ head_ending extended id remote dlc }
    ensures room { result.stuffed ≤ 39 }
    ensures some { 0 < result.run }
    ensures few { result.run < 5 }
{
    let start = Ending::none().after(Level::Dominant);
    let named = if extended {
        start
            .after_number(id / SECOND_PART, 11)
            .after(Level::Recessive)
            .after(Level::Recessive)
            .after_number(id % SECOND_PART, 18)
    } else {
        start.after_number(id, 11)
    };
    named
        .after(level_of(remote))
        .after(Level::Dominant)
        .after(Level::Dominant)
        .after_number(dlc, 4)
}
