//! Bit stuffing (Bosch CAN 2.0 part B, section 6).

ghost use Rattle.std.specs.Prelude.{◌≤◌, length};
ghost use Rattle.wl_frame.specs.Limits.{most_unstuffed};
ghost use Rattle.wl_frame.specs.Stuffing.{Stuffs};

use crate::limits::MOST_BITS;
use arrayvec::ArrayVec;
use wl_level::Level;

/// Bits among which no six neighbours are equal.
pub type StuffedBits = ArrayVec<Level, MOST_BITS>;

/// The equal bits after which a stuff bit is due.
const LONGEST_RUN: usize = 5;

/// Returns the list with a bit of the other level after each five equal ones, which counts as the
/// first of the next run. It comes after the last bit too, if one is due there: this project's
/// profile. The list has at most [`MOST_UNSTUFFED`](crate::limits::MOST_UNSTUFFED) bits.
pub fn stuff(bits: &[Level]) -> StuffedBits
    requires { length bits.now ≤ most_unstuffed }
    ensures { Stuffs result.items bits.now }
{
    let mut stuffed: StuffedBits = ArrayVec::new();
    let mut last = Level::Recessive;
    let mut run: usize = 0;
    for bit in bits {
        run = if last.is(*bit) { run + 1 } else { 1 };
        last = *bit;
        stuffed.push(last);
        if run == LONGEST_RUN {
            run = 1;
            last = last.opposite();
            stuffed.push(last);
        }
    }
    stuffed
}
