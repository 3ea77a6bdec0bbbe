//! Numbers as bits of a frame, the most significant first.

ghost use Rattle.std.specs.Prelude.{◌≡◌, ◌+◌, ◌==◌, ◌<◌, ◌≤◌, ◌^◌, ◌++◌, length, map};
ghost use Rattle.std.specs.Int.{bit_at};
ghost use Rattle.wl_frame.specs.Crc.{bit_of_level, level_of_bit, number_of};
ghost use Rattle.wl_frame.specs.Grammar.{number_bits};
ghost use Rattle.wl_frame.specs.Limits.{most_bits};

use crate::frame::FrameBits;
use wl_level::Level;

/// Returns the number that at most 18 bits spell.
pub(crate) fn number(bits: &[Level]) -> u32
    requires { length bits.now ≤ 18 }
    ensures { result ≡ number_of (map bit_of_level bits.now) }
{
    let mut number = 0;
    for bit in bits {
        number = 2 * number + u32::from(!bit.is_dominant());
    }
    number
}

/// Appends the `count` low bits of a number.
pub(crate) fn push_number(bits: &mut FrameBits, number: u32, count: u32)
    requires small { count ≤ 32 }
    requires room { length bits.old.items + count ≤ most_bits }
    ensures bits { bits.new.items ≡ bits.old.items ++ number_bits count number }
    ensures len { length bits.new.items ≡ length bits.old.items + count }
{
    for k in 0..count {
        bits.push(level_at(number, count - 1 - k));
    }
}

/// Returns the bit of a number at a place, the least significant being at 0.
fn level_at(number: u32, place: u32) -> Level
    requires { place < 32 }
    ensures { result ≡ level_of_bit (bit_at number place == 1) }
{
    level_of((number >> place) & 1 == 1)
}

/// Returns the level of a bit: recessive for 1.
pub(crate) fn level_of(bit: bool) -> Level
    ensures { result ≡ level_of_bit bit }
{
    if bit {
        Level::Recessive
    } else {
        Level::Dominant
    }
}
