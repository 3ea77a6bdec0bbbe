//! The CRC sequence of a frame (Bosch CAN 2.0 part B, section 3.2.1).

ghost use Rattle.std.specs.Prelude.{◌≡◌, ◌<◌, ◌^◌};
ghost use Rattle.wl_frame.specs.Crc.{bit_of_level, crc_of};
ghost use Rattle.wl_frame.specs.Register.{register_after};

use wl_level::Level;

const TOP_BIT: u16 = 0x4000;

const LOW_BITS: u16 = 0x7fff;

/// The generator without its first bit.
const GENERATOR: u16 = 0x4599;

/// Returns the CRC sequence of a list of bits, as a number of 15 bits. The generator is x^15 + x^14
/// + x^10 + x^8 + x^7 + x^4 + x^3 + 1, and the register starts at 0.
pub fn crc15(bits: &[Level]) -> u16
    ensures value { result ≡ crc_of bits.now }
    ensures below { result < 2 ^ 15 }
{
    let mut register = 0;
    for bit in bits {
        register = shifted_in(register, *bit);
    }
    register
}

/// Returns the register after one more bit.
#[tactic(auto, unfolding(crate::specs::Register::register_after))]
fn shifted_in(register: u16, bit: Level) -> u16
    requires { register < 2 ^ 15 }
    ensures below { result < 2 ^ 15 }
    ensures value { result ≡ register_after register (bit_of_level bit) }
{
    let is_top = register & TOP_BIT != 0;
    let moved = (register << 1) & LOW_BITS;
    if is_top == bit.is_dominant() {
        moved ^ GENERATOR
    } else {
        moved
    }
}
