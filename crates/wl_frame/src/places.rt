//! Reading a frame by places, in the list of its bits without stuff bits: what a receiver does with
//! the front that it has, and what is a whole frame (Bosch CAN 2.0 part B, section 3.2.1).

ghost use Rattle.std.specs.Prelude.{◌≡◌, ◌≤◌, true, length};
ghost use Rattle.wl_frame.specs.Grammar.{bits_left, content_of, covered_length, is_arbitration, is_crc_right, is_whole, layout_of};
ghost use Rattle.wl_frame.specs.Header.{is_extended};
ghost use Rattle.wl_frame.specs.Limits.{most_bits_before_crc, most_frame_bits, most_header_bits};

use crate::checksum::crc15;
use crate::frame::byte_count;
use crate::numbers::number;
use wl_level::Level;

/// The place of an identifier, whose first 11 bits come together.
pub(crate) const ID: usize = 1;

/// The place of the RTR bit of a base frame, and of the SRR bit of an extended one.
pub(crate) const RTR: usize = 12;

/// The place of the IDE bit.
pub(crate) const IDE: usize = 13;

/// The place of the last 18 bits of an extended frame's identifier.
pub(crate) const EXTENDED_ID: usize = 14;

/// The place of an extended frame's RTR bit, the last at which the sender of any frame may lose the arbitration.
pub const EXTENDED_RTR: usize = 32;

/// How many bits the header of a base frame has, from its start to its data length code.
const HEADER: usize = 19;

/// The same of an extended frame.
const EXTENDED_HEADER: usize = 39;

/// How many bits a data length code has.
const DLC_LENGTH: usize = 4;

/// How many numbers the last 18 bits of an extended frame's identifier spell.
pub(crate) const ID_END: u32 = 0x4_0000;

/// How many bits a CRC sequence has.
const CRC_LENGTH: usize = 15;

/// True if the IDE bit is there and recessive.
pub(crate) fn is_extended(bits: &[Level]) -> bool
    ensures { result ≡ is_extended bits.now }
{
    IDE < bits.len() && !bits[IDE].is_dominant()
}

/// Returns how many bits the header has.
pub(crate) fn header_length(bits: &[Level]) -> usize
    ensures value { result ≡ (layout_of bits.now).header }
    ensures least { 19 ≤ result }
    ensures most { result ≤ most_header_bits }
{
    if is_extended(bits) {
        EXTENDED_HEADER
    } else {
        HEADER
    }
}

/// Returns the identifier.
pub(crate) fn identifier(bits: &[Level]) -> u32
    requires { (layout_of bits.now).header ≤ length bits.now }
    ensures { result ≡ (content_of bits.now).id }
{
    let front = number(&bits[ID..RTR]);
    if is_extended(bits) {
        front * ID_END + number(&bits[EXTENDED_ID..EXTENDED_RTR])
    } else {
        front
    }
}

/// True if the bits are those of a whole frame, by its own data length code. In constant time.
///
/// Most lengths are that of no frame: a header of 19 or 39 bits, whole bytes and the CRC sequence leave a remainder of 2 by 4.
#[inline(always)]
pub fn is_whole(bits: &[Level]) -> bool
    ensures { result ≡ is_whole bits.now }
{
    bits.len() % 4 == 2
        && bits.len() >= header_length(bits) + CRC_LENGTH
        && bits.len() == places_covered(bits) + CRC_LENGTH
}

/// Returns how many bits a frame that begins so still has at least, up to the last of its CRC sequence. It goes by the format, and by the
/// data length code once that is there. In constant time.
#[tactic(auto, unfolding(crate::specs::Grammar::bits_left))]
pub fn bits_left(bits: &[Level]) -> usize
    ensures value { result ≡ bits_left bits.now }
    ensures most { result ≤ most_frame_bits }
{
    let header = header_length(bits);
    let covered = if bits.len() < header {
        header
    } else {
        places_covered(bits)
    };
    (covered + CRC_LENGTH).saturating_sub(bits.len())
}

/// True if the place is one of the arbitration, at which a sender of these bits may lose: after the start of frame, up to the RTR bit. Bits
/// without an IDE bit count as a base frame's.
pub fn is_arbitration(bits: &[Level], place: usize) -> bool
    ensures { result ≡ is_arbitration bits.now place }
{
    0 < place && place <= rtr_place(bits)
}

/// Returns the place of the RTR bit, the last of the arbitration. Bits without an IDE bit count as a base frame's.
pub fn rtr_place(bits: &[Level]) -> usize
    ensures { result ≡ (layout_of bits.now).rtr }
{
    if is_extended(bits) { EXTENDED_RTR } else { RTR }
}

/// True if the CRC sequence of a whole list is that of the bits before it. In time linear in the bits.
pub fn is_crc_right(bits: &[Level]) -> bool
    requires { is_whole bits.now ≡ true }
    ensures { result ≡ is_crc_right bits.now }
{
    let covered = places_covered(bits);
    u32::from(crc15(&bits[..covered])) == number(&bits[covered..])
}

/// True if the RTR bit is recessive.
pub(crate) fn is_remote(bits: &[Level]) -> bool
    requires { (layout_of bits.now).header ≤ length bits.now }
    ensures { result ≡ (content_of bits.now).remote }
{
    !bits[rtr_place(bits)].is_dominant()
}

/// Returns the data length code.
pub(crate) fn data_length_code(bits: &[Level]) -> u32
    requires { (layout_of bits.now).header ≤ length bits.now }
    ensures { result ≡ (content_of bits.now).dlc }
{
    let header = header_length(bits);
    number(&bits[header - DLC_LENGTH..header])
}

/// Returns how many bits the CRC sequence covers.
pub(crate) fn places_covered(bits: &[Level]) -> usize
    requires { (layout_of bits.now).header ≤ length bits.now }
    ensures value { result ≡ covered_length bits.now }
    ensures most { result ≤ most_bits_before_crc }
{
    header_length(bits) + 8 * byte_count(is_remote(bits), data_length_code(bits))
}
