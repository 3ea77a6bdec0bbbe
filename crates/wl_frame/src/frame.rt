//! Frames.

ghost use Rattle.std.specs.Prelude.{◌≡◌, ◌≤◌, ◌+◌, ◌*◌, ◌++◌, None, length};
ghost use Rattle.std.specs.List.{flat_map};
ghost use Rattle.wl_frame.specs.Grammar.{byte_count, bytes_from, data_fault, number_bits};
ghost use Rattle.wl_frame.specs.Limits.{most_bits, most_bits_before_crc, most_frame_bits, most_header_bits};
ghost use Rattle.wl_frame.specs.Padded.{eight_bytes};

use crate::checksum::crc15;
use crate::limits::MOST_BITS;
use crate::numbers::{level_of, number, push_number};
use crate::places::{ID_END, data_length_code, header_length, identifier, is_extended, is_remote};
use crate::stuffing::{StuffedBits, stuff};
use arrayvec::ArrayVec;
use std::marker::Model;
use thiserror::Error;
use wl_level::Level;

/// The bits of a frame, in the order in which they are sent.
pub type FrameBits = ArrayVec<Level, MOST_BITS>;

/// Why numbers make no frame: the first that applies, for a base frame in the order `Id`, `Dlc`,
/// `DataLength`, for an extended frame in the order `Dlc`, `DataLength`, `ExtendedId`.
#[derive(Clone, Copy, Debug, PartialEq, Eq, Error)]
pub enum FrameFault {
    /// The identifier of a base frame has more than 11 bits.
    #[error("Id")]
    Id,
    /// The data length code has more than 4 bits.
    #[error("Dlc")]
    Dlc,
    /// The number of bytes is not that of the data length code, or a remote frame has bytes.
    #[error("DataLength")]
    DataLength,
    /// The identifier of an extended frame has more than 29 bits.
    #[error("ExtendedId")]
    ExtendedId,
}

const GREATEST_ID: u32 = 0x7ff;

const GREATEST_EXTENDED_ID: u32 = 0x1fff_ffff;

const GREATEST_DLC: u32 = 15;

/// The most bytes that a frame has.
pub(crate) const MOST_BYTES: usize = 8;

/// A base or extended frame: identifier, remote or data, data length code, bytes (Bosch CAN 2.0
/// part B, section 3.2.1). Plain data of a fixed size.
#[derive(Clone, Copy, Debug)]
pub struct Frame {
    extended: bool,
    id: u32,
    remote: bool,
    dlc: u32,
    bytes: [u8; MOST_BYTES],
}

impl Model for Frame {
    ghost use Rattle.wl_frame.specs.Grammar.{Content};

    ghost Value = { Content };

    ghost use Rattle.wl_frame.specs.Held.{content, held_frame, IsHeldFrame, held_content};

    ghost view = { content };

    ghost invariant = { IsHeldFrame };

    ghost inverse = { held_frame };

    ghost inverse_ok = { held_content };
}

impl Frame {
    ghost use Rattle.std.specs.Prelude.{true, false};
    ghost use Rattle.wl_frame.specs.Grammar.{IsContent, IsFrame, bits_of, content_of, bits_before_crc, frame_of_numbers, is_whole};
    ghost use Rattle.wl_frame.specs.Header.{arbitration_bits, control_bits, sent_free};
    ghost use Rattle.wl_frame.specs.Stuffing.{Stuffs};

    /// Returns the base frame of these numbers.
    ///
    /// `id` is at most 0x7ff, else [`FrameFault::Id`]; `dlc` is at most 15, else
    /// [`FrameFault::Dlc`]; a data frame has `min(dlc, 8)` bytes and a remote frame none, else
    /// [`FrameFault::DataLength`].
    pub fn base(id: u32, remote: bool, dlc: u32, bytes: &[u8]) -> Result<Frame, FrameFault>
        ensures { result ≡ frame_of_numbers false id remote dlc bytes.now }
    {
        if id > GREATEST_ID {
            return Err(FrameFault::Id);
        }
        if let Some(fault) = data_fault(remote, dlc, bytes) {
            return Err(fault);
        }
        let bytes = zero_filled(bytes);
        Ok(Frame {
            extended: false,
            id,
            remote,
            dlc,
            bytes,
        })
    }

    /// Returns the extended frame of these numbers.
    ///
    /// `dlc` is at most 15, else [`FrameFault::Dlc`]; a data frame has `min(dlc, 8)` bytes and a
    /// remote frame none, else [`FrameFault::DataLength`]; `id` is at most 0x1fffffff, else
    /// [`FrameFault::ExtendedId`].
    pub fn extended(id: u32, remote: bool, dlc: u32, bytes: &[u8]) -> Result<Frame, FrameFault>
        ensures { result ≡ frame_of_numbers true id remote dlc bytes.now }
    {
        if let Some(fault) = data_fault(remote, dlc, bytes) {
            return Err(fault);
        }
        if id > GREATEST_EXTENDED_ID {
            return Err(FrameFault::ExtendedId);
        }
        let bytes = zero_filled(bytes);
        Ok(Frame {
            extended: true,
            id,
            remote,
            dlc,
            bytes,
        })
    }

    /// Returns the frame that a whole list of bits carries, without stuff bits, from the start of
    /// frame to the last of the CRC sequence. SRR, the reserved bits and the CRC sequence are not
    /// looked at: the list is a frame if it begins dominant and its CRC sequence is right.
    pub fn from_bits(bits: &[Level]) -> Frame
        requires { is_whole bits.now ≡ true }
        ensures { result ≡ content_of bits.now }
    {
        let remote = is_remote(bits);
        let dlc = data_length_code(bits);
        let bytes = bytes_at(bits, header_length(bits), byte_count(remote, dlc));
        Frame {
            extended: is_extended(bits),
            id: identifier(bits),
            remote,
            dlc,
            bytes,
        }
    }

    /// True of an extended frame, with an identifier of 29 bits, false of a base frame.
    pub fn is_extended(&self) -> bool
        ensures value { result ≡ self.now.extended }
        ensures content { IsContent self.now }
    {
        self.extended
    }

    /// Returns the identifier, 11 or, extended, 29 bits.
    pub fn id(&self) -> u32
        ensures value { result ≡ self.now.id }
        ensures content { IsContent self.now }
    {
        self.id
    }

    /// True of a remote frame, false of a data frame.
    pub fn remote(&self) -> bool
        ensures value { result ≡ self.now.remote }
        ensures content { IsContent self.now }
    {
        self.remote
    }

    /// Returns the data length code, 0 to 15, as it was given or read.
    pub fn dlc(&self) -> u32
        ensures value { result ≡ self.now.dlc }
        ensures content { IsContent self.now }
    {
        self.dlc
    }

    /// Returns the bytes, 0 to 8, the one sent first in front.
    pub fn bytes(&self) -> &[u8]
        ensures value { result.now ≡ self.now.bytes }
        ensures most { length result.now ≤ 8 }
        ensures content { IsContent self.now }
    {
        let count = byte_count(self.remote, self.dlc);
        &self.bytes[..count]
    }

    /// Returns the bits from the start of frame to the last of the CRC sequence, without stuff
    /// bits: 34 to 98, extended 54 to 118. SRR is recessive, the reserved bits are dominant.
    pub fn bits(&self) -> FrameBits
        ensures bits { result.items ≡ bits_of self.now }
        ensures frame { IsFrame result.items self.now }
        ensures whole { is_whole result.items ≡ true }
        ensures room { length result.items ≤ most_frame_bits }
    {
        let mut bits = self.covered();
        let crc = crc15(bits.as_slice());
        push_number(&mut bits, u32::from(crc), 15);
        bits
    }

    /// Returns the same bits with their stuff bits, as they are sent.
    pub fn stuffed(&self) -> StuffedBits
        ensures { Stuffs result.items (bits_of self.now) }
    {
        stuff(self.bits().as_slice())
    }

    /// Returns what the CRC sequence is of: the bits from the start of frame to the last data bit.
    fn covered(&self) -> FrameBits
        ensures bits { result.items ≡ bits_before_crc self.now sent_free }
        ensures room { length result.items ≤ most_bits_before_crc }
        ensures content { IsContent self.now }
    {
        let mut bits = FrameBits::new();
        bits.push(Level::Dominant);
        self.push_arbitration(&mut bits);
        self.push_control(&mut bits);
        push_bytes(&mut bits, self.bytes());
        bits
    }

    /// Appends the arbitration field: the identifier, with the SRR and the IDE bit of an extended
    /// frame in it, and the RTR bit.
    fn push_arbitration(&self, bits: &mut FrameBits)
        requires { length bits.old.items ≤ 1 }
        ensures bits { bits.new.items ≡ bits.old.items ++ arbitration_bits self.now sent_free }
        ensures room { length bits.new.items ≤ length bits.old.items + 32 }
    {
        if self.extended {
            push_number(bits, self.id / ID_END, 11);
            bits.push(Level::Recessive);
            bits.push(Level::Recessive);
            push_number(bits, self.id % ID_END, 18);
        } else {
            push_number(bits, self.id, 11);
        }
        bits.push(level_of(self.remote));
    }

    /// Appends the control field, which begins with two dominant bits in either format.
    fn push_control(&self, bits: &mut FrameBits)
        requires { length bits.old.items ≤ 33 }
        ensures bits { bits.new.items ≡ bits.old.items ++ control_bits self.now sent_free }
        ensures room { length bits.new.items ≤ length bits.old.items + 6 }
    {
        bits.push(Level::Dominant);
        bits.push(Level::Dominant);
        push_number(bits, self.dlc, 4);
    }
}

/// Returns the first refusal of a data length code and the bytes with it.
fn data_fault(remote: bool, dlc: u32, bytes: &[u8]) -> Option<FrameFault>
    ensures value { result ≡ data_fault remote dlc bytes.now }
    ensures code { result ≡ None → dlc ≤ 15 }
    ensures count { result ≡ None → length bytes.now ≡ byte_count remote dlc }
{
    if dlc > GREATEST_DLC {
        return Some(FrameFault::Dlc);
    }
    if bytes.len() != byte_count(remote, dlc) {
        return Some(FrameFault::DataLength);
    }
    None
}

/// Returns the bytes of a whole list of bits, from a place on, and zeros after them.
fn bytes_at(bits: &[Level], from: usize, count: usize) -> [u8; MOST_BYTES]
    requires few { count ≤ 8 }
    requires there { from + 8 * count ≤ length bits.now }
    requires near { from ≤ most_header_bits }
    ensures { result ≡ eight_bytes (bytes_from bits.now from count) }
{
    let mut held = [0; MOST_BYTES];
    for k in 0..count {
        let place = from + 8 * k;
        held[k] = number(&bits[place..place + 8]) as u8;
    }
    held
}

/// Appends the bits of bytes.
fn push_bytes(bits: &mut FrameBits, bytes: &[u8])
    requires { length bits.old.items + 8 * length bytes.now ≤ most_bits }
    ensures bits { bits.new.items ≡ bits.old.items ++ flat_map (number_bits 8) bytes.now }
    ensures len { length bits.new.items ≡ length bits.old.items + 8 * length bytes.now }
{
    for byte in bytes {
        push_number(bits, u32::from(*byte), 8);
    }
}

impl PartialEq for Frame {
    ghost use Rattle.std.specs.Prelude.{◌≡◌, ◌↔◌, IsTrue};
    ghost use Rattle.wl_frame.specs.Same.{same_content, same_content_laws};

    ghost eq = { same_content };

    ghost laws = { same_content_laws };

    /// True if two frames have the same format, identifier, kind, data length code and bytes.
    #[tactic(auto, unfolding(crate::specs::Same::same_content), using(crate::specs::Same::content_decides))]
    fn eq(&self, other: &Frame) -> bool
        ensures value { result ≡ same_content self.now other.now }
        ensures same { IsTrue result ↔ (self.now ≡ other.now) }
    {
        self.extended == other.extended
            && self.id == other.id
            && self.remote == other.remote
            && self.dlc == other.dlc
            && self.bytes() == other.bytes()
    }
}

impl Eq for Frame {
    ghost use Rattle.wl_frame.specs.Same.{same_content_equiv};

    ghost laws = { same_content_equiv };
}

/// Returns how many bytes a frame has.
pub(crate) fn byte_count(remote: bool, dlc: u32) -> usize
    ensures value { result ≡ byte_count remote dlc }
    ensures most { result ≤ 8 }
{
    if remote { 0 } else { dlc.min(8) as usize }
}

/// Returns the bytes with zeros after them.
fn zero_filled(bytes: &[u8]) -> [u8; MOST_BYTES]
    requires { length bytes.now ≤ 8 }
    ensures { result ≡ eight_bytes bytes.now }
{
    let mut held = [0; MOST_BYTES];
    held[..bytes.len()].copy_from_slice(bytes);
    held
}
