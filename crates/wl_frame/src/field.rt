//! The fields of a frame by name, and on which of them a bit falls (Bosch CAN 2.0 part B, section 3.2.1).

ghost use Rattle.std.specs.Prelude.{◌≡◌, ◌≤◌, ◌-◌, true, false, length};
ghost use Rattle.wl_frame.specs.Field.{field_from, field_of, tail_field};
ghost use Rattle.wl_frame.specs.Grammar.{layout_of};
ghost use Rattle.wl_frame.specs.Header.{fields_of};

use crate::places::{
    EXTENDED_ID, EXTENDED_RTR, ID, IDE, RTR, header_length, is_extended, places_covered,
};
use wl_level::Level;

/// A field of a frame (Bosch CAN 2.0 part B, section 3.2.1), or the delimiter of a flag (sections 3.2.3 and 3.2.4).
#[derive(Clone, Copy, Debug, PartialEq, Eq)]
pub enum FrameField {
    /// SOF.
    StartOfFrame,
    /// The 11 bits of a base frame's identifier, or the first 11 of an extended frame's.
    Identifier,
    /// SRR.
    SubstituteRemoteRequest,
    /// IDE.
    IdentifierExtension,
    /// The last 18 bits of an extended frame's identifier.
    ExtendedIdentifier,
    /// RTR.
    RemoteRequest,
    /// r1.
    Reserved1,
    /// r0.
    Reserved0,
    /// DLC.
    DataLengthCode,
    /// The bytes.
    Data,
    /// The CRC sequence.
    CrcSequence,
    /// The CRC delimiter.
    CrcDelimiter,
    /// The acknowledgement slot.
    AckSlot,
    /// The acknowledgement delimiter.
    AckDelimiter,
    /// EOF.
    EndOfFrame,
    /// The delimiter of an error or overload flag.
    FlagDelimiter,
}

/// A place in a frame: a bit of a field.
#[derive(Clone, Copy, Debug, PartialEq, Eq)]
pub struct FramePlace {
    /// The field.
    pub field: FrameField,
    /// Which of its bits, counted from 0 in the order in which they are sent.
    pub bit: usize,
}

/// The place of r0 in a base frame, and of its data length code.
const BASE_RESERVED0: usize = 14;

const BASE_CODE: usize = 15;

/// The places of r1 and r0 in an extended frame, and of its data length code.
const EXTENDED_RESERVED1: usize = 33;

const EXTENDED_RESERVED0: usize = 34;

const EXTENDED_CODE: usize = 35;

/// Returns the bit of a field whose first place is this.
fn bit_from(field: FrameField, first: usize, k: usize) -> FramePlace
    requires { first ≤ k }
    ensures { result ≡ record { field = field; bit = k - first } }
{
    FramePlace {
        field,
        bit: k - first,
    }
}

/// Returns bit `k` of the header of a base frame.
fn base_field(k: usize) -> FramePlace
    ensures { result ≡ field_from 0 (fields_of false) k }
{
    if k < ID {
        bit_from(FrameField::StartOfFrame, 0, k)
    } else if k < RTR {
        bit_from(FrameField::Identifier, ID, k)
    } else if k < IDE {
        bit_from(FrameField::RemoteRequest, RTR, k)
    } else if k < BASE_RESERVED0 {
        bit_from(FrameField::IdentifierExtension, IDE, k)
    } else if k < BASE_CODE {
        bit_from(FrameField::Reserved0, BASE_RESERVED0, k)
    } else {
        bit_from(FrameField::DataLengthCode, BASE_CODE, k)
    }
}

/// Returns bit `k` of the header of an extended frame.
fn extended_field(k: usize) -> FramePlace
    ensures { result ≡ field_from 0 (fields_of true) k }
{
    if k < ID {
        bit_from(FrameField::StartOfFrame, 0, k)
    } else if k < RTR {
        bit_from(FrameField::Identifier, ID, k)
    } else if k < IDE {
        bit_from(FrameField::SubstituteRemoteRequest, RTR, k)
    } else if k < EXTENDED_ID {
        bit_from(FrameField::IdentifierExtension, IDE, k)
    } else if k < EXTENDED_RTR {
        bit_from(FrameField::ExtendedIdentifier, EXTENDED_ID, k)
    } else if k < EXTENDED_RESERVED1 {
        bit_from(FrameField::RemoteRequest, EXTENDED_RTR, k)
    } else if k < EXTENDED_RESERVED0 {
        bit_from(FrameField::Reserved1, EXTENDED_RESERVED1, k)
    } else if k < EXTENDED_CODE {
        bit_from(FrameField::Reserved0, EXTENDED_RESERVED0, k)
    } else {
        bit_from(FrameField::DataLengthCode, EXTENDED_CODE, k)
    }
}

/// Returns the field on which bit `k` of a frame that begins so falls, and which bit of the field it is. The list is without stuff bits, and
/// has the whole header if the bit is after it. Bits without an IDE bit count as a base frame's. Past the data it answers the CRC sequence.
pub fn field_of(bits: &[Level], k: usize) -> FramePlace
    requires { (layout_of bits.now).header ≤ k → (layout_of bits.now).header ≤ length bits.now }
    ensures { result ≡ field_of bits.now k }
{
    let header = header_length(bits);
    if k < header {
        return header_field(is_extended(bits), k);
    }
    let covered = places_covered(bits);
    if k < covered {
        bit_from(FrameField::Data, header, k)
    } else {
        bit_from(FrameField::CrcSequence, covered, k)
    }
}

/// Returns bit `k` of the header of a frame of this format.
fn header_field(extended: bool, k: usize) -> FramePlace
    ensures { result ≡ field_from 0 (fields_of extended) k }
{
    if extended {
        extended_field(k)
    } else {
        base_field(k)
    }
}

/// Returns the field on which bit `n` after the CRC sequence falls, up to the end of frame, and which bit of the field it is.
pub fn tail_field(n: usize) -> FramePlace
    ensures { result ≡ tail_field n }
{
    match n {
        0 => bit_from(FrameField::CrcDelimiter, 0, n),
        1 => bit_from(FrameField::AckSlot, 1, n),
        2 => bit_from(FrameField::AckDelimiter, 2, n),
        _ => bit_from(FrameField::EndOfFrame, 3, n),
    }
}
