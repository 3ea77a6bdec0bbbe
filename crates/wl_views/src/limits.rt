//! The limits of a waveform's pieces, in bytes.

/// The room for a piece of a waveform.
pub(crate) const PIECE_ROOM: usize = 32_768;

/// A piece goes out before the lines of the next tick if it is longer: there is room for those of one tick more.
pub(crate) const FULL_PIECE: usize = 8_192;

/// The most digits of a number of 64 bits.
pub(crate) const LONGEST_NUMBER: usize = 20;
