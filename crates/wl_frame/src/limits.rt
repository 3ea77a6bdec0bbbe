//! The limits of lists of a frame's bits.

/// The most bits that a list of a frame's bits holds, with stuff bits or without.
pub const MOST_BITS: usize = 160;

/// The most bits that are stuffed: with a stuff bit for each four of them they are still no more
/// than [`MOST_BITS`].
pub const MOST_UNSTUFFED: usize = 128;
