//! The limits of a plan's text.

/// The most bytes of a plan's text.
pub const MOST_BYTES: usize = 1_048_576;

/// The greatest whole number, 2^48 - 1.
pub const LARGEST_NUMBER: u64 = (1 << 48) - 1;

/// The greatest place, identifier or data length code, 2^31 - 1.
pub const LARGEST_SMALL: u64 = (1 << 31) - 1;

/// The greatest rate error either way, in parts per million.
pub const LARGEST_PPM: u64 = 1_000_000_000;

/// The greatest tolerance of a node's rate, in parts per million: a tenth, as `ppm` may make a clock deviate.
pub const LARGEST_TOLERANCE: u64 = 100_000;

/// The greatest byte of a frame.
pub const LARGEST_BYTE: u64 = 255;

/// The most letters of a name.
pub const LONGEST_NAME: usize = 32;

/// The first version: a node has one rate.
pub const FIRST_VERSION: u64 = 1;

/// The version in which a node has a list of rates.
pub const VERSION_OF_RATES: u64 = 2;

/// The version in which frames come again, nodes only listen and disturbances are at one node.
pub const VERSION_OF_TRAFFIC: u64 = 3;

/// The version in which limits are wide, and nodes have the segments of controllers. It is the last that is known.
pub const VERSION_OF_CONTROLLERS: u64 = 4;
