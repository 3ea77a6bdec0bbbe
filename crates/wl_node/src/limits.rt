//! The limits of a node.

/// The most quanta for which a node is said to keep its drive, whatever it sees.
pub const MOST_QUIET: u32 = 65_536;
