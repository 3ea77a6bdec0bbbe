//! The limit of calls.

/// The most calls of a reader, or of a writer, in one run.
pub const MOST_CALLS: u32 = 1 << 28;
