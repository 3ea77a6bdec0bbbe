//! The limits of a record text.

/// The most bytes of a line of record text before its newline.
pub const MOST_LINE: usize = 40;

/// The most bytes of a record text.
pub const MOST_BYTES: usize = 1 << 27;
