//! Why a record text is refused.

use thiserror::Error;

/// Why a record text is refused. Lines are counted from 1.
#[derive(Clone, Copy, Debug, PartialEq, Eq, Error)]
pub enum TextFault {
    /// A line outside the grammar.
    #[error("Line({0})")]
    Line(u64),
    /// A line in the grammar, with a number out of its limits.
    #[error("Range({0})")]
    Range(u64),
    /// The end came inside a line.
    #[error("Truncated")]
    Truncated,
    /// The reader failed, or its calls ran out.
    #[error("Read")]
    Read,
    /// A byte past the limit of a line, or past that of a text.
    #[error("TooLong({0})")]
    TooLong(u64),
    /// Memory was refused.
    #[error("Memory")]
    Memory,
}
