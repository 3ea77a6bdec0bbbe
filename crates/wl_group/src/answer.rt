//! What an advance answers.

use arrayvec::ArrayVec;
use wl_record_core::Record;

/// The records that one advance emits: an edge, if the drive changed, and a silence.
pub type Emission = ArrayVec<Record, 2>;

/// What an advance of a node did.
#[derive(Debug, Drop)]
pub enum Advance {
    /// The node ran its next quantum, and this was emitted; the group has taken it.
    Emitted(Emission),
    /// The node is no member, or the line at its place isn't known yet at its next quantum. Nothing changed.
    Blocked,
    /// The node's next quantum isn't below the end. Nothing changed.
    Ended,
}
