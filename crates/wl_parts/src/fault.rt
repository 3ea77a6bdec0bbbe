//! Why texts aren't the parts of a sweep.

use std::alloc::AllocError;
use thiserror::Error;

/// Why a text isn't that of all parts of one sweep. Places count from 1.
#[derive(Clone, Copy, Debug, PartialEq, Eq, Error)]
pub enum PartsFault {
    /// The part at this place is no text of a part, or is cut off.
    #[error("Part({0}, Form)")]
    Form(u64),
    /// The part at this place is of another sweep than the first one, or that sweep was cut into another number of parts.
    #[error("Part({0}, Other)")]
    Other(u64),
    /// The part of this number isn't there.
    #[error("Part({0}, Missing)")]
    Missing(u64),
    /// The part of this number is there twice.
    #[error("Part({0}, Doubled)")]
    Doubled(u64),
    /// Out of memory.
    #[error("Memory")]
    Memory,
}

impl From<AllocError> for PartsFault {
    ghost use Rattle.std.specs.Prelude.{◌≡◌};
    ghost use Rattle.wl_parts.specs.declared.fault.PartsFault.TheVariants.{Memory};

    ghost from_gives = { λ _ given. given ≡ Memory };

    fn from(_: AllocError) -> PartsFault {
        PartsFault::Memory
    }
}
