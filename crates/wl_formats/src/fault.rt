//! Why a text has no other format.
use std::alloc::AllocError;
use thiserror::Error;

/// Why a text was not formatted.
#[derive(Clone, Copy, Debug, PartialEq, Eq, Error)]
pub enum FormatFault {
    /// A line fits no shape of its command.
    #[error("Shape")]
    Shape,
    /// Out of memory.
    #[error("Memory")]
    Memory,
}

impl From<AllocError> for FormatFault {
    ghost use Rattle.std.specs.Prelude.{◌≡◌};
    ghost use Rattle.wl_formats.specs.declared.fault.FormatFault.TheVariants.{Memory};

    ghost from_gives = { λ _ given. given ≡ Memory };

    fn from(_: AllocError) -> FormatFault {
        FormatFault::Memory
    }
}
