//! Why a view wasn't written whole.

use std::alloc::AllocError;
use thiserror::Error;
use wl_device::WriteFault;

/// Why a view wasn't written whole.
#[derive(Clone, Copy, Debug, PartialEq, Eq, Drop, Error)]
pub enum ViewFault {
    /// The writer failed; a prefix was written.
    #[error("Write")]
    Write,
    /// Out of memory; nothing was written.
    #[error("Memory")]
    Memory,
}

impl From<WriteFault> for ViewFault {
    ghost use Rattle.std.specs.Prelude.{◌≡◌};
    ghost use Rattle.wl_views.specs.declared.fault.ViewFault.TheVariants.{Write};

    ghost from_gives = { λ _ given. given ≡ Write };

    fn from(_: WriteFault) -> ViewFault {
        ViewFault::Write
    }
}

impl From<AllocError> for ViewFault {
    ghost use Rattle.std.specs.Prelude.{◌≡◌};
    ghost use Rattle.wl_views.specs.declared.fault.ViewFault.TheVariants.{Memory};

    ghost from_gives = { λ _ given. given ≡ Memory };

    fn from(_: AllocError) -> ViewFault {
        ViewFault::Memory
    }
}
