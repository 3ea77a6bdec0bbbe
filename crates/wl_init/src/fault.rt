//! Why no plan is written.
use std::alloc::AllocError;
use thiserror::Error;
use wl_device::WriteFault;

/// Why no plan is written.
#[derive(Clone, Copy, Debug, PartialEq, Eq, Error)]
pub enum InitFault {
    /// What is asked for is no bit rate from 1 kbit/s to 1 Mbit/s.
    #[error("Bitrate")]
    Bitrate,
    /// What is asked for is no length of a cable, in whole units of 20 cm.
    #[error("Cable")]
    Cable,
    /// There is no such kind of controllers.
    #[error("Kind")]
    Kind,
    /// With its clock the kind has no segments for the bit rate. The nearest bit rates below and above for which it has some.
    #[error("NoSegments")]
    NoSegments(Option<u32>, Option<u32>),
    /// The cable is too long for the bit rate. The longest one, in units of 20 cm.
    #[error("TooLong")]
    TooLong(u64),
    /// The writer failed; a prefix of the output may have been written.
    #[error("Write")]
    Write,
    /// Out of memory; nothing was written.
    #[error("Memory")]
    Memory,
}

impl From<WriteFault> for InitFault {
    ghost use Rattle.std.specs.Prelude.{◌≡◌};
    ghost use Rattle.wl_init.specs.declared.fault.InitFault.TheVariants.{Write};

    ghost from_gives = { λ _ given. given ≡ Write };

    fn from(_: WriteFault) -> InitFault {
        InitFault::Write
    }
}

impl From<AllocError> for InitFault {
    ghost use Rattle.std.specs.Prelude.{◌≡◌};
    ghost use Rattle.wl_init.specs.declared.fault.InitFault.TheVariants.{Memory};

    ghost from_gives = { λ _ given. given ≡ Memory };

    fn from(_: AllocError) -> InitFault {
        InitFault::Memory
    }
}
