//! Why no plan is written.
use std::alloc::AllocError;
use thiserror::Error;
use wl_device::WriteFault;
use wl_setup::SetupFault;

/// Why no plan is written.
#[derive(Debug, Drop, Error)]
pub enum PrintFault {
    /// The plan text was refused, or its reader failed.
    #[error("{0}")]
    Setup(SetupFault),
    /// In a plan of version 1 or 2 a frame waits after one that becomes ready later: the number of its node, and its own, from 0. Version 4 has
    /// no such queue.
    #[error("Order({0}, {1})")]
    Order(u64, u64),
    /// The writer failed; a prefix of the output may have been written.
    #[error("Write")]
    Write,
    /// Out of memory; nothing was written.
    #[error("Memory")]
    Memory,
}

impl From<SetupFault> for PrintFault {
    ghost use Rattle.std.specs.Prelude.{◌≡◌};
    ghost use Rattle.wl_print.specs.Formats.{of_setup};

    ghost from_gives = { λ fault given. given ≡ of_setup fault };

    fn from(fault: SetupFault) -> PrintFault {
        match fault {
            SetupFault::Memory => PrintFault::Memory,
            other => PrintFault::Setup(other),
        }
    }
}

impl From<WriteFault> for PrintFault {
    ghost use Rattle.std.specs.Prelude.{◌≡◌};
    ghost use Rattle.wl_print.specs.declared.fault.PrintFault.TheVariants.{Write};

    ghost from_gives = { λ _ given. given ≡ Write };

    fn from(_: WriteFault) -> PrintFault {
        PrintFault::Write
    }
}

impl From<AllocError> for PrintFault {
    ghost use Rattle.std.specs.Prelude.{◌≡◌};
    ghost use Rattle.wl_print.specs.declared.fault.PrintFault.TheVariants.{Memory};

    ghost from_gives = { λ _ given. given ≡ Memory };

    fn from(_: AllocError) -> PrintFault {
        PrintFault::Memory
    }
}
