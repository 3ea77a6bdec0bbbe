//! Why a run ended early.

use std::alloc::AllocError;
use thiserror::Error;
use wl_device::WriteFault;
use wl_record::TextFault;
use wl_setup::SetupFault;
use wl_views::ViewFault;
use wl_worker::Fault;

/// Why a run ended early. Each is shown as the fault that was met; what wraps it isn't shown.
#[derive(Debug, Drop, Error)]
pub enum RunFault {
    /// The record text was refused, or its reader failed; nothing was written.
    #[error("{0}")]
    Text(TextFault),
    /// The plan text was refused, or its reader failed; nothing was written, but by `explain_run` what is wrong with a text that is refused.
    #[error("{0}")]
    Setup(SetupFault),
    /// The workers came to no outcome; nothing was written.
    #[error("{0}")]
    Work(Fault),
    /// The writer failed; a prefix of the output may have been written.
    #[error("Write")]
    Write,
    /// Out of memory; nothing was written.
    #[error("Memory")]
    Memory,
}

impl RunFault {
    ghost use Rattle.std.specs.Prelude.{◌≡◌};
    ghost use Rattle.wl_engines.specs.Faults.{is_refusal};

    /// True if the input was refused for what it says.
    pub fn is_refusal(&self) -> bool
        ensures { result ≡ is_refusal self.now }
    {
        match self {
            RunFault::Text(TextFault::Read) | RunFault::Text(TextFault::Memory) => false,
            RunFault::Text(_) => true,
            RunFault::Setup(SetupFault::Read) | RunFault::Setup(SetupFault::Memory) => false,
            RunFault::Setup(_) => true,
            RunFault::Work(_) | RunFault::Write | RunFault::Memory => false,
        }
    }
}

impl From<TextFault> for RunFault {
    ghost use Rattle.std.specs.Prelude.{◌≡◌};
    ghost use Rattle.wl_engines.specs.Faults.{of_text};

    ghost from_gives = { λ fault given. given ≡ of_text fault };

    fn from(fault: TextFault) -> RunFault {
        match fault {
            TextFault::Memory => RunFault::Memory,
            other => RunFault::Text(other),
        }
    }
}

impl From<SetupFault> for RunFault {
    ghost use Rattle.std.specs.Prelude.{◌≡◌};
    ghost use Rattle.wl_engines.specs.Faults.{of_setup};

    ghost from_gives = { λ fault given. given ≡ of_setup fault };

    fn from(fault: SetupFault) -> RunFault {
        match fault {
            SetupFault::Memory => RunFault::Memory,
            other => RunFault::Setup(other),
        }
    }
}

impl From<Fault> for RunFault {
    ghost use Rattle.std.specs.Prelude.{◌≡◌};
    ghost use Rattle.wl_engines.specs.Faults.{of_work};

    ghost from_gives = { λ fault given. given ≡ of_work fault };

    fn from(fault: Fault) -> RunFault {
        match fault {
            Fault::Memory => RunFault::Memory,
            other => RunFault::Work(other),
        }
    }
}

impl From<WriteFault> for RunFault {
    ghost use Rattle.std.specs.Prelude.{◌≡◌};
    ghost use Rattle.wl_engines.specs.declared.fault.RunFault.TheVariants.{Write};

    ghost from_gives = { λ _ given. given ≡ Write };

    fn from(_: WriteFault) -> RunFault {
        RunFault::Write
    }
}

impl From<AllocError> for RunFault {
    ghost use Rattle.std.specs.Prelude.{◌≡◌};
    ghost use Rattle.wl_engines.specs.declared.fault.RunFault.TheVariants.{Memory};

    ghost from_gives = { λ _ given. given ≡ Memory };

    fn from(_: AllocError) -> RunFault {
        RunFault::Memory
    }
}

impl From<ViewFault> for RunFault {
    ghost use Rattle.std.specs.Prelude.{◌≡◌};
    ghost use Rattle.wl_engines.specs.Faults.{of_view};

    ghost from_gives = { λ fault given. given ≡ of_view fault };

    fn from(fault: ViewFault) -> RunFault {
        match fault {
            ViewFault::Write => RunFault::Write,
            ViewFault::Memory => RunFault::Memory,
        }
    }
}
