//! Why no plan is written.
use std::alloc::AllocError;
use thiserror::Error;
use wl_apply::ApplyFault;
use wl_device::WriteFault;
use wl_settings::SettingsFault;

/// Why a run ended early.
#[derive(Debug, Drop, Error)]
pub enum AppliedFault {
    /// What is asked for was refused, or the bus works with no setting of some controller.
    #[error("{0}")]
    Settings(SettingsFault),
    /// The plan was refused, or can't have the settings.
    #[error("{0}")]
    Plan(ApplyFault),
    /// The writer failed; a prefix of the output may have been written.
    #[error("Write")]
    Write,
    /// Out of memory; nothing was written.
    #[error("Memory")]
    Memory,
}

impl From<SettingsFault> for AppliedFault {
    ghost use Rattle.std.specs.Prelude.{◌≡◌};
    ghost use Rattle.wl_apply_engine.specs.Applying.{settings_refusal};

    ghost from_gives = { λ fault given. given ≡ settings_refusal fault };

    fn from(fault: SettingsFault) -> AppliedFault {
        match fault {
            SettingsFault::Memory => AppliedFault::Memory,
            other => AppliedFault::Settings(other),
        }
    }
}

impl From<ApplyFault> for AppliedFault {
    ghost use Rattle.std.specs.Prelude.{◌≡◌};
    ghost use Rattle.wl_apply_engine.specs.Applying.{plan_refusal};

    ghost from_gives = { λ fault given. given ≡ plan_refusal fault };

    fn from(fault: ApplyFault) -> AppliedFault {
        match fault {
            ApplyFault::Memory => AppliedFault::Memory,
            other => AppliedFault::Plan(other),
        }
    }
}

impl From<WriteFault> for AppliedFault {
    ghost use Rattle.std.specs.Prelude.{◌≡◌};
    ghost use Rattle.wl_apply_engine.specs.declared.fault.AppliedFault.TheVariants.{Write};

    ghost from_gives = { λ _ given. given ≡ Write };

    fn from(_: WriteFault) -> AppliedFault {
        AppliedFault::Write
    }
}
