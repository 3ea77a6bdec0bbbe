//! Why a text gives no settings.
use std::alloc::AllocError;
use thiserror::Error;
use wl_device::WriteFault;
use wl_setup::Text;

/// Why a run ended early.
#[derive(Debug, Drop, Error)]
pub enum SettingsFault {
    /// The text is no TOML, or not UTF-8.
    #[error("Toml")]
    Toml,
    /// A key that has to be there is absent.
    #[error("Missing({0})")]
    Missing(Text),
    /// The value of a key isn't what it has to be.
    #[error("Kind({0})")]
    Kind(Text),
    /// A key that its table should not have.
    #[error("Unknown({0})")]
    Unknown(Text),
    /// The list `controller` is empty. Without that key the fault is `Missing(controller)`.
    #[error("NoController")]
    NoController,
    /// A plan is asked for, and the bus works with no setting of the first controller.
    #[error("NoSetting")]
    NoSetting,
    /// The text has more than 1,048,576 bytes.
    #[error("Size")]
    Size,
    /// The reader failed, or its calls ran out.
    #[error("Read")]
    Read,
    /// The writer failed; a prefix of the output may have been written.
    #[error("Write")]
    Write,
    /// Out of memory; nothing was written.
    #[error("Memory")]
    Memory,
}

impl From<AllocError> for SettingsFault {
    ghost use Rattle.std.specs.Prelude.{◌≡◌};
    ghost use Rattle.wl_settings.specs.declared.fault.SettingsFault.TheVariants.{Memory};

    ghost from_gives = { λ _ given. given ≡ Memory };

    fn from(_: AllocError) -> SettingsFault {
        SettingsFault::Memory
    }
}

impl From<WriteFault> for SettingsFault {
    ghost use Rattle.std.specs.Prelude.{◌≡◌};
    ghost use Rattle.wl_settings.specs.declared.fault.SettingsFault.TheVariants.{Write};

    ghost from_gives = { λ _ given. given ≡ Write };

    fn from(_: WriteFault) -> SettingsFault {
        SettingsFault::Write
    }
}
