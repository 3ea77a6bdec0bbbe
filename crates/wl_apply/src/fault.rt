//! Why no plan is written.
use std::alloc::AllocError;
use thiserror::Error;
use wl_setup::{SetupFault, Text};

/// Why no plan is written.
#[derive(Debug, Drop, Error)]
pub enum ApplyFault {
    /// The plan can't be run: as it is, or with the settings.
    #[error("{0}")]
    Setup(SetupFault),
    /// The plan says another length of a tick than the one that the settings are counted in.
    #[error("Tick")]
    Tick,
    /// No node has a controller of this name, or is named so, with the clock of its setting.
    #[error("NoNode({0})")]
    NoNode(Text),
    /// A node, by its number, has several rates: no setting says them all.
    #[error("Rates({0})")]
    Rates(u64),
    /// The setting of a node, by its number, has segments or a clock that only version 4 has.
    #[error("WantsVersion4({0})")]
    WantsVersion4(u64),
    /// A frame, by the number of its node and its own, becomes ready, or comes again, after no whole number of the new quanta.
    #[error("Time({0}, {1})")]
    Time(u64, u64),
    /// Out of memory.
    #[error("Memory")]
    Memory,
}

impl From<SetupFault> for ApplyFault {
    ghost use Rattle.std.specs.Prelude.{◌≡◌};
    ghost use Rattle.wl_apply.specs.Applied.{setup_refusal};

    ghost from_gives = { λ fault given. given ≡ setup_refusal fault };

    fn from(fault: SetupFault) -> ApplyFault {
        match fault {
            SetupFault::Memory => ApplyFault::Memory,
            other => ApplyFault::Setup(other),
        }
    }
}

impl From<AllocError> for ApplyFault {
    ghost use Rattle.std.specs.Prelude.{◌≡◌};
    ghost use Rattle.wl_apply.specs.declared.fault.ApplyFault.TheVariants.{Memory};

    ghost from_gives = { λ _ given. given ≡ Memory };

    fn from(_: AllocError) -> ApplyFault {
        ApplyFault::Memory
    }
}
