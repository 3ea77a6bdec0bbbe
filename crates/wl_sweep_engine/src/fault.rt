//! Why a sweep ended early.

use std::alloc::AllocError;
use thiserror::Error;
use wl_device::WriteFault;
use wl_setup::SetupFault;
use wl_spikes::SpikeFault;
use wl_sweep::RangeFault;

/// Why a sweep ended early. The fault of a plan's text is shown as `run` shows it. But for `Write` no member was run and nothing was written.
#[derive(Debug, Drop, Error)]
pub enum SweepFault {
    /// No member was to be run.
    #[error("Runs")]
    Runs,
    /// The step between two offsets was to be 0 ticks.
    #[error("Step")]
    Step,
    /// The number of workers isn't from 1 to 8.
    #[error("Workers")]
    Workers,
    /// No part of this number, or the word that names it isn't `K/N`.
    #[error("Part")]
    Part,
    /// The plan text was refused, or its reader failed.
    #[error("{0}")]
    Setup(SetupFault),
    /// A word is no range of this plan: which one, counted from 0, and why.
    #[error("Range({0}, {1})")]
    Range(usize, RangeFault),
    /// The ranges make more than 10,000 rows.
    #[error("Rows")]
    Rows,
    /// The words are no spike of this plan: why.
    #[error("Spike({0})")]
    Spike(SpikeFault),
    /// The sweep has no member of this number.
    #[error("Member")]
    Member,
    /// The writer failed; a prefix of the output may have been written.
    #[error("Write")]
    Write,
    /// Out of memory; nothing was written.
    #[error("Memory")]
    Memory,
}

impl SweepFault {
    ghost use Rattle.std.specs.Prelude.{◌≡◌};
    ghost use Rattle.wl_sweep_engine.specs.Faults.{is_refusal, is_word};

    /// True if what was asked is refused, and not the plan as it is.
    pub fn is_word(&self) -> bool
        ensures { result ≡ is_word self.now }
    {
        match self {
            SweepFault::Runs | SweepFault::Step | SweepFault::Workers => true,
            SweepFault::Range(_, _) | SweepFault::Rows | SweepFault::Member | SweepFault::Part =>
                true,
            SweepFault::Spike(_) => true,
            SweepFault::Setup(_) | SweepFault::Write | SweepFault::Memory => false,
        }
    }

    /// True if the plan's text is refused for what it says.
    pub fn is_refusal(&self) -> bool
        ensures { result ≡ is_refusal self.now }
    {
        match self {
            SweepFault::Setup(SetupFault::Read) | SweepFault::Setup(SetupFault::Memory) => false,
            SweepFault::Setup(_) => true,
            _ => false,
        }
    }
}

impl From<SetupFault> for SweepFault {
    ghost use Rattle.std.specs.Prelude.{◌≡◌};
    ghost use Rattle.wl_sweep_engine.specs.Faults.{of_setup};

    ghost from_gives = { λ fault given. given ≡ of_setup fault };

    fn from(fault: SetupFault) -> SweepFault {
        match fault {
            SetupFault::Memory => SweepFault::Memory,
            other => SweepFault::Setup(other),
        }
    }
}

impl From<WriteFault> for SweepFault {
    ghost use Rattle.std.specs.Prelude.{◌≡◌};
    ghost use Rattle.wl_sweep_engine.specs.declared.fault.SweepFault.TheVariants.{Write};

    ghost from_gives = { λ _ given. given ≡ Write };

    fn from(_: WriteFault) -> SweepFault {
        SweepFault::Write
    }
}

impl From<AllocError> for SweepFault {
    ghost use Rattle.std.specs.Prelude.{◌≡◌};
    ghost use Rattle.wl_sweep_engine.specs.declared.fault.SweepFault.TheVariants.{Memory};

    ghost from_gives = { λ _ given. given ≡ Memory };

    fn from(_: AllocError) -> SweepFault {
        SweepFault::Memory
    }
}
