//! Why a letter was not sent or not taken.

use std::alloc::AllocError;
use thiserror::Error;

/// Why a letter was not sent or not taken.
#[derive(Clone, Copy, Debug, PartialEq, Eq, Error)]
pub enum MailFault {
    /// The letter's plan isn't the group's.
    #[error("Foreign")]
    Foreign,
    /// The other end was given up.
    #[error("Gone")]
    Gone,
    /// Memory was refused.
    #[error("Memory")]
    Memory,
}

impl From<AllocError> for MailFault {
    ghost use Rattle.std.specs.Prelude.{◌≡◌};
    ghost use Rattle.wl_mail.specs.declared.fault.MailFault.TheVariants.{Memory};

    ghost from_gives = { λ _ fault. fault ≡ Memory };

    fn from(_: AllocError) -> MailFault {
        MailFault::Memory
    }
}
