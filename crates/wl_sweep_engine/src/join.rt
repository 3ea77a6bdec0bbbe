//! The parts of a sweep, joined.
ghost use Rattle.std.specs.Prelude.{◌≡◌};
ghost use Rattle.wl_sweep_engine.specs.Joining.{Joins};

use std::alloc::{AllocError, Global};
use thiserror::Error;
use wl_device::{Ended, Sink, Source, WriteFault, read_up_to, write_all};
use wl_parts::{PartsFault, join_parts, read_parts};

/// The most bytes of the texts of all parts.
const MOST_BYTES: usize = 1 << 30;

/// Why parts weren't joined.
#[derive(Clone, Copy, Debug, PartialEq, Eq, Error)]
pub enum JoinFault {
    /// The texts aren't those of all parts of one sweep.
    #[error("{0}")]
    Parts(PartsFault),
    /// The reader failed.
    #[error("Read")]
    Read,
    /// The texts have more than 2^30 bytes.
    #[error("Size")]
    Size,
    /// The writer failed; a prefix of the output may have been written.
    #[error("Write")]
    Write,
    /// Out of memory; nothing was written.
    #[error("Memory")]
    Memory,
}

impl From<PartsFault> for JoinFault {
    ghost use Rattle.std.specs.Prelude.{◌≡◌};
    ghost use Rattle.wl_sweep_engine.specs.Joining.{of_parts};

    ghost from_gives = { λ fault given. given ≡ of_parts fault };

    fn from(fault: PartsFault) -> JoinFault {
        match fault {
            PartsFault::Memory => JoinFault::Memory,
            other => JoinFault::Parts(other),
        }
    }
}

impl From<WriteFault> for JoinFault {
    ghost use Rattle.std.specs.Prelude.{◌≡◌};
    ghost use Rattle.wl_sweep_engine.specs.declared.join.JoinFault.TheVariants.{Write};

    ghost from_gives = { λ _ given. given ≡ Write };

    fn from(_: WriteFault) -> JoinFault {
        JoinFault::Write
    }
}

impl From<AllocError> for JoinFault {
    ghost use Rattle.std.specs.Prelude.{◌≡◌};
    ghost use Rattle.wl_sweep_engine.specs.declared.join.JoinFault.TheVariants.{Memory};

    ghost from_gives = { λ _ given. given ≡ Memory };

    fn from(_: AllocError) -> JoinFault {
        JoinFault::Memory
    }
}

/// Reads the texts of all parts of a sweep, one after another in any order, and writes the text of the whole sweep. Returns whether each member
/// is clean.
///
/// The first of these faults: `Read` or `Size`; `Form`, at the first part that is none; `Other`; `Missing` and `Doubled`. The whole output is
/// made before the first write. If the input is refused, or memory runs out, the writer isn't called; if the writer fails, a prefix of the
/// output has been written.
pub fn join_run<R: Source, W: Sink>(
    alloc: Global,
    reader: &mut R,
    writer: &mut W,
) -> Result<bool, JoinFault>
    ensures { Joins R.gives W.takes reader.old reader.new writer.old writer.new result }
{
    let (text, ended) = read_up_to(alloc, reader, MOST_BYTES)?;
    match ended {
        Ended::End => {}
        Ended::Broken => return Err(JoinFault::Read),
        Ended::Full => return Err(JoinFault::Size),
    }
    let parts = read_parts(alloc, text.as_slice())?;
    let (said, clean) = join_parts(alloc, parts.as_slice())?;
    write_all(said.as_slice(), writer)?;
    Ok(clean)
}
