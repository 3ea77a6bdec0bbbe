//! An output goes out.
ghost use Rattle.std.specs.Prelude.{◌≡◌, MatchResult, Err};
ghost use Rattle.wl_engines.specs.declared.fault.RunFault.TheVariants.{Memory};
ghost use Rattle.wl_engines.specs.Output.{WritesAnswer, WritesText};

use crate::fault::RunFault;
use std::alloc::AllocError;
use wl_device::{Sink, write_all};

/// Writes a text if it was made. Else memory was refused, and the writer isn't called.
pub(crate) fn write_made<W: Sink>(
    made: Result<Vec<u8>, AllocError>,
    writer: &mut W,
) -> Result<(), RunFault>
    ensures { MatchResult made (λ text. WritesText W.takes text.items writer.old writer.new result)
        (λ _. (result ≡ Err Memory) × (writer.new ≡ writer.old)) }
{
    let text = made?;
    write_all(&text, writer)?;
    Ok(())
}

/// Writes what is said, and returns the answer that goes with it.
pub(crate) fn write_answer<A: Copy, W: Sink>(
    answer: A,
    said: &[u8],
    writer: &mut W,
) -> Result<A, RunFault>
    ensures { WritesAnswer W.takes said.now answer writer.old writer.new result }
{
    match write_all(said, writer) {
        Ok(()) => Ok(answer),
        Err(_) => Err(RunFault::Write),
    }
}
