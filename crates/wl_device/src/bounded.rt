//! Reading the whole of a small text.
ghost use Rattle.std.specs.Prelude.{IfOk};
ghost use Rattle.wl_device.specs.Bounded.{ReadsUpTo};

use crate::device::{Got, Source};
use crate::limits::MOST_CALLS;
use std::alloc::{AllocError, Global};

/// For how many bytes there is room at first: most plans have fewer. What isn't read is never touched.
const FIRST_ROOM: usize = 98_304;

/// How the reading of a whole text ended.
#[derive(Clone, Copy, Debug, PartialEq, Eq)]
pub enum Ended {
    /// The reader said that there is no more.
    End,
    /// The reader failed, or its calls ran out.
    Broken,
    /// More bytes came than were asked for.
    Full,
}

/// Reads all that the reader gives, up to the first piece that makes it more than `most` bytes, in at most `MOST_CALLS` calls.
///
/// Returns the bytes that came and how the reading ended. Refused only when out of memory; what the reader has left is then unspecified.
pub fn read_up_to<R: Source>(
    alloc: Global,
    reader: &mut R,
    most: usize,
) -> Result<(Vec<u8>, Ended), AllocError>
    ensures { IfOk result (λ r. ReadsUpTo R.gives reader.old most r.0.items r.1 reader.new) }
{
    let mut text = Vec::with_capacity(alloc, FIRST_ROOM)?;
    let mut buffer = [0u8; 16_384];
    for _ in 0..MOST_CALLS {
        match reader.read(&mut buffer) {
            Got::Bytes(n) => {
                text.extend_from_slice(&buffer[..n])?;
                if text.len() > most {
                    return Ok((text, Ended::Full));
                }
            }
            Got::End => return Ok((text, Ended::End)),
            Got::Again => {}
            Got::Failed => return Ok((text, Ended::Broken)),
        }
    }
    Ok((text, Ended::Broken))
}
