//! Readers and writers, by what they answer to each call.
ghost use Rattle.std.specs.Prelude.{◌<◌, ◌≤◌, length};

use crate::limits::MOST_CALLS;

/// What a reader answered to one call.
#[derive(Clone, Copy, Debug, PartialEq, Eq)]
pub enum Got {
    /// This many bytes came: at least one, and no more than the buffer holds.
    Bytes(usize),
    /// There is no more.
    End,
    /// Nothing came this time.
    Again,
    /// The reader failed.
    Failed,
}

/// What a writer answered to one call.
#[derive(Clone, Copy, Debug, PartialEq, Eq)]
pub enum Put {
    /// This many bytes went. None of a piece that has some counts as a failure.
    Bytes(usize),
    /// Nothing went this time.
    Again,
    /// The writer failed.
    Failed,
}

/// A reader, by the answers that it may give.
pub trait Source {
    ghost use Rattle.wl_device.specs.Devices.{Answer, read_answer, FitsBuffer};

    /// From one state it may answer so, and be in the other.
    ghost gives: { Self → Answer → Self → Type 0 };

    /// Makes one call: the bytes that came are at the front of the buffer.
    fn read(&mut self, buffer: &mut [u8]) -> Got
        requires { 0 < length buffer.old }
        ensures fits { FitsBuffer result buffer.new }
        ensures gives { gives self.old (read_answer result buffer.new) self.new };
}

/// A writer, by the answers that it may give.
pub trait Sink {
    ghost use Rattle.wl_device.specs.Devices.{Answer, write_answer, FitsPiece};

    /// From one state it may answer so, and be in the other.
    ghost takes: { Self → Answer → Self → Type 0 };

    /// Makes one call: the bytes that went are those at the front of the piece.
    fn write(&mut self, piece: &[u8]) -> Put
        requires { 0 < length piece.now }
        ensures fits { FitsPiece result piece.now }
        ensures takes { takes self.old (write_answer result piece.now) self.new };
}

/// The writer failed, took no byte of a piece that had some, or its calls ran out.
#[derive(Clone, Copy, Debug, PartialEq, Eq, thiserror::Error)]
#[error("Write")]
pub struct WriteFault;

ghost use Rattle.wl_device.specs.Devices.{Writes, Sends};
ghost use Rattle.wl_device.specs.Limits.{most_calls};

/// Writes all of the piece, in a run that has made `calls` calls before, at most `MOST_CALLS`. Returns the calls made since the run's
/// start. On a fault a prefix of the piece has been written, and not all of it.
pub fn send<W: Sink>(piece: &[u8], writer: &mut W, calls: u32) -> Result<u32, WriteFault>
    requires { calls ≤ most_calls }
    ensures { Sends W.takes writer.old piece.now calls result writer.new }
{
    let mut rest = piece;
    for made in calls..MOST_CALLS {
        if rest.is_empty() {
            return Ok(made);
        }
        match writer.write(rest) {
            Put::Bytes(n) => {
                if n == 0 {
                    return Err(WriteFault);
                }
                rest = &rest[n..];
            }
            Put::Again => {}
            Put::Failed => return Err(WriteFault),
        }
    }
    if rest.is_empty() {
        Ok(MOST_CALLS)
    } else {
        Err(WriteFault)
    }
}

/// Writes all of the bytes in at most `MOST_CALLS` calls. On a fault a prefix of them has been written, and not all.
pub fn write_all<W: Sink>(bytes: &[u8], writer: &mut W) -> Result<(), WriteFault>
    ensures { Writes W.takes writer.old bytes.now result writer.new }
{
    send(bytes, writer, 0)?;
    Ok(())
}
