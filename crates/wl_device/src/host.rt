//! Devices of the system.
ghost use Rattle.std.specs.Prelude.{◌≡◌, ◌≢◌, ◌<◌, IfOk, IfErr};
ghost use Rattle.std.specs.IoError.{error_kind};

use crate::device::{Got, Put, Sink, Source};
use std::io;
use std::io::{ErrorKind, Read, Write};

/// A reader or a writer of the standard library, called once a call. A call that was interrupted is `Again`.
#[derive(Drop)]
pub struct Host<D> {
    /// The reader or writer itself.
    pub device: D,
}

impl<D> Host<D> {
    /// Returns the device over this reader or writer.
    pub fn new(device: D) -> Host<D>
        ensures { result.device ≡ device }
    {
        Host { device }
    }
}

/// Returns what a reader answered to a call for at least one byte.
fn got_of(answer: io::Result<usize>) -> Got
    ensures end { IfOk answer (λ n. n ≡ 0 → result ≡ Got.End) }
    ensures bytes { IfOk answer (λ n. 0 < n → result ≡ Got.Bytes n) }
    ensures again { IfErr answer (λ e. error_kind e ≡ ErrorKind.Interrupted → result ≡ Got.Again) }
    ensures failed { IfErr answer (λ e. error_kind e ≢ ErrorKind.Interrupted → result ≡ Got.Failed) }
{
    match answer {
        Ok(0) => Got::End,
        Ok(n) => Got::Bytes(n),
        Err(e) => {
            if e.kind() == ErrorKind::Interrupted {
                Got::Again
            } else {
                Got::Failed
            }
        }
    }
}

/// Returns what a writer answered to a call.
fn put_of(answer: io::Result<usize>) -> Put
    ensures bytes { IfOk answer (λ n. result ≡ Put.Bytes n) }
    ensures again { IfErr answer (λ e. error_kind e ≡ ErrorKind.Interrupted → result ≡ Put.Again) }
    ensures failed { IfErr answer (λ e. error_kind e ≢ ErrorKind.Interrupted → result ≡ Put.Failed) }
{
    match answer {
        Ok(n) => Put::Bytes(n),
        Err(e) => {
            if e.kind() == ErrorKind::Interrupted {
                Put::Again
            } else {
                Put::Failed
            }
        }
    }
}

impl<D: Read> Source for Host<D> {
    ghost use Rattle.wl_device.specs.Devices.{ReadCall};

    ghost gives = { λ s a t. ReadCall (D.remaining s.device) a (D.remaining t.device) };

    fn read(&mut self, buffer: &mut [u8]) -> Got {
        got_of(self.device.read(buffer))
    }
}

impl<D: Write> Sink for Host<D> {
    ghost use Rattle.wl_device.specs.Devices.{WriteCall};

    ghost takes = { λ s a t. WriteCall (D.contents s.device) a (D.contents t.device) };

    fn write(&mut self, piece: &[u8]) -> Put {
        put_of(self.device.write(piece))
    }
}
