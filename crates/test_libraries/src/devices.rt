//! Devices of the standard library: each call is one call of theirs, whatever they answer. Else a run would make more calls than it counts,
//! or none, which no clause can see.
ghost use Rattle.std.specs.Prelude.{◌≤◌, IfOk};

use std::io;
use std::io::{ErrorKind, Read, Write};
use wl_device::{Got, Host, Put, Sink, Source};

/// A reader and writer that counts its calls: the first is interrupted, the second fails, the third moves a byte, and the others none.
#[derive(Drop)]
struct Counted {
    calls: usize,
}

impl Counted {
    /// Returns the answer to one call for a piece of this length.
    fn answer(&mut self, len: usize) -> io::Result<usize>
        ensures { IfOk result (λ n. n ≤ len) }
    {
        self.calls = self.calls.saturating_add(1);
        match self.calls {
            1 => Err(io::Error::from(ErrorKind::Interrupted)),
            2 => Err(io::Error::from(ErrorKind::BrokenPipe)),
            3 => Ok(len.min(1)),
            _ => Ok(0),
        }
    }
}

impl Read for Counted {
    fn read(&mut self, buffer: &mut [u8]) -> io::Result<usize> {
        self.answer(buffer.len())
    }
}

impl Write for Counted {
    fn write(&mut self, piece: &[u8]) -> io::Result<usize> {
        self.answer(piece.len())
    }

    fn flush(&mut self) -> io::Result<()> {
        Ok(())
    }
}

#[test]
fn each_call_is_one_call(rt: HostRuntime) {
    let mut reader = Host::new(Counted { calls: 0 });
    let mut writer = Host::new(Counted { calls: 0 });
    let mut buffer = [0u8; 4];
    let answers = [
        (Got::Again, Put::Again),
        (Got::Failed, Put::Failed),
        (Got::Bytes(1), Put::Bytes(1)),
        (Got::End, Put::Bytes(0)),
    ];
    for (made, (got, put)) in answers.iter().enumerate() {
        assert_eq!(rt; reader.read(&mut buffer), *got);
        assert_eq!(rt; writer.write(b"text"), *put);
        let calls = made.saturating_add(1);
        assert_eq!(rt; (reader.device.calls, writer.device.calls), (calls, calls));
    }
}
