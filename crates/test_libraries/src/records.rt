//! Devices that fail, and a reader without an end. The rows of record texts, of small texts and of writers with little room are those of a
//! program, which compares its output.

use std::alloc::Global;
use std::io;
use std::io::{ErrorKind, Read, Write};
use std::test::Fail;
use wl_device::{Got, Host, ScriptedReader, Source, Then};
use wl_record::{TextFault, read_records, write_records};

/// Two records, and their text.
const TEXT: &[u8] = b"C 0 0\nE 0 1 100\n";

#[test]
fn devices_of_the_system(rt: HostRuntime) -> Result<(), Fail> {
    let read = read_records(rt.alloc(), &mut Host::new(TEXT))?;
    let mut writer = Host::new(Vec::new(rt.alloc()));
    write_records(&read, &mut writer)?;
    assert_eq!(rt; writer.device.as_slice(), TEXT);
    Ok(())
}

/// Gives one line for ever.
#[derive(Drop)]
struct Endless;

impl Source for Endless {
    ghost gives = { λ _ _ _. Unit {0} };

    fn read(&mut self, buffer: &mut [u8]) -> Got {
        let line = b"S 0 0 1\n";
        if buffer.len() < line.len() {
            buffer[0] = b'a';
            return Got::Bytes(1);
        }
        buffer[..line.len()].copy_from_slice(line);
        Got::Bytes(line.len())
    }
}

/// One gives more than a text may have, the other never anything.
#[test]
fn readers_that_never_end(rt: HostRuntime) {
    let mut silent = ScriptedReader {
        text: b"",
        step: 1,
        then: Then::Again,
    };
    let endless = read_records(rt.alloc(), &mut Endless).err();
    let silent = read_records(rt.alloc(), &mut silent).err();
    assert_eq!(rt;
        [endless, silent],
        [Some(TextFault::TooLong(16_777_217)), Some(TextFault::Read)]
    );
}

/// A reader of the standard library that fails once, before its first byte, and then gives its text.
#[derive(Drop)]
struct FailsOnce<'a> {
    kind: Option<ErrorKind>,
    text: &'a [u8],
}

impl<'a> Read for FailsOnce<'a> {
    fn read(&mut self, buffer: &mut [u8]) -> io::Result<usize> {
        if let Some(kind) = self.kind {
            self.kind = None;
            return Err(io::Error::from(kind));
        }
        let text = self.text;
        let n = text.len().min(buffer.len());
        buffer[..n].copy_from_slice(&text[..n]);
        self.text = &text[n..];
        Ok(n)
    }
}

/// Returns how the reading of two records from such a reader ends, or `None` if they come.
fn fault_after(alloc: Global, kind: ErrorKind) -> Option<TextFault> {
    let kind = Some(kind);
    match read_records(alloc, &mut Host::new(FailsOnce { kind, text: TEXT })) {
        Ok(records) if records.len() == 2 => None,
        Ok(_) => Some(TextFault::Truncated),
        Err(fault) => Some(fault),
    }
}

#[test]
fn an_interrupted_reader_is_asked_again_and_no_other(rt: HostRuntime) {
    let alloc = rt.alloc();
    assert_eq!(rt;
        [
            fault_after(alloc, ErrorKind::Interrupted),
            fault_after(alloc, ErrorKind::BrokenPipe),
            fault_after(alloc, ErrorKind::WouldBlock),
        ],
        [None, Some(TextFault::Read), Some(TextFault::Read)]
    );
}

/// A writer of the standard library that takes nothing at its first call, or fails then, and afterwards takes all.
#[derive(Drop)]
struct TakesLater {
    first: Option<Option<ErrorKind>>,
    written: Vec<u8>,
}

impl Write for TakesLater {
    fn write(&mut self, piece: &[u8]) -> io::Result<usize> {
        let Some(first) = self.first else {
            self.written.extend_from_slice(piece)?;
            return Ok(piece.len());
        };
        self.first = None;
        match first {
            Some(kind) => Err(io::Error::from(kind)),
            None => Ok(0),
        }
    }

    fn flush(&mut self) -> io::Result<()> {
        Ok(())
    }
}

/// True if a record goes out to such a writer.
fn goes_out(alloc: Global, first: Option<ErrorKind>) -> bool {
    let mut writer = Host::new(TakesLater {
        first: Some(first),
        written: Vec::new(alloc),
    });
    let went = write_records(
        &[wl_record_core::Record::Clash { node: 0, seq: 0 }],
        &mut writer,
    );
    went.is_ok() && writer.device.written.as_slice() == b"C 0 0\n".as_slice()
}

#[test]
fn an_interrupted_writer_is_asked_again_and_no_other(rt: HostRuntime) {
    let alloc = rt.alloc();
    assert_eq!(rt;
        [
            goes_out(alloc, Some(ErrorKind::Interrupted)),
            goes_out(alloc, Some(ErrorKind::BrokenPipe)),
            goes_out(alloc, Some(ErrorKind::WouldBlock)),
            goes_out(alloc, None),
        ],
        [true, false, false, false]
    );
}
