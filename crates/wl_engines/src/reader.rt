//! A reader over a text in memory.

use wl_device::{Got, Source};

/// Gives a text, and then its end.
#[derive(Drop)]
pub struct TextReader<'a> {
    /// What is still to come.
    pub rest: &'a [u8],
}

impl<'a> Source for TextReader<'a> {
    ghost use Rattle.wl_engines.specs.Reader.{GivesRest};

    ghost gives = { λ s a t. GivesRest s.rest.now a t.rest.now };

    fn read(&mut self, buffer: &mut [u8]) -> Got {
        let rest = self.rest;
        if rest.is_empty() {
            return Got::End;
        }
        let n = rest.len().min(buffer.len());
        buffer[..n].copy_from_slice(&rest[..n]);
        self.rest = &rest[n..];
        Got::Bytes(n)
    }
}
