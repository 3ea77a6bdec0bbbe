//! Devices for tests, which follow a script.

use crate::device::{Got, Put, Sink, Source};

/// What a scripted device answers for ever, once its text or its room is used up.
#[derive(Clone, Copy, Debug, PartialEq, Eq)]
pub enum Then {
    /// A reader: the end. A writer takes no byte.
    End,
    /// Nothing this time.
    Again,
    /// A failure.
    Failed,
}

/// Gives a text by at most `step` bytes a call (at least one), and then answers so for ever.
#[derive(Drop)]
pub struct ScriptedReader<'a> {
    /// What is still to come.
    pub text: &'a [u8],
    /// The most bytes of a call; 0 counts as 1.
    pub step: usize,
    /// What comes after the text.
    pub then: Then,
}

impl<'a> Source for ScriptedReader<'a> {
    ghost use Rattle.std.specs.Prelude.{◌≡◌};
    ghost use Rattle.wl_device.specs.Scripts.{ScriptGives};

    ghost gives = { λ s a t. ScriptGives s.text.now s.step s.then a t.text.now × (t.step ≡ s.step) × (t.then ≡ s.then) };

    fn read(&mut self, buffer: &mut [u8]) -> Got {
        let text = self.text;
        if text.is_empty() {
            return match self.then {
                Then::End => Got::End,
                Then::Again => Got::Again,
                Then::Failed => Got::Failed,
            };
        }
        let n = self.step.max(1).min(text.len()).min(buffer.len());
        buffer[..n].copy_from_slice(&text[..n]);
        self.text = &text[n..];
        Got::Bytes(n)
    }
}

/// Takes at most `step` bytes a call (at least one) while there is room for some, and then answers so for ever.
#[derive(Drop)]
pub struct ScriptedWriter {
    /// What was taken so far.
    pub written: Vec<u8>,
    /// How many bytes it still takes.
    pub room: usize,
    /// The most bytes of a call; 0 counts as 1.
    pub step: usize,
    /// What it answers without room.
    pub then: Then,
}

impl Sink for ScriptedWriter {
    ghost use Rattle.std.specs.Prelude.{◌≡◌};
    ghost use Rattle.wl_device.specs.Scripts.{ScriptTakes};

    ghost takes = { λ s a t. ScriptTakes s.written.items s.room s.step s.then a t.written.items t.room × (t.step ≡ s.step) × (t.then ≡ s.then) };

    fn write(&mut self, piece: &[u8]) -> Put {
        if self.room == 0 {
            return match self.then {
                Then::End => Put::Bytes(0),
                Then::Again => Put::Again,
                Then::Failed => Put::Failed,
            };
        }
        let n = self.step.max(1).min(self.room).min(piece.len());
        if self.written.extend_from_slice(&piece[..n]).is_err() {
            return Put::Failed;
        }
        self.room -= n;
        Put::Bytes(n)
    }
}
