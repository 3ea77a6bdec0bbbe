//! A writer into memory.

use std::alloc::Global;
use wl_device::{Put, Sink};

/// Keeps all bytes that are written. It fails only when out of memory.
#[derive(Drop)]
pub struct Kept {
    /// What was written so far.
    pub bytes: Vec<u8>,
}

impl Kept {
    ghost use Rattle.std.specs.Prelude.{◌≡◌, []};

    /// Returns a writer to which nothing was written yet. It takes no memory.
    pub fn new(alloc: Global) -> Kept
        ensures { result.bytes.items ≡ [] }
    {
        Kept {
            bytes: Vec::new(alloc),
        }
    }
}

impl Sink for Kept {
    ghost use Rattle.wl_engines.specs.Keeping.{KeepsMore};

    ghost takes = { λ s a t. KeepsMore s.bytes.items a t.bytes.items };

    fn write(&mut self, piece: &[u8]) -> Put {
        match self.bytes.extend_from_slice(piece) {
            Ok(()) => Put::Bytes(piece.len()),
            Err(_) => Put::Failed,
        }
    }
}
