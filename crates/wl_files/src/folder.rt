//! Files by name, as a trait, so that a test can stand in for the system's.

use std::alloc::Global;
use std::io;
use wl_device::{Sink, Source};

/// Why no new file was begun.
#[derive(Clone, Copy, Debug, PartialEq, Eq)]
pub enum BeginFault {
    /// The place can't be written: a folder, no rights, no room, or no such folder.
    Refused,
    /// Out of memory.
    Memory,
}

/// What is at a name that can't be read, as far as a person has to know it.
#[derive(Clone, Copy, Debug, PartialEq, Eq)]
pub enum Spot {
    /// There is nothing.
    Empty,
    /// A folder.
    Folder,
    /// Something else, or it isn't known.
    Other,
}

/// Files by name.
pub trait Folder {
    ghost use Rattle.std.specs.Prelude.{List, ℕ, IfOk};
    ghost use Rattle.wl_files.specs.Files.{Standing, IsEmpty, Keeps, Places};

    /// An open file.
    type Reader: Source + Drop;

    /// A file that is written.
    type Writer: Sink + Drop;

    /// What is known of what is at a name.
    ghost stands: { Self → List ℕ → Standing };

    /// What is known of what a written file holds.
    ghost holds: { Self.Writer → Standing };

    /// An open file is one of this name.
    ghost opens: { Self → List ℕ → Self.Reader → Type 0 };

    /// Opens a file for reading. It changes no file.
    fn open(&self, name: &str) -> io::Result<Self::Reader>
        ensures { IfOk result (λ file. opens self.now name.now file) };

    /// Opens a file once more, from its front; `None` if it is none, as a pipe, or can't be opened. It changes no file.
    fn open_again(&self, name: &str) -> Option<Self::Reader>;

    /// Returns what is at a name. It changes no file.
    fn spot(&self, name: &str) -> Spot;

    /// Begins a new file for this name, which has nothing yet. Nothing changes at any name.
    fn begin(&mut self, alloc: Global, name: &str) -> Result<Self::Writer, BeginFault>
        ensures keeps { Keeps (stands self.old) (stands self.new) }
        ensures empty { IfOk result (λ file. IsEmpty (holds file)) };

    /// Moves a new file to this name. True if it is there; if it isn't, nothing has changed at any name.
    fn place(&mut self, file: Self::Writer, name: &str) -> bool
        ensures { Places (stands self.old) (stands self.new) name.now (holds file) result };

    /// Gives a new file up. Nothing changes at any name.
    fn discard(&mut self, file: Self::Writer)
        ensures { Keeps (stands self.old) (stands self.new) };
}
