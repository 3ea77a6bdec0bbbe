//! A folder for tests, which follows a script.

use crate::folder::{BeginFault, Folder, Spot};
use std::alloc::Global;
use std::io;
use std::io::ErrorKind;
use wl_device::{ScriptedReader, ScriptedWriter, Then};

/// A folder with at most one file, whose steps can be made to fail.
#[derive(Drop)]
pub struct ScriptedFolder<'a> {
    /// The name of the file.
    pub name: &'a str,
    /// What it holds; `None` if there is none.
    pub held: Option<Vec<u8>>,
    /// What reading it gives.
    pub text: &'a [u8],
    /// A file can be opened.
    pub opens: bool,
    /// A new file can be begun, and takes this many bytes.
    pub room: Option<usize>,
    /// A new file can be moved to its name.
    pub places: bool,
}

impl<'a> Folder for ScriptedFolder<'a> {
    ghost use Rattle.std.specs.Prelude.{◌≡◌, option_map};
    ghost use Rattle.wl_files.specs.Files.{file};
    ghost use Rattle.wl_files.specs.Scripts.{standing_at};

    type Reader = ScriptedReader<'a>;

    type Writer = ScriptedWriter;

    ghost stands = { λ s name. standing_at s.name.now (option_map (λ v. v.items) s.held) name };

    ghost holds = { λ w. file w.written.items };

    ghost opens = { λ s name r. r.text.now ≡ s.text.now };

    fn open(&self, _name: &str) -> io::Result<ScriptedReader<'a>> {
        if !self.opens {
            return Err(io::Error::from(ErrorKind::NotFound));
        }
        Ok(ScriptedReader {
            text: self.text,
            step: 7,
            then: Then::End,
        })
    }

    fn open_again(&self, name: &str) -> Option<ScriptedReader<'a>> {
        self.open(name).ok()
    }

    fn spot(&self, _name: &str) -> Spot {
        if self.opens { Spot::Other } else { Spot::Empty }
    }

    fn begin(&mut self, alloc: Global, _name: &str) -> Result<ScriptedWriter, BeginFault> {
        match self.room {
            Some(room) => Ok(ScriptedWriter {
                written: Vec::new(alloc),
                room,
                step: 5,
                then: Then::Failed,
            }),
            None => Err(BeginFault::Refused),
        }
    }

    fn place(&mut self, file: ScriptedWriter, name: &str) -> bool {
        if !self.places || name != self.name {
            return false;
        }
        self.held = Some(file.written);
        true
    }

    fn discard(&mut self, _file: ScriptedWriter) {}
}
