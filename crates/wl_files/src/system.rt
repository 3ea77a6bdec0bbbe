//! The files of the system.
ghost use Rattle.std.specs.Prelude.{◌≡◌, IfOk};

use crate::folder::{BeginFault, Folder, Spot};
use std::alloc::Global;
use std::fs::{File, Metadata, OpenFile, OpenOptions};
use std::io::ErrorKind;
use std::rt::Files;
use std::{fs, io};
use wl_device::{Got, Host, Put, Sink, Source};

/// How many names are tried for a new file.
const MOST_NAMES: u32 = 1000;

/// How many links in a row are followed at most.
const MOST_LINKS: u32 = 40;

/// The folder in which the system keeps the files that a process has open, by their descriptors (Linux, proc(5)).
const PROCESSES: &str = "/proc/";

/// The files of the system, by their paths. A path is relative to the working folder, or begins with `/`.
#[derive(Drop)]
pub struct SystemFolder<'a, R: Files> {
    files: &'a R,
}

impl<'a, R: Files> SystemFolder<'a, R> {
    /// Returns the files that this runtime reaches.
    pub fn new(files: &'a R) -> SystemFolder<'a, R> {
        SystemFolder { files }
    }
}

/// Where a new file is, and where it goes.
#[derive(Drop)]
struct Move {
    from: String,
    to: String,
}

/// A file of the system that is written: a new one, or a device.
#[derive(Drop)]
pub struct SystemFile<F: Drop> {
    file: Host<F>,
    /// Of a device `None`: what was written is there already.
    after: Option<Move>,
}

impl<F: io::Write + Drop> Sink for SystemFile<F> {
    ghost use Rattle.wl_device.specs.Devices.{WriteCall};

    ghost takes = { λ s a t. WriteCall (F.contents s.file.device) a (F.contents t.file.device) };

    fn write(&mut self, piece: &[u8]) -> Put {
        self.file.write(piece)
    }
}

/// Returns an open file whose descriptor is above those of the standard streams. These may be closed, and a file in the place of one of
/// them would get what is written to it.
fn apart<F: OpenFile + Drop>(file: F) -> io::Result<F> {
    file.try_clone()
}

/// Returns what a path of an existing file is when its links are followed.
fn followed<R: Files>(files: &R, alloc: Global, name: &str) -> Result<String, BeginFault> {
    match files.symlink_metadata(name) {
        Ok(found) if found.is_symlink() => match files.canonicalize(alloc, name) {
            Ok(path) => Ok(path.into_string()),
            Err(error) => Err(fault_of(&error)),
        },
        Ok(_) => own(alloc, name),
        Err(error) => Err(fault_of(&error)),
    }
}

/// True if a path is that of an open descriptor, as `/proc/self/fd/1`. The folder of these can be resolved.
fn is_descriptor<R: Files>(files: &R, alloc: Global, path: &str) -> Result<bool, BeginFault> {
    let folder = match folder_of(path) {
        "" => ".",
        folder => folder,
    };
    match files.canonicalize(alloc, folder) {
        Ok(folder) => Ok(folder.into_string().as_str().starts_with(PROCESSES)),
        Err(error) if error.kind() == ErrorKind::OutOfMemory => Err(BeginFault::Memory),
        Err(_) => Ok(false),
    }
}

/// Returns the path to which a link leads by one step; `None` if there is no link.
fn next_path<R: Files>(files: &R, alloc: Global, link: &str) -> Result<Option<String>, BeginFault> {
    let target = match files.read_link(alloc, link) {
        Ok(target) => target.into_string(),
        Err(error) if error.kind() == ErrorKind::OutOfMemory => return Err(BeginFault::Memory),
        Err(_) => return Ok(None),
    };
    if target.as_str().starts_with("/") {
        return Ok(Some(target));
    }
    match format!(in alloc; "{}{target}", folder_of(link)) {
        Ok(path) => Ok(Some(path)),
        Err(_) => Err(BeginFault::Memory),
    }
}

/// Refuses a name that leads to an open descriptor, as `/dev/stdout` does. A file there is written on from a place of its own, by others too:
/// a new file in its place would take away what they write.
fn refuse_descriptor<R: Files>(files: &R, alloc: Global, name: &str) -> Result<(), BeginFault> {
    let mut path = own(alloc, name)?;
    for _ in 0..MOST_LINKS {
        if is_descriptor(files, alloc, path.as_str())? {
            return Err(BeginFault::Refused);
        }
        match next_path(files, alloc, path.as_str())? {
            Some(next) => path = next,
            None => return Ok(()),
        }
    }
    Err(BeginFault::Refused)
}

/// Returns the path of a file that isn't there; a link that leads to none is refused.
fn unused<R: Files>(files: &R, alloc: Global, name: &str) -> Result<String, BeginFault> {
    match files.symlink_metadata(name) {
        Ok(_) => Err(BeginFault::Refused),
        Err(error) if error.kind() == ErrorKind::NotFound => own(alloc, name),
        Err(error) => Err(fault_of(&error)),
    }
}

fn own(alloc: Global, name: &str) -> Result<String, BeginFault> {
    match String::from_str(alloc, name) {
        Ok(name) => Ok(name),
        Err(_) => Err(BeginFault::Memory),
    }
}

fn fault_of(error: &io::Error) -> BeginFault {
    if error.kind() == ErrorKind::OutOfMemory {
        BeginFault::Memory
    } else {
        BeginFault::Refused
    }
}

/// Returns the part of a path up to its last `/`, with it; nothing if it has none.
fn folder_of(path: &str) -> &str {
    match path.rsplit_once('/') {
        Some((folder, _)) => path.get(..folder.len() + 1).unwrap_or(""),
        None => "",
    }
}

/// Returns a name for a new file in the folder of a path.
fn fresh_name(alloc: Global, path: &str, number: u32) -> Result<String, BeginFault> {
    let folder = folder_of(path);
    match format!(in alloc; "{folder}.wireline-{number}.new") {
        Ok(name) => Ok(name),
        Err(_) => Err(BeginFault::Memory),
    }
}

/// Returns a new file of a name that there wasn't, opened for writing.
fn make<R: Files>(files: &R, name: &str) -> io::Result<R::File> {
    let mut how = OpenOptions::new();
    how.write(true).create_new(true);
    how.open(files, name)
}

/// Returns a new file in the folder of a path, and its name.
fn make_beside<R: Files>(
    files: &R,
    alloc: Global,
    path: &str,
) -> Result<(R::File, String), BeginFault> {
    for number in 0..MOST_NAMES {
        let name = fresh_name(alloc, path, number)?;
        match make(files, name.as_str()) {
            Ok(file) => return Ok((file, name)),
            Err(error) => {
                if error.kind() != ErrorKind::AlreadyExists {
                    return Err(fault_of(&error));
                }
            }
        }
    }
    Err(BeginFault::Refused)
}

/// Opens what is there for writing, and changes nothing of it.
fn open_old<R: Files>(files: &R, name: &str) -> Result<R::File, BeginFault> {
    let mut how = OpenOptions::new();
    how.write(true);
    match how.open(files, name) {
        Ok(file) => Ok(file),
        Err(error) => Err(fault_of(&error)),
    }
}

/// Returns a new file beside a path, which goes there. It has the rights of the file that is there, and is refused if that can't be
/// written.
fn begin_beside<R: Files>(
    files: &R,
    alloc: Global,
    to: String,
    old: Option<Metadata>,
) -> Result<SystemFile<R::File>, BeginFault> {
    if old.is_some() {
        let _old = open_old(files, to.as_str())?;
    }
    let (made, from) = make_beside(files, alloc, to.as_str())?;
    let ready = match old {
        Some(old) => made.set_permissions(old.permissions()),
        None => Ok(()),
    };
    match ready.and_then(|()| apart(made)) {
        Ok(file) => Ok(SystemFile {
            file: Host::new(file),
            after: Some(Move { from, to }),
        }),
        Err(error) => {
            let _ = files.remove_file(from.as_str());
            Err(fault_of(&error))
        }
    }
}

/// Returns a device, as a pipe, opened for writing.
fn begin_device<R: Files>(files: &R, name: &str) -> Result<SystemFile<R::File>, BeginFault> {
    let opened = open_old(files, name)?;
    match apart(opened) {
        Ok(file) => Ok(SystemFile {
            file: Host::new(file),
            after: None,
        }),
        Err(error) => Err(fault_of(&error)),
    }
}

impl<'a, R: Files> Folder for SystemFolder<'a, R> {
    ghost use Rattle.wl_files.specs.Files.{unknown};

    type Reader = Host<R::File>;

    type Writer = SystemFile<R::File>;

    ghost stands = { λ _ _. unknown };

    ghost holds = { λ _. unknown };

    ghost opens = { λ _ _ _. Unit {0} };

    fn open(&self, name: &str) -> io::Result<Host<R::File>> {
        let file = fs::open(self.files, name)?;
        Ok(Host::new(apart(file)?))
    }

    fn open_again(&self, name: &str) -> Option<Host<R::File>> {
        match self.files.metadata(name) {
            Ok(found) if found.is_file() => self.open(name).ok(),
            _ => None,
        }
    }

    fn spot(&self, name: &str) -> Spot {
        match self.files.metadata(name) {
            Ok(found) if found.is_dir() => Spot::Folder,
            Ok(_) => Spot::Other,
            Err(error) if error.kind() == ErrorKind::NotFound => Spot::Empty,
            Err(_) => Spot::Other,
        }
    }

    fn begin(&mut self, alloc: Global, name: &str) -> Result<SystemFile<R::File>, BeginFault> {
        match self.files.metadata(name) {
            Ok(found) if !found.is_file() => begin_device(self.files, name),
            Ok(found) => {
                refuse_descriptor(self.files, alloc, name)?;
                let path = followed(self.files, alloc, name)?;
                begin_beside(self.files, alloc, path, Some(found))
            }
            Err(error) if error.kind() == ErrorKind::NotFound => {
                let path = unused(self.files, alloc, name)?;
                begin_beside(self.files, alloc, path, None)
            }
            Err(error) => Err(fault_of(&error)),
        }
    }

    fn place(&mut self, file: SystemFile<R::File>, _name: &str) -> bool {
        let SystemFile { file, after } = file;
        let Some(after) = after else { return true };
        let whole = file.device.sync_all().is_ok()
            && fs::rename(self.files, after.from.as_str(), after.to.as_str()).is_ok();
        if !whole {
            let _ = self.files.remove_file(after.from.as_str());
        }
        whole
    }

    fn discard(&mut self, file: SystemFile<R::File>) {
        let SystemFile { file: _file, after } = file;
        if let Some(after) = after {
            let _ = self.files.remove_file(after.from.as_str());
        }
    }
}
