//! What no clause says. A folder does what it is asked if nothing fails. Of the system's files no clause knows anything: an old file stays
//! if any call fails, and nothing else is left.

use std::alloc::{AllocError, Allocator, Global};
use std::env::Env;
use std::fs::{Metadata, OpenFile, OpenOptions, Permissions};
use std::io::{ErrorKind, Read, Seek, SeekFrom, Write};
use std::path::PathBuf;
use std::process::Abort;
use std::rt::Files;
use std::sync::Arc;
use std::sync::atomic::{AtomicU32, Ordering};
use std::{fs, io};
use wl_device::{Ended, read_up_to, write_all};
use wl_files::{BeginFault, Folder, ScriptedFolder, SystemFolder};

#[test]
fn a_new_file_is_moved_to_its_name(rt: HostRuntime) {
    let mut folder = ScriptedFolder {
        name: "out",
        held: None,
        text: b"",
        opens: true,
        room: Some(9),
        places: true,
    };
    let made = folder.begin(rt.alloc(), "out");
    assert!(rt; made.is_ok());
    if let Ok(mut made) = made {
        assert!(rt; write_all(b"some text", &mut made).is_ok());
        assert!(rt; folder.place(made, "out"));
    }
}

/// Files with one call that fails: the one after this many others.
#[derive(Drop)]
struct Failing<R: Files + Drop> {
    files: R,
    left: Arc<AtomicU32, Global>,
}

/// An open file of these.
#[derive(Drop)]
struct FailingFile<F: Drop> {
    file: F,
    left: Arc<AtomicU32, Global>,
}

/// Counts a call, which fails if none is left before it.
fn count(left: &AtomicU32) -> io::Result<()> {
    if left.fetch_sub(1, Ordering::SeqCst) == 0 {
        Err(io::Error::from(ErrorKind::StorageFull))
    } else {
        Ok(())
    }
}

impl<F: Read + Drop> Read for FailingFile<F> {
    fn read(&mut self, buffer: &mut [u8]) -> io::Result<usize> {
        count(&self.left)?;
        self.file.read(buffer)
    }
}

impl<F: Write + Drop> Write for FailingFile<F> {
    fn write(&mut self, piece: &[u8]) -> io::Result<usize> {
        count(&self.left)?;
        let half = piece.len().div_ceil(2);
        self.file.write(&piece[..half])
    }

    fn flush(&mut self) -> io::Result<()> {
        self.file.flush()
    }
}

impl<F: Seek + Drop> Seek for FailingFile<F> {
    fn seek(&mut self, to: SeekFrom) -> io::Result<u64> {
        self.file.seek(to)
    }
}

impl<F: OpenFile + Drop> OpenFile for FailingFile<F> {
    fn metadata(&self) -> io::Result<Metadata> {
        self.file.metadata()
    }

    fn set_len(&self, size: u64) -> io::Result<()> {
        self.file.set_len(size)
    }

    fn sync_all(&self) -> io::Result<()> {
        count(&self.left)?;
        self.file.sync_all()
    }

    fn sync_data(&self) -> io::Result<()> {
        self.file.sync_data()
    }

    fn set_permissions(&self, perm: Permissions) -> io::Result<()> {
        count(&self.left)?;
        self.file.set_permissions(perm)
    }

    fn try_clone(&self) -> io::Result<FailingFile<F>> {
        count(&self.left)?;
        Ok(FailingFile {
            file: self.file.try_clone()?,
            left: Arc::try_clone(&self.left)?,
        })
    }
}

impl<R: Files + Drop> Files for Failing<R> {
    type File = FailingFile<R::File>;

    type Dir = R::Dir;

    fn open_file(&self, how: &OpenOptions, path: &str) -> io::Result<FailingFile<R::File>> {
        count(&self.left)?;
        Ok(FailingFile {
            file: self.files.open_file(how, path)?,
            left: Arc::try_clone(&self.left)?,
        })
    }

    fn open_dir(&self, path: &str) -> io::Result<R::Dir> {
        self.files.open_dir(path)
    }

    fn metadata(&self, path: &str) -> io::Result<Metadata> {
        count(&self.left)?;
        self.files.metadata(path)
    }

    fn symlink_metadata(&self, path: &str) -> io::Result<Metadata> {
        count(&self.left)?;
        self.files.symlink_metadata(path)
    }

    fn copy(&self, from: &str, to: &str) -> io::Result<u64> {
        self.files.copy(from, to)
    }

    fn rename(&self, from: &str, to: &str) -> io::Result<()> {
        count(&self.left)?;
        self.files.rename(from, to)
    }

    fn remove_file(&self, path: &str) -> io::Result<()> {
        self.files.remove_file(path)
    }

    fn create_dir(&self, path: &str) -> io::Result<()> {
        self.files.create_dir(path)
    }

    fn remove_dir(&self, path: &str) -> io::Result<()> {
        self.files.remove_dir(path)
    }

    fn remove_dir_all<B: Allocator>(&self, alloc: B, path: &str) -> io::Result<()> {
        self.files.remove_dir_all(alloc, path)
    }

    fn canonicalize<B: Allocator>(&self, alloc: B, path: &str) -> io::Result<PathBuf<B>> {
        count(&self.left)?;
        self.files.canonicalize(alloc, path)
    }
}

/// True if a folder put a new file with this text at a name.
fn put<F: Folder>(folder: &mut F, alloc: Global, name: &str, text: &[u8]) -> bool {
    let Ok(mut made) = folder.begin(alloc, name) else {
        return false;
    };
    if write_all(text, &mut made).is_ok() {
        folder.place(made, name)
    } else {
        folder.discard(made);
        false
    }
}

/// True if a folder gives all of this text when a file of this name is opened, and opened once more.
fn gives<F: Folder>(
    folder: &F,
    alloc: Global,
    name: &str,
    text: &[u8],
) -> Result<bool, AllocError> {
    let (Ok(mut first), Some(mut again)) = (folder.open(name), folder.open_again(name)) else {
        return Ok(false);
    };
    let (once, ended) = read_up_to(alloc, &mut first, 99)?;
    let (twice, _) = read_up_to(alloc, &mut again, 99)?;
    Ok(ended == Ended::End && once.as_slice() == text && twice.as_slice() == text)
}

/// Puts a text at a name at once.
fn fill<R: Files>(files: &R, name: &str, text: &[u8]) -> io::Result<()> {
    let mut file = fs::create(files, name)?;
    file.write_all(text)
}

/// Returns whether a run over the system's files, one call to which fails, put a new text at a name. The name has that text then, and else
/// what was there.
fn is_old_or_new<R: Files + Drop>(
    failing: &Failing<R>,
    system: &R,
    alloc: Global,
    name: &str,
) -> Result<(bool, bool), AllocError> {
    let done = put(&mut SystemFolder::new(failing), alloc, name, b"a new text");
    let text: &[u8] = if done {
        b"a new text"
    } else {
        b"what was there"
    };
    let holds = gives(&SystemFolder::new(system), alloc, name, text)?;
    Ok((done, holds))
}

/// Returns a folder of the system for one test.
fn room<R: Files + Env + AllocGlobal>(rt: &R) -> io::Result<String> {
    let folder = std::env::temp_dir(rt)?;
    for n in 0..1000 {
        let name = format!(in rt.alloc(); "{}/wl_files_{n}", folder.as_str())?;
        if fs::create_dir(rt, name.as_str()).is_ok() {
            return Ok(name);
        }
    }
    Err(io::Error::from(ErrorKind::AlreadyExists))
}

#[test]
fn an_old_file_stays_where_any_call_fails(rt: HostRuntime) -> io::Result<()> {
    let folder = room(&rt)?;
    let old = format!(in rt.alloc(); "{}/old", folder.as_str())?;
    let link = format!(in rt.alloc(); "{}/link", folder.as_str())?;
    rt.symlink("old", link.as_str())?;
    let mut done = 0u32;
    for before in 0..20 {
        for name in [old.as_str(), link.as_str()] {
            fill(&rt, old.as_str(), b"what was there")?;
            let failing = Failing {
                files: rt.clone()?,
                left: Arc::new(rt.alloc(), AtomicU32::new(before))?,
            };
            let (put, holds) = is_old_or_new(&failing, &rt, rt.alloc(), name)?;
            assert!(rt; holds, "call {before} of {name}");
            assert!(rt;
                rt.symlink_metadata(link.as_str())?.is_symlink(),
                "call {before} of {name}"
            );
            done = if put { done.saturating_add(1) } else { done };
        }
    }
    assert!(rt; 2 <= done && done <= 30, "{done} of 40 runs had no failure");
    fs::remove_file(&rt, old.as_str())?;
    fs::remove_file(&rt, link.as_str())?;
    // What else were in the folder would keep it there.
    fs::remove_dir(&rt, folder.as_str())
}

#[test]
fn what_cannot_be_used_is_refused(rt: HostRuntime) -> io::Result<()> {
    let folder = room(&rt)?;
    let inside = format!(in rt.alloc(); "{}/none/new", folder.as_str())?;
    let nowhere = format!(in rt.alloc(); "{}/nowhere", folder.as_str())?;
    rt.symlink("none", nowhere.as_str())?;
    let mut system = SystemFolder::new(&rt);
    for name in [folder.as_str(), inside.as_str(), nowhere.as_str()] {
        let refused = match system.begin(rt.alloc(), name) {
            Ok(_) => None,
            Err(fault) => Some(fault),
        };
        assert!(rt; refused == Some(BeginFault::Refused));
        assert!(rt; system.open_again(name).is_none());
    }
    assert!(rt; system.open(inside.as_str()).is_err());
    fs::remove_file(&rt, nowhere.as_str())?;
    fs::remove_dir(&rt, folder.as_str())
}
