//! The files of a program: opened, written, and replaced as a whole.

use std::alloc::Global;
use std::fs::{OpenFile, OpenOptions, Permissions};
use std::io::{Read, Write};
use std::{fs, io};

/// Where a program finds its files. A test stands in for it.
pub trait Files {
    /// What a file is read by.
    type Reader: Read + Drop;

    /// Opens the file at a path, to read it.
    fn open(&self, path: &str) -> io::Result<Self::Reader>;

    /// Writes a text to the file at a path, which is made if there is none. If that fails, a part of the text may have been written,
    /// unless it is a regular file that was there: it is replaced as by `replace`.
    fn write(&self, path: &str, text: &str) -> io::Result<()>;

    /// Replaces the text of a file that is there. It keeps its permissions; at the end of a symbolic link it is the file that the link
    /// names. If that fails, the file is as it was, and no other file is left behind.
    fn replace(&self, path: &str, text: &str) -> io::Result<()>;
}

/// The files of the system.
#[derive_where(Clone, Copy)]
pub struct Disk<'r, R> {
    /// The runtime.
    pub runtime: &'r R,
}

/// How many names are tried for the new file beside the old one.
const NAMES: u32 = 1000;

/// A new file, and its path.
#[derive(Drop)]
struct NewFile<F: Drop> {
    path: String,
    file: F,
}

/// Makes a file beside the one at this path, under a name that no file has there.
fn create_beside<R: fs::Files>(
    runtime: &R,
    alloc: Global,
    path: &str,
) -> io::Result<NewFile<R::File>> {
    for number in 0..NAMES {
        let beside = format!(in alloc; "{path}.new-{number}")?;
        match OpenOptions::new()
            .write(true)
            .create_new(true)
            .open(runtime, beside.as_str())
        {
            Ok(file) => return Ok(NewFile { path: beside, file }),
            Err(error) if error.kind() == io::ErrorKind::AlreadyExists => {}
            Err(error) => return Err(error),
        }
    }
    Err(io::Error::from(io::ErrorKind::AlreadyExists))
}

/// Fills a new file, which gets these permissions, and waits until the system has stored it.
fn fill<F: Write + OpenFile>(file: &mut F, permissions: Permissions, text: &str) -> io::Result<()> {
    file.write_all(text.as_bytes())?;
    file.set_permissions(permissions)?;
    file.sync_all()
}

/// Fills a new file, and gives it the name of the old one.
fn put_in_place<R: fs::Files>(
    runtime: &R,
    new: &mut NewFile<R::File>,
    path: &str,
    permissions: Permissions,
    text: &str,
) -> io::Result<()> {
    fill(&mut new.file, permissions, text)?;
    fs::rename(runtime, new.path.as_str(), path)
}

impl<R: fs::Files + AllocGlobal> Disk<'_, R> {
    /// Replaces the text of the file at a path that is no symbolic link.
    fn replace_file(&self, path: &str, text: &str) -> io::Result<()> {
        // whoever may not write to the file may not replace it
        let _old = OpenOptions::new().write(true).open(self.runtime, path)?;
        let permissions = fs::metadata(self.runtime, path)?.permissions();
        let mut new = create_beside(self.runtime, self.runtime.alloc(), path)?;
        let done = put_in_place(self.runtime, &mut new, path, permissions, text);
        if done.is_err() {
            let _ = fs::remove_file(self.runtime, new.path.as_str());
        }
        done
    }
}

impl<R: fs::Files + AllocGlobal> Files for Disk<'_, R> {
    type Reader = R::File;

    fn open(&self, path: &str) -> io::Result<R::File> {
        fs::open(self.runtime, path)
    }

    fn write(&self, path: &str, text: &str) -> io::Result<()> {
        match fs::metadata(self.runtime, path) {
            Ok(found) if found.is_file() => self.replace(path, text),
            _ => fs::write(self.runtime, path, text),
        }
    }

    fn replace(&self, path: &str, text: &str) -> io::Result<()> {
        let target = fs::canonicalize(self.runtime, path)?;
        self.replace_file(target.as_str(), text)
    }
}
