//! The file of a journal: a regular file that one process holds at a time.
use std::fs::{File, OpenOptions, TryLockError};
use std::io::ErrorKind;
use std::os::fd::AsRawFd;
use std::{fmt, fs, io};

/// Why the file of a journal wasn't opened.
#[derive(Clone, Copy, Debug)]
pub(crate) enum FileFault {
    /// What has the name is a folder, a device or a pipe, or a link to one.
    NotAFile,
    /// Another process has the journal open.
    Locked,
    /// The system said so.
    System(io::Error),
}

impl From<io::Error> for FileFault {
    fn from(error: io::Error) -> FileFault {
        FileFault::System(error)
    }
}

impl fmt::Display for FileFault {
    fn fmt<W: fmt::Write>(&self, f: &mut fmt::Formatter<W>) -> fmt::Result {
        match self {
            FileFault::NotAFile => f.write_str("isn't a regular file"),
            FileFault::Locked => f.write_str("locked by another process"),
            FileFault::System(error) => fmt::Display::fmt(error, f),
        }
    }
}

/// The options of a journal's file: it is read and written.
fn options() -> OpenOptions {
    let mut options = OpenOptions::new();
    options.read(true).write(true);
    options
}

/// Opens a file that exists. What isn't a regular file, or a link to one, is refused before it is opened.
fn open_existing(rt: &HostRuntime, path: &str) -> Result<File, FileFault> {
    if !fs::metadata(rt, path)?.is_file() {
        return Err(FileFault::NotAFile);
    }
    let file = options().open(rt, path)?;
    if !file.metadata()?.is_file() {
        return Err(FileFault::NotAFile);
    }
    Ok(file)
}

/// Makes the file, or opens the one that has the name.
fn open_or_make(rt: &HostRuntime, path: &str) -> Result<File, FileFault> {
    match options().create_new(true).open(rt, path) {
        Ok(file) => Ok(file),
        Err(error) if error.kind() == ErrorKind::AlreadyExists => open_existing(rt, path),
        Err(error) => Err(FileFault::System(error)),
    }
}

/// The same file after the standard streams: where one of them is closed, a file may take its place, and what is
/// meant for the stream would land in the file.
fn off_the_streams(file: File) -> io::Result<File> {
    if file.as_raw_fd() > 2 {
        return Ok(file);
    }
    file.try_clone()
}

/// Locks the file for this process, until it ends. It doesn't wait.
fn lock(file: &File) -> Result<(), FileFault> {
    match file.try_lock() {
        Ok(()) => Ok(()),
        Err(TryLockError::WouldBlock) => Err(FileFault::Locked),
        Err(TryLockError::Error(error)) => Err(FileFault::System(error)),
    }
}

/// Syncs the folder in which the file has its name, so that the name outlives a loss of power.
fn sync_folder(rt: &HostRuntime, path: &str) -> io::Result<()> {
    let mut folder = fs::canonicalize(rt, path)?;
    folder.pop();
    File::open(rt, folder.as_str())?.sync_all()
}

/// Opens the file of a journal for this process alone, and makes it where `make` says so and there is none. It stays
/// locked until the process ends. An empty file is a new one, or one whose maker ended before it wrote: its folder is
/// synced before anything is written to it.
pub(crate) fn open_journal(rt: &HostRuntime, path: &str, make: bool) -> Result<File, FileFault> {
    let file = if make {
        open_or_make(rt, path)?
    } else {
        open_existing(rt, path)?
    };
    let file = off_the_streams(file)?;
    lock(&file)?;
    if file.metadata()?.len() == 0 {
        sync_folder(rt, path)?;
    }
    Ok(file)
}
