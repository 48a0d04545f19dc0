//! The file of a journal, whose faults are said while the run goes on.
ghost use Rattle.std.specs.Prelude.{◌≡◌};

use crate::reports::{Kind, Reports};
use noted_streams::{Noting, Told};
use std::fs::{File, Metadata, OpenFile};
use std::io;
use std::os::unix::fs::FileExt;

/// The file of a journal. What the system says of a call that failed is kept, and said.
#[derive(Drop)]
pub(crate) struct WatchedFile<'a, 'b> {
    file: Noting<'b, File>,
    path: &'a str,
    reports: &'a Reports<'a>,
}

impl<'a, 'b> WatchedFile<'a, 'b> {
    /// A file with its path, whose errors are kept in `told`.
    pub(crate) fn new(
        file: File,
        told: &'b Told,
        path: &'a str,
        reports: &'a Reports<'a>,
    ) -> WatchedFile<'a, 'b> {
        WatchedFile {
            file: Noting::new(file, told),
            path,
            reports,
        }
    }

    /// Says the error of an answer, and hands the answer on.
    fn said<T>(&self, answer: io::Result<T>) -> io::Result<T>
        ensures { result ≡ answer }
    {
        if let Err(error) = &answer {
            let path = self.path;
            self.reports.say(
                Kind::Journal,
                "calls of the journal's file that failed",
                format_args!("{path}: {error}"),
            );
        }
        answer
    }
}

impl<'a, 'b> OpenFile for WatchedFile<'a, 'b> {
    fn metadata(&self) -> io::Result<Metadata> {
        self.said(self.file.metadata())
    }

    fn set_len(&self, size: u64) -> io::Result<()> {
        self.said(self.file.set_len(size))
    }

    fn sync_all(&self) -> io::Result<()> {
        self.said(self.file.sync_all())
    }

    fn sync_data(&self) -> io::Result<()> {
        self.said(self.file.sync_data())
    }
}

impl<'a, 'b> FileExt for WatchedFile<'a, 'b> {
    fn read_at(&self, buf: &mut [u8], offset: u64) -> io::Result<usize> {
        self.said(self.file.read_at(buf, offset))
    }

    fn write_at(&self, buf: &[u8], offset: u64) -> io::Result<usize> {
        self.said(self.file.write_at(buf, offset))
    }
}
