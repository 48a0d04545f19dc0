//! What the system said of a stream or a file when it failed.
ghost use Rattle.std.specs.Prelude.{◌≡◌};

use crate::told::Told;
use std::fs::{File, Metadata, OpenFile};
use std::io;
use std::io::{Read, Write};
use std::os::unix::fs::FileExt;

/// A stream or a file, and where its errors are kept.
#[derive(Drop)]
pub struct Noting<'a, T> {
    outside: T,
    told: &'a Told,
}

impl<'a, T> Noting<'a, T> {
    /// Keeps the errors of `outside` in `told`.
    pub fn new(outside: T, told: &'a Told) -> Noting<'a, T> {
        Noting { outside, told }
    }
}

/// Keeps the error of an answer, and hands the answer on.
fn noted<T>(told: &Told, answer: io::Result<T>) -> io::Result<T>
    ensures { result ≡ answer }
{
    if let Err(error) = &answer {
        told.keep(error);
    }
    answer
}

impl<'a, R: Read> Read for Noting<'a, R> {
    ghost remaining = { λ n. R.remaining n.outside };

    fn read(&mut self, buf: &mut [u8]) -> io::Result<usize> {
        noted(self.told, self.outside.read(buf))
    }
}

impl<'a, W: Write> Write for Noting<'a, W> {
    ghost contents = { λ n. W.contents n.outside };

    fn write(&mut self, buf: &[u8]) -> io::Result<usize> {
        noted(self.told, self.outside.write(buf))
    }

    fn flush(&mut self) -> io::Result<()> {
        noted(self.told, self.outside.flush())
    }
}

impl<'a> OpenFile for Noting<'a, File> {
    fn metadata(&self) -> io::Result<Metadata> {
        noted(self.told, self.outside.metadata())
    }

    fn set_len(&self, size: u64) -> io::Result<()> {
        noted(self.told, self.outside.set_len(size))
    }

    fn sync_all(&self) -> io::Result<()> {
        noted(self.told, self.outside.sync_all())
    }

    fn sync_data(&self) -> io::Result<()> {
        noted(self.told, self.outside.sync_data())
    }
}

impl<'a> FileExt for Noting<'a, File> {
    fn read_at(&self, buf: &mut [u8], offset: u64) -> io::Result<usize> {
        noted(self.told, self.outside.read_at(buf, offset))
    }

    fn write_at(&self, buf: &[u8], offset: u64) -> io::Result<usize> {
        noted(self.told, self.outside.write_at(buf, offset))
    }
}
