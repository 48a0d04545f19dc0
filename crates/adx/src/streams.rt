//! The standard streams of a program that goes on: a closed one is opened on /dev/null, and lines on standard error wait
//! for nobody.

use std::fs::{File, OpenOptions};
use std::io;
use std::io::Write;
use std::os::fd::{AsFd, AsRawFd, IntoRawFd, OwnedFd};
use std::os::unix::net::UnixStream;
use std::time::Duration;

/// Standard error, as the system's file of it.
const STANDARD_ERROR: &str = "/proc/self/fd/2";

/// What takes the place of a standard stream that is closed.
const NOTHING: &str = "/dev/null";

/// How long a line waits where standard error is a socket, in milliseconds.
const SOCKET_WAIT: u64 = 100;

/// Standard error, opened once more, so that its way of waiting is this file's alone.
fn opened_anew(rt: &HostRuntime) -> io::Result<File> {
    let mut options = OpenOptions::new();
    options.append(true);
    let file = options.open(rt, STANDARD_ERROR)?;
    let other = file.try_clone()?;
    UnixStream::from(OwnedFd::from(other)).set_nonblocking(true)?;
    Ok(file)
}

/// Standard error where it is a socket, which isn't opened a second time: its writes wait for a moment.
fn socket(rt: &HostRuntime) -> io::Result<UnixStream> {
    let error = rt.stderr();
    let stream = UnixStream::from(error.as_fd().try_clone_to_owned()?);
    stream.set_write_timeout(Some(Duration::from_millis(SOCKET_WAIT)))?;
    Ok(stream)
}

/// Standard error whose writes don't wait for its reader.
#[derive(Drop)]
pub(crate) enum Hasty {
    /// A file, a terminal or a pipe.
    File(File),
    /// A socket.
    Socket(UnixStream),
}

impl Hasty {
    /// Standard error; None where the system has no file or socket of it.
    pub(crate) fn error(rt: &HostRuntime) -> Option<Hasty> {
        match opened_anew(rt) {
            Ok(file) => Some(Hasty::File(file)),
            Err(_) => match socket(rt) {
                Ok(stream) => Some(Hasty::Socket(stream)),
                Err(_) => None,
            },
        }
    }

    /// Writes a line, or as much of it as is taken at once.
    pub(crate) fn put(&self, line: &[u8]) -> io::Result<()> {
        let _ = match self {
            Hasty::File(file) => (&*file).write(line)?,
            Hasty::Socket(stream) => (&*stream).write(line)?,
        };
        Ok(())
    }
}

/// Opens `/dev/null` in place of each standard stream that is closed, so that what is opened later doesn't get its number: to be
/// written in place of standard input and to be read in place of the others, so that whoever uses a closed stream still fails
/// (as gnulib's `stdopen` does it).
pub(crate) fn fill_the_streams(rt: &HostRuntime) {
    for _stream in 0..3u8 {
        let mut options = OpenOptions::new();
        options.write(true);
        let Ok(written) = options.open(rt, NOTHING) else {
            return;
        };
        if written.as_raw_fd() == 0 {
            let _ = written.into_raw_fd();
            continue;
        }
        // the number is another stream's, or none's
        drop(written);
        let Ok(read) = File::open(rt, NOTHING) else {
            return;
        };
        if read.as_raw_fd() > 2 {
            return;
        }
        let _ = read.into_raw_fd();
    }
}
