//! Why the file of an archive isn't open.
use sqlite::{Error, ErrorCode};
use std::fmt::Display;
use std::{fmt, io};

/// Why the file of an archive wasn't opened.
#[derive(Drop)]
pub enum Unopened {
    /// Memory was refused.
    OutOfMemory,
    /// What has the name isn't a regular file.
    NotAFile,
    /// The system said so of a file that has to be there.
    System(io::Error),
    /// It can't be read or written, isn't a database, or is another process's.
    Refused(Error),
}

impl From<io::Error> for Unopened {
    fn from(error: io::Error) -> Unopened {
        Unopened::System(error)
    }
}

impl From<Error> for Unopened {
    fn from(error: Error) -> Unopened {
        match error {
            Error::SqliteFailure(ErrorCode::OutOfMemory) => Unopened::OutOfMemory,
            other => Unopened::Refused(other),
        }
    }
}

impl Display for Unopened {
    fn fmt<W: fmt::Write>(&self, f: &mut fmt::Formatter<W>) -> fmt::Result {
        match self {
            Unopened::OutOfMemory => f.write_str("out of memory"),
            Unopened::NotAFile => f.write_str("isn't a regular file"),
            Unopened::System(error) => Display::fmt(error, f),
            Unopened::Refused(error) => Display::fmt(error, f),
        }
    }
}
