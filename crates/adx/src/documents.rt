//! Documents whose first line a command reads: a roster's, or a price line's.

use crate::messages::{say_memory, say_not_opened, say_refused};
use adx_commands::{OUT_OF_MEMORY, READ_FAULT, REFUSED};
use command_notices::first_roster;
use command_runs::LINE_LIMIT;
use deal_floor::Roster;
use script_lines::RosterLineFault;
use std::fs::File;
use std::io;
use std::io::{ErrorKind, Read};

/// A document, as far as a command looks at it: a first line that is longer than a line may be shows by one byte more.
fn document_of(rt: &HostRuntime, path: &str) -> io::Result<Vec<u8>> {
    let mut document = Vec::new(rt.alloc());
    let most = LINE_LIMIT as u64 + 1;
    File::open(rt, path)?.take(most).read_to_end(&mut document)?;
    Ok(document)
}

/// The status where a document isn't read, or a port isn't had.
pub(crate) fn status_of_error(error: &io::Error) -> u8 {
    if error.kind() == ErrorKind::OutOfMemory {
        OUT_OF_MEMORY
    } else {
        READ_FAULT
    }
}

/// The document in a file; the status where it can't be read, which is said.
pub(crate) fn read_document(rt: &HostRuntime, path: &str) -> Result<Vec<u8>, u8> {
    match document_of(rt, path) {
        Ok(document) => Ok(document),
        Err(error) => {
            say_not_opened(rt, path, error);
            Err(status_of_error(&error))
        }
    }
}

/// The document in a file with the roster that its first line is; the status where there is none, which is said.
pub(crate) fn roster_in(rt: &HostRuntime, path: &str) -> Result<(Vec<u8>, Roster), u8> {
    let document = read_document(rt, path)?;
    match first_roster(rt.alloc(), document.as_slice()) {
        Ok(roster) => Ok((document, roster)),
        Err(RosterLineFault::Refused { why }) => {
            say_refused(rt, path, "a roster", why);
            Err(REFUSED)
        }
        Err(RosterLineFault::OutOfMemory) => {
            say_memory(rt);
            Err(OUT_OF_MEMORY)
        }
    }
}
