//! A checker of certificates, for who audits a closed day and needs nothing of the exchange that served it.
//!
//! The program reads a document from standard input, a record with a certificate after it, and writes one line: the bound of
//! a certificate that is accepted, or why it isn't. The call `check_input` of `command_check` does all that it does, from the
//! bytes of a source to those of a sink and the exit status; its contract is the program's. Here are the standard streams
//! and what is said on standard error.
#![tactic(auto)]

mod messages;
mod status;

use crate::messages::{Heard, say, say_memory, say_words};
use crate::status::{NO_WORDS, OUT_OF_MEMORY};
use adx_io::{StdSink, StdSource};
use command_check::check_input;
use noted_streams::Noting;
use std::io;
use std::io::ErrorKind;
use std::process::ExitCode;

/// Whether words come after the program's name.
fn has_words(rt: &HostRuntime) -> io::Result<bool> {
    Ok(std::env::args(rt)?.nth(1).is_some())
}

/// Checks the document on standard input, and gives the exit status. At every status but 0 a line on standard error says
/// why.
fn run(rt: &HostRuntime) -> u8 {
    let heard = Heard::new();
    let mut source = StdSource::new(Noting::new(rt.stdin(), &heard.input));
    let mut sink = StdSink::new(Noting::new(rt.stdout(), &heard.output));
    let status = check_input(rt.alloc(), &mut source, &mut sink);
    say(rt, &heard, status);
    status
}

fn main(rt: HostRuntime) -> ExitCode {
    let status = match has_words(&rt) {
        Ok(false) => run(&rt),
        Err(error) if error.kind() == ErrorKind::OutOfMemory => {
            say_memory(&rt);
            OUT_OF_MEMORY
        }
        // A word that isn't UTF-8 is a word too.
        Ok(true) | Err(_) => {
            say_words(&rt);
            NO_WORDS
        }
    };
    ExitCode::from(status)
}
