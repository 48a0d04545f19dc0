//! An exchange for OpenRTB 2.6 that serves a day of first-price auctions.
//!
//! The call `adx` of the crate `adx_commands` does what the program does between its standard streams, from the words of its
//! command line and the bytes of a source to those of a sink, and `adx_serve` of `adx_commands` what it does over the
//! network; their contracts are the program's. This crate opens what the words name: the file of a journal, of a roster or of
//! a price line, a port over `bounded_network`, so that no peer keeps it waiting, or by `sql_archive` the file of an archive of
//! closed days. It says on standard error what failed; for that it reads a sample of the bidders' answers by `adx_http`,
//! `adx_json` and `rtb_response`.
#![tactic(auto)]

mod archive;
mod bidder_watch;
mod bidding;
mod calls;
mod clock;
mod documents;
mod journal_file;
mod journal_watch;
mod judging;
mod limits;
mod lines;
mod messages;
mod posting;
mod reports;
mod run;
mod serving;
mod streams;
mod watched_acceptor;
mod watched_link;

use crate::messages::say_memory;
use crate::run::{run, run_no_text};
use crate::streams::fill_the_streams;
use adx_commands::OUT_OF_MEMORY;
use adx_units::Text;
use std::io;
use std::io::ErrorKind;
use std::process::ExitCode;

/// The words after the program's name.
fn words_of(rt: &HostRuntime) -> io::Result<Vec<Text>> {
    let mut words = Vec::new(rt.alloc());
    for word in std::env::args(rt)?.skip(1) {
        words.push(Text::from(word))?;
    }
    Ok(words)
}

fn main(rt: HostRuntime) -> ExitCode {
    fill_the_streams(&rt);
    let status = match words_of(&rt) {
        Ok(words) => run(&rt, &rt, words.as_slice()),
        Err(error) if error.kind() == ErrorKind::OutOfMemory => {
            say_memory(&rt);
            OUT_OF_MEMORY
        }
        // A word that isn't UTF-8 is no command's.
        Err(_) => run_no_text(&rt),
    };
    ExitCode::from(status)
}
