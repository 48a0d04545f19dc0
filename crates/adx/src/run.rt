//! Runs the words of a command line: between the standard streams, on the disk that they ask for, or over the network.
use crate::archive::run_with_archive;
use crate::bidding::run_bid;
use crate::journal_file::{FileFault, open_journal};
use crate::messages::{Heard, say, say_memory, say_no_text, say_not_opened};
use crate::posting::run_post;
use crate::serving::{Serving, run_serve};
use adx_commands::{
    DISK_FAULT, Kept, NO_COMMAND, OUT_OF_MEMORY, adx, adx_in_memory, kept_by_words,
};
use adx_io::{StdSink, StdSource};
use adx_units::Text;
use command_words::{Paths, paths_of};
use day_archive::{Keeper, MemoryKeeper};
use day_journal::FileDisk;
use noted_streams::Noting;
use sql_archive::Opening;
use std::fs::File;
use std::io::ErrorKind;
use std::marker::Sync;
use std::sync::Wait;
use std::thread::Threads;

/// What is said in place of the name of a journal that has no file.
const NO_FILE: &str = "the journal in memory";

/// Runs the command between the standard streams, with its journal in memory and over this keeper of closed days.
pub(crate) fn run_over<P: Keeper>(
    rt: &HostRuntime,
    words: &[Text],
    heard: &Heard,
    keeper: &mut P,
) -> u8 {
    let mut source = StdSource::new(Noting::new(rt.stdin(), &heard.input));
    let mut sink = StdSink::new(Noting::new(rt.stdout(), &heard.output));
    adx_in_memory(rt.alloc(), words, &mut source, &mut sink, keeper)
}

/// Runs the command in memory alone.
fn run_in_memory(rt: &HostRuntime, words: &[Text], heard: &Heard) -> u8 {
    let Ok(mut keeper) = MemoryKeeper::new(rt.alloc(), &[]) else {
        return OUT_OF_MEMORY;
    };
    run_over(rt, words, heard, &mut keeper)
}

/// Runs the command on the file of a journal, where no closed days are kept.
fn run_on_disk(rt: &HostRuntime, words: &[Text], heard: &Heard, file: File) -> u8 {
    let mut source = StdSource::new(Noting::new(rt.stdin(), &heard.input));
    let mut sink = StdSink::new(Noting::new(rt.stdout(), &heard.output));
    let mut disk = FileDisk::new(Noting::new(file, &heard.file));
    let Ok(mut keeper) = MemoryKeeper::new(rt.alloc(), &[]) else {
        return OUT_OF_MEMORY;
    };
    adx(
        rt.alloc(),
        words,
        &mut source,
        &mut sink,
        &mut disk,
        &mut keeper,
    )
}

/// Runs the command on the file of a journal, and says how it ended.
fn run_on_file(rt: &HostRuntime, words: &[Text], path: &str, file: File) -> u8 {
    let heard = Heard::new();
    let status = run_on_disk(rt, words, &heard, file);
    say(rt, words, path, &heard, status);
    status
}

/// The status where the file of a journal wasn't opened.
pub(crate) fn status_of_fault(fault: &FileFault) -> u8 {
    match fault {
        FileFault::System(error) if error.kind() == ErrorKind::OutOfMemory => OUT_OF_MEMORY,
        _ => DISK_FAULT,
    }
}

/// Opens the file of a journal, and runs the command on it.
fn run_with_journal(rt: &HostRuntime, words: &[Text], path: &str, make: bool) -> u8 {
    match open_journal(rt, path, make) {
        Ok(file) => run_on_file(rt, words, path, file),
        Err(fault) => {
            say_not_opened(rt, path, fault);
            status_of_fault(&fault)
        }
    }
}

/// Runs the words of a command that talks to none but the standard streams.
fn run_between(rt: &HostRuntime, words: &[Text]) -> u8 {
    match kept_by_words(rt.alloc(), words) {
        Ok(Kept::InMemory) => {
            let heard = Heard::new();
            let status = run_in_memory(rt, words, &heard);
            say(rt, words, NO_FILE, &heard, status);
            status
        }
        Ok(Kept::Archived(path)) => run_with_archive(rt, words, path.as_str(), Opening::Made),
        Ok(Kept::Listed(path)) => run_with_archive(rt, words, path.as_str(), Opening::Existing),
        Ok(Kept::Made(path)) => run_with_journal(rt, words, path.as_str(), true),
        Ok(Kept::Existing(path)) => run_with_journal(rt, words, path.as_str(), false),
        Err(_) => {
            say_memory(rt);
            OUT_OF_MEMORY
        }
    }
}

/// Runs the words whose options have these values.
fn run_by<W: Threads + Wait + Sync>(
    rt: &HostRuntime,
    waits: &W,
    words: &[Text],
    paths: &Paths,
) -> u8 {
    if let (Some(roster), Some(journal)) = (&paths.roster, &paths.journal) {
        if let (Some(port), Some(workers)) = (paths.port, paths.workers) {
            let asked = Serving {
                roster: roster.as_str(),
                journal: journal.as_str(),
                port,
                workers,
            };
            return run_serve(rt, waits, words, asked);
        }
        return run_post(rt, waits, words, roster.as_str(), journal.as_str());
    }
    if let (Some(prices), Some(port)) = (&paths.prices, &paths.port) {
        return run_bid(rt, waits, words, prices.as_str(), *port);
    }
    run_between(rt, words)
}

/// Runs the words after the program's name, and gives the exit status. At every status but 0 a line on
/// standard error says why.
pub(crate) fn run<W: Threads + Wait + Sync>(rt: &HostRuntime, waits: &W, words: &[Text]) -> u8 {
    match paths_of(rt.alloc(), words) {
        Ok(paths) => run_by(rt, waits, words, &paths),
        Err(_) => {
            say_memory(rt);
            OUT_OF_MEMORY
        }
    }
}

/// Runs where a word isn't a text: it is no command's.
pub(crate) fn run_no_text(rt: &HostRuntime) -> u8 {
    let heard = Heard::new();
    let status = run_in_memory(rt, &[], &heard);
    if status == NO_COMMAND {
        say_no_text(rt);
    } else {
        say(rt, &[], NO_FILE, &heard, status);
    }
    status
}
