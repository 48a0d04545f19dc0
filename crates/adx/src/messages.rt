//! What a run that failed says on standard error: one line.
use crate::lines::Lines;
use adx_commands::{
    DISK_FAULT, DONE, KEEPER_FAULT, NO_COMMAND, NO_HISTORY, NOT_ACCEPTED, NOT_KEPT, NotBegun,
    OUT_OF_MEMORY, PENDING, READ_FAULT, REFUSED, WRITE_FAULT,
};
use adx_units::Text;
use command_words::complaint_of;
use noted_streams::{Reason, Told};
use script_lines::{RosterRefusal, push_roster_why};
use std::fmt::Display;
use std::io::Eprint;

/// What the system said of standard input, standard output and the journal's file.
#[derive(Drop)]
pub(crate) struct Heard {
    pub(crate) input: Told,
    pub(crate) output: Told,
    pub(crate) file: Told,
}

impl Heard {
    /// Nothing so far.
    pub(crate) fn new() -> Heard {
        Heard {
            input: Told::new(),
            output: Told::new(),
            file: Told::new(),
        }
    }
}

/// Says what is wrong with the words.
fn say_of_words(rt: &HostRuntime, words: &[Text]) {
    match complaint_of(rt.alloc(), words) {
        Ok(complaint) => {
            let _ = eprintln!(Lines::of(rt); "adx: {}", complaint.as_str());
        }
        Err(_) => say_memory(rt),
    }
}

/// Says that memory was refused.
pub(crate) fn say_memory(rt: &HostRuntime) {
    let _ = eprintln!(Lines::of(rt); "adx: out of memory");
}

/// Says that a word isn't a text.
pub(crate) fn say_no_text(rt: &HostRuntime) {
    let _ = eprintln!(Lines::of(rt); "adx: a word of the command line isn't UTF-8");
}

/// Says why a file wasn't opened.
pub(crate) fn say_not_opened<T: Display + Drop>(rt: &HostRuntime, path: &str, fault: T) {
    let _ = eprintln!(Lines::of(rt); "adx: {path}: {fault}");
}

/// Says why the file of an archive wasn't closed.
pub(crate) fn say_not_closed<T: Display + Drop>(rt: &HostRuntime, path: &str, fault: T) {
    let _ = eprintln!(Lines::of(rt); "adx: {path}: not closed: {fault}");
}

/// Says why the first line of a document isn't what it is to be.
pub(crate) fn say_refused(rt: &HostRuntime, path: &str, what: &str, why: RosterRefusal) {
    let mut text = String::new(rt.alloc());
    if push_roster_why(&mut text, why).is_err() {
        say_memory(rt);
        return;
    }
    let why = text.as_str();
    let _ = eprintln!(Lines::of(rt); "adx: {path}: the first line isn't {what}: {why}");
}

/// Says why no connections are taken at a port.
pub(crate) fn say_not_bound<T: Display + Drop>(rt: &HostRuntime, port: u16, fault: T) {
    let _ = eprintln!(Lines::of(rt); "adx: port {port}: {fault}");
}

/// The files of a run over the network.
#[derive(Clone, Copy)]
pub(crate) struct Files<'a> {
    /// Its document.
    pub(crate) document: &'a str,
    /// What the document's first line is to be.
    pub(crate) first: &'a str,
    /// Its journal.
    pub(crate) journal: &'a str,
}

/// Says why a run over the network ended with a status other than 0; `why` is why it didn't begin, where the status alone doesn't
/// say that.
pub(crate) fn say_network<E: Eprint>(
    lines: &E,
    rt: &HostRuntime,
    words: &[Text],
    files: Files<'_>,
    heard: &Heard,
    status: u8,
    why: Option<NotBegun>,
) {
    let journal = files.journal;
    let written = match status {
        DONE => Ok(()),
        NO_COMMAND => {
            say_of_words(rt, words);
            Ok(())
        }
        REFUSED | NO_HISTORY => {
            say_not_begun(lines, rt, files, why);
            Ok(())
        }
        READ_FAULT => eprintln!(lines; "adx: no connection can be taken"),
        DISK_FAULT => eprintln!(lines; "adx: {journal}: {}", Reason(&heard.file)),
        PENDING => {
            eprintln!(lines;
                "adx: notices are pending: their hosts weren't reached, or answered with a status outside 200 to 299"
            )
        }
        OUT_OF_MEMORY => eprintln!(lines; "adx: out of memory"),
        _ => Ok(()),
    };
    let _ = written;
}

/// Says why a run over the network didn't begin.
fn say_not_begun<E: Eprint>(lines: &E, rt: &HostRuntime, files: Files<'_>, why: Option<NotBegun>) {
    let (document, journal) = (files.document, files.journal);
    let _ = match why {
        Some(NotBegun::Line { why }) => {
            say_refused(rt, document, files.first, why);
            Ok(())
        }
        Some(NotBegun::Journal { fault }) => eprintln!(lines; "adx: {journal}: {fault}"),
        // The lists of links don't fit: the status is REFUSED, and nothing else is known.
        None => eprintln!(lines; "adx: {document}: doesn't fit the number of workers"),
    };
}

/// Says why a run ended with a status other than 0. The journal or the archive is in the file with this path, or the journal
/// in memory.
pub(crate) fn say(rt: &HostRuntime, words: &[Text], path: &str, heard: &Heard, status: u8) {
    let lines = Lines::of(rt);
    let written = match status {
        DONE => Ok(()),
        NO_COMMAND => {
            say_of_words(rt, words);
            Ok(())
        }
        REFUSED => {
            eprintln!(lines;
                "adx: standard input: isn't of its form, or is too long (standard output says why)"
            )
        }
        READ_FAULT => eprintln!(lines; "adx: standard input: {}", Reason(&heard.input)),
        WRITE_FAULT => eprintln!(lines; "adx: standard output: {}", Reason(&heard.output)),
        DISK_FAULT => eprintln!(lines; "adx: {path}: {}", Reason(&heard.file)),
        NO_HISTORY => {
            eprintln!(lines;
                "adx: {path}: holds another roster's day, or isn't a journal (standard output says which)"
            )
        }
        NOT_ACCEPTED => {
            eprintln!(lines; "adx: the certificate isn't accepted (standard output says why)")
        }
        KEEPER_FAULT => eprintln!(lines; "adx: {path}: the archive can't be read or written"),
        NOT_KEPT => {
            eprintln!(lines;
                "adx: the day isn't kept, or the days aren't listed (standard output says why)"
            )
        }
        OUT_OF_MEMORY => eprintln!(lines; "adx: out of memory"),
        _ => Ok(()),
    };
    let _ = written;
}
