//! Words between bars, what they ask for, and the files, the port and the workers in them.
use crate::readers::done;
use adx_units::{OutOfMemory, Text};
use command_words::{
    COMMANDS, Command, NetworkCommand, Topic, command_of, network_command_of, paths_of,
};
use std::alloc::Global;
use std::fmt::Write;

/// The words that are between bars.
fn words_of(alloc: Global, spelled: &str) -> Result<Vec<Text>, OutOfMemory> {
    let mut words = Vec::new(alloc);
    for word in spelled.split('|') {
        words.push(Text::of(alloc, word)?)?;
    }
    Ok(words)
}

/// A file, or a dash.
fn file_of(file: &Option<Text>) -> &str {
    match file {
        Some(text) => text.as_str(),
        None => "-",
    }
}

/// A command's word, or a dash for the whole program.
fn word_of(topic: Topic) -> &'static str {
    match topic {
        Topic::Program => "-",
        Topic::Command { place } => match COMMANDS.get(place) {
            Some(row) => row.0,
            None => "no command",
        },
    }
}

/// Adds what a command asks for.
fn push_command(out: &mut String, command: &Command) -> Result<(), OutOfMemory> {
    done(match command {
        Command::Day { journal } => write!(out, "day {}", file_of(journal)),
        Command::Connection { journal } => write!(out, "conn {}", file_of(journal)),
        Command::Notices { journal } => write!(out, "notices {}", journal.as_str()),
        Command::Bidder => write!(out, "bidder"),
        Command::Close { journal, ratio } => write!(
            out,
            "{} {}",
            if *ratio { "ratio" } else { "close" },
            journal.as_str()
        ),
        Command::Generate { seed, asks } => write!(out, "gen {seed} {asks}"),
        Command::Check => write!(out, "check"),
        Command::ArchivePut { archive } => write!(out, "put {}", archive.as_str()),
        Command::ArchiveList {
            archive,
            seat,
            cid,
            first,
            last,
        } => write!(
            out,
            "list {} {} {} {} {}",
            archive.as_str(),
            seat.as_str(),
            cid.as_str(),
            first.as_str(),
            last.as_str()
        ),
        Command::Reconcile { journal, bidder } => {
            write!(out, "reconcile {} {}", journal.as_str(), bidder.as_str())
        }
        Command::Help(topic) => write!(out, "help {}", word_of(*topic)),
        Command::Version => write!(out, "version"),
    })
}

/// Adds what words ask for.
pub(crate) fn push_words(out: &mut String, alloc: Global, text: &str) -> Result<(), OutOfMemory> {
    let words = words_of(alloc, text)?;
    match command_of(alloc, words.as_slice())? {
        Some(command) => push_command(out, &command),
        None => Ok(out.push_str("none")?),
    }
}

/// Adds what a command that talks over the network asks for.
fn push_network(out: &mut String, command: &NetworkCommand) -> Result<(), OutOfMemory> {
    done(match command {
        NetworkCommand::Serve {
            roster,
            journal,
            port,
            workers,
        } => write!(
            out,
            "serve {} {} {port} {workers}",
            roster.as_str(),
            journal.as_str()
        ),
        NetworkCommand::Post { roster, journal } => {
            write!(out, "post {} {}", roster.as_str(), journal.as_str())
        }
        NetworkCommand::Bid { prices, port } => write!(out, "bid {} {port}", prices.as_str()),
    })
}

/// Adds what words ask for of these commands.
pub(crate) fn push_network_words(
    out: &mut String,
    alloc: Global,
    text: &str,
) -> Result<(), OutOfMemory> {
    let words = words_of(alloc, text)?;
    match network_command_of(alloc, words.as_slice())? {
        Some(command) => push_network(out, &command),
        None => Ok(out.push_str("none")?),
    }
}

/// Adds the files of roster, journal, archive and prices, the port and the workers of words.
pub(crate) fn push_paths(out: &mut String, alloc: Global, text: &str) -> Result<(), OutOfMemory> {
    let words = words_of(alloc, text)?;
    let paths = paths_of(alloc, words.as_slice())?;
    done(write!(
        out,
        "{} {} {} {} {:?} {:?}",
        file_of(&paths.roster),
        file_of(&paths.journal),
        file_of(&paths.archive),
        file_of(&paths.prices),
        paths.port,
        paths.workers
    ))
}
