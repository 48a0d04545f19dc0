//! The values of a command's options.
ghost use Rattle.std.specs.Prelude.{◌≡◌, IfOk, Option, Some};
ghost use Rattle.command_words.specs.Meanings.{IsPlain};
ghost use Rattle.command_words.specs.NetworkTaken.{IsNetworkReadingOf};
ghost use Rattle.command_words.specs.Network.{IsPlainNetwork};
ghost use Rattle.command_words.specs.Paths.{ArePathsOf, command_paths, network_paths, network_paths_of, no_paths as none_of_them};
ghost use Rattle.command_words.specs.declared.command.Command.{Command as Meaning};
ghost use Rattle.command_words.specs.declared.network.NetworkCommand.{NetworkCommand as NetworkMeaning};

use crate::command::Command;
use crate::network::NetworkCommand;
use crate::network_reading::network_command_of;
use crate::reading::command_of;
use adx_units::{OutOfMemory, Text};
use std::alloc::Global;

/// The values of the options by which a program finds what its command works on; None where the words don't have the
/// option, or aren't a command.
#[derive(Debug, Drop)]
pub struct Paths {
    /// The file of a roster.
    pub roster: Option<Text>,
    /// The file of a journal.
    pub journal: Option<Text>,
    /// The file of an archive of closed days.
    pub archive: Option<Text>,
    /// The file of a price line.
    pub prices: Option<Text>,
    /// The port of a listener.
    pub port: Option<u16>,
    /// How many workers serve connections.
    pub workers: Option<u32>,
}

/// No value.
fn no_paths() -> Paths
    ensures { result ≡ none_of_them }
{
    Paths {
        roster: None,
        journal: None,
        archive: None,
        prices: None,
        port: None,
        workers: None,
    }
}

/// The file of a journal alone, where there is one.
fn journal_at(journal: Option<Text>) -> Paths
    ensures { result ≡ record none_of_them { journal = journal } }
{
    let mut paths = no_paths();
    paths.journal = journal;
    paths
}

/// The file of an archive alone.
fn archive_at(archive: Text) -> Paths
    ensures { result ≡ record none_of_them { archive = Some archive } }
{
    let mut paths = no_paths();
    paths.archive = Some(archive);
    paths
}

/// The values of the options of a command.
fn paths_in(command: Command) -> Paths
    ensures { result ≡ command_paths command }
{
    match command {
        Command::Day { journal } => journal_at(journal),
        Command::Connection { journal } => journal_at(journal),
        Command::Notices { journal } => journal_at(Some(journal)),
        Command::Close { journal, .. } => journal_at(Some(journal)),
        Command::Reconcile { journal, .. } => journal_at(Some(journal)),
        Command::ArchivePut { archive } => archive_at(archive),
        Command::ArchiveList { archive, .. } => archive_at(archive),
        Command::Bidder
        | Command::Generate { .. }
        | Command::Check
        | Command::Help(_)
        | Command::Version => no_paths(),
    }
}

/// The values of the options of a command that talks over the network, none where there is no command.
fn network_paths_in(read: Option<NetworkCommand>) -> Paths
    ensures { result ≡ network_paths_of read }
{
    let mut paths = no_paths();
    match read {
        Some(
            NetworkCommand::Serve {
                roster,
                journal,
                port,
                workers,
            },
        ) => {
            paths.roster = Some(roster);
            paths.journal = Some(journal);
            paths.port = Some(port);
            paths.workers = Some(workers);
        }
        Some(NetworkCommand::Post { roster, journal }) => {
            paths.roster = Some(roster);
            paths.journal = Some(journal);
        }
        Some(NetworkCommand::Bid { prices, port }) => {
            paths.prices = Some(prices);
            paths.port = Some(port);
        }
        None => {}
    }
    paths
}

/// The values of the options of what the words ask for, each a text of its own or a number.
pub fn paths_of(alloc: Global, words: &[Text]) -> Result<Paths, OutOfMemory>
    ensures plain { IfOk result (λ paths. (command : Meaning) → IsPlain command words.now → paths ≡ command_paths command) }
    ensures network { IfOk result (λ paths. (command : NetworkMeaning) → IsPlainNetwork command words.now →
        paths ≡ network_paths command) }
    ensures other { IfOk result (λ paths. ArePathsOf words.now paths) }
{
    match command_of(alloc, words)? {
        Some(command) => Ok(paths_in(command)),
        None => network_paths_read(alloc, words),
    }
}

/// The values of the options of what the words ask for of the commands that talk over the network.
fn network_paths_read(alloc: Global, words: &[Text]) -> Result<Paths, OutOfMemory>
    ensures { IfOk result (λ paths. (read : Option NetworkMeaning) × IsNetworkReadingOf words.now read × (paths ≡ network_paths_of read)) }
{
    let read = network_command_of(alloc, words)?;
    Ok(network_paths_in(read))
}
