//! Where the journal or the archive of a command is kept.
ghost use Rattle.std.specs.Prelude.{◌≡◌, IfOk, Option, Some};
ghost use Rattle.adx_commands.specs.Keeping.{IsKeptAs, kept_by};
ghost use Rattle.command_words.specs.Meanings.{IsPlain};
ghost use Rattle.command_words.specs.Taken.{IsReadingOf};
ghost use Rattle.command_words.specs.declared.command.Command.{Command as Meaning};

use adx_units::{OutOfMemory, Text};
use command_words::{Command, command_of};
use std::alloc::Global;

/// Where the journal of a command is kept, or the archive of closed days.
#[derive(Debug, Drop)]
pub enum Kept {
    /// In memory alone, or nowhere: the words name no file, or aren't a command.
    InMemory,
    /// In this file, which is made where there is none.
    Made(Text),
    /// In this file, which has to be there.
    Existing(Text),
    /// There is no journal. Closed days are kept in the archive in this file, which is made where there is none.
    Archived(Text),
    /// There is no journal. Closed days are listed from the archive in this file, which has to be there.
    Listed(Text),
}

/// Where the journal of a day is kept, by the file that is named.
fn kept_in(journal: Option<Text>) -> Kept
    ensures { result ≡ kept_by journal }
{
    match journal {
        Some(file) => Kept::Made(file),
        None => Kept::InMemory,
    }
}

/// Where the journal or the archive of what was read of the words is kept.
fn kept_of(read: Option<Command>) -> Kept
    ensures { IsKeptAs read result }
{
    match read {
        Some(Command::Day { journal }) => kept_in(journal),
        Some(Command::Connection { journal }) => kept_in(journal),
        Some(Command::Notices { journal }) => Kept::Existing(journal),
        Some(Command::Close { journal, .. }) => Kept::Existing(journal),
        Some(Command::Reconcile { journal, .. }) => Kept::Existing(journal),
        Some(Command::ArchivePut { archive }) => Kept::Archived(archive),
        Some(Command::ArchiveList { archive, .. }) => Kept::Listed(archive),
        Some(Command::Bidder)
        | Some(Command::Generate { .. })
        | Some(Command::Check)
        | Some(Command::Help(_))
        | Some(Command::Version) => Kept::InMemory,
        None => Kept::InMemory,
    }
}

/// Where the journal or the archive of what the words ask for is kept, its file named by a text of its own.
pub fn kept_by_words(alloc: Global, words: &[Text]) -> Result<Kept, OutOfMemory>
    ensures reads { IfOk result (λ kept. (read : Option Meaning) × IsReadingOf words.now read × IsKeptAs read kept) }
    ensures plain { IfOk result (λ kept. (command : Meaning) → IsPlain command words.now → IsKeptAs (Some command) kept) }
{
    let read = command_of(alloc, words)?;
    Ok(kept_of(read))
}
