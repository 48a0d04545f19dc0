//! What words ask for.
ghost use Rattle.std.specs.Prelude.{◌≡◌, ◌≢◌, ◌≤◌, IfOk, IfSome, Some, option_map};
ghost use Rattle.clap.specs.Matches.{found_of};
ghost use Rattle.clap.specs.Simple.{subcommand_rows_of};
ghost use Rattle.clap.specs.Walk.{first_of, rows_of, texts, texts as texts_in};
ghost use Rattle.clap.specs.declared.error.kind.ErrorKind.TheVariants.{OutOfMemory as no_memory};
ghost use Rattle.command_words.specs.Meanings.{HasFewAsks, IsPlain, bidder_name, journal_name, number_of};
ghost use Rattle.command_words.specs.Rows.{place_in};
ghost use Rattle.command_words.specs.Taken.{IsReadingOf, answer_by, close_by, command_by, command_found, days_asked, generated_by, is_set as is_set_in, list_archive, print_notices, put_archive, reconcile_with, topic_of as topic_in, topic_by, turned_round, without_first_help};
ghost use Rattle.command_words.specs.declared.command.Command.{Command as Meaning};

use crate::application::application;
use crate::command::{Command, MOST_ASKS, Topic};
use crate::table::{Row, rows};
use adx_units::{OutOfMemory, Text, whole_up_to};
use clap::ArgMatches;
use clap::error::ErrorKind;
use std::alloc::Global;

/// The words as `clap` takes them.
fn texts_of(alloc: Global, words: &[Text]) -> Result<Vec<&str>, OutOfMemory>
    ensures { IfOk result (λ v. texts v.items ≡ words.now) }
{
    let mut texts = Vec::new(alloc);
    for word in words {
        texts.push(word.as_str())?;
    }
    Ok(texts)
}

/// The words without a first `help`.
fn without_help<'a>(words: &'a [Text]) -> &'a [Text]
    ensures { result.now ≡ without_first_help words.now }
{
    match words {
        [word, rest @ ..] if word.as_str() == "help" => rest,
        _ => words,
    }
}

/// The words as `clap` takes them, where `help` in front asks for what `--help` at the end does, and a second one with it for
/// what one does.
pub(crate) fn turned(alloc: Global, words: &[Text]) -> Result<Vec<&str>, OutOfMemory>
    ensures { IfOk result (λ v. texts v.items ≡ turned_round words.now) }
{
    match words {
        [word, rest @ ..] if word.as_str() == "help" => {
            let mut texts = texts_of(alloc, without_help(rest))?;
            texts.push("--help")?;
            Ok(texts)
        }
        _ => texts_of(alloc, words),
    }
}

/// The place of the row of a word.
fn place_of(rows: &[Row], word: &str) -> Option<usize>
    ensures { result ≡ place_in word.now rows.now }
{
    rows.iter().position(|row| row.0 == word)
}

/// The topic that a command's word names: the whole program where it names none.
fn topic_named(word: &str) -> Topic
    ensures { result ≡ topic_by word.now }
{
    match place_of(rows(), word) {
        Some(place) => Topic::Command { place },
        None => Topic::Program,
    }
}

/// The topic that words ask help for.
fn topic_of(texts: &[&str]) -> Topic
    ensures { result ≡ topic_in (texts_in texts.now) }
{
    match texts {
        [text, ..] => topic_named(text),
        [] => Topic::Program,
    }
}

/// What words ask for that a parse refuses for this kind of error.
fn answered(kind: ErrorKind, texts: &[&str]) -> Result<Option<Command>, OutOfMemory>
    ensures read { IfOk result (λ read. read ≡ answer_by kind (texts_in texts.now)) }
    ensures few { IfOk result (λ read. HasFewAsks read) }
    ensures memory { IfOk result (λ read. kind ≢ no_memory) }
{
    match kind {
        ErrorKind::DisplayHelp => Ok(Some(Command::Help(topic_of(texts)))),
        ErrorKind::DisplayVersion => Ok(Some(Command::Version)),
        ErrorKind::OutOfMemory => Err(OutOfMemory),
        _ => Ok(None),
    }
}

/// The text that was found for an option.
fn found_text<'a>(found: &ArgMatches<'a>, name: &str) -> Option<&'a str>
    ensures { option_map (λ s. s.now) result ≡ first_of name.now (rows_of (found_of found.now)) }
{
    found.get_str(name)
}

/// A text as one of its own.
fn owned(alloc: Global, text: Option<&str>) -> Result<Option<Text>, OutOfMemory>
    ensures { IfOk result (λ t. t ≡ option_map (λ s. s.now) text.entry) }
{
    match text {
        Some(text) => Ok(Some(Text::of(alloc, text)?)),
        None => Ok(None),
    }
}

/// The number that a text tells, where it is decimal and at most so much.
fn number_in(text: Option<&str>, most: u64) -> Option<u64>
    ensures value { result ≡ number_of most (option_map (λ s. s.now) text.entry) }
    ensures small { IfSome result (λ n. n ≤ most) }
{
    match text {
        Some(text) => whole_up_to(text.as_bytes(), most),
        None => None,
    }
}

/// The text that was found for an option, as one of its own.
pub(crate) fn text_found(
    alloc: Global,
    found: &ArgMatches<'_>,
    name: &str,
) -> Result<Option<Text>, OutOfMemory>
    ensures { IfOk result (λ text. text ≡ first_of name.now (rows_of (found_of found.now))) }
{
    owned(alloc, found_text(found, name))
}

/// The number that was found for an option, where it is decimal and at most so much.
pub(crate) fn number_found(found: &ArgMatches<'_>, name: &str, most: u64) -> Option<u64>
    ensures value { result ≡ number_of most (first_of name.now (rows_of (found_of found.now))) }
    ensures small { IfSome result (λ n. n ≤ most) }
{
    number_in(found_text(found, name), most)
}

/// The generated day that the options ask for.
fn generated(found: &ArgMatches<'_>) -> Option<Command>
    ensures read { result ≡ generated_by (rows_of (found_of found.now)) }
    ensures few { HasFewAsks result }
{
    let seed = number_found(found, "seed", u64::MAX)?;
    let asks = number_found(found, "asks", MOST_ASKS)?;
    Some(Command::Generate { seed, asks })
}

/// The notices that are asked for, of the day in this file.
fn printed(journal: Option<Text>) -> Option<Command>
    ensures read { result ≡ print_notices journal }
    ensures few { HasFewAsks result }
{
    match journal {
        Some(journal) => Some(Command::Notices { journal }),
        None => None,
    }
}

/// Whether a flag was found.
fn is_set(found: &ArgMatches<'_>, name: &str) -> bool
    ensures { result ≡ is_set_in name.now (rows_of (found_of found.now)) }
{
    match found_text(found, name) {
        Some(text) => text == "true",
        None => false,
    }
}

/// The closed day that is asked for, of the day in this file.
fn closed(journal: Option<Text>, ratio: bool) -> Option<Command>
    ensures read { result ≡ close_by journal ratio }
    ensures few { HasFewAsks result }
{
    match journal {
        Some(journal) => Some(Command::Close { journal, ratio }),
        None => None,
    }
}

/// The closed day that is to be kept in the archive of this file.
fn archived(archive: Option<Text>) -> Option<Command>
    ensures read { result ≡ put_archive archive }
    ensures few { HasFewAsks result }
{
    match archive {
        Some(archive) => Some(Command::ArchivePut { archive }),
        None => None,
    }
}

/// The days that are to be listed of a campaign.
fn days_listed(
    archive: Option<Text>,
    seat: Option<Text>,
    cid: Option<Text>,
    first: Option<Text>,
    last: Option<Text>,
) -> Option<Command>
    ensures read { result ≡ list_archive archive seat cid first last }
    ensures few { HasFewAsks result }
{
    let archive = archive?;
    let seat = seat?;
    let cid = cid?;
    let first = first?;
    let last = last?;
    Some(Command::ArchiveList {
        archive,
        seat,
        cid,
        first,
        last,
    })
}

/// The days that the options ask for.
fn archive_listed(alloc: Global, found: &ArgMatches<'_>) -> Result<Option<Command>, OutOfMemory>
    ensures read { IfOk result (λ read. read ≡ days_asked (rows_of (found_of found.now))) }
    ensures few { IfOk result (λ read. HasFewAsks read) }
{
    let archive = text_found(alloc, found, "archive")?;
    let seat = text_found(alloc, found, "seat")?;
    let cid = text_found(alloc, found, "cid")?;
    let first = text_found(alloc, found, "from")?;
    let last = text_found(alloc, found, "to")?;
    Ok(days_listed(archive, seat, cid, first, last))
}

/// The bills that are to be compared, of the day in this file and of the bidder of this name.
fn reconciled(journal: Option<Text>, bidder: Option<Text>) -> Option<Command>
    ensures read { result ≡ reconcile_with journal bidder }
    ensures few { HasFewAsks result }
{
    let journal = journal?;
    let bidder = bidder?;
    Some(Command::Reconcile { journal, bidder })
}

/// The bills that the options ask for.
fn reconcile_asked(alloc: Global, found: &ArgMatches<'_>) -> Result<Option<Command>, OutOfMemory>
    ensures read { IfOk result (λ read. read ≡
        reconcile_with (first_of journal_name (rows_of (found_of found.now))) (first_of bidder_name (rows_of (found_of found.now)))) }
    ensures few { IfOk result (λ read. HasFewAsks read) }
{
    let journal = text_found(alloc, found, "journal")?;
    let bidder = text_found(alloc, found, "bidder")?;
    Ok(reconciled(journal, bidder))
}

/// What a command's word with the options that were found behind it asks for.
fn command_named(
    alloc: Global,
    word: &str,
    found: &ArgMatches<'_>,
) -> Result<Option<Command>, OutOfMemory>
    ensures read { IfOk result (λ read. read ≡ command_by word.now (rows_of (found_of found.now))) }
    ensures few { IfOk result (λ read. HasFewAsks read) }
{
    match word {
        "day" => Ok(Some(Command::Day {
            journal: text_found(alloc, found, "journal")?,
        })),
        "conn" => Ok(Some(Command::Connection {
            journal: text_found(alloc, found, "journal")?,
        })),
        "notices" => Ok(printed(text_found(alloc, found, "journal")?)),
        "bidder" => Ok(Some(Command::Bidder)),
        "gen" => Ok(generated(found)),
        "close" => Ok(closed(text_found(alloc, found, "journal")?, is_set(found, "ratio"))),
        "check" => Ok(Some(Command::Check)),
        "archive-put" => Ok(archived(text_found(alloc, found, "archive")?)),
        "archive-list" => archive_listed(alloc, found),
        "reconcile" => reconcile_asked(alloc, found),
        _ => Ok(None),
    }
}

/// What the matches of a parse ask for.
fn command_in(alloc: Global, matches: &ArgMatches<'_>) -> Result<Option<Command>, OutOfMemory>
    ensures read { IfOk result (λ read. read ≡ command_found (subcommand_rows_of matches.now)) }
    ensures few { IfOk result (λ read. HasFewAsks read) }
{
    match matches.subcommand() {
        Some((word, found)) => command_named(alloc, word, found),
        None => Ok(None),
    }
}

/// What words ask for, as a parse takes them.
fn parsed(alloc: Global, words: &[Text]) -> Result<Option<Command>, OutOfMemory>
    ensures read { IfOk result (λ read. IsReadingOf words.now read) }
    ensures few { IfOk result (λ read. HasFewAsks read) }
{
    let texts = turned(alloc, words)?;
    let program = application(alloc)?;
    match program.try_get_matches_from(texts.as_slice()) {
        Ok(matches) => command_in(alloc, &matches),
        Err(error) => answered(error.kind(), texts.as_slice()),
    }
}

/// What the words of a command line ask for, which stand behind the program's name. None where they ask for nothing that
/// the program has.
///
/// In plain spelling a command's word comes first, and behind it each of its options stands once, as two words, in any
/// order, its value not beginning with `-`; a number is decimal, without a sign or a leading zero. Words in plain spelling
/// are taken. So are other spellings that `clap` knows, as `--journal=FILE`, and mean the same. `help` before a command's
/// word, or alone, asks for what `--help` after it, or alone, asks for.
pub fn command_of(alloc: Global, words: &[Text]) -> Result<Option<Command>, OutOfMemory>
    ensures plain { IfOk result (λ read. (command : Meaning) → IsPlain command words.now → read ≡ Some command) }
    ensures other { IfOk result (λ read. IsReadingOf words.now read) }
    ensures few { IfOk result (λ read. HasFewAsks read) }
{
    parsed(alloc, words)
}
