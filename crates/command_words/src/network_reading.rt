//! What words ask for of the commands that talk over the network.
ghost use Rattle.std.specs.Prelude.{◌≡◌, ◌≢◌, ◌<◌, ◌≤◌, IfOk, IfSome, Option};
ghost use Rattle.clap.specs.Matches.{found_of};
ghost use Rattle.clap.specs.Simple.{subcommand_rows_of};
ghost use Rattle.clap.specs.Walk.{first_of, rows_of};
ghost use Rattle.clap.specs.declared.error.kind.ErrorKind.TheVariants.{OutOfMemory as no_memory};
ghost use Rattle.command_words.specs.Meanings.{journal_name, number_of, port_name, prices_name, roster_name, workers_name};
ghost use Rattle.command_words.specs.Network.{HasFewWorkers, IsPlainNetwork, workers_of};
ghost use Rattle.command_words.specs.NetworkTaken.{IsNetworkReadingOf, bid_with, network_by, network_found, post_with, serve_with};
ghost use Rattle.command_words.specs.declared.network.NetworkCommand.{NetworkCommand as Meaning};

use crate::application::application;
use crate::network::{MOST_PORT, MOST_WORKERS, NetworkCommand};
use crate::reading::{number_found, text_found, turned};
use adx_units::{OutOfMemory, Text};
use clap::ArgMatches;
use clap::error::ErrorKind;
use std::alloc::Global;

/// The port that was found.
fn port_found(found: &ArgMatches<'_>) -> Option<u16>
    ensures { result ≡ number_of MOST_PORT (first_of port_name (rows_of (found_of found.now))) }
{
    match number_found(found, "port", MOST_PORT) {
        Some(port) => Some(port as u16),
        None => None,
    }
}

/// The number of workers that was found, which isn't 0.
fn workers_found(found: &ArgMatches<'_>) -> Option<u32>
    ensures value { result ≡ workers_of (first_of workers_name (rows_of (found_of found.now))) }
    ensures few { IfSome result (λ n. (0 < n) × (n ≤ MOST_WORKERS)) }
{
    match number_found(found, "workers", MOST_WORKERS) {
        Some(workers) if 0 < workers => Some(workers as u32),
        _ => None,
    }
}

/// The connections that are to be served, of the day of this roster in this journal, at this port by so many workers.
fn served(
    roster: Option<Text>,
    journal: Option<Text>,
    port: Option<u16>,
    workers: Option<u32>,
) -> Option<NetworkCommand>
    requires { IfSome workers (λ n. (0 < n) × (n ≤ MOST_WORKERS)) }
    ensures read { result ≡ serve_with roster journal port workers }
    ensures few { HasFewWorkers result }
{
    let roster = roster?;
    let journal = journal?;
    let port = port?;
    let workers = workers?;
    Some(NetworkCommand::Serve {
        roster,
        journal,
        port,
        workers,
    })
}

/// The notices that are to be sent, of the day of this roster in this journal.
fn posted(roster: Option<Text>, journal: Option<Text>) -> Option<NetworkCommand>
    ensures read { result ≡ post_with roster journal }
    ensures few { HasFewWorkers result }
{
    let roster = roster?;
    let journal = journal?;
    Some(NetworkCommand::Post { roster, journal })
}

/// The bidder of this price line, at this port.
fn bidding_at(prices: Option<Text>, port: Option<u16>) -> Option<NetworkCommand>
    ensures read { result ≡ bid_with prices port }
    ensures few { HasFewWorkers result }
{
    let prices = prices?;
    let port = port?;
    Some(NetworkCommand::Bid { prices, port })
}

/// The connections that the options ask for.
fn serve_asked(alloc: Global, found: &ArgMatches<'_>) -> Result<Option<NetworkCommand>, OutOfMemory>
    ensures read { IfOk result (λ read. read ≡
        serve_with (first_of roster_name (rows_of (found_of found.now))) (first_of journal_name (rows_of (found_of found.now)))
        (number_of MOST_PORT (first_of port_name (rows_of (found_of found.now)))) (workers_of (first_of workers_name (rows_of (found_of found.now))))) }
    ensures few { IfOk result (λ read. HasFewWorkers read) }
{
    let roster = text_found(alloc, found, "roster")?;
    let journal = text_found(alloc, found, "journal")?;
    let port = port_found(found);
    let workers = workers_found(found);
    Ok(served(roster, journal, port, workers))
}

/// The notices that the options ask for.
fn post_asked(alloc: Global, found: &ArgMatches<'_>) -> Result<Option<NetworkCommand>, OutOfMemory>
    ensures read { IfOk result (λ read. read ≡
        post_with (first_of roster_name (rows_of (found_of found.now))) (first_of journal_name (rows_of (found_of found.now)))) }
    ensures few { IfOk result (λ read. HasFewWorkers read) }
{
    let roster = text_found(alloc, found, "roster")?;
    let journal = text_found(alloc, found, "journal")?;
    Ok(posted(roster, journal))
}

/// The bidder that the options ask for.
fn bid_asked(alloc: Global, found: &ArgMatches<'_>) -> Result<Option<NetworkCommand>, OutOfMemory>
    ensures read { IfOk result (λ read. read ≡ bid_with (first_of prices_name (rows_of (found_of found.now)))
        (number_of MOST_PORT (first_of port_name (rows_of (found_of found.now))))) }
    ensures few { IfOk result (λ read. HasFewWorkers read) }
{
    let prices = text_found(alloc, found, "prices")?;
    Ok(bidding_at(prices, port_found(found)))
}

/// What a command's word with the options that were found behind it asks for.
fn network_named(
    alloc: Global,
    word: &str,
    found: &ArgMatches<'_>,
) -> Result<Option<NetworkCommand>, OutOfMemory>
    ensures read { IfOk result (λ read. read ≡ network_by word.now (rows_of (found_of found.now))) }
    ensures few { IfOk result (λ read. HasFewWorkers read) }
{
    match word {
        "serve" => serve_asked(alloc, found),
        "post" => post_asked(alloc, found),
        "bid" => bid_asked(alloc, found),
        _ => Ok(None),
    }
}

/// What the matches of a parse ask for.
fn network_in(
    alloc: Global,
    matches: &ArgMatches<'_>,
) -> Result<Option<NetworkCommand>, OutOfMemory>
    ensures read { IfOk result (λ read. read ≡ network_found (subcommand_rows_of matches.now)) }
    ensures few { IfOk result (λ read. HasFewWorkers read) }
{
    match matches.subcommand() {
        Some((word, found)) => network_named(alloc, word, found),
        None => Ok(None),
    }
}

/// What is read of words that a parse refuses for this kind of error: nothing of these commands.
fn refused(kind: ErrorKind) -> Result<Option<NetworkCommand>, OutOfMemory>
    ensures none { IfOk result (λ read. read ≡ Option.None) }
    ensures few { IfOk result (λ read. HasFewWorkers read) }
    ensures memory { IfOk result (λ read. kind ≢ no_memory) }
{
    match kind {
        ErrorKind::OutOfMemory => Err(OutOfMemory),
        _ => Ok(None),
    }
}

/// What the words of a command line ask for of the commands that talk over the network, which stand behind the program's
/// name. None where they ask for none of these.
///
/// Words in plain spelling are taken, as `command_of` says of the other commands; other spellings that `clap` knows mean the
/// same. A port is a decimal number of at most `MOST_PORT`, and a number of workers one of 1 to `MOST_WORKERS`, both without a
/// sign or a leading zero.
pub fn network_command_of(
    alloc: Global,
    words: &[Text],
) -> Result<Option<NetworkCommand>, OutOfMemory>
    ensures plain { IfOk result (λ read. (command : Meaning) → IsPlainNetwork command words.now → read ≡ Option.Some command) }
    ensures other { IfOk result (λ read. IsNetworkReadingOf words.now read) }
    ensures few { IfOk result (λ read. HasFewWorkers read) }
{
    network_parsed(alloc, words)
}

/// What words ask for, as a parse takes them.
fn network_parsed(alloc: Global, words: &[Text]) -> Result<Option<NetworkCommand>, OutOfMemory>
    ensures read { IfOk result (λ read. IsNetworkReadingOf words.now read) }
    ensures few { IfOk result (λ read. HasFewWorkers read) }
{
    let texts = turned(alloc, words)?;
    let program = application(alloc)?;
    match program.try_get_matches_from(texts.as_slice()) {
        Ok(matches) => network_in(alloc, &matches),
        Err(error) => refused(error.kind()),
    }
}
