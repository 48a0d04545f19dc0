//! Serves connections on the day of a roster, over the network.

use crate::bidder_watch::Bidder;
use crate::calls::Calls;
use crate::clock::SystemClock;
use crate::documents::{roster_in, status_of_error};
use crate::journal_file::open_journal;
use crate::journal_watch::WatchedFile;
use crate::limits::descriptors;
use crate::messages::{Files, Heard, say_memory, say_network, say_not_bound, say_not_opened};
use crate::reports::Reports;
use crate::run::status_of_fault;
use crate::watched_acceptor::{Serves, WatchedAcceptor, listener_at};
use crate::watched_link::{Purpose, WatchedLink};
use adx_commands::{NotBegun, OUT_OF_MEMORY, Served, adx_serve};
use adx_units::{OutOfMemory, Text};
use bounded_network::{Listening, Names, OpenCalls};
use day_journal::{Disk, FileDisk};
use deal_floor::Roster;
use std::fs;
use std::fs::File;
use std::marker::{Send, Sync};
use std::net::TcpStream;
use std::sync::Wait;
use std::thread::Threads;

/// How many descriptors a run has besides those of its workers: the standard streams, the journal, the listener, the link of
/// notices, a lookup's, and some for what is opened for a moment.
const SOME_DESCRIPTORS: u64 = 12;

/// A list of links for each worker.
type WatchedLinks<'a> = Vec<Vec<WatchedLink<'a>>>;

/// What `serve` is asked for.
#[derive(Clone, Copy)]
pub(crate) struct Serving<'a> {
    pub(crate) roster: &'a str,
    pub(crate) journal: &'a str,
    pub(crate) port: u16,
    pub(crate) workers: u32,
}

/// The bidders of a roster, none of them called yet.
fn bidders_of<'a>(rt: &HostRuntime, roster: &'a Roster) -> Result<Vec<Bidder<'a>>, OutOfMemory> {
    let mut bidders = Vec::new(rt.alloc());
    let mut number: u32 = 0;
    for place in roster.bidders.as_slice() {
        bidders.push(Bidder::new(roster, place, number))?;
        number = number.saturating_add(1);
    }
    Ok(bidders)
}

/// How many links a run has: one to each bidder for each of so many workers, and one for notices.
fn links_of(workers: u32, roster: &Roster) -> usize {
    (workers as usize)
        .saturating_mul(roster.bidders.as_slice().len())
        .saturating_add(1)
}

/// A list of links for each of so many workers, each with a link to each of these bidders.
fn links_for<'a>(
    calls: &'a Calls<'a>,
    workers: u32,
    bidders: &'a [Bidder<'a>],
) -> Result<WatchedLinks<'a>, OutOfMemory> {
    let alloc = calls.reports.rt().alloc();
    let mut lists = Vec::new(alloc);
    for _ in 0..workers {
        let mut links = Vec::new(alloc);
        for bidder in bidders {
            links.push(WatchedLink::new(calls, Purpose::Asks(bidder)))?;
        }
        lists.push(links)?;
    }
    Ok(lists)
}

/// Says that the limit of descriptors is too low for so many workers and bidders, where it is.
fn say_descriptors(reports: &Reports<'_>, workers: u32, bidders: usize) {
    let each = (bidders as u64).saturating_add(1);
    let want = u64::from(workers)
        .saturating_mul(each)
        .saturating_add(SOME_DESCRIPTORS);
    let Some(have) = descriptors(reports.rt()) else {
        return;
    };
    if have < want {
        let _ = eprintln!(reports;
            "adx: {workers} workers that ask {bidders} bidders have up to {want} descriptors, and the limit is {have} (ulimit -n)"
        );
    }
}

/// The name of the file that ends the taking of connections. One that was left from an earlier run is removed.
fn stop_of(rt: &HostRuntime, journal: &str) -> Result<Text, OutOfMemory> {
    let name = format!(in rt.alloc(); "{journal}.stop")?;
    let _ = fs::remove_file(rt, name.as_str());
    Ok(Text::from(name))
}

/// Says how much came to be done: how many connections and notices, and how many of each failed.
fn say_totals(reports: &Reports<'_>, connections: (u64, u64), notices: (u64, u64)) {
    let moment = reports.moment();
    let (came, failed) = connections;
    let (tried, missed) = notices;
    let _ = eprintln!(reports;
        "adx: {moment}: connections: {came} (failed: {failed}), notices tried: {tried} (failed: {missed})"
    );
}

/// Serves connections on the day on a disk, by a roster's document, over an acceptor that reports no pairs, and says at the end how
/// much came to be done.
fn serve_over<'a, 'b, W: Threads + Wait + Sync, D: Disk + Drop + Send>(
    reports: &'a Reports<'a>,
    waits: &W,
    words: &[Text],
    document: &[u8],
    acceptor: WatchedAcceptor<'a, 'b, u8>,
    disk: D,
    links: WatchedLinks<'b>,
    post: WatchedLink<'b>,
) -> (u8, Option<NotBegun>) {
    let rt = reports.rt();
    let Served {
        status,
        acceptor,
        post,
        why,
        ..
    } = adx_serve(
        waits,
        rt.alloc(),
        words,
        document,
        acceptor,
        disk,
        links,
        post,
        &SystemClock::new(rt),
    );
    if let (Some(acceptor), Some(mut post)) = (acceptor, post) {
        if acceptor.listens() {
            let connections = (acceptor.came, acceptor.failed);
            say_totals(reports, connections, post.totals());
        }
    }
    (status, why)
}

/// Serves connections on the day in the file of a journal, over links to these bidders.
fn serve_on_file<'a, W: Threads + Wait + Sync>(
    reports: &'a Reports<'a>,
    names: &'a Names,
    open: &'a OpenCalls<TcpStream>,
    waits: &W,
    words: &[Text],
    document: &[u8],
    roster: &'a Roster,
    asked: Serving<'a>,
    file: File,
    bidders: &'a [Bidder<'a>],
    stop: Text,
) -> u8 {
    let rt = reports.rt();
    let bytes = match file.metadata() {
        Ok(found) => found.len(),
        Err(_) => 0,
    };
    let calls = Calls::new(reports, names, open);
    let mut notices = Calls::new(reports, names, open);
    notices.keep_outside(roster);
    notices.leave_out(asked.port);
    let Ok(links) = links_for(&calls, asked.workers, bidders) else {
        say_memory(rt);
        return OUT_OF_MEMORY;
    };
    let listening = Listening::new(rt.alloc(), Some(stop), asked.workers);
    let serves = Serves {
        workers: asked.workers,
        bidders: bidders.len(),
        journal: asked.journal,
        bytes,
    };
    let heard = Heard::new();
    let acceptor = WatchedAcceptor::<u8>::new(asked.port, &listening, open, reports, Some(serves));
    let disk = FileDisk::new(WatchedFile::new(file, &heard.file, asked.journal, reports));
    let post = WatchedLink::new(&notices, Purpose::Notifies);
    let (status, why) = serve_over(reports, waits, words, document, acceptor, disk, links, post);
    let files = Files {
        document: asked.roster,
        first: "a roster",
        journal: asked.journal,
    };
    say_network(reports, rt, words, files, &heard, status, why);
    status
}

/// Says what of the run is known before it begins, and serves connections on the day in the file of a journal.
fn serve_bidders<'a, W: Threads + Wait + Sync>(
    reports: &'a Reports<'a>,
    names: &'a Names,
    open: &'a OpenCalls<TcpStream>,
    waits: &W,
    words: &[Text],
    document: &[u8],
    roster: &'a Roster,
    asked: Serving<'a>,
    file: File,
) -> u8 {
    let rt = reports.rt();
    say_descriptors(reports, asked.workers, roster.bidders.as_slice().len());
    let (Ok(stop), Ok(bidders)) = (stop_of(rt, asked.journal), bidders_of(rt, roster)) else {
        say_memory(rt);
        return OUT_OF_MEMORY;
    };
    for bidder in bidders.as_slice() {
        bidder.say_unaskable(reports);
    }
    serve_on_file(
        reports,
        names,
        open,
        waits,
        words,
        document,
        roster,
        asked,
        file,
        bidders.as_slice(),
        stop,
    )
}

/// Opens the file of a journal, which is made where there is none, and serves connections on its day. Where the port isn't had,
/// the file isn't opened or made.
fn serve_roster<'a, W: Threads + Wait + Sync>(
    rt: &'a HostRuntime,
    waits: &W,
    words: &[Text],
    document: &[u8],
    roster: &'a Roster,
    asked: Serving<'a>,
) -> u8 {
    // The port is had for a moment; it listens once the day is open.
    if let Err(error) = listener_at(rt, asked.port) {
        say_not_bound(rt, asked.port, error);
        return status_of_error(&error);
    }
    match open_journal(rt, asked.journal, true) {
        Ok(file) => {
            let reports = Reports::without_waiting(rt);
            // Each name of the roster is looked up once: bidders and notices share what is known of it.
            let names = Names::new(rt.alloc());
            let Ok(open) = OpenCalls::new(rt.alloc(), links_of(asked.workers, roster)) else {
                say_memory(rt);
                return OUT_OF_MEMORY;
            };
            serve_bidders(
                &reports, &names, &open, waits, words, document, roster, asked, file,
            )
        }
        Err(fault) => {
            say_not_opened(rt, asked.journal, fault);
            status_of_fault(&fault)
        }
    }
}

/// Serves connections on the day in the file of a journal, by the roster in a file. Where it has no roster, nothing is opened or
/// made.
pub(crate) fn run_serve<W: Threads + Wait + Sync>(
    rt: &HostRuntime,
    waits: &W,
    words: &[Text],
    asked: Serving<'_>,
) -> u8 {
    match roster_in(rt, asked.roster) {
        Ok((document, roster)) => {
            serve_roster(rt, waits, words, document.as_slice(), &roster, asked)
        }
        Err(status) => status,
    }
}
