//! Serves a bidder, over the network.

use crate::calls::Calls;
use crate::clock::SystemClock;
use crate::documents::{read_document, status_of_error};
use crate::messages::{Files, Heard, say_memory, say_network, say_not_bound};
use crate::reports::Reports;
use crate::watched_acceptor::{WatchedAcceptor, listener_at};
use crate::watched_link::{Purpose, WatchedLink};
use adx_commands::{NotBegun, OUT_OF_MEMORY, adx_serve};
use adx_units::Text;
use bounded_network::{Listening, Names, OpenCalls};
use day_journal::ByteDisk;
use std::marker::Sync;
use std::net::TcpStream;
use std::sync::Wait;
use std::thread::Threads;

/// The name of a journal where there is none.
const NO_JOURNAL: &str = "no journal";

/// Serves the bidder of a price line's document over an acceptor that reports no pairs.
fn bid_over<'a, 'b, W: Threads + Wait + Sync>(
    rt: &'a HostRuntime,
    waits: &W,
    words: &[Text],
    document: &[u8],
    acceptor: WatchedAcceptor<'a, 'b, u8>,
    post: WatchedLink<'b>,
) -> (u8, Option<NotBegun>) {
    let links: Vec<Vec<WatchedLink<'b>>> = Vec::new(rt.alloc());
    let served = adx_serve(
        waits,
        rt.alloc(),
        words,
        document,
        acceptor,
        ByteDisk::new(rt.alloc()),
        links,
        post,
        &SystemClock::new(rt),
    );
    (served.status, served.why)
}

/// Serves the bidder of the price line's document that is in a file, at a port.
fn bid_at<'a, W: Threads + Wait + Sync>(
    reports: &'a Reports<'a>,
    names: &'a Names,
    open: &'a OpenCalls<TcpStream>,
    waits: &W,
    words: &[Text],
    prices: &str,
    document: &[u8],
    port: u16,
) -> u8 {
    let rt = reports.rt();
    let listening = Listening::new(rt.alloc(), None, 1);
    let calls = Calls::new(reports, names, open);
    let acceptor = WatchedAcceptor::<u8>::new(port, &listening, open, reports, None);
    let post = WatchedLink::new(&calls, Purpose::Notifies);
    let (status, why) = bid_over(rt, waits, words, document, acceptor, post);
    let files = Files {
        document: prices,
        first: "a price line",
        journal: NO_JOURNAL,
    };
    say_network(reports, rt, words, files, &Heard::new(), status, why);
    status
}

/// Serves the bidder of the price line in a file at a port.
pub(crate) fn run_bid<W: Threads + Wait + Sync>(
    rt: &HostRuntime,
    waits: &W,
    words: &[Text],
    prices: &str,
    port: u16,
) -> u8 {
    let document = match read_document(rt, prices) {
        Ok(document) => document,
        Err(status) => return status,
    };
    // The port is had for a moment; it listens once the bidder is there.
    match listener_at(rt, port) {
        Ok(_listener) => {}
        Err(error) => {
            say_not_bound(rt, port, error);
            return status_of_error(&error);
        }
    }
    let reports = Reports::without_waiting(rt);
    let names = Names::new(rt.alloc());
    // A bidder has a link of notices, which calls nobody.
    let Ok(open) = OpenCalls::new(rt.alloc(), 1) else {
        say_memory(rt);
        return OUT_OF_MEMORY;
    };
    bid_at(
        &reports,
        &names,
        &open,
        waits,
        words,
        prices,
        document.as_slice(),
        port,
    )
}
