//! Sends the notices of a day, over the network.
ghost use Rattle.std.specs.Prelude.{◌≡◌, []};

use crate::calls::Calls;
use crate::clock::SystemClock;
use crate::documents::roster_in;
use crate::journal_file::open_journal;
use crate::messages::{Files, Heard, say_memory, say_network, say_not_opened};
use crate::reports::Reports;
use crate::run::status_of_fault;
use crate::watched_link::{Noted, Purpose, WatchedLink};
use adx_commands::{NotBegun, OUT_OF_MEMORY, PENDING, adx_serve};
use adx_links::MemoryAcceptor;
use adx_units::Text;
use bounded_network::{Names, OpenCalls};
use day_journal::{Disk, FileDisk};
use deal_floor::Roster;
use noted_streams::Noting;
use std::fmt;
use std::fs::File;
use std::marker::{Send, Sync};
use std::net::TcpStream;
use std::sync::Wait;
use std::thread::Threads;

/// Sends the notices of the day on a disk, by a roster's document; no connections come.
fn post_over<'a, W: Threads + Wait + Sync, D: Disk + Drop + Send>(
    rt: &HostRuntime,
    waits: &W,
    words: &[Text],
    document: &[u8],
    acceptor: MemoryAcceptor,
    disk: D,
    post: WatchedLink<'a>,
) -> (u8, Option<WatchedLink<'a>>, Option<NotBegun>)
    requires none { (acceptor.out ≡ []) × (acceptor.back ≡ []) }
{
    let links: Vec<Vec<WatchedLink<'a>>> = Vec::new(rt.alloc());
    let served = adx_serve(
        waits,
        rt.alloc(),
        words,
        document,
        acceptor,
        disk,
        links,
        post,
        &SystemClock::new(rt),
    );
    (served.status, served.post, served.why)
}

/// Of how many hosts a line says what they did.
const SAID: usize = 8;

/// The hosts that didn't take their notices, as a line has them: the first of them with what each did last.
#[derive(Clone, Copy)]
struct Refusing<'a>(&'a [Noted]);

impl<'a> fmt::Display for Refusing<'a> {
    fn fmt<W: fmt::Write>(&self, f: &mut fmt::Formatter<W>) -> fmt::Result {
        for (at, noted) in self.0.iter().take(SAID).enumerate() {
            if at == 0 {
                f.write_str(": ")?;
            } else {
                f.write_str("; ")?;
            }
            let (host, port, last, failed) = (
                noted.host.as_str(),
                noted.port,
                noted.last,
                noted.failed,
            );
            write!(f, "{failed} to {host}:{port}, which {last}")?;
        }
        if self.0.len() > SAID {
            f.write_str("; and others")?;
        }
        Ok(())
    }
}

/// Says how many notices are pending, and which hosts didn't take theirs.
fn say_pending(reports: &Reports<'_>, post: &mut WatchedLink<'_>) {
    let (_, failed) = post.totals();
    let hosts = Refusing(post.noted.as_slice());
    let _ = eprintln!(reports; "adx: notices are pending: {failed}{hosts}");
}

/// Sends the notices of the day in the file of a journal.
fn post_on_file<'a, W: Threads + Wait + Sync>(
    reports: &'a Reports<'a>,
    names: &'a Names,
    open: &'a OpenCalls<TcpStream>,
    waits: &W,
    words: &[Text],
    document: &[u8],
    roster: &Roster,
    files: Files<'_>,
    file: File,
) -> u8 {
    let rt = reports.rt();
    let Ok(acceptor) = MemoryAcceptor::new(rt.alloc(), Vec::new(rt.alloc()), &[]) else {
        say_memory(rt);
        return OUT_OF_MEMORY;
    };
    let mut calls = Calls::new(reports, names, open);
    calls.keep_outside(roster);
    let heard = Heard::new();
    let disk = FileDisk::new(Noting::new(file, &heard.file));
    let post = WatchedLink::new(&calls, Purpose::NotifiesPatiently);
    let (status, post, why) = post_over(rt, waits, words, document, acceptor, disk, post);
    match (status, post) {
        (PENDING, Some(mut post)) => say_pending(reports, &mut post),
        _ => say_network(reports, rt, words, files, &heard, status, why),
    }
    status
}

/// Sends the notices of the day in the file of a journal, by the roster in a file.
pub(crate) fn run_post<W: Threads + Wait + Sync>(
    rt: &HostRuntime,
    waits: &W,
    words: &[Text],
    roster: &str,
    journal: &str,
) -> u8 {
    let files = Files {
        document: roster,
        first: "a roster",
        journal,
    };
    let (document, roster) = match roster_in(rt, roster) {
        Ok(found) => found,
        Err(status) => return status,
    };
    match open_journal(rt, journal, false) {
        Ok(file) => {
            let reports = Reports::with_waiting(rt);
            let names = Names::new(rt.alloc());
            let Ok(open) = OpenCalls::new(rt.alloc(), 1) else {
                say_memory(rt);
                return OUT_OF_MEMORY;
            };
            post_on_file(
                &reports,
                &names,
                &open,
                waits,
                words,
                document.as_slice(),
                &roster,
                files,
                file,
            )
        }
        Err(fault) => {
            say_not_opened(rt, journal, fault);
            status_of_fault(&fault)
        }
    }
}
