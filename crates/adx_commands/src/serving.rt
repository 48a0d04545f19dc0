//! The command that serves connections as an exchange, over the objects that it is given.
ghost use Rattle.std.specs.Prelude.{◌≡◌, ◌<◌, ◌≤◌, All, Err, length};
ghost use Rattle.adx_links.specs.Told.{told_by};
ghost use Rattle.command_bidder.specs.Bidding.{IsUnused};
ghost use Rattle.command_words.specs.declared.network.TheConstants.{MOST_WORKERS};
ghost use Rattle.exchange_messages.specs.Floors.{AreLanes, IsMomentOf};
ghost use Rattle.exchange_serving.specs.Lanes.{lists_of};
ghost use Rattle.adx_commands.specs.Serving.{EndsOpening, EndsRoster, GivesServed, RunsServing, status_by, status_by_fault};

use crate::lanes::workers_over;
use crate::not_begun::NotBegun;
use crate::objects::{Objects, give_back};
use crate::served::Served;
use adx_desk::{Desk, DeskFault};
use adx_links::{Acceptor, Link};
use command_notices::first_roster;
use day_journal::Disk;
use deal_floor::Roster;
use exchange_messages::Clock;
use exchange_serving::{Ending, Unserved, serve_connections};
use fan_out::Lane;
use script_lines::RosterLineFault;
use std::alloc::Global;
use std::marker::{Send, Sync};
use std::sync::Wait;
use std::thread::Threads;

/// The status where links don't fit, or a document has no roster.
const REFUSED: u8 = 3;

/// The status where memory was refused.
const OUT_OF_MEMORY: u8 = 12;

/// The exit status of a run that served, by how that ended.
fn status_of(ending: Ending) -> u8
    ensures { result ≡ status_by ending }
{
    match ending {
        Ending::Done => 0,
        Ending::AcceptorFault => 4,
        Ending::DiskFault => 6,
        Ending::Pending => 11,
        Ending::OutOfMemory => OUT_OF_MEMORY,
    }
}

/// The exit status of a run whose day wasn't opened for this cause.
fn status_of_fault(fault: &DeskFault) -> u8
    ensures { result ≡ status_by_fault fault.now }
{
    match fault {
        DeskFault::DiskFault => 6,
        DeskFault::OutOfMemory => OUT_OF_MEMORY,
        DeskFault::NotAJournal { .. }
        | DeskFault::BadLength { .. }
        | DeskFault::BadEntry { .. }
        | DeskFault::OtherRoster { .. }
        | DeskFault::JournalFull { .. } => 7,
    }
}

/// What is given back where no desk was left, for lack of memory.
fn unserved_by<A: Drop, D: Disk + Drop, L: Drop>(unserved: Unserved<A, D, L>) -> Served<A, D, L>
    ensures { GivesServed (Err unserved) result }
{
    match unserved {
        Unserved::Unbegun {
            desk,
            acceptor,
            lanes: _lanes,
            post,
        } => Served {
            status: OUT_OF_MEMORY,
            acceptor: Some(acceptor),
            disk: Some(desk.close()),
            post: Some(post),
            workers: 0,
            why: None,
        },
        Unserved::Unshared {
            acceptor,
            lanes: _lanes,
            post,
        } => Served {
            status: OUT_OF_MEMORY,
            acceptor: Some(acceptor),
            disk: None,
            post: Some(post),
            workers: 0,
            why: None,
        },
        Unserved::Lost { post } => Served {
            status: OUT_OF_MEMORY,
            acceptor: None,
            disk: None,
            post: Some(post),
            workers: 0,
            why: None,
        },
    }
}

/// What is given back of a run that served, or that no desk was left for.
fn served_by<A: Drop, D: Disk + Drop, L: Drop>(
    served: Result<exchange_serving::Served<A, D, L>, Unserved<A, D, L>>,
) -> Served<A, D, L>
    ensures { GivesServed served result }
{
    match served {
        Ok(served) => Served {
            status: status_of(served.ending),
            acceptor: Some(served.acceptor),
            disk: Some(served.disk),
            post: Some(served.post),
            workers: served.workers,
            why: None,
        },
        Err(unserved) => unserved_by(unserved),
    }
}

/// Opens the day of a roster on the disk, and lets a worker for each of the lists of lanes serve connections on it.
fn serve_day<
    R: Threads + Wait + Sync,
    A: Acceptor + Drop + Send,
    D: Disk + Drop + Send,
    L: Link + Drop + Send,
    C: Clock + Sync,
>(
    rt: &R,
    alloc: Global,
    roster: &Roster,
    lanes: Vec<Vec<Lane<L>>>,
    acceptor: A,
    disk: D,
    post: L,
    clock: &C,
) -> Served<A, D, L>
    requires unused { IsUnused (told_by A.Acceptor A.In.Source A.Out.Sink acceptor) }
    requires workers { (0 < length lanes.items) × (length lanes.items ≤ MOST_WORKERS) }
    requires lanes { All (AreLanes roster.now) (lists_of lanes.items) }
    ensures ends { EndsOpening A.Acceptor A.In.Source A.Out.Sink D.Disk L.Link (IsMomentOf (C.moment clock.entry.now))
        acceptor disk post result roster.entry.now (lists_of lanes.items) }
{
    match Desk::open(alloc, disk, roster) {
        Ok(desk) => served_by(serve_connections(
            rt, alloc, roster, desk, acceptor, lanes, post, clock,
        )),
        Err(refused) => {
            let (fault, disk) = refused;
            Served {
                status: status_of_fault(&fault),
                acceptor: Some(acceptor),
                disk: Some(disk),
                post: Some(post),
                workers: 0,
                why: Some(NotBegun::Journal { fault }),
            }
        }
    }
}

/// Serves the day of a roster, where each list of links has one for each of its bidders.
fn serve_roster<
    R: Threads + Wait + Sync,
    A: Acceptor + Drop + Send,
    D: Disk + Drop + Send,
    L: Link + Drop + Send,
    C: Clock + Sync,
>(rt: &R, alloc: Global, roster: &Roster, objects: Objects<A, D, L>, clock: &C) -> Served<A, D, L>
    requires unused { IsUnused (told_by A.Acceptor A.In.Source A.Out.Sink objects.acceptor) }
    requires workers { (0 < length objects.links.items) × (length objects.links.items ≤ MOST_WORKERS) }
    ensures ends { EndsRoster A.Acceptor A.In.Source A.Out.Sink D.Disk L.Link (IsMomentOf (C.moment clock.entry.now))
        objects result roster.entry.now }
{
    let Objects {
        acceptor,
        disk,
        links,
        post,
    } = objects;
    let status = match workers_over(alloc, roster.bidders.as_slice(), links) {
        Ok(Some(lanes)) => {
            return serve_day(rt, alloc, roster, lanes, acceptor, disk, post, clock);
        }
        Ok(None) => REFUSED,
        Err(_) => OUT_OF_MEMORY,
    };
    Served {
        status,
        acceptor: Some(acceptor),
        disk: Some(disk),
        post: Some(post),
        workers: 0,
        why: None,
    }
}

/// Serves the acceptor's connections on the day of a document's roster, by so many workers, each over a list of links of its
/// own.
pub(crate) fn run_serve<
    R: Threads + Wait + Sync,
    A: Acceptor + Drop + Send,
    D: Disk + Drop + Send,
    L: Link + Drop + Send,
    C: Clock + Sync,
>(
    rt: &R,
    alloc: Global,
    workers: u32,
    document: &[u8],
    objects: Objects<A, D, L>,
    clock: &C,
) -> Served<A, D, L>
    requires unused { IsUnused (told_by A.Acceptor A.In.Source A.Out.Sink objects.acceptor) }
    requires workers { (0 < workers) × (workers ≤ MOST_WORKERS) }
    ensures runs { RunsServing A.Acceptor A.In.Source A.Out.Sink D.Disk L.Link (IsMomentOf (C.moment clock.entry.now))
        objects result document.now workers }
{
    if objects.links.as_slice().len() != workers as usize {
        return give_back(objects, REFUSED, None);
    }
    match first_roster(alloc, document) {
        Ok(roster) => serve_roster(rt, alloc, &roster, objects, clock),
        Err(RosterLineFault::Refused { why }) => {
            give_back(objects, REFUSED, Some(NotBegun::Line { why }))
        }
        Err(RosterLineFault::OutOfMemory) => give_back(objects, OUT_OF_MEMORY, None),
    }
}
