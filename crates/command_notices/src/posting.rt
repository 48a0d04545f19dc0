//! A run of posting: the roster's day is opened, and each notice that it owes is tried once.
ghost use Rattle.std.specs.Prelude.{◌≡◌};
ghost use Rattle.day_rules.specs.DayState.{IsDay};
ghost use Rattle.day_rules.specs.Terms.{Terms};
ghost use Rattle.command_notices.specs.Posting.{EndsDay, EndsPosting, PumpsOnce, TriesPosts};

use crate::ending::{PostEnd, end_of};
use crate::roster::first_roster;
use adx_desk::Desk;
use adx_links::Link;
use day_journal::Disk;
use day_rules::Entry;
use deal_floor::Roster;
use outbox::Outbox;
use script_lines::RosterLineFault;
use std::alloc::Global;

/// Tries the notices that the outbox has pending once.
fn pump_once<L: Link>(outbox: &mut Outbox, link: &mut L) -> PostEnd
    ensures { PumpsOnce L.Link outbox.old link.old link.new result }
{
    match outbox.pump(link) {
        Ok(_) => {
            if outbox.pending().is_empty() {
                return PostEnd::Delivered;
            }
            PostEnd::Pending
        }
        Err(_) => PostEnd::OutOfMemory,
    }
}

/// Tries each notice that the history of a day owes once, in order.
fn post_history<L: Link>(alloc: Global, entries: &[Entry], link: &mut L) -> PostEnd
    requires day { (terms : Terms) × IsDay terms entries.now }
    ensures { TriesPosts L.Link entries.now link.old link.new result }
{
    let mut outbox = match Outbox::new(alloc) {
        Ok(made) => made,
        Err(_) => return PostEnd::OutOfMemory,
    };
    match outbox.follow(entries) {
        Ok(()) => pump_once(&mut outbox, link),
        Err(_) => PostEnd::OutOfMemory,
    }
}

/// Opens a roster's day, and tries the notices that it owes. The disk is given back.
fn post_day<D: Disk + Drop, L: Link>(
    alloc: Global,
    roster: &Roster,
    disk: D,
    link: &mut L,
) -> (PostEnd, D)
    ensures day { EndsDay L.Link D.Disk roster.entry.now disk result.1 link.old link.new result.0 }
    ensures lasts { D.lasts disk result.1 }
{
    match Desk::open(alloc, disk, roster) {
        Ok(desk) => {
            let end = post_history(alloc, desk.entries(), link);
            (end, desk.close())
        }
        Err(refused) => {
            let (fault, back) = refused;
            (end_of(fault), back)
        }
    }
}

/// Opens the day of the roster that is the first line of a document, and tries each notice that the day's history owes its
/// bidders once, in the order of the entries that ask for them. The disk is given back; nothing is added to its history.
///
/// `Delivered` and `Pending`: all were tried, and none or some are pending. `Refused`: the first line isn't a roster, and
/// disk and link are as they were. `DiskFault` and `NoHistory`: the day wasn't opened, since the disk failed, whose count
/// rose then, or since its file represents no history of the roster. `OutOfMemory`: memory was refused; the first notices
/// may have been tried.
pub fn post_notices<D: Disk + Drop, L: Link>(
    alloc: Global,
    document: &[u8],
    disk: D,
    link: &mut L,
) -> (PostEnd, D)
    ensures ends { EndsPosting L.Link D.Disk document.now disk result.1 link.old link.new result.0 }
    ensures lasts { D.lasts disk result.1 }
{
    match first_roster(alloc, document) {
        Ok(roster) => post_day(alloc, &roster, disk, link),
        Err(RosterLineFault::Refused { why }) => (PostEnd::Refused { why }, disk),
        Err(RosterLineFault::OutOfMemory) => (PostEnd::OutOfMemory, disk),
    }
}
