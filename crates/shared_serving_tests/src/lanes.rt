//! The bidders of a connection on a shared desk are asked at the same time.
ghost use Rattle.std.specs.Prelude.{◌≡◌};
ghost use Rattle.adx_desk.specs.Rosters.{desk_terms};

use crate::days::{desk_of, roster_of};
use crate::links::{Starts, lanes_of};
use crate::serving::{saying, serve_alone, serve_by};
use adx_desk::Desk;
use adx_io::MemorySink;
use adx_units::OutOfMemory;
use day_journal::MemoryDisk;
use deal_floor::Roster;
use shared_desk::SharedDesk;
use std::alloc::Global;
use std::marker::Sync;
use std::sync::Wait;
use std::thread::Threads;

/// How often a start looks for that of the other bidder's link, which is called at the same time.
const LOOKS: u64 = 4_000_000_000;

/// How often it looks where the bidders are asked one after the other.
const FEW: u64 = 1000;

/// What these messages are replied on a desk of its own, with bidders whose starts look so often for each other.
fn alone_on(
    alloc: Global,
    roster: &Roster,
    desk: &mut Desk<MemoryDisk>,
    messages: &[u8],
    looks: u64,
) -> Result<MemorySink, OutOfMemory>
    requires { desk.old.desk.terms ≡ desk_terms roster.now }
{
    let starts = Starts::new(looks);
    let mut lanes = lanes_of(alloc, roster, &starts)?;
    let (_end, taken) = serve_alone(alloc, roster, desk, &mut lanes, saying(messages, false))?;
    Ok(taken)
}

/// The same on a new one.
fn alone(
    alloc: Global,
    roster: &Roster,
    messages: &[u8],
    looks: u64,
) -> Result<MemorySink, OutOfMemory> {
    let mut desk = desk_of(alloc, roster, &[])?;
    alone_on(alloc, roster, &mut desk, messages, looks)
}

/// What they are replied on a desk that is shared then, with bidders of which each waits until the other is asked.
fn shared_on<R: Wait + Threads + Sync>(
    rt: &R,
    alloc: Global,
    roster: &Roster,
    desk: Desk<MemoryDisk>,
    messages: &[u8],
) -> Result<MemorySink, OutOfMemory>
    requires { desk.desk.terms ≡ desk_terms roster.now }
{
    let (shared, mut pass) = SharedDesk::new(alloc, desk)?;
    let starts = Starts::new(LOOKS);
    let mut lanes = lanes_of(alloc, roster, &starts)?;
    let course = saying(messages, false);
    let (_end, taken) = serve_by(rt, alloc, roster, &shared, &mut pass, &mut lanes, course)?;
    Ok(taken)
}

/// The same on a new one.
fn shared<R: Wait + Threads + Sync>(
    rt: &R,
    alloc: Global,
    roster: &Roster,
    messages: &[u8],
) -> Result<MemorySink, OutOfMemory> {
    let desk = desk_of(alloc, roster, &[])?;
    shared_on(rt, alloc, roster, desk, messages)
}

/// Whether these messages are replied as by bidders that wait for nobody: on a shared desk, and on one of its own, with
/// bidders that wait for each other.
fn are_replied_on<R: Wait + Threads + Sync>(
    rt: &R,
    alloc: Global,
    roster: &Roster,
    messages: &[u8],
) -> Result<[bool; 2], OutOfMemory> {
    let wanted = alone(alloc, roster, messages, 0)?;
    let shared = shared(rt, alloc, roster, messages)?;
    let in_turn = alone(alloc, roster, messages, FEW)?;
    Ok([
        shared.taken() == wanted.taken(),
        in_turn.taken() == wanted.taken(),
    ])
}

/// The same on the day's roster.
fn are_replied<R: Wait + Threads + Sync>(
    rt: &R,
    alloc: Global,
    messages: &[u8],
) -> Result<[bool; 2], OutOfMemory> {
    let roster = roster_of(alloc)?;
    are_replied_on(rt, alloc, &roster, messages)
}

#[test]
fn bidders_are_asked_at_the_same_time(rt: HostRuntime) {
    for messages in [b"aad", b"abd", b"aed"] {
        assert_eq!(rt; are_replied(&rt, rt.alloc(), messages), Ok([true, false]));
    }
}
