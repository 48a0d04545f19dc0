//! One connection, served on a desk of its own or by a pass of a shared one.
ghost use Rattle.std.specs.Prelude.{◌≡◌};
ghost use Rattle.adx_desk.specs.Rosters.{desk_terms};
ghost use Rattle.adx_desk.specs.Shared.{terms_in};
ghost use Rattle.exchange_messages.specs.Floors.{AreLanes};
ghost use Rattle.turnstile.specs.Passes.{IsOf, IsSamePass};

use crate::days::messages_of;
use crate::links::Waiting;
use adx_desk::Desk;
use adx_http::ConnEnd;
use adx_io::{MemorySink, MemorySource};
use adx_units::OutOfMemory;
use day_journal::MemoryDisk;
use day_rules::{MeterView, Meters};
use deal_floor::Roster;
use exchange_http::serve_connection;
use exchange_messages::FixedClock;
use exchange_serving::serve_shared;
use fan_out::Lane;
use shared_desk::SharedDesk;
use std::alloc::Global;
use std::marker::Sync;
use std::sync::Wait;
use std::thread::Threads;
use turnstile::Pass;

/// A desk on a disk in memory that threads share.
pub(crate) type Shared = SharedDesk<MemoryDisk>;

/// A pass of it.
pub(crate) type DeskPass = Pass<Desk<MemoryDisk>>;

/// Lanes to the two bidders.
pub(crate) type Lanes<'a> = Vec<Lane<Waiting<'a>>>;

/// Meters that no step was seen of.
#[derive(Drop)]
struct NoMeters {}

impl MeterView for NoMeters {
    ghost use Rattle.std.specs.Prelude.{[]};

    type Origin = ();

    ghost seen = { λ _. [] };

    ghost origin = { λ _. tt };

    fn read(&mut self) -> Meters {
        Meters::new()
    }
}

/// The moment of a connection, and of one that is long after.
const EARLY: u32 = 10;

const LATE: u32 = 4_000_000_000;

/// How a connection goes: its messages by their letters, whether it is long after others, how many bytes its source and sink
/// move at a call, and which of their calls fail.
#[derive(Clone, Copy)]
pub(crate) struct Course<'a> {
    pub(crate) messages: &'a [u8],
    pub(crate) is_late: bool,
    pub(crate) step: usize,
    pub(crate) source_fails: &'a [u64],
    pub(crate) sink_fails: &'a [u64],
}

/// These messages, and nothing fails.
pub(crate) const fn saying(messages: &[u8], is_late: bool) -> Course<'_> {
    Course {
        messages,
        is_late,
        step: 0,
        source_fails: &[],
        sink_fails: &[],
    }
}

/// The clock of a connection.
fn clock_of(course: Course<'_>) -> FixedClock {
    FixedClock::new(u64::from(if course.is_late { LATE } else { EARLY }))
}

/// The source of a connection.
fn source_of(alloc: Global, course: Course<'_>) -> Result<MemorySource, OutOfMemory> {
    let messages = messages_of(alloc, course.messages)?;
    MemorySource::new(alloc, messages.as_bytes(), course.step, course.source_fails)
}

/// Serves a connection on a desk of its own: how it ended, and the sink that has its replies.
pub(crate) fn serve_alone(
    alloc: Global,
    roster: &Roster,
    desk: &mut Desk<MemoryDisk>,
    lanes: &mut Lanes<'_>,
    course: Course<'_>,
) -> Result<(ConnEnd, MemorySink), OutOfMemory>
    requires terms { desk.old.desk.terms ≡ desk_terms roster.now }
    requires lanes { AreLanes roster.now lanes.old.items }
    ensures terms { desk.new.desk.terms ≡ desk.old.desk.terms }
    ensures lanes { AreLanes roster.entry.now lanes.new.items }
{
    let mut source = source_of(alloc, course)?;
    let mut sink = MemorySink::new(alloc, course.step, course.sink_fails)?;
    let clock = clock_of(course);
    let end = serve_connection(alloc, roster, desk, lanes, &mut source, &mut sink, &clock);
    Ok((end, sink))
}

/// Serves it by a pass of a shared desk.
pub(crate) fn serve_by<R: Wait + Threads + Sync>(
    rt: &R,
    alloc: Global,
    roster: &Roster,
    desk: &Shared,
    pass: &mut DeskPass,
    lanes: &mut Lanes<'_>,
    course: Course<'_>,
) -> Result<(ConnEnd, MemorySink), OutOfMemory>
    requires of { IsOf pass.old desk.now }
    requires opened { terms_in desk.now.fixed ≡ desk_terms roster.now }
    requires lanes { AreLanes roster.now lanes.old.items }
    ensures pass { IsSamePass pass.old pass.new }
    ensures lanes { AreLanes roster.entry.now lanes.new.items }
{
    let mut source = source_of(alloc, course)?;
    let mut sink = MemorySink::new(alloc, course.step, course.sink_fails)?;
    let clock = clock_of(course);
    let mut meters = NoMeters {};
    let end = serve_shared(
        rt,
        alloc,
        roster,
        desk,
        pass,
        lanes,
        &mut source,
        &mut sink,
        &clock,
        &mut meters,
    );
    Ok((end, sink))
}

/// Whether a connection ends in the same way on both desks, with the same replies.
pub(crate) fn is_same<R: Wait + Threads + Sync>(
    rt: &R,
    alloc: Global,
    roster: &Roster,
    desk: &Shared,
    pass: &mut DeskPass,
    other: &mut Desk<MemoryDisk>,
    lanes: &mut Lanes<'_>,
    course: Course<'_>,
) -> Result<bool, OutOfMemory>
    requires of { IsOf pass.old desk.now }
    requires opened { terms_in desk.now.fixed ≡ desk_terms roster.now }
    requires terms { other.old.desk.terms ≡ desk_terms roster.now }
    requires lanes { AreLanes roster.now lanes.old.items }
    ensures pass { IsSamePass pass.old pass.new }
    ensures terms { other.new.desk.terms ≡ other.old.desk.terms }
    ensures lanes { AreLanes roster.entry.now lanes.new.items }
{
    let (end, taken) = serve_by(rt, alloc, roster, desk, pass, lanes, course)?;
    let (other_end, other_taken) = serve_alone(alloc, roster, other, lanes, course)?;
    Ok(end == other_end && taken.taken() == other_taken.taken())
}
