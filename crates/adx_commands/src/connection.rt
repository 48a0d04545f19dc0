//! An exchange's run: its roster line, and the connection after it.
ghost use Rattle.std.specs.Prelude.{◌≡◌, ◌≢◌, ◌≤◌, [], length, Ok, Err, Some};
ghost use Rattle.adx_desk.specs.Rosters.{desk_terms};
ghost use Rattle.adx_io.specs.Lines.{TookLast, tape_behind};
ghost use Rattle.adx_io.specs.Talk.{HasCauses};
ghost use Rattle.adx_io.specs.TalkState.{place_of, state_of};
ghost use Rattle.adx_io.specs.declared.line_buffer.TheConstants.{CHUNK};
ghost use Rattle.adx_commands.specs.Exchanges.{Day, LeavesDay, means};
ghost use Rattle.adx_commands.specs.ConnRuns.{ConnRuns};
ghost use Rattle.adx_commands.specs.ConnSteps.{EndsConn, ServesDesk};
ghost use Rattle.command_runs.specs.Talks.{TalkWrote};
ghost use Rattle.command_runs.specs.declared.outcome.Outcome.TheVariants.{Done, DiskFault as FaultOfDisk};
ghost use Rattle.exchange_messages.specs.Floors.{AreLanes, IsMomentOf};
ghost use Rattle.exchange_http.specs.Serving.{ServesConnection, talked};
ghost use Rattle.http_connection.specs.declared.conn.ConnEnd.TheVariants.{ReadFault as ConnReadFault};
ghost use Rattle.http_service.specs.Connections.{HasCauses as ConnCauses};

use crate::text_lanes::roster_lanes;
use adx_desk::Desk;
use adx_io::{LineBuffer, Lines, Sink, Source, Stop, Talk};
use adx_links::Link;
use command_runs::Outcome;
use day_journal::Disk;
use deal_floor::Roster;
use exchange_http::serve_connection;
use exchange_messages::FixedClock;
use fan_out::Lane;
use history_runs::{OnRoster, run_on_roster, tell_unopened};
use http_connection::ConnEnd;
use std::alloc::Global;
use std::snapshot::Snapshot;

/// How the run ends that was read to the end of its connection, on a desk that counted so many faults of its disk.
fn at_end(faults: u64) -> Result<Outcome, Stop>
    ensures passed { faults ≡ 0 → result ≡ Ok Done }
    ensures failed { faults ≢ 0 → result ≡ Ok FaultOfDisk }
{
    if faults == 0 {
        return Ok(Outcome::Done);
    }
    Ok(Outcome::DiskFault)
}

/// How the run ends whose connection ended so, on a desk that counted so many faults of its disk.
fn result_of(end: ConnEnd, faults: u64) -> Result<Outcome, Stop>
    ensures { EndsConn end faults result }
{
    match end {
        ConnEnd::Closed => at_end(faults),
        ConnEnd::Cut => at_end(faults),
        ConnEnd::Refused { .. } => at_end(faults),
        ConnEnd::Spent => at_end(faults),
        ConnEnd::ReadFault => Err(Stop::ReadFault),
        ConnEnd::WriteFault => Err(Stop::WriteFault),
        ConnEnd::OutOfMemory => Err(Stop::OutOfMemory),
    }
}

/// The clock of a roster's day.
fn clock_of(roster: &Roster) -> FixedClock
    ensures { result.moment ≡ roster.entry.now.now }
{
    FixedClock::new(roster.now)
}

/// Serves the connection that comes after what the buffer looked at.
fn serve_rest<S: Source, K: Sink, D: Disk, L: Link + Drop>(
    alloc: Global,
    roster: &Roster,
    desk: &mut Desk<D>,
    lanes: &mut Vec<Lane<L>>,
    source: &mut S,
    buffer: &mut LineBuffer,
    sink: &mut K,
) -> ConnEnd
    requires terms { desk.old.desk.terms ≡ desk_terms roster.now }
    requires lanes { AreLanes roster.now lanes.old.items }
    requires last { TookLast (S.tape source.old) buffer.old.pending }
    requires ahead { length buffer.old.pending ≤ CHUNK }
    ensures last { TookLast (S.tape source.new) buffer.new.pending }
    ensures ahead { length buffer.new.pending ≤ CHUNK }
    ensures read_out { result ≡ ConnReadFault → buffer.new.pending ≡ [] }
    ensures serves { ServesConnection D.Disk L.Link (IsMomentOf (Some roster.entry.now.now)) roster.entry.now
        (talked (tape_behind buffer.old.pending (S.tape source.old)) (K.held sink.old))
        (talked (tape_behind buffer.new.pending (S.tape source.new)) (K.held sink.new))
        lanes.old.items lanes.new.items desk.old desk.new result }
    ensures causes { ConnCauses (S.faults source.old) (S.faults source.new) (K.faults sink.old) (K.faults sink.new) result }
    ensures lasts { D.lasts desk.old.disk desk.new.disk }
    ensures source_same { S.place source.new ≡ S.place source.old }
    ensures sink_same { K.place sink.new ≡ K.place sink.old }
{
    let clock = clock_of(roster);
    let since = Snapshot::of(&*source);
    let mut rest = Lines::over(source, buffer, &since, 0);
    serve_connection(alloc, roster, desk, lanes, &mut rest, sink, &clock)
}

/// Serves the connection that comes after the roster line, on the day's desk.
fn serve_after<S: Source, K: Sink, D: Disk, L: Link + Drop>(
    alloc: Global,
    roster: &Roster,
    desk: &mut Desk<D>,
    lanes: &mut Vec<Lane<L>>,
    talk: &mut Talk<'_, S, K>,
) -> Result<Outcome, Stop>
    requires terms { desk.old.desk.terms ≡ desk_terms roster.now }
    requires lanes { AreLanes roster.now lanes.old.items }
    requires ahead { length talk.old.buffer.now.pending ≤ CHUNK }
    ensures ends { ServesDesk D.Disk L.Link roster.entry.now
        (state_of talk.old).tape (S.tape talk.new.source.now) (K.held talk.old.sink.now) (K.held talk.new.sink.now)
        lanes.old.items lanes.new.items desk.old desk.new result }
    ensures causes { HasCauses (state_of talk.old) (state_of talk.new) result }
    ensures lasts { D.lasts desk.old.disk desk.new.disk }
    ensures same { place_of talk.new ≡ place_of talk.old }
{
    let end = serve_rest(
        alloc,
        roster,
        desk,
        lanes,
        talk.source,
        talk.buffer,
        talk.sink,
    );
    result_of(end, desk.faults())
}

/// Serves the day of a roster: opens it on its disk, and serves the connection after the roster's line.
fn serve_roster<S: Source, K: Sink, D: Disk>(
    alloc: Global,
    roster: &Roster,
    disk: &mut D,
    talk: &mut Talk<'_, S, K>,
) -> Result<Outcome, Stop>
    requires unwritten { (state_of talk.old).out ≡ [] }
    requires ahead { length talk.old.buffer.now.pending ≤ CHUNK }
    ensures ran { (day : Day) × LeavesDay D.Disk roster.entry.now day disk.old disk.new result
        × TalkWrote (means roster.entry.now day) talk.old talk.new result }
    ensures lasts { D.lasts disk.old disk.new }
    ensures causes { HasCauses (state_of talk.old) (state_of talk.new) result }
    ensures same { place_of talk.new ≡ place_of talk.old }
{
    let mut lanes = roster_lanes(alloc, roster)?;
    match Desk::open(alloc, &mut *disk, roster) {
        Ok(desk) => {
            let mut desk = desk;
            let ended = serve_after(alloc, roster, &mut desk, &mut lanes, talk);
            let _ = desk.leave();
            ended
        }
        Err(refused) => {
            let (fault, _) = refused;
            tell_unopened(talk, &fault)
        }
    }
}

/// The command that serves an exchange on one connection.
#[derive(Drop)]
struct Exchanging;

impl<D: Disk> OnRoster<D> for Exchanging {
    ghost use Rattle.adx_commands.specs.Exchanges.{Day, LeavesDay, means};

    ghost course = { Day };

    ghost meaning = { λ r allowed day. means r day };

    ghost leaves = { λ _ r day old new result. LeavesDay D.Disk r day old new result };

    fn run_day<S: Source, K: Sink>(
        &self,
        alloc: Global,
        roster: &Roster,
        disk: &mut D,
        talk: &mut Talk<'_, S, K>,
    ) -> Result<Outcome, Stop> {
        serve_roster(alloc, roster, disk, talk)
    }
}

/// Serves a day of an exchange on one connection, on a disk.
///
/// The roster line is the first of the source. The roster's day is opened by the history that the disk's file represents, and
/// the HTTP connection that comes after the line is served on it, to its end. The roster's bidders answer by its `replies`,
/// and its `now` is the moment of every request. An entry is in the journal before its reply is put, and what was replied is
/// put before more is asked of the source.
///
/// `Done`: the connection was read to an end of its own, all replies were put, and the disk met no fault. `Refused`: the first
/// line isn't a roster's, and the sink took the line that says why. `DiskFault`: the disk failed while the day was opened, and
/// then the sink took nothing; or in a call or a record of notices that waited together, and then the connection was read to
/// its end and all replies were put. `NoHistory`: the disk's file isn't a journal of the roster's day, and the sink took a line
/// that says why. No other outcome comes. `Err`: the source or the sink failed, whose count rose then, or memory was refused.
/// Where the source failed, the sink took the replies to all whole messages that were taken of it; where the sink failed, all
/// replies but those to the last messages, at most 32, and a prefix of those.
pub fn run_conn<S: Source, K: Sink, D: Disk>(
    alloc: Global,
    source: &mut S,
    sink: &mut K,
    disk: &mut D,
) -> Result<Outcome, Stop>
    ensures runs { ConnRuns S.Source K.Sink D.Disk source.old source.new sink.old sink.new disk.old disk.new result }
    ensures lasts { D.lasts disk.old disk.new }
{
    run_on_roster(alloc, &Exchanging, source, sink, disk)
}
