//! A connection, from its first message to its end.
ghost use Rattle.std.specs.Prelude.{◌≡◌, ◌≤◌, [], drop, false, IfOk, vec_capacity};
ghost use Rattle.adx_desk.specs.Rosters.{desk_terms};
ghost use Rattle.http_service.specs.Connections.{HasCauses};
ghost use Rattle.http_service.specs.declared.limits.TheConstants.{REQUEST_LIMIT as request_limit};
ghost use Rattle.exchange_messages.specs.Floors.{AreLanes, Gave, IsFloor, IsKept, IsMomentOf};
ghost use Rattle.exchange_http.specs.Going.{EndsOn};
ghost use Rattle.exchange_http.specs.Running.{IsSettled};
ghost use Rattle.exchange_http.specs.Serving.{ServesConnection, ServesFloor, talked};
ghost use Rattle.exchange_http.specs.declared.outgoing.TheConstants.{ROOM as room_size};

use crate::ending::finish;
use crate::keeping::Keeping;
use crate::messages::serve_all;
use crate::outgoing::{Outgoing, room};
use crate::outlet::Outlet;
use crate::own_desk::OwnDesk;
use crate::stop::Stop;
use crate::waiting::Waiting;
use adx_desk::{DayDesk, Desk};
use adx_http::{Conn, ConnEnd};
use adx_io::{Sink, Source};
use adx_links::Link;
use adx_units::OutOfMemory;
use day_journal::Disk;
use deal_floor::Roster;
use exchange_messages::{Clock, Floor, Given, Round, in_turn};
use fan_out::Lane;
use http_service::REQUEST_LIMIT;
use std::alloc::Global;

/// Nothing waits, and nothing is gathered for the sink.
fn keeping_over<K: Sink>(
    alloc: Global,
    waiting: Waiting,
    bytes: Vec<u8>,
    sink: K,
) -> Keeping<Outgoing<K>>
    requires none { waiting.batch.calls ≡ [] }
    requires bytes { bytes.items ≡ [] }
    requires room { room_size ≤ vec_capacity bytes }
    ensures none { result.waiting.batch.calls ≡ [] }
    ensures sink { result.outlet.sink ≡ sink }
    ensures settled { (drop result.outlet.put result.outlet.bytes.items ≡ []) × (result.outlet.waiting ≡ 0) × (result.outlet.settled.value ≡ sink) }
{
    Keeping {
        waiting,
        outlet: Outgoing::over(bytes, sink),
        body: String::new(alloc),
    }
}

/// Gives back the sink.
fn close<K: Sink + Drop>(keeping: Keeping<Outgoing<K>>) -> K
    ensures { result ≡ keeping.outlet.sink }
{
    keeping.outlet.close()
}

/// Serves the messages of a connection, and ends it.
fn serve_over<
    Y: DayDesk,
    L: Link + Drop,
    C: Clock,
    F: Fn(Round<'_, L>) -> Given<L>,
    S: Source,
    O: Outlet,
>(
    alloc: Global,
    floor: &mut Floor<'_, Y, L, C, F>,
    keeping: &mut Keeping<O>,
    conn: &mut Conn,
    source: &mut S,
) -> ConnEnd
    requires floor { IsFloor Y.DayDesk floor.old }
    requires always { F.IsAlwaysCallable floor.old.gatherer }
    requires gives { (x y : _) → F.post floor.old.gatherer x y → Gave L.Link x y }
    requires conn { conn.old ≡ record { held = []; failed = false; limit = request_limit } }
    requires none { keeping.old.waiting.batch.calls ≡ [] }
    requires settled { IsSettled (O.held keeping.old.outlet) (O.left keeping.old.outlet) (O.least keeping.old.outlet) }
    ensures ends { EndsOn Y.DayDesk L.Link C.Clock O.Outlet
        floor.old floor.old.desk floor.old.lanes.now.items (S.tape source.old) (S.tape source.new) (O.held keeping.old.outlet)
        floor.new keeping.new.outlet result }
    ensures floor { IsFloor Y.DayDesk floor.new }
    ensures kept { IsKept Y.DayDesk floor.old floor.new }
    ensures causes { HasCauses (S.faults source.old) (S.faults source.new) (O.faults keeping.old.outlet) (O.faults keeping.new.outlet) result }
    ensures source { S.place source.new ≡ S.place source.old }
    ensures place { O.place keeping.new.outlet ≡ O.place keeping.old.outlet }
{
    match serve_all(alloc, floor, keeping, conn, source) {
        Ok(over) => match finish(floor, keeping, over) {
            Ok(end) => end,
            Err(_) => ConnEnd::WriteFault,
        },
        Err(Stop::WriteFault) => ConnEnd::WriteFault,
        Err(Stop::OutOfMemory) => ConnEnd::OutOfMemory,
        Err(Stop::ReadFault) => ConnEnd::ReadFault,
    }
}

/// The room of an earlier connection, emptied, or else new room.
fn conn_of(alloc: Global, kept: &mut Option<Conn>) -> Result<Conn, OutOfMemory>
    ensures { IfOk result (λ c. c ≡ record { held = []; failed = false; limit = request_limit }) }
{
    if let Some(mut conn) = kept.take() {
        if conn.clear_for(REQUEST_LIMIT) {
            return Ok(conn);
        }
    }
    Conn::new(alloc, REQUEST_LIMIT)
}

/// Serves a connection on a floor, over any desk that one calls: what `serve_connection` does, with the floor's desk and with
/// its lanes asked as the floor asks them. Memory that is refused before the first message (`OutOfMemory`) leaves all as it was.
/// `kept` is room for messages that goes from one connection to the next; where it is None it is made.
pub fn serve_floor<
    Y: DayDesk,
    L: Link + Drop,
    C: Clock,
    F: Fn(Round<'_, L>) -> Given<L>,
    S: Source,
    K: Sink,
>(
    alloc: Global,
    floor: &mut Floor<'_, Y, L, C, F>,
    kept: &mut Option<Conn>,
    source: &mut S,
    sink: &mut K,
) -> ConnEnd
    requires floor { IsFloor Y.DayDesk floor.old }
    requires always { F.IsAlwaysCallable floor.old.gatherer }
    requires gives { (x y : _) → F.post floor.old.gatherer x y → Gave L.Link x y }
    ensures serves { ServesFloor Y.DayDesk L.Link C.Clock floor.old floor.new
        (talked (S.tape source.old) (K.held sink.old)) (talked (S.tape source.new) (K.held sink.new)) result }
    ensures floor { IsFloor Y.DayDesk floor.new }
    ensures kept { IsKept Y.DayDesk floor.old floor.new }
    ensures causes { HasCauses (S.faults source.old) (S.faults source.new) (K.faults sink.old) (K.faults sink.new) result }
    ensures source { S.place source.new ≡ S.place source.old }
    ensures sink { K.place sink.new ≡ K.place sink.old }
{
    let Ok(mut conn) = conn_of(alloc, kept) else {
        return ConnEnd::OutOfMemory;
    };
    let Ok(waiting) = Waiting::new(alloc) else {
        return ConnEnd::OutOfMemory;
    };
    let Ok(bytes) = room(alloc) else {
        return ConnEnd::OutOfMemory;
    };
    let mut keeping = keeping_over(alloc, waiting, bytes, &mut *sink);
    let end = serve_over(alloc, floor, &mut keeping, &mut conn, source);
    let _ = close(keeping);
    *kept = Some(conn);
    end
}

/// Serves a connection of an exchange: reads messages from the source, and puts the reply to each into the sink, in their
/// order. A request for bids at `/openrtb` is looked up; where it is new every lane's bidder is asked; then the clock is
/// read, the desk ticks and takes the ask at that moment. Notices that are whole in what was taken are taken together,
/// up to 32 of them in one record of the journal, and one by one where the disk failed at that. What was written is put
/// before more is taken from the source and before bidders are asked, and the sink has the replies to all
/// messages whose calls were made but at most the last 32.
///
/// Ends with the source between two messages, or after a reply that says `close` (`Closed`); within a message (`Cut`); at
/// a message that is refused, its reply written (`Refused`); at a fault of the source or of the sink, whose count rose
/// (`ReadFault`, `WriteFault`); after `MESSAGE_LIMIT` messages (`Spent`); or where memory is refused (`OutOfMemory`), the
/// replies to all messages before put. A fault of the disk is answered by a reply, and the connection goes on.
pub fn serve_connection<'a, S: Source, K: Sink, D: Disk, L: Link + Drop, C: Clock>(
    alloc: Global,
    roster: &'a Roster,
    desk: &'a mut Desk<D>,
    links: &'a mut Vec<Lane<L>>,
    source: &mut S,
    sink: &mut K,
    clock: &'a C,
) -> ConnEnd
    requires terms { desk.old.desk.terms ≡ desk_terms roster.now }
    requires lanes { AreLanes roster.now links.old.items }
    ensures serves { ServesConnection D.Disk L.Link (IsMomentOf (C.moment clock.entry.now)) roster.entry.now
        (talked (S.tape source.old) (K.held sink.old)) (talked (S.tape source.new) (K.held sink.new)) links.old.items links.new.items desk.old desk.new result }
    ensures causes { HasCauses (S.faults source.old) (S.faults source.new) (K.faults sink.old) (K.faults sink.new) result }
    ensures lanes { AreLanes roster.entry.now links.new.items }
    ensures lasts { D.lasts desk.old.disk desk.new.disk }
    ensures source { S.place source.new ≡ S.place source.old }
    ensures sink { K.place sink.new ≡ K.place sink.old }
{
    // A desk's history is legal.
    let _entries = desk.entries();
    let mut floor = Floor {
        roster,
        desk: OwnDesk { desk },
        lanes: links,
        clock,
        gatherer: |round: Round<'_, L>| -> Given<L>
            ensures { Gave L.Link round.entry result }
        { in_turn(alloc, round) },
    };
    serve_floor(alloc, &mut floor, &mut None, source, sink)
}
