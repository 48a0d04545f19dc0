//! A connection over a pair.
ghost use Rattle.std.specs.Prelude.{◌≡◌};
ghost use Rattle.adx_desk.specs.Rosters.{desk_terms};
ghost use Rattle.adx_desk.specs.Shared.{terms_in};
ghost use Rattle.exchange_messages.specs.Floors.{AreLanes, Gave, IsMomentOf};
ghost use Rattle.exchange_http.specs.Serving.{talked};
ghost use Rattle.http_service.specs.Connections.{HasCauses};
ghost use Rattle.meter_board.specs.Words.{list_read, seen};
ghost use Rattle.exchange_serving.specs.Showing.{ServesShown};
ghost use Rattle.turnstile.specs.Passes.{IsOf};
ghost use Rattle.exchange_serving.specs.Rounds.{IsWhole};

use crate::gathering::Gathers;
use crate::names::DayNames;
use crate::round::Boards;
use crate::showing::{Shown, serve_showing};
use crate::whole::{TapeNames, Whole};
use adx_desk::Desk;
use adx_http::Conn;
use adx_io::{Sink, Source};
use adx_links::Link;
use day_journal::Disk;
use deal_floor::Roster;
use exchange_messages::{Clock, Given, Round};
use fan_out::Lane;
use meter_board::MeterReader;
use shared_desk::SharedDesk;
use std::alloc::Global;
use std::marker::{Brand, PhantomData};
use std::sync::Wait;
use turnstile::Pass;

/// Serves a connection over a source that reported this.
fn talk_over<
    'b,
    R: Wait,
    S: Source,
    K: Sink,
    D: Disk + Drop,
    L: Link + Drop,
    C: Clock,
    G: Gathers<L>,
    J: DayNames<L>,
    T: TapeNames,
>(
    rt: &R,
    alloc: Global,
    roster: &Roster,
    desk: &SharedDesk<D>,
    board: &Boards<'b, R, D, L, J>,
    pass: &mut Pass<Desk<D>>,
    lanes: &mut Vec<Lane<L>>,
    kept: &mut Option<Conn>,
    source: &mut S,
    sink: &mut K,
    clock: &C,
    reader: &mut MeterReader,
    gather: &G,
) -> Shown
    requires tape { T.tape ≡ S.tape source.old }
    requires first { IsOf J.first desk.now }
    requires of { IsOf pass.old desk.now }
    requires opened { terms_in desk.now.fixed ≡ desk_terms roster.now }
    requires lanes { AreLanes roster.now lanes.old.items }
    requires reader { list_read reader.old ≡ J.book }
    requires ready { G.ready gather.now }
    ensures serves { ServesShown L.Link (IsMomentOf (C.moment clock.entry.now)) roster.entry.now
        (talked (S.tape source.old) (K.held sink.old)) (talked (S.tape source.new) (K.held sink.new))
        lanes.old.items lanes.new.items pass.old pass.new (seen reader.old) (seen reader.new) result.end result.short }
    ensures whole { IsWhole (S.tape source.old) (S.tape source.new) }
    ensures causes { HasCauses (S.faults source.old) (S.faults source.new) (K.faults sink.old) (K.faults sink.new) result.end }
    ensures lanes { AreLanes roster.entry.now lanes.new.items }
    ensures reader { list_read reader.new ≡ list_read reader.old }
{
    let mut whole: Whole<'_, S, T> = Whole {
        source,
        names: PhantomData,
    };
    let asks = |round: Round<'_, L>| -> Given<L>
        requires ready { G.ready gather.now }
        ensures { Gave L.Link round.entry result }
    { gather.gather(round) };
    serve_showing(
        rt, alloc, roster, desk, board, pass, lanes, kept, &mut whole, sink, clock, reader, &asks,
    )
}

/// Serves a connection over a pair's ends, by a pass of the desk. The source keeps its bytes.
pub(crate) fn talk<
    'b,
    R: Wait,
    S: Source,
    K: Sink,
    D: Disk + Drop,
    L: Link + Drop,
    C: Clock,
    G: Gathers<L>,
    J: DayNames<L>,
>(
    rt: &R,
    alloc: Global,
    roster: &Roster,
    desk: &SharedDesk<D>,
    board: &Boards<'b, R, D, L, J>,
    pass: &mut Pass<Desk<D>>,
    lanes: &mut Vec<Lane<L>>,
    kept: &mut Option<Conn>,
    source: &mut S,
    sink: &mut K,
    clock: &C,
    reader: &mut MeterReader,
    gather: &G,
) -> Shown
    requires first { IsOf J.first desk.now }
    requires of { IsOf pass.old desk.now }
    requires opened { terms_in desk.now.fixed ≡ desk_terms roster.now }
    requires lanes { AreLanes roster.now lanes.old.items }
    requires reader { list_read reader.old ≡ J.book }
    requires ready { G.ready gather.now }
    ensures serves { ServesShown L.Link (IsMomentOf (C.moment clock.entry.now)) roster.entry.now
        (talked (S.tape source.old) (K.held sink.old)) (talked (S.tape source.new) (K.held sink.new))
        lanes.old.items lanes.new.items pass.old pass.new (seen reader.old) (seen reader.new) result.end result.short }
    ensures whole { IsWhole (S.tape source.old) (S.tape source.new) }
    ensures causes { HasCauses (S.faults source.old) (S.faults source.new) (K.faults sink.old) (K.faults sink.new) result.end }
    ensures lanes { AreLanes roster.entry.now lanes.new.items }
    ensures reader { list_read reader.new ≡ list_read reader.old }
{
    talk_over::<R, S, K, D, L, C, G, J, Brand>(
        rt, alloc, roster, desk, board, pass, lanes, kept, source, sink, clock, reader, gather,
    )
}
