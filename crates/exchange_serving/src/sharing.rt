//! A connection on a desk that threads share.
ghost use Rattle.std.specs.Prelude.{◌≡◌};
ghost use Rattle.adx_desk.specs.Rosters.{desk_terms};
ghost use Rattle.adx_desk.specs.Shared.{terms_in};
ghost use Rattle.http_service.specs.Connections.{HasCauses};
ghost use Rattle.turnstile.specs.Passes.{IsOf};
ghost use Rattle.exchange_messages.specs.Floors.{AreLanes, Gave, IsMomentOf};
ghost use Rattle.exchange_http.specs.Serving.{talked};
ghost use Rattle.exchange_serving.specs.Sharing.{ServesLent, ServesShared};

use adx_desk::{DayDesk, Desk};
use adx_http::{Conn, ConnEnd};
use adx_io::{Sink, Source};
use adx_links::Link;
use day_journal::Disk;
use day_rules::MeterView;
use deal_floor::Roster;
use exchange_http::serve_floor;
use exchange_messages::{Clock, Floor, Given, Round, at_once};
use fan_out::Lane;
use shared_desk::{LentDesk, PassDesk, SharedDesk};
use std::alloc::Global;
use std::marker::{Send, Sync};
use std::sync::Wait;
use std::thread::Threads;
use turnstile::Pass;

/// Serves a connection on a desk that is lent, with bidders that are asked by `gather`.
pub(crate) fn serve_lent<
    'a,
    Y: DayDesk,
    S: Source,
    K: Sink,
    L: Link + Drop,
    C: Clock,
    F: Fn(Round<'_, L>) -> Given<L>,
>(
    alloc: Global,
    roster: &'a Roster,
    desk: &'a mut Y,
    links: &'a mut Vec<Lane<L>>,
    kept: &mut Option<Conn>,
    source: &mut S,
    sink: &mut K,
    clock: &'a C,
    gather: &'a F,
) -> ConnEnd
    requires terms { Y.terms desk.old ≡ desk_terms roster.now }
    requires lanes { AreLanes roster.now links.old.items }
    requires always { F.IsAlwaysCallable gather.now }
    requires gives { (x y : _) → F.post gather.now x y → Gave L.Link x y }
    ensures serves { ServesLent Y.DayDesk L.Link (IsMomentOf (C.moment clock.entry.now)) roster.entry.now
        (talked (S.tape source.old) (K.held sink.old)) (talked (S.tape source.new) (K.held sink.new))
        links.old.items links.new.items desk.old desk.new result }
    ensures place { Y.place desk.new ≡ Y.place desk.old }
    ensures causes { HasCauses (S.faults source.old) (S.faults source.new) (K.faults sink.old) (K.faults sink.new) result }
    ensures lanes { AreLanes roster.entry.now links.new.items }
    ensures source { S.place source.new ≡ S.place source.old }
    ensures sink { K.place sink.new ≡ K.place sink.old }
{
    let mut floor = Floor {
        roster,
        desk: LentDesk { desk },
        lanes: links,
        clock,
        gatherer: |round: Round<'_, L>| -> Given<L>
            requires always { F.IsAlwaysCallable gather.now }
            requires gives { (x y : _) → F.post gather.now x y → Gave L.Link x y }
            ensures { Gave L.Link round.entry result }
        { gather(round) },
    };
    serve_floor(alloc, &mut floor, kept, source, sink)
}

/// Serves a connection as `serve_shared` does, with bidders that are asked by `gather`: it works the lanes of a round, and
/// gives them back with what their bidders answered. So it may be called where nothing may be sent to another thread. `kept` is
/// room for messages that goes from one connection to the next; where it is None it is made.
pub fn serve_gathering<
    'a,
    R: Wait,
    S: Source,
    K: Sink,
    D: Disk + Drop,
    L: Link + Drop,
    C: Clock,
    M: MeterView,
    F: Fn(Round<'_, L>) -> Given<L>,
>(
    rt: &'a R,
    alloc: Global,
    roster: &'a Roster,
    desk: &'a SharedDesk<D>,
    pass: &'a mut Pass<Desk<D>>,
    links: &'a mut Vec<Lane<L>>,
    kept: &mut Option<Conn>,
    source: &mut S,
    sink: &mut K,
    clock: &'a C,
    meters: &'a mut M,
    gather: &'a F,
) -> ConnEnd
    requires of { IsOf pass.old desk.now }
    requires opened { terms_in desk.now.fixed ≡ desk_terms roster.now }
    requires lanes { AreLanes roster.now links.old.items }
    requires always { F.IsAlwaysCallable gather.now }
    requires gives { (x y : _) → F.post gather.now x y → Gave L.Link x y }
    ensures serves { ServesShared L.Link (IsMomentOf (C.moment clock.entry.now)) roster.entry.now
        (talked (S.tape source.old) (K.held sink.old)) (talked (S.tape source.new) (K.held sink.new))
        links.old.items links.new.items pass.old pass.new (M.seen meters.old) (M.seen meters.new) result }
    ensures causes { HasCauses (S.faults source.old) (S.faults source.new) (K.faults sink.old) (K.faults sink.new) result }
    ensures lanes { AreLanes roster.entry.now links.new.items }
    ensures source { S.place source.new ≡ S.place source.old }
    ensures sink { K.place sink.new ≡ K.place sink.old }
    ensures origin { M.origin meters.new ≡ M.origin meters.old }
{
    let mut own = PassDesk {
        alloc: &alloc,
        rt,
        shared: desk,
        pass,
        roster,
        view: meters,
    };
    serve_lent(
        alloc, roster, &mut own, links, kept, source, sink, clock, gather,
    )
}

/// Serves a connection as `serve_connection` does, by a pass of a desk that threads share. Others may call the desk between
/// two calls of this one: each reply is that of the history at its own call. A batch of notices is taken with no call of
/// another between them. Bidders are asked at the same time, each in a thread of its own where one can be started, and the
/// reply to `/meters` is what `meters` reads.
///
/// `desk` is the shared desk of `roster`, `pass` one of its passes, and `links` has a lane for each bidder of the roster. It
/// ends as `serve_connection` does. A fault of the disk is answered by a reply, and the connection goes on.
pub fn serve_shared<
    'a,
    R: Wait + Threads + Sync,
    S: Source,
    K: Sink,
    D: Disk + Drop,
    L: Link + Send + Drop,
    C: Clock,
    M: MeterView,
>(
    rt: &'a R,
    alloc: Global,
    roster: &'a Roster,
    desk: &'a SharedDesk<D>,
    pass: &'a mut Pass<Desk<D>>,
    links: &'a mut Vec<Lane<L>>,
    source: &mut S,
    sink: &mut K,
    clock: &'a C,
    meters: &'a mut M,
) -> ConnEnd
    requires of { IsOf pass.old desk.now }
    requires opened { terms_in desk.now.fixed ≡ desk_terms roster.now }
    requires lanes { AreLanes roster.now links.old.items }
    ensures serves { ServesShared L.Link (IsMomentOf (C.moment clock.entry.now)) roster.entry.now
        (talked (S.tape source.old) (K.held sink.old)) (talked (S.tape source.new) (K.held sink.new))
        links.old.items links.new.items pass.old pass.new (M.seen meters.old) (M.seen meters.new) result }
    ensures causes { HasCauses (S.faults source.old) (S.faults source.new) (K.faults sink.old) (K.faults sink.new) result }
    ensures lanes { AreLanes roster.entry.now links.new.items }
    ensures source { S.place source.new ≡ S.place source.old }
    ensures sink { K.place sink.new ≡ K.place sink.old }
    ensures origin { M.origin meters.new ≡ M.origin meters.old }
{
    let gather = |round: Round<'_, L>| -> Given<L>
        ensures { Gave L.Link round.entry result }
    { at_once(rt, alloc, round) };
    serve_gathering(
        rt, alloc, roster, desk, pass, links, &mut None, source, sink, clock, meters, &gather,
    )
}
