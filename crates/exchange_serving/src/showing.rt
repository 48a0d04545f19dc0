//! A connection on a desk whose board shows its meters.
ghost use Rattle.std.specs.Prelude.{◌≡◌};
ghost use Rattle.adx_desk.specs.Rosters.{desk_terms};
ghost use Rattle.adx_desk.specs.Shared.{terms_in};
ghost use Rattle.exchange_http.specs.Serving.{talked};
ghost use Rattle.exchange_messages.specs.Floors.{AreLanes, Gave, IsMomentOf};
ghost use Rattle.exchange_serving.specs.Showing.{ServesShown};
ghost use Rattle.http_service.specs.Connections.{HasCauses};
ghost use Rattle.meter_board.specs.Words.{list_read, seen};
ghost use Rattle.turnstile.specs.Passes.{IsOf};

use crate::board_desk::BoardDesk;
use crate::names::DayNames;
use crate::round::Boards;
use crate::sharing::serve_lent;
use adx_desk::Desk;
use adx_http::{Conn, ConnEnd};
use adx_io::{Sink, Source};
use adx_links::Link;
use day_journal::Disk;
use deal_floor::Roster;
use exchange_messages::{Clock, Given, Round};
use fan_out::Lane;
use meter_board::MeterReader;
use shared_desk::{PassDesk, SharedDesk};
use std::alloc::Global;
use std::sync::Wait;
use turnstile::Pass;

/// How a connection ended, and whether memory was refused for showing it meters.
#[derive(Clone, Copy)]
pub(crate) struct Shown {
    pub(crate) end: ConnEnd,
    pub(crate) short: bool,
}

/// Serves a connection by a pass and its reader. Its replies to `/meters` are those of all that the desk has at the message.
pub(crate) fn serve_showing<
    'a,
    'b,
    R: Wait,
    S: Source,
    K: Sink,
    D: Disk + Drop,
    L: Link + Drop,
    C: Clock,
    J: DayNames<L>,
    F: Fn(Round<'_, L>) -> Given<L>,
>(
    rt: &'a R,
    alloc: Global,
    roster: &'a Roster,
    desk: &'a SharedDesk<D>,
    board: &'a Boards<'b, R, D, L, J>,
    pass: &'a mut Pass<Desk<D>>,
    links: &'a mut Vec<Lane<L>>,
    kept: &mut Option<Conn>,
    source: &mut S,
    sink: &mut K,
    clock: &'a C,
    reader: &'a mut MeterReader,
    gather: &'a F,
) -> Shown
    requires first { IsOf J.first desk.now }
    requires of { IsOf pass.old desk.now }
    requires opened { terms_in desk.now.fixed ≡ desk_terms roster.now }
    requires lanes { AreLanes roster.now links.old.items }
    requires reader { list_read reader.old ≡ J.book }
    requires always { F.IsAlwaysCallable gather.now }
    requires gives { (x y : _) → F.post gather.now x y → Gave L.Link x y }
    ensures serves { ServesShown L.Link (IsMomentOf (C.moment clock.entry.now)) roster.entry.now
        (talked (S.tape source.old) (K.held sink.old)) (talked (S.tape source.new) (K.held sink.new))
        links.old.items links.new.items pass.old pass.new (seen reader.old) (seen reader.new) result.end result.short }
    ensures causes { HasCauses (S.faults source.old) (S.faults source.new) (K.faults sink.old) (K.faults sink.new) result.end }
    ensures lanes { AreLanes roster.entry.now links.new.items }
    ensures source { S.place source.new ≡ S.place source.old }
    ensures sink { K.place sink.new ≡ K.place sink.old }
    ensures reader { list_read reader.new ≡ list_read reader.old }
{
    let mut lent = BoardDesk {
        own: PassDesk {
            alloc: &alloc,
            rt,
            shared: desk,
            pass,
            roster,
            view: reader,
        },
        board,
        short: false,
    };
    let end = serve_lent(
        alloc, roster, &mut lent, links, kept, source, sink, clock, gather,
    );
    Shown {
        end,
        short: lent.short,
    }
}
