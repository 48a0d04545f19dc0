//! One round of a worker: a connection between two looks at the board.
ghost use Rattle.std.specs.Prelude.{◌≡◌, length};
ghost use Rattle.adx_links.specs.Told.{pair_by};
ghost use Rattle.adx_desk.specs.Rosters.{desk_terms};
ghost use Rattle.adx_desk.specs.Shared.{terms_in};
ghost use Rattle.exchange_messages.specs.Floors.{AreLanes, IsMomentOf};
ghost use Rattle.meter_board.specs.Words.{list_read, seen};
ghost use Rattle.turnstile.specs.Passes.{IsOf};
ghost use Rattle.exchange_serving.specs.Rounds.{IsRound, is_out_of_memory};

use crate::gathering::Gathers;
use crate::names::{Day, DayNames};
use crate::talking::talk;
use adx_desk::Desk;
use adx_http::{Conn, ConnEnd};
use adx_io::{Sink, Source};
use adx_links::Link;
use day_journal::Disk;
use deal_floor::Roster;
use desk_board::SharedBoard;
use exchange_messages::Clock;
use fan_out::Lane;
use meter_board::MeterReader;
use shared_desk::SharedDesk;
use std::alloc::Global;
use std::sync::{Mutex, Wait};
use turnstile::Pass;

/// The board of a day, under its lock.
pub(crate) type Boards<'a, R, D, L, J> = Mutex<SharedBoard<&'a R, D, Day<L, J>>>;

/// Memory was refused to the connection.
fn is_short(end: ConnEnd) -> bool
    ensures { result ≡ is_out_of_memory end }
{
    match end {
        ConnEnd::OutOfMemory => true,
        ConnEnd::Closed
        | ConnEnd::Cut
        | ConnEnd::Refused { .. }
        | ConnEnd::ReadFault
        | ConnEnd::WriteFault
        | ConnEnd::Spent => false,
    }
}

/// Serves a pair by a pass, and says whether memory was refused for it. Before the connection, at each message that asks for the
/// meters, and after the connection what the pass has seen is published, and the reader learns of it; where that is refused before,
/// the connection isn't begun.
pub(crate) fn serve_pair<
    'a,
    R: Wait,
    S: Source,
    K: Sink,
    D: Disk + Drop,
    L: Link + Drop,
    C: Clock,
    G: Gathers<L>,
    J: DayNames<L>,
>(
    rt: &R,
    alloc: Global,
    roster: &Roster,
    desk: &SharedDesk<D>,
    board: &Boards<'a, R, D, L, J>,
    pass: &mut Pass<Desk<D>>,
    lanes: &mut Vec<Lane<L>>,
    kept: &mut Option<Conn>,
    pair: &mut (S, K),
    clock: &C,
    reader: &mut MeterReader,
    gather: &G,
) -> bool
    requires first { IsOf J.first desk.now }
    requires of { IsOf pass.old desk.now }
    requires opened { terms_in desk.now.fixed ≡ desk_terms roster.now }
    requires lanes { AreLanes roster.now lanes.old.items }
    requires reader { list_read reader.old ≡ J.book }
    requires ready { G.ready gather.now }
    ensures round { IsRound L.Link (IsMomentOf (C.moment clock.entry.now)) roster.entry.now pass.old pass.new
        (pair_by S.Source K.Sink pair.old) (pair_by S.Source K.Sink pair.new) lanes.old.items lanes.new.items
        (length (seen reader.old)) (length (seen reader.new)) result }
    ensures lanes { AreLanes roster.entry.now lanes.new.items }
    ensures reader { list_read reader.new ≡ J.book }
{
    if !board.lock(rt).show(rt, alloc, desk, pass, reader) {
        // What a pass has seen is legal.
        desk.recall(pass);
        return true;
    }
    let talked = talk(
        rt,
        alloc,
        roster,
        desk,
        board,
        pass,
        lanes,
        kept,
        &mut pair.0,
        &mut pair.1,
        clock,
        reader,
        gather,
    );
    let shown = board.lock(rt).show(rt, alloc, desk, pass, reader);
    desk.recall(pass);
    !shown | talked.short | is_short(talked.end)
}
