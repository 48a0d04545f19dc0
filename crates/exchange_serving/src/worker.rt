//! A worker of a day.
ghost use Rattle.std.specs.Prelude.{◌≡◌, false, All, IfOk, Some, length};
ghost use Rattle.adx_links.specs.Pairs.{IsNew};
ghost use Rattle.adx_links.specs.Told.{pair_by};
ghost use Rattle.adx_desk.specs.Rosters.{desk_terms};
ghost use Rattle.adx_desk.specs.Shared.{terms_in};
ghost use Rattle.exchange_messages.specs.Floors.{AreLanes};
ghost use Rattle.adx_links.specs.Serving.{IsBeside, IsFresh, served_pair};
ghost use Rattle.meter_board.specs.Words.{list_read};
ghost use Rattle.turnstile.specs.Passes.{IsOf};
ghost use Rattle.exchange_serving.specs.Lanes.{lists_of};
ghost use Rattle.exchange_serving.specs.Rounds.{IsServedIn, IsWorker};

use crate::gathering::Gathers;
use crate::names::{Day, DayNames};
use crate::round::{Boards, serve_pair};
use adx_desk::Desk;
use adx_http::Conn;
use adx_links::{Acceptor, Link, Worker};
use adx_units::OutOfMemory;
use day_journal::Disk;
use deal_floor::Roster;
use desk_board::Mailroom;
use exchange_messages::Clock;
use fan_out::Lane;
use meter_board::MeterReader;
use shared_desk::SharedDesk;
use std::alloc::Global;
use std::marker::Model;
use std::sync::atomic::{AtomicBool, Ordering};
use std::sync::{Mutex, Wait};
use turnstile::Pass;

/// The posts of a day, under their lock.
pub(crate) type Mails<D, L, J> = Mutex<Mailroom<D, L, Day<L, J>>>;

/// How many turns in a row a worker takes at the posts, for others too.
const MOST_TURNS: u32 = 64;

/// A worker of a day: what it shares with the others, its lanes, and its reader of the meters.
#[derive(Drop)]
pub(crate) struct DayWorker<
    'a,
    'b,
    R: Wait,
    D: Disk + Drop,
    L: Link,
    C: Clock,
    G: Gathers<L>,
    J: DayNames<L>,
> {
    alloc: Global,
    roster: &'a Roster,
    desk: &'a SharedDesk<D>,
    clock: &'a C,
    board: &'a Boards<'b, R, D, L, J>,
    mail: &'a Mails<D, L, J>,
    /// A turn at the posts is due.
    due: &'a AtomicBool,
    lanes: Vec<Lane<L>>,
    /// Room for messages, from the first connection on.
    kept: Option<Conn>,
    reader: MeterReader,
    gather: &'a G,
}

impl<'a, 'b, R: Wait, D: Disk + Drop, L: Link, C: Clock, G: Gathers<L>, J: DayNames<L>> Model
    for DayWorker<'a, 'b, R, D, L, C, G, J> {
    ghost use Rattle.std.specs.Prelude.{List, length};
    ghost use Rattle.fan_out.specs.declared.lane.Lane.{Lane};
    ghost use Rattle.meter_board.specs.Words.{list_read, seen};
    ghost use Rattle.exchange_serving.specs.Rounds.{IsWorker};

    ghost Value = { List (Lane L) };

    ghost view = { λ w. w.lanes.items };

    ghost invariant = { λ w. IsWorker L.Link J.moment (C.moment w.clock.now) J.roster J.workers J.first J.book
        (list_read w.reader) (length (seen w.reader)) w.desk.now w.roster.now w.lanes.items
        × G.ready w.gather.now };
}

impl<
    'a,
    'b,
    R: Wait,
    A: Acceptor,
    D: Disk + Drop,
    L: Link + Drop,
    C: Clock,
    G: Gathers<L>,
    J: DayNames<L>,
> Worker<R, A, Desk<D>, Day<L, J>> for DayWorker<'a, 'b, R, D, L, C, G, J> {
    ghost use Rattle.std.specs.Prelude.{◌≡◌, false};
    ghost use Rattle.adx_links.specs.Pairs.{IsNew};
    ghost use Rattle.adx_links.specs.Told.{pair_by};
    ghost use Rattle.adx_links.specs.Serving.{IsBeside, IsFresh, served_pair};
    ghost use Rattle.exchange_serving.specs.Rounds.{IsServedIn};

    fn serve(&mut self, rt: &R, pass: &mut Pass<Desk<D>>, pair: &mut (A::In, A::Out)) -> bool
        requires fresh { IsFresh J.first pass.old }
        requires new { IsNew (pair_by A.In.Source A.Out.Sink pair.old) }
        ensures of { IsBeside J.first pass.new }
        ensures split { pass.new.is_first ≡ false }
        ensures served { IsServedIn L.Link J.moment J.roster J.workers J.first.seen pass.new.seen
            (served_pair (pair_by A.In.Source A.Out.Sink pair.new) pass.new result) }
    {
        serve_pair(
            rt,
            self.alloc,
            self.roster,
            self.desk,
            self.board,
            pass,
            &mut self.lanes,
            &mut self.kept,
            pair,
            self.clock,
            &mut self.reader,
            self.gather,
        )
    }

    fn rest(&mut self, rt: &R) -> bool {
        // Nobody waits for another's turn: who has the posts takes one more for those who found them taken.
        self.due.store(true, Ordering::SeqCst);
        let begun = self.clock.now();
        let mut wanting = false;
        for _turn in 0..MOST_TURNS {
            if !self.due.load(Ordering::SeqCst) {
                break;
            }
            let Some(mut mail) = self.mail.try_lock() else {
                break;
            };
            self.due.store(false, Ordering::SeqCst);
            let now = self.clock.now();
            match mail.tend(rt, self.alloc, self.desk, now) {
                Ok(more) => {
                    if more && now == begun {
                        self.due.store(true, Ordering::SeqCst);
                    }
                }
                Err(_) => wanting = true,
            }
        }
        wanting
    }
}

/// A worker for each of the lists of lanes, with a reader for each.
pub(crate) fn workers_of<
    'a,
    'b,
    R: Wait,
    D: Disk + Drop,
    L: Link + Drop,
    C: Clock,
    G: Gathers<L>,
    J: DayNames<L>,
>(
    alloc: Global,
    roster: &'a Roster,
    desk: &'a SharedDesk<D>,
    clock: &'a C,
    board: &'a Boards<'b, R, D, L, J>,
    mail: &'a Mails<D, L, J>,
    due: &'a AtomicBool,
    mut lists: Vec<Vec<Lane<L>>>,
    mut readers: Vec<MeterReader>,
    gather: &'a G,
) -> Result<Vec<DayWorker<'a, 'b, R, D, L, C, G, J>>, OutOfMemory>
    requires of { IsOf J.first desk.now }
    requires opened { terms_in desk.now.fixed ≡ desk_terms roster.now }
    requires roster { J.roster ≡ Some roster.now }
    requires clock { J.moment ≡ C.moment clock.now }
    requires workers { J.workers ≡ lists_of lists.items }
    requires lanes { All (AreLanes roster.now) (lists_of lists.items) }
    requires readers { All (λ r. list_read r ≡ J.book) readers.items }
    requires ready { G.ready gather.now }
    ensures many { IfOk result (λ workers. length workers.items ≡ length lists.items) }
{
    let mut workers = Vec::new(alloc);
    'lists: while let Some(lanes) = lists.pop() {
        let Some(reader) = readers.pop() else {
            return Err(OutOfMemory);
        };
        workers.push(DayWorker {
            alloc,
            roster,
            desk,
            clock,
            board,
            mail,
            due,
            lanes,
            kept: None,
            reader,
            gather,
        })?;
    }
    Ok(workers)
}
