//! All connections of an acceptor on one desk, from the desk as it was opened to its disk.
ghost use Rattle.std.specs.Prelude.{◌≡◌, ◌≢◌, ◌≤◌, [], true, false, All, IfErr, IfOk, IfSome, Some, length};
ghost use Rattle.adx_links.specs.Told.{told_by};
ghost use Rattle.adx_desk.specs.Desks.{OnDisk};
ghost use Rattle.adx_desk.specs.Rosters.{desk_terms};
ghost use Rattle.adx_desk.specs.Shared.{opened_with, terms_in};
ghost use Rattle.exchange_messages.specs.Floors.{AreLanes, Gave, IsMomentOf};
ghost use Rattle.adx_links.specs.Lobbies.{AllServed};
ghost use Rattle.desk_board.specs.Rooms.{HasTended};
ghost use Rattle.meter_board.specs.Words.{list_of, list_read};
ghost use Rattle.shared_desk.specs.Idle.{IsIdle};
ghost use Rattle.turnstile.specs.Passes.{IsOf};
ghost use Rattle.exchange_serving.specs.Lanes.{lists_of};
ghost use Rattle.exchange_serving.specs.Rounds.{IsServedIn};
ghost use Rattle.exchange_serving.specs.Served.{ServesDay};
ghost use Rattle.exchange_serving.specs.Unserved.{IsGivenBack, LeavesPost};
ghost use Rattle.exchange_serving.specs.declared.ending.Ending.TheVariants.{OutOfMemory as WantsMemory};

use crate::beginning::{Begun, Prepared, board_over, prepare, share};
use crate::finishing_up::{close_desk, finish};
use crate::gathering::{ByClosure, Gathers};
use crate::leaving::{Served, Unserved};
use crate::names::{Day, DayNames};
use crate::round::Boards;
use crate::worker::{DayWorker, Mails, workers_of};
use adx_desk::Desk;
use adx_links::{Acceptor, Intake, Left, Link, serve_all};
use day_journal::Disk;
use deal_floor::Roster;
use desk_board::{Board, Mail, Mailroom, SharedBoard};
use exchange_messages::{Clock, Given, Round, at_once};
use fan_out::Lane;
use meter_board::MeterReader;
use shared_desk::SharedDesk;
use std::alloc::Global;
use std::marker::{Brand, Send, Sync};
use std::sync::atomic::AtomicBool;
use std::sync::{Mutex, Wait};
use std::thread::Threads;
use turnstile::Pass;

/// Lets a worker for each of the lists of lanes serve connections, each in a thread of its own, until none comes. What is left,
/// and how many workers there were; None where acceptor and first pass are lost.
fn serve_by<
    'a,
    'b,
    R: Threads + Wait + Sync,
    A: Acceptor + Drop + Send,
    D: Disk + Drop + Send,
    L: Link + Drop + Send,
    C: Clock + Sync,
    G: Gathers<L> + Sync,
    J: DayNames<L> + Send + Sync,
>(
    rt: &R,
    alloc: Global,
    roster: &'a Roster,
    desk: &'a SharedDesk<D>,
    clock: &'a C,
    board: &'a Boards<'b, R, D, L, J>,
    mail: &'a Mails<D, L, J>,
    due: &'a AtomicBool,
    acceptor: A,
    first: Pass<Desk<D>>,
    lists: Vec<Vec<Lane<L>>>,
    readers: Vec<MeterReader>,
    gather: &'a G,
) -> Option<(Left<A, Desk<D>>, usize)>
    requires of { IsOf J.first desk.now }
    requires opened { terms_in desk.now.fixed ≡ desk_terms roster.now }
    requires roster { J.roster ≡ Some roster.now }
    requires clock { J.moment ≡ C.moment clock.now }
    requires workers { J.workers ≡ lists_of lists.items }
    requires lanes { All (AreLanes roster.now) (lists_of lists.items) }
    requires readers { All (λ r. list_read r ≡ J.book) readers.items }
    requires ready { G.ready gather.now }
    requires first { first ≡ J.first }
    requires is_first { first.is_first ≡ true }
    requires out { first.out ≡ 2 }
    requires turns { first.turns ≡ [] }
    requires faults { A.faults acceptor ≡ J.faults }
    requires none { IfSome (A.pairs acceptor) (λ t. (t.out ≡ []) × (t.back ≡ [])) }
    ensures left { IfSome result (λ l. AllServed (IsServedIn L.Link J.moment J.roster J.workers J.first.seen) J.first 2 J.faults
        (told_by A.Acceptor A.In.Source A.Out.Sink l.0.acceptor) l.0.pass l.0.intake l.0.wanting) }
    ensures many { IfSome result (λ l. l.0.wanting ≡ false → l.1 ≡ length lists.items) }
{
    let made = workers_of::<R, D, L, C, G, J>(
        alloc, roster, desk, clock, board, mail, due, lists, readers, gather,
    );
    match made {
        Ok(workers) => {
            let many = workers.as_slice().len();
            match serve_all::<R, A, Desk<D>, Day<L, J>, DayWorker<'a, 'b, R, D, L, C, G, J>>(
                rt,
                alloc,
                desk.turnstile(),
                acceptor,
                first,
                workers,
            ) {
                Some(left) => Some((left, many)),
                None => None,
            }
        }
        Err(_) => {
            let left = Left {
                acceptor,
                pass: first,
                intake: Intake::Open,
                wanting: true,
            };
            Some((left, 0))
        }
    }
}

/// Serves all connections on a shared desk, and closes it, or gives back the link that posts go over.
fn serve_shared_desk<
    R: Threads + Wait + Sync,
    A: Acceptor + Drop + Send,
    D: Disk + Drop + Send,
    L: Link + Drop + Send,
    C: Clock + Sync,
    J: DayNames<L> + Send + Sync,
>(
    rt: &R,
    alloc: Global,
    roster: &Roster,
    shared: SharedDesk<D>,
    clock: &C,
    board: Board<&R, D>,
    readers: Vec<MeterReader>,
    mail: Mail<L>,
    mail_pass: Pass<Desk<D>>,
    acceptor: A,
    first: Pass<Desk<D>>,
    lists: Vec<Vec<Lane<L>>>,
) -> Result<Served<A, D, L>, L>
    requires of { IsOf J.first shared }
    requires opened { terms_in shared.fixed ≡ desk_terms roster.now }
    requires roster { J.roster ≡ Some roster.now }
    requires clock { J.moment ≡ C.moment clock.now }
    requires workers { J.workers ≡ lists_of lists.items }
    requires lanes { All (AreLanes roster.now) (lists_of lists.items) }
    requires readers { All (λ r. list_read r ≡ J.book) readers.items }
    requires board { list_of board.board ≡ J.book }
    requires board_idle { IsIdle J.first board.pass }
    requires mail_idle { IsIdle J.first mail_pass }
    requires link { J.link ≡ Some mail.link }
    requires mail { HasTended L.Link first.seen mail.link mail }
    requires first { first ≡ J.first }
    requires is_first { first.is_first ≡ true }
    requires out { first.out ≡ 2 }
    requires turns { first.turns ≡ [] }
    requires opening { first.opening ≡ length first.seen }
    requires faults { A.faults acceptor ≡ J.faults }
    requires none { IfSome (A.pairs acceptor) (λ t. (t.out ≡ []) × (t.back ≡ [])) }
    ensures serves { (opened : OnDisk D) → opened.desk.history ≡ first.seen → opened_with opened.desk.terms opened.since ≡ shared.fixed →
        IfOk result (λ s. ServesDay D.Disk L.Link (IsMomentOf (C.moment clock.entry.now)) roster.entry.now
        (lists_of lists.items) opened s.disk (told_by A.Acceptor A.In.Source A.Out.Sink acceptor)
        (told_by A.Acceptor A.In.Source A.Out.Sink s.acceptor) mail.link s.post s.ending) }
    ensures workers { IfOk result (λ s. s.ending ≢ WantsMemory → s.workers ≡ length lists.items) }
    ensures lost { IfErr result (LeavesPost L.Link roster.entry.now first.seen mail.link) }
{
    let boards = Mutex::new(SharedBoard::<&R, D, Day<L, J>>::open(board));
    let mails = Mutex::new(Mailroom::<D, L, Day<L, J>>::open(mail, mail_pass));
    let due = AtomicBool::new(false);
    let asks = |round: Round<'_, L>| -> Given<L>
        ensures { Gave L.Link round.entry result }
    { at_once(rt, alloc, round) };
    let gather = ByClosure { asks: &asks };
    match serve_by::<R, A, D, L, C, _, J>(
        rt, alloc, roster, &shared, clock, &boards, &mails, &due, acceptor, first, lists, readers,
        &gather,
    ) {
        Some(ran) => {
            let (left, workers) = ran;
            let Left {
                acceptor,
                pass,
                intake,
                wanting,
            } = left;
            let (mail, mail_pass) = mails.into_inner().leave();
            let board_pass = boards.into_inner().into_pass();
            let desk = close_desk(shared, pass, board_pass, mail_pass);
            Ok(finish(desk, mail, acceptor, intake, workers, wanting))
        }
        None => {
            let (rest, rest_pass) = mails.into_inner().leave();
            // What a pass has seen is legal.
            shared.recall(&rest_pass);
            Err(rest.link)
        }
    }
}

/// Serves the connections that the acceptor gives, on the desk that the roster's day was opened with, until no more come or
/// the acceptor fails. Each list of lanes is a worker's, who serves one connection at a time in a thread of its own; each
/// has a lane for every bidder of the roster. After each connection its worker tries the posts of what is new in the history
/// over `post`, and pending ones again: all of them once, or some where they are many; the caller tries each after the last.
///
/// A connection ends alone, whatever its end, and a fault of the disk is answered by its reply. The ending is reported once no
/// connection is served any more: `OutOfMemory` where memory was refused for some of it, then `AcceptorFault`, `DiskFault`,
/// `Pending`, the first of them that holds, and else `Done`.
///
/// Where no desk is left the answer is what is. `Unbegun`: memory was refused before the desk was shared. `Unshared`: it was
/// refused for the sharing. `Lost`: it was refused for the workers' threads, or a worker had a pair while none was out,
/// which no run reaches; desk, disk, acceptor and lanes are lost then.
pub fn serve_connections<
    R: Threads + Wait + Sync,
    A: Acceptor + Drop + Send,
    D: Disk + Drop + Send,
    L: Link + Drop + Send,
    C: Clock + Sync,
>(
    rt: &R,
    alloc: Global,
    roster: &Roster,
    desk: Desk<D>,
    acceptor: A,
    lanes: Vec<Vec<Lane<L>>>,
    post: L,
    clock: &C,
) -> Result<Served<A, D, L>, Unserved<A, D, L>>
    requires terms { desk.desk.terms ≡ desk_terms roster.now }
    requires workers { (1 ≤ length lanes.items) × (length lanes.items ≤ 64) }
    requires lanes { All (AreLanes roster.now) (lists_of lanes.items) }
    requires none { IfSome (A.pairs acceptor) (λ t. (t.out ≡ []) × (t.back ≡ [])) }
    ensures serves { IfOk result (λ s. ServesDay D.Disk L.Link (IsMomentOf (C.moment clock.entry.now))
        roster.entry.now (lists_of lanes.items) desk s.disk
        (told_by A.Acceptor A.In.Source A.Out.Sink acceptor)
        (told_by A.Acceptor A.In.Source A.Out.Sink s.acceptor) post s.post s.ending) }
    ensures workers { IfOk result (λ s. s.ending ≢ WantsMemory → s.workers ≡ length lanes.items) }
    ensures unserved { IfErr result (IsGivenBack L.Link roster.entry.now desk acceptor lanes post) }
{
    let count = count_of(lanes.as_slice());
    match prepare(alloc, rt, &desk, post, count) {
        Ok(prepared) => {
            let Prepared {
                mail,
                board: steps,
                readers,
            } = prepared;
            match share(alloc, desk) {
                Ok(begun) => {
                    let Begun {
                        shared,
                        first,
                        board,
                        mail: mail_pass,
                    } = begun;
                    let board = board_over(steps, board);
                    match serve_shared_desk::<R, A, D, L, C, Brand>(
                        rt, alloc, roster, shared, clock, board, readers, mail, mail_pass,
                        acceptor, first, lanes,
                    ) {
                        Ok(served) => Ok(served),
                        Err(post) => Err(Unserved::Lost { post }),
                    }
                }
                Err(_) => Err(Unserved::Unshared {
                    acceptor,
                    lanes,
                    post: mail.link,
                }),
            }
        }
        Err(post) => Err(Unserved::Unbegun {
            desk,
            acceptor,
            lanes,
            post,
        }),
    }
}

/// How many lists there are: as many as a board may have readers.
fn count_of<L>(lists: &[Vec<Lane<L>>]) -> u32
    requires { length lists.now ≤ 64 }
    ensures { result ≡ length lists.now }
{
    lists.len() as u32
}
