//! The end of a day's serving: the passes are joined, the desk is closed, and the posts are tried once more.
ghost use Rattle.std.specs.Prelude.{◌≡◌, ◌≤◌, true, false, List, length};
ghost use mathlib.Core.List.{IsPrefix};
ghost use Rattle.adx_desk.specs.Desks.{StandsOnDisk};
ghost use Rattle.adx_desk.specs.Endings.{IsWithinRise};
ghost use Rattle.adx_desk.specs.Shared.{opened_with};
ghost use Rattle.day_rules.specs.declared.entry.Entry.{Entry as EntryValue};
ghost use Rattle.desk_board.specs.Rooms.{HasTended};
ghost use Rattle.turnstile.specs.Passes.{IsOf};
ghost use Rattle.exchange_serving.specs.Finishing.{Closes, IsTendedAll, Tells, ending_by};
ghost use Rattle.exchange_serving.specs.Served.{ArePosted};

use crate::ending::Ending;
use crate::leaving::Served;
use adx_desk::Desk;
use adx_links::{Intake, Link};
use day_journal::Disk;
use desk_board::Mail;
use shared_desk::SharedDesk;
use turnstile::Pass;

/// How serving ends: where memory was refused, by what the acceptor said last, by the faults of the desk, and by whether no
/// post is pending.
fn ending_of(short: bool, intake: Intake, faults: u64, none_pending: bool) -> Ending
    ensures { result ≡ ending_by short intake faults none_pending }
{
    if short {
        return Ending::OutOfMemory;
    }
    match intake {
        Intake::Open => Ending::OutOfMemory,
        Intake::Failed => Ending::AcceptorFault,
        Intake::Over => {
            if 0 < faults {
                return Ending::DiskFault;
            }
            if none_pending {
                return Ending::Done;
            }
            Ending::Pending
        }
    }
}

/// Joins two passes that were split from the first one, and closes the desk.
pub(crate) fn close_desk<D: Disk + Drop>(
    shared: SharedDesk<D>,
    first: Pass<Desk<D>>,
    one: Pass<Desk<D>>,
    other: Pass<Desk<D>>,
) -> Desk<D>
    requires first { IsOf first shared }
    requires is_first { first.is_first ≡ true }
    requires out { first.out ≡ 2 }
    requires one { IsOf one shared }
    requires one_split { one.is_first ≡ false }
    requires other { IsOf other shared }
    requires other_split { other.is_first ≡ false }
    ensures closes { Closes shared.fixed first one other result.desk.history result.desk.faults }
    ensures opened { opened_with result.desk.terms result.since ≡ shared.fixed }
{
    let mut pass = first;
    shared.join(&mut pass, one);
    shared.join(&mut pass, other);
    shared.close(pass)
}

/// Brings the posts up to the desk's history. Whether memory was refused.
fn bring_up<D: Disk + Drop, L: Link + Drop>(desk: &Desk<D>, mail: &mut Mail<L>) -> bool
    requires few { mail.old.outbox.followed ≤ length desk.now.desk.history }
    ensures posts { (history : List EntryValue) (link : L) → IsPrefix history desk.now.desk.history → HasTended L.Link history link mail.old
        → IsTendedAll L.Link desk.now.desk.history history link mail.old mail.new result }
{
    // A desk's history is legal.
    let _ = desk.entries();
    let n = mail.outbox.followed();
    let entries = desk.entries_since(n);
    match mail.bring_up(entries) {
        Ok(()) => false,
        Err(_) => true,
    }
}

/// Brings the posts up to the desk's history, and gives up the desk. So many workers served; `short` says that memory was
/// refused before.
pub(crate) fn finish<A, D: Disk + Drop, L: Link + Drop>(
    desk: Desk<D>,
    mut mail: Mail<L>,
    acceptor: A,
    intake: Intake,
    workers: usize,
    short: bool,
) -> Served<A, D, L>
    requires few { mail.outbox.followed ≤ length desk.desk.history }
    ensures posts { (history : List EntryValue) (link : L) → IsPrefix history desk.desk.history → HasTended L.Link history link mail
        → ArePosted L.Link desk.desk.history link result.post result.ending }
    ensures tells { Tells short intake desk.desk.faults result.ending }
    ensures workers { result.workers ≡ workers }
    ensures acceptor { result.acceptor ≡ acceptor }
    ensures stands { desk.since.tells ≡ true → StandsOnDisk (D.may_leave result.disk) desk.desk }
    ensures within { IsWithinRise desk.since.count desk.desk.faults (D.faults result.disk) }
    ensures none { desk.desk.faults ≡ 0 → D.faults result.disk ≡ desk.since.count }
{
    let missed = bring_up(&desk, &mut mail);
    let faults = desk.faults();
    let none_pending = mail.outbox.pending().is_empty();
    let ending = ending_of(short | missed, intake, faults, none_pending);
    let Mail { outbox: _, link } = mail;
    Served {
        ending,
        workers,
        acceptor,
        disk: desk.close(),
        post: link,
    }
}
