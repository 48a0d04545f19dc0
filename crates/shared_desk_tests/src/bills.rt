//! Two threads that bill one award on a shared desk: the bill counts once, whichever calls of the disk fail.
ghost use Rattle.std.specs.Prelude.{◌≡◌, true, length, IfOk};
ghost use Rattle.std.specs.Thread.{IsSync};
ghost use Rattle.turnstile.specs.Passes.{IsOf, IsSamePass};
ghost use Rattle.adx_desk.specs.Rosters.{desk_terms};
ghost use Rattle.adx_desk.specs.Shared.{terms_in};

use crate::days::{ask, opened, roster};
use adx_desk::{Desk, DeskFault};
use day_journal::MemoryDisk;
use day_rules::Answer;
use deal_floor::Roster;
use notice_book::NoticeKind;
use shared_desk::SharedDesk;
use std::alloc::Global;
use std::sync::Wait;
use std::thread::{Threads, join};
use turnstile::Pass;

/// A desk on a disk in memory that threads share.
pub(crate) type Shared = SharedDesk<MemoryDisk>;

/// A pass of it.
pub(crate) type DeskPass = Pass<Desk<MemoryDisk>>;

/// Bills the first award; None where the disk failed.
fn bill<R: Wait>(rt: &R, desk: &Shared, mut pass: DeskPass) -> (DeskPass, Option<Answer>)
    requires { IsOf pass desk.now }
    ensures { IsSamePass pass result.0 }
{
    let answered = desk.notice(rt, &mut pass, NoticeKind::Bill, "a1", 0);
    (pass, answered.ok())
}

/// Bills it in two threads at once.
fn bill_twice<R: Wait + Threads + Sync>(
    rt: &R,
    desk: &Shared,
    one: DeskPass,
    other: DeskPass,
) -> ((DeskPass, Option<Answer>), (DeskPass, Option<Answer>))
    requires one { IsOf one desk.now }
    requires other { IsOf other desk.now }
    ensures one { IsSamePass one result.0.0 }
    ensures other { IsSamePass other result.1.0 }
{
    join(
        rt,
        move || -> (DeskPass, Option<Answer>)
            requires { IsSync R.row × IsOf one desk.now }
            ensures { IsSamePass one result.0 }
        { bill(rt, desk, one) },
        move || -> (DeskPass, Option<Answer>)
            requires { IsSync R.row × IsOf other desk.now }
            ensures { IsSamePass other result.0 }
        { bill(rt, desk, other) },
    )
}

/// A shared desk on a disk whose calls fail by these words, with its first pass, behind one ask.
pub(crate) fn sold<R: Wait>(
    rt: &R,
    alloc: Global,
    roster: &Roster,
    fails: &[u64],
    stop: Option<u64>,
) -> Result<(Shared, DeskPass), DeskFault>
    requires { length roster.now.campaigns ≡ 2 }
    ensures of { IfOk result (λ r. IsOf r.1 r.0) }
    ensures first { IfOk result (λ r. (r.1.is_first ≡ true) × (r.1.out ≡ 0)) }
    ensures two { IfOk result (λ r. length r.0.fixed.budgets ≡ 2) }
    ensures roster { IfOk result (λ r. terms_in r.0.fixed ≡ desk_terms roster.entry.now) }
{
    let desk = opened(alloc, roster, fails, stop)?;
    let sold = ask(alloc, "a1", 7, 10, &[(0, 2_500_000, 60)])?;
    let (shared, mut first) = SharedDesk::new(alloc, desk)?;
    shared.ask(rt, &mut first, sold)?;
    Ok((shared, first))
}

/// How many entries a pass finds in the history.
pub(crate) fn found_by<R: Wait>(rt: &R, alloc: Global, desk: &Shared, pass: &mut DeskPass) -> u64
    requires { IsOf pass.old desk.now }
    ensures { IsSamePass pass.old pass.new }
{
    match desk.copy_since(rt, alloc, pass, 0) {
        Ok(copies) => copies.len() as u64,
        Err(_) => 0,
    }
}

/// How a bill ended.
#[derive(Clone, Copy, Debug, PartialEq, Eq)]
enum Ended {
    Counted,
    Repeated,
    Failed,
    Other,
}

/// The end of a bill by its answer. The bill stands at place 1.
fn end_of(answer: Option<Answer>) -> Ended {
    match answer {
        Some(Answer::Counted) => Ended::Counted,
        Some(Answer::Repeat { entry: 1 }) => Ended::Repeated,
        Some(_) => Ended::Other,
        None => Ended::Failed,
    }
}

/// What became of two bills: how each ended, how many entries both passes found once they met, how many there are in the
/// end, the money billed, and how many calls answered a fault.
#[derive(Clone, Copy, Debug, PartialEq, Eq)]
struct Billed {
    ends: [Ended; 2],
    found: [u64; 2],
    entries: u64,
    money: u64,
    faults: u64,
}

/// The desk's part of that.
fn closed(desk: Desk<MemoryDisk>, ends: [Ended; 2], found: [u64; 2]) -> Billed {
    let book = desk.book();
    let money = if book.count() > 0 {
        book.billed(0).0
    } else {
        0
    };
    Billed {
        ends,
        found,
        entries: desk.count(),
        money,
        faults: desk.faults(),
    }
}

/// Bills in two threads, and closes the desk.
fn bill_and_close<R: Wait + Threads + Sync>(
    rt: &R,
    alloc: Global,
    shared: Shared,
    first: DeskPass,
) -> Result<Billed, DeskFault>
    requires of { IsOf first shared }
    requires first { (first.is_first ≡ true) × (first.out ≡ 0) }
{
    let mut first = first;
    let second = shared.split(&mut first)?;
    let ((mut first, one), (mut second, other)) = bill_twice(rt, &shared, first, second);
    shared.meet(&mut first, &mut second)?;
    let mine = found_by(rt, alloc, &shared, &mut first);
    let others = found_by(rt, alloc, &shared, &mut second);
    shared.join(&mut first, second);
    let desk = shared.close(first);
    Ok(closed(desk, [end_of(one), end_of(other)], [mine, others]))
}

/// Sells one impression on a disk whose calls fail by these words, and bills it in two threads.
fn sell_and_bill<R: Wait + Threads + Sync>(
    rt: &R,
    alloc: Global,
    fails: &[u64],
    stop: Option<u64>,
) -> Result<Billed, DeskFault> {
    let roster = roster(alloc)?;
    let (shared, first) = sold(rt, alloc, &roster, fails, stop)?;
    bill_and_close(rt, alloc, shared, first)
}

/// What becomes of two bills that end so, in either order.
fn is_wanted(found: Result<Billed, DeskFault>, one: Ended, other: Ended, wanted: Billed) -> bool {
    let straight = Billed {
        ends: [one, other],
        ..wanted
    };
    let turned = Billed {
        ends: [other, one],
        ..wanted
    };
    found == Ok(straight) || found == Ok(turned)
}

/// Rows of which calls of the disk fail (18 of them are made before a bill), how the two bills end, the entries in the end,
/// the money billed and the number of faults.
#[test]
fn two_threads_bill_one_award(rt: HostRuntime) {
    let rows: [(&[u64], Option<u64>, Ended, Ended, [u64; 3]); 4] = [
        (
            &[],
            None,
            Ended::Counted,
            Ended::Repeated,
            [2, 2_500_000, 0],
        ),
        (
            &[18],
            None,
            Ended::Failed,
            Ended::Counted,
            [2, 2_500_000, 1],
        ),
        (
            &[21],
            None,
            Ended::Failed,
            Ended::Counted,
            [2, 2_500_000, 1],
        ),
        (&[], Some(18), Ended::Failed, Ended::Failed, [1, 0, 2]),
    ];
    for (fails, stop, one, other, [entries, money, faults]) in rows {
        let wanted = Billed {
            ends: [one, other],
            found: [entries, entries],
            entries,
            money,
            faults,
        };
        let found = sell_and_bill(&rt, rt.alloc(), fails, stop);
        assert!(rt; is_wanted(found, one, other, wanted));
    }
}
