//! A board of a shared desk behind one ask and its bill: what readers read, and what a change of a budget is answered then.
ghost use Rattle.std.specs.Prelude.{◌≡◌, All, IfOk};
ghost use Rattle.std.specs.Option.{ForSome};
ghost use Rattle.turnstile.specs.Passes.{IsOf, IsSamePass};
ghost use Rattle.meter_board.specs.Words.{IsOf as IsReaderOf};

use crate::bills::{DeskPass, Shared, sold};
use crate::days::roster;
use adx_desk::DeskFault;
use adx_units::Units;
use day_journal::MemoryDisk;
use day_rules::Answer;
use desk_board::Board;
use meter_board::MeterReader;
use notice_book::NoticeKind;
use std::alloc::Global;
use std::sync::Wait;

/// What is read behind the bill: how many steps were told, the bills and asks that the told reader reads, whether the other
/// one reads none or one bill, what a change of a budget is answered, and how many entries the told reader reads once that
/// was published and told.
#[derive(Clone, Copy, Debug, PartialEq, Eq)]
struct Shown {
    told: u64,
    bills: u64,
    asks: u64,
    other: bool,
    changed: Answer,
    last: u64,
}

/// Bills, publishes, reads, changes a budget, and publishes again.
fn show<R: Wait + Drop, W: Wait>(
    rt: &W,
    alloc: Global,
    desk: &Shared,
    board: &mut Board<R, MemoryDisk>,
    pass: &mut DeskPass,
    told: &mut MeterReader,
    other: &mut MeterReader,
) -> Result<Shown, DeskFault>
    requires own { IsOf board.old.pass desk.now }
    requires pass { IsOf pass.old desk.now }
    requires reader { IsReaderOf told.old board.old.board }
    ensures own { IsSamePass board.old.pass board.new.pass }
    ensures pass { IsSamePass pass.old pass.new }
{
    let _billed = desk.notice(rt, pass, NoticeKind::Bill, "a1", 0)?;
    board.publish(rt, alloc, desk, pass)?;
    let count = board.tell(told);
    let meters = told.read();
    let bills = other.read().bills;
    let changed = desk.set_budget(rt, pass, 0, 1, Units(5_000_000))?;
    board.publish(rt, alloc, desk, pass)?;
    board.tell(told);
    Ok(Shown {
        told: count,
        bills: meters.bills,
        asks: meters.asks,
        other: bills <= 1,
        changed,
        last: told.read().entries,
    })
}

/// The last reader of a board's.
fn last_of<R: Wait + Drop>(
    board: &Board<R, MemoryDisk>,
    readers: &mut Vec<MeterReader>,
) -> Option<MeterReader>
    requires of { All (λ r. IsReaderOf r board.now.board) readers.old.items }
    ensures of { ForSome result (λ r. IsReaderOf r board.now.board) }
    ensures left { All (λ r. IsReaderOf r board.now.board) readers.new.items }
{
    readers.pop()
}

/// A board of two readers beside a shared desk, what is read, and the board's pass.
fn read_beside<R: Wait + Drop, W: Wait>(
    rt: &W,
    own: R,
    alloc: Global,
    desk: &Shared,
    first: &mut DeskPass,
    second: DeskPass,
) -> Result<(Shown, DeskPass), DeskFault>
    requires first { IsOf first.old desk.now }
    requires second { IsOf second desk.now }
    ensures first { IsSamePass first.old first.new }
    ensures second { IfOk result (λ r. IsSamePass second r.1) }
{
    let (mut board, mut readers) = Board::new(alloc, own, second, 2)?;
    let Some(mut told) = last_of(&board, &mut readers) else {
        return Err(DeskFault::OutOfMemory);
    };
    let Some(mut other) = readers.pop() else {
        return Err(DeskFault::OutOfMemory);
    };
    let shown = show(rt, alloc, desk, &mut board, first, &mut told, &mut other)?;
    Ok((shown, board.into_pass()))
}

/// Behind one ask on a new disk; and how many entries the closed desk has.
fn read_behind<R: Wait + Drop, W: Wait>(
    rt: &W,
    own: R,
    alloc: Global,
) -> Result<(Shown, u64), DeskFault> {
    let roster = roster(alloc)?;
    let (shared, mut first) = sold(rt, alloc, &roster, &[], None)?;
    let second = shared.split(&mut first)?;
    let (shown, second) = read_beside(rt, own, alloc, &shared, &mut first, second)?;
    shared.join(&mut first, second);
    let desk = shared.close(first);
    Ok((shown, desk.count()))
}

#[test]
fn readers_of_a_shared_desk(rt: HostRuntime) {
    let wanted = Shown {
        told: 2,
        bills: 1,
        asks: 1,
        other: true,
        changed: Answer::Budgeted,
        last: 3,
    };
    assert_eq!(rt; read_behind(&rt, &rt, rt.alloc()), Ok((wanted, 3)));
}
