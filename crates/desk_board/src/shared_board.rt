//! A board of a shared desk's meters, for a lock.
ghost use Rattle.std.specs.Prelude.{◌≡◌, ◌≤◌, true, IfOk, IfSome};
ghost use mathlib.Core.List.{IsPrefix};
ghost use Rattle.day_rules.specs.DayMeters.{steps_of};
ghost use Rattle.day_rules.specs.Steps.{meters_of};
ghost use Rattle.turnstile.specs.Passes.{IsOf, IsSamePass};
ghost use Rattle.meter_board.specs.Words.{list_of, list_read, published, seen};
ghost use Rattle.shared_desk.specs.Idle.{IsIdle};

use crate::board::Board;
use crate::board_names::BoardNames;
use adx_desk::Desk;
use adx_units::OutOfMemory;
use day_journal::Disk;
use day_rules::Meters;
use meter_board::MeterReader;
use shared_desk::SharedDesk;
use std::alloc::Global;
use std::marker::{Model, PhantomData};
use std::sync::Wait;
use turnstile::Pass;

/// A board of a desk's meters. It stands behind a lock, so all that is known of it is what it keeps: which list its readers
/// read, and of which desk its pass is.
#[derive(Drop)]
pub struct SharedBoard<R: Wait + Drop, D: Disk + Drop, J: BoardNames> {
    board: Board<R, D>,
    names: PhantomData<J>,
}

impl<R: Wait + Drop, D: Disk + Drop, J: BoardNames> Model for SharedBoard<R, D, J> {
    ghost use Rattle.meter_board.specs.Words.{list_of};
    ghost use Rattle.desk_board.specs.Boards.{IsBoard};
    ghost use Rattle.shared_desk.specs.Callers.{DeskPass};

    ghost Value = { DeskPass };

    ghost view = { λ b. b.board.pass };

    ghost invariant = { λ b. IsBoard J.first J.book (list_of b.board.board) b.board.pass };
}

/// Shows readers all that the board's pass sees then, and lets the pass see that too. Where memory is refused readers are
/// shown what they were.
fn publish<R: Wait + Drop, D: Disk + Drop, W: Wait>(
    board: &mut Board<R, D>,
    rt: &W,
    alloc: Global,
    desk: &SharedDesk<D>,
    pass: &mut Pass<Desk<D>>,
) -> Result<(), OutOfMemory>
    requires own { IsOf board.old.pass desk.now }
    requires pass { IsOf pass.old desk.now }
    ensures own { IsSamePass board.old.pass board.new.pass }
    ensures own_turns { board.new.pass.turns ≡ board.old.pass.turns }
    ensures own_later { IsPrefix board.old.pass.seen board.new.pass.seen }
    ensures same { list_of board.new.board ≡ list_of board.old.board }
    ensures pass { IsSamePass pass.old pass.new }
    ensures turns { pass.new.turns ≡ pass.old.turns }
    ensures later { IsPrefix pass.old.seen pass.new.seen }
    ensures faults { pass.old.faults ≤ pass.new.faults }
    ensures published { IfOk result (λ _. published board.new.board ≡ steps_of pass.new.seen) }
{
    board.publish(rt, alloc, desk, pass)?;
    desk.meet(&mut board.pass, pass)
}

/// Tells a reader of what is published, and lets it read. None where what it read isn't just that.
fn read<R: Wait + Drop, D: Disk + Drop>(
    board: &Board<R, D>,
    reader: &mut MeterReader,
) -> Option<Meters>
    requires reader { list_read reader.old ≡ list_of board.now.board }
    ensures reader { list_read reader.new ≡ list_read reader.old }
    ensures later { IsPrefix (seen reader.old) (seen reader.new) }
    ensures meters { IfSome result (λ m. m ≡ meters_of (seen reader.new)) }
    ensures whole { IfSome result (λ _. seen reader.new ≡ published board.now.board) }
{
    let told = board.tell(reader);
    let meters = reader.read();
    if meters.entries == told {
        Some(meters)
    } else {
        None
    }
}

impl<R: Wait + Drop, D: Disk + Drop, J: BoardNames> SharedBoard<R, D, J> {
    /// The board, where it is the one of that desk and of that list.
    pub fn open(board: Board<R, D>) -> Self
        requires named { list_of board.board ≡ J.book }
        requires idle { IsIdle J.first board.pass }
        ensures { result ≡ board.pass }
    {
        SharedBoard {
            board,
            names: PhantomData,
        }
    }

    /// Publishes with a pass, tells a reader, and lets it read once: the meters of all that the pass has seen then. None says
    /// that memory was refused, or that the read had another number of entries than were told, which no run reaches.
    pub fn bring<W: Wait>(
        &mut self,
        rt: &W,
        alloc: Global,
        desk: &SharedDesk<D>,
        pass: &mut Pass<Desk<D>>,
        reader: &mut MeterReader,
    ) -> Option<Meters>
        requires desk { IsOf J.first desk.now }
        requires pass { IsOf pass.old desk.now }
        requires reader { list_read reader.old ≡ J.book }
        ensures pass { IsSamePass pass.old pass.new }
        ensures turns { pass.new.turns ≡ pass.old.turns }
        ensures later { IsPrefix pass.old.seen pass.new.seen }
        ensures faults { pass.old.faults ≤ pass.new.faults }
        ensures reader { list_read reader.new ≡ J.book }
        ensures read { IsPrefix (seen reader.old) (seen reader.new) }
        ensures meters { IfSome result (λ m. m ≡ meters_of (seen reader.new)) }
        ensures shown { IfSome result (λ _. seen reader.new ≡ steps_of pass.new.seen) }
    {
        match publish(&mut self.board, rt, alloc, desk, pass) {
            Ok(()) => read(&self.board, reader),
            Err(_) => None,
        }
    }

    /// Does the same, and answers whether what was read are the meters of all that the pass has seen then.
    pub fn show<W: Wait>(
        &mut self,
        rt: &W,
        alloc: Global,
        desk: &SharedDesk<D>,
        pass: &mut Pass<Desk<D>>,
        reader: &mut MeterReader,
    ) -> bool
        requires desk { IsOf J.first desk.now }
        requires pass { IsOf pass.old desk.now }
        requires reader { list_read reader.old ≡ J.book }
        ensures pass { IsSamePass pass.old pass.new }
        ensures turns { pass.new.turns ≡ pass.old.turns }
        ensures later { IsPrefix pass.old.seen pass.new.seen }
        ensures reader { list_read reader.new ≡ J.book }
        ensures read { IsPrefix (seen reader.old) (seen reader.new) }
        ensures shown { result ≡ true → seen reader.new ≡ steps_of pass.new.seen }
    {
        self.bring(rt, alloc, desk, pass, reader).is_some()
    }

    /// Gives the pass back.
    pub fn into_pass(self) -> Pass<Desk<D>>
        ensures same { result ≡ self }
        ensures idle { IsIdle J.first result }
    {
        let Self { board, names: _ } = self;
        board.into_pass()
    }
}
