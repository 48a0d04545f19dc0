//! The calls on a desk's board.
ghost use Rattle.std.specs.Prelude.{◌≡◌, ◌≤◌, ◌⊎◌, [], All, length, take, IfOk, OnErr};
ghost use mathlib.Core.List.{IsPrefix};
ghost use Rattle.turnstile.specs.Passes.{IsOf, IsSamePass};
ghost use Rattle.day_rules.specs.DayMeters.{steps_of};
ghost use Rattle.meter_board.specs.Words.{published, seen, IsOf as IsReaderOf, IsSameBoard};

use crate::board::Board;
use adx_desk::Desk;
use adx_units::OutOfMemory;
use day_journal::Disk;
use meter_board::{MeterReader, StepBoard};
use shared_desk::SharedDesk;
use std::alloc::Global;
use std::sync::Wait;
use turnstile::Pass;

impl<R: Wait + Drop, D: Disk + Drop> Board<R, D> {
    /// A board that shows nothing yet, and its readers. The pass is given up where memory is wanting.
    pub fn new(
        alloc: Global,
        rt: R,
        pass: Pass<Desk<D>>,
        readers: u32,
    ) -> Result<(Board<R, D>, Vec<MeterReader>), OutOfMemory>
        requires readers { (1 ≤ readers) × (readers ≤ 64) }
        ensures pass { IfOk result (λ b. b.0.pass ≡ pass) }
        ensures empty { IfOk result (λ b. published b.0.board ≡ []) }
        ensures readers { IfOk result (λ b. length b.1.items ≡ readers) }
        ensures of { IfOk result (λ b. All (λ r. IsReaderOf r b.0.board) b.1.items) }
    {
        let mut board = StepBoard::new(alloc, rt, readers)?;
        let mut all = Vec::new(alloc);
        for _reader in 0..readers {
            let reader = board.reader()?;
            all.push(reader)?;
        }
        Ok((Board { board, pass }, all))
    }

    /// Meets the pass, takes in the steps since the last time, and shows readers all of them at once.
    pub fn publish<W: Wait>(
        &mut self,
        rt: &W,
        alloc: Global,
        desk: &SharedDesk<D>,
        pass: &mut Pass<Desk<D>>,
    ) -> Result<(), OutOfMemory>
        requires own { IsOf self.old.pass desk.now }
        requires pass { IsOf pass.old desk.now }
        ensures own { IsSamePass self.old.pass self.new.pass }
        ensures pass { IsSamePass pass.old pass.new }
        ensures turns { pass.new.turns ≡ pass.old.turns }
        ensures own_turns { self.new.pass.turns ≡ self.old.pass.turns }
        ensures published { IfOk result (λ _. published self.new.board ≡ steps_of self.new.pass.seen) }
        ensures refused { OnErr result (published self.new.board ≡ published self.old.board) }
        ensures met { IfOk result (λ _. IsPrefix pass.new.seen self.new.pass.seen) }
        ensures later { IsPrefix self.old.pass.seen self.new.pass.seen }
        ensures pass_later { IsPrefix pass.old.seen pass.new.seen }
        ensures pass_faults { pass.old.faults ≤ pass.new.faults }
        ensures same { IsSameBoard self.old.board self.new.board }
    {
        desk.meet(&mut self.pass, pass)?;
        let steps = desk.steps_since(rt, alloc, &mut self.pass, self.board.len())?;
        self.board.append(steps.as_slice())?;
        self.board.publish()
    }

    /// Tells a reader of all that is published and of nothing else, and answers how many steps those are: the steps of so
    /// many of the history's first entries.
    pub fn tell(&self, reader: &mut MeterReader) -> u64
        requires of { IsReaderOf reader.old self.now.board }
        ensures count { result ≡ length (published self.now.board) }
        ensures front { published self.now.board ≡ steps_of (take result self.now.pass.seen) }
        ensures told { IsPrefix (published self.now.board) (seen reader.new) }
        ensures later { IsPrefix (seen reader.old) (seen reader.new) }
        ensures one { (seen reader.new ≡ seen reader.old) ⊎ (seen reader.new ≡ published self.now.board) }
        ensures of { IsReaderOf reader.new self.now.board }
    {
        self.board.tell(reader)
    }

    /// Gives the pass back.
    pub fn into_pass(self) -> Pass<Desk<D>>
        ensures { result ≡ self.pass }
    {
        let Self { board, pass } = self;
        drop(board);
        pass
    }
}
