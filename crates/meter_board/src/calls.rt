//! The calls on a board.
ghost use Rattle.std.specs.Prelude.{◌≡◌, ◌++◌, ◌≤◌, ◌⊎◌, [], ◌∷◌, Some, drop, length, IfOk, OnErr};
ghost use mathlib.Core.List.{IsPrefix};
ghost use Rattle.left_right.specs.Sides.{view};
ghost use Rattle.day_rules.specs.Steps.{meters_of, StayInRange};
ghost use Rattle.meter_board.specs.Knowing.{book_of};
ghost use Rattle.meter_board.specs.Words.{taken, published, seen, IsOf, IsSameBoard};

use crate::board::{Press, StepBoard};
use crate::reader::MeterReader;
use crate::shown::Shown;
use crate::taking::put_behind;
use crate::views::{Introduce, Show};
use adx_units::OutOfMemory;
use core::mem::replace_with;
use day_rules::{MeterStep, Meters, folded};
use left_right::writer::Writer;
use logbook::{Seen, Start, Word};
use std::alloc::{AllocError, Global};
use std::marker::Brand;
use std::sync::Wait;

/// Shows readers the one value that is pending.
fn show_next<R: Wait>(writer: Press, rt: &R, _next: &Shown) -> Press
    requires pending { drop writer.behind writer.log.items ≡ _next.now ∷ [] }
    requires book { _next.now.seen.book ≡ writer.desk.shown.value.seen.book }
    ensures shown { result.desk.shown.value ≡ _next.now }
    ensures idle { drop result.behind result.log.items ≡ [] }
    ensures knows { view result.desk.place ≡ Some _next.now.seen }
{
    match writer.publish_as::<Show, R>(rt) {
        (writer, Ok(())) => writer,
        (writer, Err(_)) => writer,
    }
}

impl<R: Wait + Drop> StepBoard<R> {
    /// A board without steps, for at most so many readers at once.
    pub fn new(alloc: Global, rt: R, readers: u32) -> Result<StepBoard<R>, OutOfMemory>
        requires readers { (1 ≤ readers) × (readers ≤ 64) }
        ensures empty { IfOk result (λ b. (taken b ≡ []) × (published b ≡ [])) }
    {
        let (seen, mut first, _second) = Seen::open(Start::alone(), 0, 0);
        let head = Word::tracked(0, &mut first);
        let front = Shown {
            meters: Meters::new(),
            seen,
        };
        let Ok(mut writer): Result<Press, AllocError> = Writer::new(
            alloc,
            front.again(),
            front.again(),
            readers as usize,
        ) else {
            return Err(OutOfMemory);
        };
        match writer.append(front.again()) {
            Ok(()) => {}
            Err(_) => {
                drop(writer.take(&rt));
                return Err(OutOfMemory);
            }
        }
        // Whoever has shown something knows which list it is, and can say it to a reader.
        Ok(StepBoard {
            writer: show_next(writer, &rt, &front),
            rt,
            head,
            front,
        })
    }

    /// A reader that has seen what is published now. Want of memory is answered too where each place for a reader is in use.
    pub fn reader(&mut self) -> Result<MeterReader, OutOfMemory>
        ensures seen { IfOk result (λ r. seen r ≡ published self.old) }
        ensures of { IfOk result (λ r. IsOf r self.old) }
        ensures published { published self.new ≡ published self.old }
        ensures taken { taken self.new ≡ taken self.old }
        ensures same { IsSameBoard self.old self.new }
    {
        match self.writer.factory().reader() {
            Ok(mut sight) => {
                sight.learn::<Introduce>(self.writer.tell::<Introduce>());
                let last = self.writer.published().again();
                Ok(MeterReader { sight, last })
            }
            Err(_) => Err(OutOfMemory),
        }
    }

    /// How many steps were taken in.
    pub fn len(&self) -> u64
        ensures { result ≡ length (taken self.now) }
    {
        self.front.meters.entries
    }

    /// The meters of all steps that were taken in.
    pub fn meters(&self) -> Meters
        ensures { result ≡ meters_of (taken self.now) }
    {
        self.front.meters
    }

    /// Takes in further steps, which readers don't see yet. Nothing is taken in where it answers lack of memory.
    pub fn append(&mut self, steps: &[MeterStep]) -> Result<(), OutOfMemory>
        requires range { StayInRange (meters_of (taken self.old)) steps.now }
        ensures taken { IfOk result (λ _. taken self.new ≡ taken self.old ++ steps.now) }
        ensures refused { OnErr result (taken self.new ≡ taken self.old) }
        ensures published { published self.new ≡ published self.old }
        ensures same { IsSameBoard self.old self.new }
    {
        let at = self.front.meters.entries;
        let meters = folded(self.front.meters, steps);
        let mut seen = self.front.seen.again();
        // The word is this board's own, so no run finds another number there; but only the rule of the list knows that.
        let found = put_behind::<Brand>(&self.head, &mut seen, at, meters.entries, steps);
        if found != at {
            return Err(OutOfMemory);
        }
        self.front = Shown { meters, seen };
        Ok(())
    }

    /// Shows readers all steps that were taken in, at once. It waits for those that still read the values from before the
    /// last call.
    pub fn publish(&mut self) -> Result<(), OutOfMemory>
        ensures published { IfOk result (λ _. published self.new ≡ taken self.old) }
        ensures refused { OnErr result (published self.new ≡ published self.old) }
        ensures taken { taken self.new ≡ taken self.old }
        ensures same { IsSameBoard self.old self.new }
    {
        if self.writer.published().meters.entries == self.front.meters.entries {
            return Ok(());
        }
        match self.writer.append(self.front.again()) {
            Ok(()) => {}
            Err(_) => return Err(OutOfMemory),
        }
        replace_with(
            &mut self.writer,
            (&self.rt, &self.front),
            |writer: Press, given: (&R, &Shown)| -> (Press, ())
                requires { (drop writer.behind writer.log.items ≡ given.1.now ∷ [])
                    × (given.1.now.seen.book ≡ writer.desk.shown.value.seen.book) }
                ensures { (result.0.desk.shown.value ≡ given.entry.1.now)
                    × (drop result.0.behind result.0.log.items ≡ [])
                    × (view result.0.desk.place ≡ Some given.entry.1.now.seen) }
            { (show_next(writer, given.0, given.1), ()) },
        );
        Ok(())
    }

    /// Tells a reader of all that is published and of nothing else, and answers how many steps those are.
    pub fn tell(&self, reader: &mut MeterReader) -> u64
        requires of { IsOf reader.old self.now }
        ensures count { result ≡ length (published self.now) }
        ensures told { IsPrefix (published self.now) (seen reader.new) }
        ensures later { IsPrefix (seen reader.old) (seen reader.new) }
        ensures one { (seen reader.new ≡ seen reader.old) ⊎ (seen reader.new ≡ published self.now) }
        ensures of { IsOf reader.new self.now }
    {
        let shown = self.writer.published();
        reader.last.extend_to(shown);
        shown.meters.entries
    }
}
