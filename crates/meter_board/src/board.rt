//! The list of steps, and what readers see of it.
ghost use Rattle.std.specs.Prelude.{◌≡◌, [], Some, length, take, drop};
ghost use Rattle.left_right.specs.Sides.{view};
ghost use Rattle.meter_board.specs.BookRule.{head_of};
ghost use Rattle.meter_board.specs.Knowing.{book_of};

use crate::book::{Head, Token};
use crate::shown::Shown;
use crate::views::OneBook;
use left_right::writer::Writer;
use std::sync::Wait;

pub(crate) type Press = Writer<Shown, Shown, Option<Token>, OneBook>;

/// A list of steps, of which readers are shown a beginning. It keeps the handle `R`, since its drop waits for readers.
pub struct StepBoard<R: Wait + Drop> {
    pub(crate) writer: Press,
    pub(crate) rt: R,
    pub(crate) head: Head,
    /// All steps that were taken in.
    pub(crate) front: Shown,
    pub ghost one_book: { writer.desk.shown.value.seen.book ≡ front.seen.book },
    pub ghost head_is: { head ≡ head_of front.seen.book },
    pub ghost begins: { take (length writer.desk.shown.value.seen.log) front.seen.log ≡ writer.desk.shown.value.seen.log },
    pub ghost idle: { drop writer.behind writer.log.items ≡ [] },
    pub ghost knows: { book_of (view writer.desk.place) ≡ Some front.seen.book },
}

impl<R: Wait + Drop> Drop for StepBoard<R> {
    fn drop(self) {
        let Self {
            writer,
            rt,
            head: _,
            front: _,
        } = self;
        drop(writer.take(&rt));
    }
}
