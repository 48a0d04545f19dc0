//! A board of steps with a pass of the desk whose meters it shows.
ghost use Rattle.std.specs.Prelude.{◌≡◌, length, take};
ghost use Rattle.day_rules.specs.DayMeters.{steps_of};
ghost use Rattle.meter_board.specs.Words.{published, taken};

use adx_desk::Desk;
use day_journal::Disk;
use meter_board::StepBoard;
use std::sync::Wait;
use turnstile::Pass;

/// A board of a shared desk. What it took in, and what readers are shown, begin the steps of the history that its pass
/// has seen.
#[derive(Drop)]
pub struct Board<R: Wait + Drop, D: Disk> {
    /// The board of steps.
    pub board: StepBoard<R>,
    /// The pass that it reads the history by.
    pub pass: Pass<Desk<D>>,
    pub ghost begins: { take (length (taken board)) (steps_of pass.seen) ≡ taken board },
    pub ghost shows: { take (length (published board)) (steps_of pass.seen) ≡ published board },
}
