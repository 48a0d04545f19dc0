//! The exit status of a command, by how it ended.
ghost use Rattle.std.specs.Prelude.{◌≡◌};
ghost use Rattle.command_runs.specs.Statuses.{status_by as status_by_outcome};

use adx_io::Stop;
use command_runs::Outcome;

/// The status where the input was read to its end.
pub const DONE: u8 = 0;

/// The status where the words aren't a command.
pub const NO_COMMAND: u8 = 2;

/// The status where the input isn't of its form, or passes its limit.
pub const REFUSED: u8 = 3;

/// The status where the source failed.
pub const READ_FAULT: u8 = 4;

/// The status where the sink failed.
pub const WRITE_FAULT: u8 = 5;

/// The status where the disk failed.
pub const DISK_FAULT: u8 = 6;

/// The status where the disk's file represents no history of the roster.
pub const NO_HISTORY: u8 = 7;

/// The status where the certificate isn't accepted.
pub const NOT_ACCEPTED: u8 = 8;

/// The status where the keeper of closed days failed.
pub const KEEPER_FAULT: u8 = 9;

/// The status where the day is kept already, or a day isn't a date, or a range of days runs backwards.
pub const NOT_KEPT: u8 = 10;

/// The status where memory was refused.
pub const OUT_OF_MEMORY: u8 = 12;

/// The exit status of a command that ended with this outcome.
pub(crate) fn status_of_outcome(ended: Result<Outcome, Stop>) -> u8
    ensures { result ≡ status_by_outcome ended }
{
    command_runs::status_of(ended)
}
