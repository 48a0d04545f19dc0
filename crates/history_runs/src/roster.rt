//! The roster's line, which is first in an input.
ghost use Rattle.std.specs.Prelude.{◌≡◌, ◌++◌, IfOk, OnOk, string_bytes};
ghost use Rattle.command_runs.specs.Firsts.{FindsHead};
ghost use Rattle.command_runs.specs.Limits.{input_limit};
ghost use Rattle.history_runs.specs.Rosters.{lack_line, roster_heads};

use adx_units::OutOfMemory;
use command_runs::NoLine;
use deal_floor::Roster;
use script_lines::{RosterLineFault, RosterRefusal, push_roster_refused, read_roster};
use std::alloc::Global;

/// The roster of a whole line. None where it is refused, and then the answer that says why is written.
pub fn roster_of(
    alloc: Global,
    line: &[u8],
    out: &mut String,
) -> Result<Option<Roster>, OutOfMemory>
    ensures { IfOk result (FindsHead roster_heads input_limit line.now (string_bytes out.old) (string_bytes out.new)) }
{
    match read_roster(alloc, line) {
        Ok(roster) => Ok(Some(roster)),
        Err(RosterLineFault::Refused { why }) => {
            push_roster_refused(alloc, out, why)?;
            Ok(None)
        }
        Err(RosterLineFault::OutOfMemory) => Err(OutOfMemory),
    }
}

/// Writes the answer that says why there is no roster's line.
pub fn push_roster_lack(alloc: Global, out: &mut String, why: NoLine) -> Result<(), OutOfMemory>
    ensures { OnOk result (string_bytes out.new ≡ string_bytes out.old ++ lack_line why) }
{
    match why {
        NoLine::Cut => {
            push_roster_refused(alloc, out, RosterRefusal::Cut)?;
            Ok(())
        }
        NoLine::Long => {
            push_roster_refused(alloc, out, RosterRefusal::Long)?;
            Ok(())
        }
    }
}
