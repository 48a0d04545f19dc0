//! The roster line.
ghost use Rattle.adx_json.specs.View.{tree_of};
ghost use Rattle.script_lines.specs.Rosters.{FindsRoster, FindsRosterValue};

use crate::refusal::{RosterLineFault, RosterRefusal};
use adx_json::{Json, JsonFault, read};
use deal_floor::{Roster, RosterFault};
use std::alloc::Global;

/// The roster that the first line is, or why it is none. The line is taken without its newline.
pub fn read_roster(alloc: Global, line: &[u8]) -> Result<Roster, RosterLineFault>
    ensures { FindsRoster line.now result }
{
    match read(alloc, line) {
        Ok(value) => roster_of(alloc, &value),
        Err(JsonFault::OutOfMemory) => Err(RosterLineFault::OutOfMemory),
        Err(fault) => Err(RosterLineFault::Refused {
            why: RosterRefusal::Json { fault },
        }),
    }
}

/// The roster that a value is, or its first fault.
fn roster_of(alloc: Global, value: &Json) -> Result<Roster, RosterLineFault>
    ensures { FindsRosterValue (tree_of value.now) result }
{
    match Roster::of(alloc, value) {
        Ok(roster) => Ok(roster),
        Err(RosterFault::OutOfMemory) => Err(RosterLineFault::OutOfMemory),
        Err(fault) => Err(RosterLineFault::Refused {
            why: RosterRefusal::Member { fault },
        }),
    }
}
