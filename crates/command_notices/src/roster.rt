//! A document whose first line is a roster.
ghost use Rattle.std.specs.Prelude.{◌≡◌};
ghost use Rattle.command_notices.specs.Rosters.{FindsFirst, refusal_by};

use command_runs::{NoLine, line_of};
use deal_floor::Roster;
use script_lines::{RosterLineFault, RosterRefusal, read_roster};
use std::alloc::Global;

/// How a document without a first line is refused.
fn refusal_of(none: NoLine) -> RosterRefusal
    ensures { result ≡ refusal_by none }
{
    match none {
        NoLine::Cut => RosterRefusal::Cut,
        NoLine::Long => RosterRefusal::Long,
    }
}

/// The roster of the first line of a document, or why it is none. What comes after the line isn't looked at.
pub fn first_roster(alloc: Global, document: &[u8]) -> Result<Roster, RosterLineFault>
    ensures finds { FindsFirst document.now result }
{
    match line_of(document) {
        Ok(line) => read_roster(alloc, line),
        Err(none) => Err(RosterLineFault::Refused {
            why: refusal_of(none),
        }),
    }
}
