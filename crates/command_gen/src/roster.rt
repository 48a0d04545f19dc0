//! The roster of a generated day.
ghost use Rattle.std.specs.Prelude.{IfOk};
ghost use Rattle.script_lines.specs.Rosters.{IsRosterLine};
ghost use Rattle.command_gen.specs.Generated.{generated_line};

use adx_units::OutOfMemory;
use deal_floor::Roster;
use script_lines::{RosterLineFault, read_roster};
use std::alloc::Global;

/// The roster line of a generated day.
const ROSTER_LINE: &str =
    "{\"day\":\"2025-01-01\",\"bidders\":[{\"name\":\"b\"}],\"campaigns\":[{\"bidder\":\"b\",\"seat\":\"s\",\"cid\":\"c0\",\"budget\":0.01},{\"bidder\":\"b\",\"seat\":\"s\",\"cid\":\"c1\",\"budget\":0.02},{\"bidder\":\"b\",\"seat\":\"s\",\"cid\":\"c2\",\"budget\":0.03},{\"bidder\":\"b\",\"seat\":\"s\",\"cid\":\"c3\",\"budget\":0.04},{\"bidder\":\"b\",\"seat\":\"s\",\"cid\":\"c4\",\"budget\":0.05},{\"bidder\":\"b\",\"seat\":\"s\",\"cid\":\"c5\",\"budget\":0.06},{\"bidder\":\"b\",\"seat\":\"s\",\"cid\":\"c6\",\"budget\":0.07},{\"bidder\":\"b\",\"seat\":\"s\",\"cid\":\"c7\",\"budget\":0.08},{\"bidder\":\"b\",\"seat\":\"s\",\"cid\":\"c8\",\"budget\":0.09},{\"bidder\":\"b\",\"seat\":\"s\",\"cid\":\"c9\",\"budget\":0.1},{\"bidder\":\"b\",\"seat\":\"s\",\"cid\":\"c10\",\"budget\":0.11},{\"bidder\":\"b\",\"seat\":\"s\",\"cid\":\"c11\",\"budget\":0.12},{\"bidder\":\"b\",\"seat\":\"s\",\"cid\":\"c12\",\"budget\":0.13},{\"bidder\":\"b\",\"seat\":\"s\",\"cid\":\"c13\",\"budget\":0.14},{\"bidder\":\"b\",\"seat\":\"s\",\"cid\":\"c14\",\"budget\":0.15},{\"bidder\":\"b\",\"seat\":\"s\",\"cid\":\"c15\",\"budget\":0.16}]}";

/// The roster of a generated day.
pub(crate) fn generated_roster(alloc: Global) -> Result<Roster, OutOfMemory>
    ensures { IfOk result (λ r. IsRosterLine generated_line r) }
{
    match read_roster(alloc, ROSTER_LINE.as_bytes()) {
        Ok(roster) => Ok(roster),
        Err(RosterLineFault::OutOfMemory) => Err(OutOfMemory),
        Err(RosterLineFault::Refused { .. }) => unreachable!(),
    }
}
