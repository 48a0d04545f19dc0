//! The price line, which is first in an input.
ghost use Rattle.std.specs.Prelude.{◌≡◌, ◌++◌, IfOk, OnOk, string_bytes};
ghost use Rattle.command_runs.specs.Firsts.{FindsHead};
ghost use Rattle.command_runs.specs.Limits.{input_limit};
ghost use Rattle.command_bidder.specs.Bidders.{lack_line, price_heads};

use crate::fault::PricesFault;
use crate::line::read_prices;
use adx_units::OutOfMemory;
use bidder_core::Bidder;
use command_runs::NoLine;
use script_lines::{RosterRefusal, push_roster_refused};
use std::alloc::Global;

/// The bidder of a whole line, with no notice yet. None where it is refused, and then the answer that says why is written.
pub(crate) fn prices_of(
    alloc: Global,
    line: &[u8],
    out: &mut String,
) -> Result<Option<Bidder>, OutOfMemory>
    ensures { IfOk result (FindsHead price_heads input_limit line.now (string_bytes out.old) (string_bytes out.new)) }
{
    match read_prices(alloc, line) {
        Ok(bidder) => Ok(Some(bidder)),
        Err(PricesFault::Refused { why }) => {
            push_roster_refused(alloc, out, why)?;
            Ok(None)
        }
        Err(PricesFault::OutOfMemory) => Err(OutOfMemory),
    }
}

/// Writes the answer that says why there is no price line.
pub(crate) fn push_prices_lack(
    alloc: Global,
    out: &mut String,
    why: NoLine,
) -> Result<(), OutOfMemory>
    ensures { OnOk result (string_bytes out.new ≡ string_bytes out.old ++ lack_line why) }
{
    match why {
        NoLine::Cut => {
            push_roster_refused(alloc, out, RosterRefusal::Cut)?;
            Ok(())
        }
        NoLine::Long => {
            push_roster_refused(alloc, out, RosterRefusal::Long)?;
            Ok(())
        }
    }
}
