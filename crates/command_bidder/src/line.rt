//! One line, which comes without its newline.
ghost use Rattle.std.specs.Prelude.{◌≡◌, [], IfOk};
ghost use Rattle.adx_json.specs.View.{tree_of};
ghost use Rattle.command_bidder.specs.PriceLines.{FindsPriceLine, FindsPrices};

use crate::fault::PricesFault;
use adx_json::{Json, JsonFault, read};
use bidder_core::Bidder;
use deal_floor::RosterFault;
use script_lines::RosterRefusal;
use std::alloc::Global;

/// The bidder that a value is, or its first fault.
fn bidder_of(alloc: Global, value: &Json) -> Result<Bidder, PricesFault>
    ensures finds { FindsPrices (tree_of value.now) result }
    ensures fresh { IfOk result (λ b. b.rows ≡ []) }
{
    match Bidder::of(alloc, value) {
        Ok(bidder) => Ok(bidder),
        Err(RosterFault::OutOfMemory) => Err(PricesFault::OutOfMemory),
        Err(fault) => Err(PricesFault::Refused {
            why: RosterRefusal::Member { fault },
        }),
    }
}

/// The bidder of a line, which comes without its newline, with no notice yet; or why the line is none: it is no JSON text
/// (RFC 8259), or the first fault of its value.
pub fn read_prices(alloc: Global, line: &[u8]) -> Result<Bidder, PricesFault>
    ensures finds { FindsPriceLine line.now result }
    ensures fresh { IfOk result (λ b. b.rows ≡ []) }
{
    match read(alloc, line) {
        Ok(value) => bidder_of(alloc, &value),
        Err(JsonFault::OutOfMemory) => Err(PricesFault::OutOfMemory),
        Err(fault) => Err(PricesFault::Refused {
            why: RosterRefusal::Json { fault },
        }),
    }
}
