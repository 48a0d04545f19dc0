//! A document whose first line is a price line.
ghost use Rattle.std.specs.Prelude.{◌≡◌, [], IfOk};
ghost use Rattle.command_bidder.specs.Documents.{FindsFirst, refusal_by};

use crate::fault::PricesFault;
use crate::line::read_prices;
use bidder_core::Bidder;
use command_runs::{NoLine, line_of};
use script_lines::RosterRefusal;
use std::alloc::Global;

/// How a document without a first line is refused.
fn refusal_of(none: NoLine) -> RosterRefusal
    ensures { result ≡ refusal_by none }
{
    match none {
        NoLine::Cut => RosterRefusal::Cut,
        NoLine::Long => RosterRefusal::Long,
    }
}

/// The bidder of the first line of a document, with no notice yet, or why it is none. What comes after the line isn't
/// looked at.
pub fn first_prices(alloc: Global, document: &[u8]) -> Result<Bidder, PricesFault>
    ensures finds { FindsFirst document.now result }
    ensures fresh { IfOk result (λ b. b.rows ≡ []) }
{
    match line_of(document) {
        Ok(line) => read_prices(alloc, line),
        Err(none) => Err(PricesFault::Refused {
            why: refusal_of(none),
        }),
    }
}
