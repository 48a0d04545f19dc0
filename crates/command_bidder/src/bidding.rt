//! A bidder's run: its price line, and one connection after another.
ghost use Rattle.std.specs.Prelude.{◌≡◌, true, false};
ghost use Rattle.adx_links.specs.Told.{told_by};
ghost use Rattle.command_bidder.specs.Bidding.{EndsBid, IsUnused};
ghost use Rattle.command_bidder.specs.Turns.{EndsServing};
ghost use Rattle.command_bidder.specs.declared.ending.BidEnd.TheVariants.{OutOfMemory};

use crate::document::first_prices;
use crate::ending::BidEnd;
use crate::fault::PricesFault;
use crate::turn::{Turn, take_turn};
use adx_links::Acceptor;
use bidder_core::Bidder;
use std::alloc::Global;
use std::sync::Wait;

/// How a run ends whose acceptor ended it so. Lack of memory comes first.
fn ended(short: bool, end: BidEnd) -> BidEnd
    ensures short { short ≡ true → result ≡ OutOfMemory }
    ensures whole { short ≡ false → result ≡ end }
{
    if short { BidEnd::OutOfMemory } else { end }
}

/// Serves one connection after another, until no more come or the acceptor fails.
fn serve_all<R: Wait, A: Acceptor>(
    rt: &R,
    alloc: Global,
    bidder: &mut Bidder,
    acceptor: &mut A,
) -> BidEnd
    requires { IsUnused (told_by A.Acceptor A.In.Source A.Out.Sink acceptor.old) }
    ensures { EndsServing (told_by A.Acceptor A.In.Source A.Out.Sink acceptor.old)
        (told_by A.Acceptor A.In.Source A.Out.Sink acceptor.new) bidder.old bidder.new result }
{
    let mut short = false;
    for _ in rt.forever() {
        match take_turn(alloc, bidder, acceptor) {
            Turn::Served(wanting) => short |= wanting,
            Turn::Over => return ended(short, BidEnd::Over),
            Turn::Failed => return ended(short, BidEnd::AcceptorFault),
        }
    }
    unreachable!()
}

/// Serves a bidder over an acceptor: its price line is the first of the document, and what comes after the line isn't
/// looked at. Connections are served one after another, each with the ledger that those before it left. However a
/// connection ends, its pair is closed for its peer and given back, and the next one is taken.
///
/// `Over`: no more connections come, and none ended for lack of memory. `Refused`: the first line isn't a price line, and
/// the acceptor is as it was. `AcceptorFault`: the acceptor failed, whose count rose then, and no connection ended for lack
/// of memory. `OutOfMemory`: memory was refused before the bidder was made, and the acceptor is as it was; or within a
/// connection, and the run went on to its end.
///
/// It waits for connections, and need not return.
pub fn bid<R: Wait, A: Acceptor>(rt: &R, alloc: Global, document: &[u8], acceptor: &mut A) -> BidEnd
    requires unused { IsUnused (told_by A.Acceptor A.In.Source A.Out.Sink acceptor.old) }
    ensures ends { EndsBid document.now (told_by A.Acceptor A.In.Source A.Out.Sink acceptor.old)
        (told_by A.Acceptor A.In.Source A.Out.Sink acceptor.new) result }
{
    match first_prices(alloc, document) {
        Ok(found) => {
            let mut bidder = found;
            serve_all(rt, alloc, &mut bidder, acceptor)
        }
        Err(PricesFault::Refused { why }) => BidEnd::Refused { why },
        Err(PricesFault::OutOfMemory) => BidEnd::OutOfMemory,
    }
}
