//! A pump of a world: the outbox follows the day, each message meets its fate, and what comes back decides of its post.
ghost use Rattle.std.specs.Prelude.{◌≡◌};
ghost use Rattle.two_books.specs.Pumps.{PumpsPlan, PumpsTo};

use crate::exchange::Exchange;
use crate::playing::play_all;
use crate::replay::{ReplayLink, Reply};
use crate::step::Fate;
use adx_units::OutOfMemory;
use bidder_core::Bidder;
use outbox::Call;
use std::alloc::Global;

/// Tries the pending posts over a link that answers these replies.
fn pump_planned(
    alloc: Global,
    exchange: &mut Exchange,
    replies: Vec<Reply>,
) -> Result<(), OutOfMemory>
    ensures { PumpsPlan replies.items result exchange.old exchange.new }
{
    let mut link = ReplayLink::new(alloc, replies);
    match exchange.pump(&mut link) {
        Ok(_report) => Ok(()),
        Err(wanting) => Err(wanting),
    }
}

/// Follows the day, and tries each pending post once; its messages meet these fates.
pub(crate) fn pump(
    alloc: Global,
    exchange: &mut Exchange,
    messages: &mut Vec<Call>,
    bidder: &mut Bidder,
    fates: &[Fate],
) -> Result<(), OutOfMemory>
    ensures { PumpsTo fates.now result exchange.old exchange.new messages.old.items messages.new.items
        bidder.old bidder.new }
{
    match exchange.follow() {
        Ok(()) => {}
        Err(wanting) => return Err(wanting),
    }
    let mut replies = Vec::new(alloc);
    match play_all(
        alloc,
        bidder,
        messages,
        &mut replies,
        exchange.pending(),
        fates,
    ) {
        Ok(()) => pump_planned(alloc, exchange, replies),
        Err(wanting) => Err(wanting),
    }
}
