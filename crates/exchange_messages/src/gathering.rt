//! How bidders are asked: one after the other, or all at the same time.
ghost use Rattle.exchange_messages.specs.Floors.{Gave};

use adx_links::Link;
use adx_units::{Id, OutOfMemory};
use fan_out::{BidderAnswer, Lane, gather, gather_in_turn};
use std::alloc::Global;
use std::marker::{Send, Sync};
use std::thread::Threads;

/// What bidders are asked, and over which lanes.
#[derive(Drop)]
pub struct Round<'a, L> {
    /// The lanes, one for each bidder.
    pub lanes: Vec<Lane<L>>,
    /// The request's body.
    pub body: &'a [u8],
    /// The request's id.
    pub id: &'a Id,
}

/// The lanes after their work, and the bidders' answers in the order of the lanes.
pub type Given<L> = (Vec<Lane<L>>, Result<Vec<BidderAnswer>, OutOfMemory>);

/// Asks one bidder after the other, without threads.
pub fn in_turn<L: Link>(alloc: Global, round: Round<'_, L>) -> Given<L>
    ensures { Gave L.Link round.entry result }
{
    let Round {
        mut lanes,
        body,
        id,
    } = round;
    let given = gather_in_turn(alloc, &mut lanes, body, id);
    (lanes, given)
}

/// Asks all bidders at the same time, each in a thread of its own where one can be started.
pub fn at_once<R: Threads + Sync, L: Link + Send>(
    rt: &R,
    alloc: Global,
    round: Round<'_, L>,
) -> Given<L>
    ensures { Gave L.Link round.entry result }
{
    let Round {
        mut lanes,
        body,
        id,
    } = round;
    let given = gather(rt, alloc, &mut lanes, body, id);
    (lanes, given)
}
