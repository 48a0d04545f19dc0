//! The ask of a request and its answers.
ghost use Rattle.std.specs.Prelude.{◌≡◌, ◌≤◌, ◌<◌, ◌^◌, length, map, IfOk};
ghost use Rattle.day_rules.specs.Asks.{IsWellFormed, IsUndecided};
ghost use Rattle.script_lines.specs.Making.{ask_by_parts, ask_of};

use crate::bids::{Bids, Sale};
use adx_units::{Id, OutOfMemory, Sequence};
use day_rules::Ask;
use deal_floor::Roster;
use rtb_request::{BidRequest, Imp};
use rtb_response::BidAnswer;
use std::alloc::Global;

/// The ask of a request at a moment in seconds. The answers are those of the roster's bidders, in their order; one that
/// is None gives no bids, and so does a bidder behind the last of them. Each bid is there, with all of its texts: a day
/// that takes the ask leaves those that it keeps.
pub fn make_ask(
    alloc: Global,
    request: &BidRequest,
    roster: &Roster,
    answers: Vec<Option<BidAnswer>>,
    now: u64,
) -> Result<Ask, OutOfMemory>
    requires answers { length answers.items ≤ length roster.now.bidders }
    requires now { now < 2 ^ 63 }
    ensures gives { IfOk result (λ a. a ≡ ask_of request.now roster.entry.now.campaigns answers.items now) }
    ensures well_formed { IfOk result (IsWellFormed (length roster.entry.now.campaigns)) }
    ensures undecided { IfOk result IsUndecided }
{
    let sale = Sale { request, roster };
    let mut bids = Bids::with_room(alloc, bid_count(answers.as_slice()))?;
    let mut left = answers;
    left.reverse();
    let mut bidder = 0;
    'answers: while let Some(answer) = left.pop() {
        bids.take_answer(alloc, sale, bidder, answer)?;
        bidder += 1;
    }
    ask_with(alloc, request, bids, now)
}

/// How many bids some answers have, for the room that is taken for them.
fn bid_count(answers: &[Option<BidAnswer>]) -> usize {
    let mut count: usize = 0;
    for answer in answers {
        if let Some(answer) = answer {
            for seat in answer.seats.as_slice() {
                count = count.saturating_add(seat.bids.len());
            }
        }
    }
    count
}

/// The ask of a request with these bids.
fn ask_with(alloc: Global, request: &BidRequest, bids: Bids, now: u64) -> Result<Ask, OutOfMemory>
    ensures { IfOk result (λ a. a ≡ ask_by_parts request.now now bids.offers.items bids.kept.items) }
{
    Ok(Ask {
        auction: request.id.copy(alloc)?,
        digest: request.digest,
        now,
        first: 0,
        imps: imp_ids(alloc, request.imps.as_slice())?,
        offers: Sequence::from(bids.offers),
        kept: Sequence::from(bids.kept),
    })
}

/// Copies of the ids of impressions.
fn imp_ids(alloc: Global, imps: &[Imp]) -> Result<Sequence<Id>, OutOfMemory>
    ensures { IfOk result (λ ids. ids ≡ map (λ i. i.id) imps.now) }
{
    let mut ids = Vec::with_capacity(alloc, imps.len())?;
    for imp in imps {
        ids.push(imp.id.copy(alloc)?)?;
    }
    Ok(Sequence::from(ids))
}
