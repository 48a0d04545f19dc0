//! The ask of a request and what its bidders answered.
ghost use Rattle.std.specs.Prelude.{◌≡◌, ◌≤◌, ◌<◌, ◌^◌, length, map, IfOk};
ghost use Rattle.day_rules.specs.Asks.{IsUndecided, IsWellFormed};
ghost use Rattle.exchange_messages.specs.Turns.{ask_by, given_by};

use adx_units::OutOfMemory;
use day_rules::Ask;
use deal_floor::Roster;
use fan_out::BidderAnswer;
use rtb_request::BidRequest;
use rtb_response::BidAnswer;
use std::alloc::Global;

/// The bids of a bidder's answer; None where it gave none.
fn bids_in(answer: BidderAnswer) -> Option<BidAnswer>
    ensures { result ≡ given_by answer }
{
    match answer {
        BidderAnswer::Bids(bids) => Some(bids),
        BidderAnswer::NoBid | BidderAnswer::Refused(_) | BidderAnswer::LinkFault => None,
    }
}

/// The bids of some answers, in their order.
fn all_bids_in(
    alloc: Global,
    answers: Vec<BidderAnswer>,
) -> Result<Vec<Option<BidAnswer>>, OutOfMemory>
    ensures { IfOk result (λ given. given.items ≡ map given_by answers.items) }
{
    let mut given = Vec::with_capacity(alloc, answers.len())?;
    let mut left = answers;
    left.reverse();
    'answers: while let Some(answer) = left.pop() {
        given.push(bids_in(answer))?;
    }
    Ok(given)
}

/// The ask of a request at a moment in seconds, by what its bidders answered, in the roster's order. Its offers are what
/// admission makes of each bid, in the order of bidders, seats and bids; a bidder that gave no bids, or none of the
/// answers, has none. None of them is decided yet. Fails only where memory is refused.
pub fn make_ask(
    alloc: Global,
    request: &BidRequest,
    roster: &Roster,
    answers: Vec<BidderAnswer>,
    now: u64,
) -> Result<Ask, OutOfMemory>
    requires answers { length answers.items ≤ length roster.now.bidders }
    requires now { now < 2 ^ 63 }
    ensures gives { IfOk result (λ a. a ≡ ask_by roster.entry.now request.now answers.items now) }
    ensures well_formed { IfOk result (IsWellFormed (length roster.entry.now.campaigns)) }
    ensures undecided { IfOk result IsUndecided }
{
    let given = all_bids_in(alloc, answers)?;
    script_lines::make_ask(alloc, request, roster, given, now)
}
