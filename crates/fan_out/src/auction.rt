//! An auction that hears what its bidders answer.
ghost use Rattle.std.specs.Prelude.{◌≡◌, ◌==◌, IfOk, length, not};
ghost use Rattle.std.specs.List.{list_any};
ghost use Rattle.fan_out.specs.Answers.{SaysBody, has_bid, said_by};

use crate::answer::{BidderAnswer, Refusal};
use adx_http::Hearer;
use adx_json::{JsonFault, read};
use adx_units::{Id, OutOfMemory};
use rtb_response::{AnswerFault, BidAnswer, SeatBid};
use std::alloc::Global;

/// Whether a seat has a bid.
fn bids(seat: &SeatBid) -> bool
    ensures { result ≡ not (length seat.now.bids == 0) }
{
    seat.bids.len() != 0
}

/// Whether one of the seats has a bid.
fn one_bids(seats: &[SeatBid]) -> bool
    ensures { result ≡ list_any (λ s. not (length s.bids == 0)) seats.now }
{
    seats.iter().any(|seat| bids(seat))
}

/// Whether an answer has a bid.
fn bids_some(answer: &BidAnswer) -> bool
    ensures { result ≡ has_bid answer.now }
{
    one_bids(answer.seats.as_slice())
}

/// What a body says.
fn body_of(alloc: Global, body: &[u8], id: &Id) -> Result<BidderAnswer, OutOfMemory>
    ensures { IfOk result (λ a. SaysBody id.now body.now (said_by a)) }
{
    let tree = match read(alloc, body) {
        Ok(tree) => tree,
        Err(JsonFault::OutOfMemory) => return Err(OutOfMemory),
        Err(fault) => return Ok(BidderAnswer::Refused(Refusal::Json(fault))),
    };
    match BidAnswer::of(alloc, &tree, id) {
        Ok(answer) => {
            if bids_some(&answer) {
                Ok(BidderAnswer::Bids(answer))
            } else {
                Ok(BidderAnswer::NoBid)
            }
        }
        Err(AnswerFault::OutOfMemory) => Err(OutOfMemory),
        Err(fault) => Ok(BidderAnswer::Refused(Refusal::Answer(fault))),
    }
}

/// The auction with that id.
#[derive(Clone, Copy)]
pub(crate) struct Auction<'a> {
    pub(crate) alloc: Global,
    pub(crate) id: &'a Id,
}

impl Hearer for Auction<'_> {
    ghost use Rattle.std.specs.Prelude.{IfOk};
    ghost use Rattle.fan_out.specs.Answers.{SaysResponse, said_by};

    type Heard = Result<BidderAnswer, OutOfMemory>;

    ghost hears = { λ auction status body heard. IfOk heard (λ a. SaysResponse auction.id.now status body (said_by a)) };

    fn hear(self, status: u16, body: &[u8]) -> Result<BidderAnswer, OutOfMemory> {
        match status {
            200 => body_of(self.alloc, body, self.id),
            204 => Ok(BidderAnswer::NoBid),
            other => Ok(BidderAnswer::Refused(Refusal::Status(other))),
        }
    }
}
