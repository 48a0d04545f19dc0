//! The bids that were taken so far: each as an offer, and with its texts.
ghost use Rattle.std.specs.Prelude.{◌≡◌, ◌<◌, ◌≤◌, ◌+◌, ◌^◌, ◌++◌, [], ℕ, All, length, map, OnOk, IfOk};
ghost use Rattle.std.specs.List.{enumerate_from};
ghost use Rattle.rtb_response.specs.declared.bid_answer.SeatBid.{SeatBid as Seat};
ghost use Rattle.script_lines.specs.Making.{seated, bids_of_seat, bids_of, offer_of as offer_by_rules, kept_of};
ghost use Rattle.rtb_response.specs.declared.bid.TheConstants.{MOST_BIDS};
ghost use Rattle.script_lines.specs.Parts.{FitsDay, HasTaken, bids_of_seats};

use adx_units::{Offer, OutOfMemory, Text};
use day_rules::Kept;
use deal_floor::{Roster, admit, refused};
use rtb_request::BidRequest;
use rtb_response::{Bid, BidAnswer, SeatBid};
use std::alloc::Global;

/// What the bids are made on.
#[derive(Clone, Copy)]
pub(crate) struct Sale<'a> {
    pub(crate) request: &'a BidRequest,
    pub(crate) roster: &'a Roster,
}

/// Offers and texts of the bids that were taken, in their order.
#[derive(Drop)]
pub(crate) struct Bids {
    pub(crate) offers: Vec<Offer>,
    pub(crate) kept: Vec<Kept>,
}

impl Bids {
    /// No bid, with room for so many.
    pub(crate) fn with_room(alloc: Global, room: usize) -> Result<Bids, OutOfMemory>
        ensures { IfOk result (λ bids. (bids.offers.items ≡ []) × (bids.kept.items ≡ [])) }
    {
        Ok(Bids {
            offers: Vec::with_capacity(alloc, room)?,
            kept: Vec::with_capacity(alloc, room)?,
        })
    }

    /// Takes the bids of a bidder's answer; without an answer there are none.
    pub(crate) fn take_answer(
        &mut self,
        alloc: Global,
        sale: Sale<'_>,
        bidder: u32,
        answer: Option<BidAnswer>,
    ) -> Result<(), OutOfMemory>
        requires few { length self.old.offers.items + MOST_BIDS < 2 ^ 32 }
        ensures few { OnOk result (length self.new.offers.items ≤ length self.old.offers.items + MOST_BIDS) }
        ensures taken { OnOk result (HasTaken sale.entry.request.now sale.entry.roster.now.campaigns self.old self.new
            (bids_of (bidder, answer))) }
    {
        match answer {
            Some(answer) => {
                self.take_seats(alloc, sale, bidder, answer)?;
                Ok(())
            }
            None => Ok(()),
        }
    }

    /// Takes the bids of an answer's seats.
    fn take_seats(
        &mut self,
        alloc: Global,
        sale: Sale<'_>,
        bidder: u32,
        answer: BidAnswer,
    ) -> Result<(), OutOfMemory>
        requires few { length self.old.offers.items + length (bids_of_seats bidder answer) < 2 ^ 32 }
        ensures counted { OnOk result (length self.new.offers.items ≡ length self.old.offers.items + length (bids_of_seats bidder answer)) }
        ensures taken { OnOk result (HasTaken sale.entry.request.now sale.entry.roster.now.campaigns self.old self.new
            (bids_of_seats bidder answer)) }
    {
        let mut left = answer.seats.into_vec();
        left.reverse();
        'seats: while let Some(seat) = left.pop() {
            self.take_seat(alloc, sale, bidder, &answer.bidid, seat)?;
        }
        Ok(())
    }

    /// Takes the bids of a seat.
    fn take_seat(
        &mut self,
        alloc: Global,
        sale: Sale<'_>,
        bidder: u32,
        bidid: &Text,
        seat: SeatBid,
    ) -> Result<(), OutOfMemory>
        requires few { length self.old.offers.items + length seat.bids < 2 ^ 32 }
        ensures counted { OnOk result (length self.new.offers.items ≡ length self.old.offers.items + length seat.bids) }
        ensures taken { OnOk result (HasTaken sale.entry.request.now sale.entry.roster.now.campaigns self.old self.new
            (bids_of_seat bidder bidid.now seat)) }
    {
        let first = self.offers.as_slice().len();
        put_offers(alloc, sale, bidder, bidid, &seat, &mut self.offers)?;
        let bids = seat.bids.into_vec();
        put_kept(alloc, first, bidid, &seat.seat, bids, &mut self.kept)?;
        Ok(())
    }
}

/// Puts the offers that a seat's bids are behind those that were taken.
fn put_offers(
    alloc: Global,
    sale: Sale<'_>,
    bidder: u32,
    bidid: &Text,
    seat: &SeatBid,
    offers: &mut Vec<Offer>,
) -> Result<(), OutOfMemory>
    ensures offers { OnOk result (offers.new.items ≡ offers.old.items
        ++ map (offer_by_rules sale.entry.request.now sale.entry.roster.now.campaigns) (bids_of_seat bidder bidid.now seat.now)) }
    ensures fit { OnOk result (All (FitsDay sale.entry.request.now sale.entry.roster.now.campaigns) (bids_of_seat bidder bidid.now seat.now)) }
{
    for bid in seat.bids.as_slice() {
        offers.push(offer_of(alloc, sale, bidder, bidid, seat, bid))?;
    }
    Ok(())
}

/// Puts the texts of a seat's bids, of which the first has that place among all bids, behind those that were taken.
fn put_kept(
    alloc: Global,
    first: usize,
    bidid: &Text,
    seat: &Text,
    bids: Vec<Bid>,
    kept: &mut Vec<Kept>,
) -> Result<(), OutOfMemory>
    requires few { first + length bids.items < 2 ^ 32 }
    ensures { OnOk result ((bidder : ℕ) (s : Seat) → s.seat ≡ seat.now → kept.new.items ≡ kept.old.items
        ++ map kept_of (enumerate_from first (map (seated bidder bidid.now s) bids.items))) }
{
    let mut left = bids;
    left.reverse();
    let mut place = first;
    'bids: while let Some(bid) = left.pop() {
        kept.push(kept_texts(alloc, place, bidid, seat, bid)?)?;
        place += 1;
    }
    Ok(())
}

/// The offer that a bid is, as it is admitted or refused.
fn offer_of(
    alloc: Global,
    sale: Sale<'_>,
    bidder: u32,
    bidid: &Text,
    seat: &SeatBid,
    bid: &Bid,
) -> Offer
    ensures value { result ≡ offer_by_rules sale.entry.request.now sale.entry.roster.now.campaigns (seated bidder bidid.now seat.now bid.now) }
    ensures fits { FitsDay sale.entry.request.now sale.entry.roster.now.campaigns (seated bidder bidid.now seat.now bid.now) }
{
    match admit(
        alloc,
        sale.request,
        sale.roster,
        bidder,
        bidid.as_str(),
        seat,
        bid,
    ) {
        Ok(offer) => offer,
        Err(reason) => refused(sale.request, bid, reason),
    }
}

/// A bid's texts, moved out of it, with copies of those that it came by.
fn kept_texts(
    alloc: Global,
    place: usize,
    bidid: &Text,
    seat: &Text,
    bid: Bid,
) -> Result<Kept, OutOfMemory>
    requires { place < 2 ^ 32 }
    ensures { IfOk result (λ k. (bidder : ℕ) (s : Seat) → s.seat ≡ seat.now → k ≡ kept_of (place, seated bidder bidid.now s bid)) }
{
    Ok(Kept {
        bid: place as u32,
        seat: seat.copy(alloc)?,
        bidid: bidid.copy(alloc)?,
        adid: bid.adid,
        nurl: bid.nurl,
        burl: bid.burl,
        lurl: bid.lurl,
        body: bid.body,
    })
}
