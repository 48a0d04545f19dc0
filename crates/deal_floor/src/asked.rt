//! What a bid was made on, and what it names of it.
ghost use Rattle.std.specs.Prelude.{◌≡◌, ◌≤◌, ◌<◌, length, IfSome, IfNone, Some, Ok, false, true};
ghost use Rattle.adx_units.specs.declared.price.TheConstants.{PRICE_LIMIT};
ghost use Rattle.deal_floor.specs.Admission.{can_be_sold, imp_of, imp_place, campaign_place, kept_length as kept_length_by, wants_several as wants_several_by, place_of_imp as place_of_imp_by};
ghost use Rattle.deal_floor.specs.Sales.{case_of};
ghost use Rattle.deal_floor.specs.declared.terms.TheConstants.{MOST_KEPT};

use crate::campaigns::Campaigns;
use crate::terms::MOST_KEPT;
use adx_units::Units;
use rtb_request::{BidRequest, Imp};
use rtb_response::{Bid, SeatBid};

/// A bid with what it was made on.
#[derive(Clone, Copy)]
pub(crate) struct Asked<'a> {
    pub request: &'a BidRequest,
    pub campaigns: &'a Campaigns,
    pub bidder: u32,
    pub bidid: &'a str,
    pub seat: &'a SeatBid,
    pub bid: &'a Bid,
}

/// What a bid that can be sold names.
#[derive(Clone, Copy)]
pub(crate) struct Sale<'a> {
    pub place: usize,
    pub imp: &'a Imp,
    pub campaign: usize,
    pub price: Units,
}

/// What a bid names, where it can be sold. None exactly where it can't.
pub(crate) fn sale_of<'a>(asked: &Asked<'a>) -> Option<Sale<'a>>
    ensures none { IfNone result (can_be_sold (case_of asked.now) ≡ false) }
    ensures some { IfSome result (λ _. can_be_sold (case_of asked.now) ≡ true) }
    ensures place { IfSome result (λ s. imp_place (case_of asked.now) ≡ Some s.place) }
    ensures imp { IfSome result (λ s. imp_of (case_of asked.now) ≡ Some s.imp.now) }
    ensures campaign { IfSome result (λ s. campaign_place (case_of asked.now) ≡ Some s.campaign) }
    ensures price { IfSome result (λ s. asked.now.bid.now.price ≡ Ok s.price) }
    ensures in_range { IfSome result (λ s. (1 ≤ s.price.0) × (s.price.0 ≤ PRICE_LIMIT)) }
    ensures known_imp { IfSome result (λ s. s.place < length asked.now.request.now.imps) }
    ensures known_campaign { IfSome result (λ s. s.campaign < length asked.now.campaigns.now) }
    ensures texts { IfSome result (λ _. kept_length_by asked.now.bidid.now asked.now.seat.now asked.now.bid.now ≤ MOST_KEPT) }
{
    let bid = asked.bid;
    if !bid.whole {
        return None;
    }
    let Ok(price) = bid.price else {
        return None;
    };
    let place = place_of_imp(asked.request, bid)?;
    let imp = asked.request.imps.as_slice().get(place)?;
    if !imp.sold {
        return None;
    }
    let seat = asked.seat;
    let campaign = asked
        .campaigns
        .place_of(asked.bidder, seat.seat.as_str(), bid.cid.as_str())?;
    if kept_length(asked.bidid, seat, bid) > u128::from(MOST_KEPT) || wants_several(seat) {
        return None;
    }
    Some(Sale {
        place,
        imp,
        campaign,
        price,
    })
}

/// The place of the impression that a bid names. None exactly where it names none of the request.
pub(crate) fn place_of_imp(request: &BidRequest, bid: &Bid) -> Option<usize>
    ensures value { result ≡ place_of_imp_by request.now bid.now }
    ensures below { IfSome result (λ place. place < length request.now.imps) }
{
    let impid = bid.impid.as_bytes();
    request
        .imps
        .as_slice()
        .iter()
        .position(|imp| imp.id.as_bytes() == impid)
}

/// All that a day may keep of a bid, in bytes.
fn kept_length(bidid: &str, seat: &SeatBid, bid: &Bid) -> u128
    ensures { result ≡ kept_length_by bidid.now seat.now bid.now }
{
    let of_seat = seat.seat.as_bytes().len() as u128 + bidid.len() as u128;
    let of_notices = bid.nurl.as_bytes().len() as u128
        + bid.burl.as_bytes().len() as u128
        + bid.lurl.as_bytes().len() as u128;
    of_seat + bid.adid.as_bytes().len() as u128 + of_notices + bid.body.as_bytes().len() as u128
}

/// Whether a seat wants several bids to win together or not at all.
fn wants_several(seat: &SeatBid) -> bool
    ensures { result ≡ wants_several_by seat.now }
{
    seat.all_or_none && seat.bids.len() > 1
}
