//! Which bids an exchange admits.
ghost use Rattle.std.specs.Prelude.{◌≡◌, ◌≤◌, ◌<◌, ◌⊎◌, ◌&&◌, not, length, IfOk};
ghost use Rattle.adx_units.specs.declared.offer.TheConstants.{ADMITTED};
ghost use Rattle.adx_units.specs.declared.price.TheConstants.{PRICE_LIMIT};
ghost use Rattle.adx_units.specs.Among.{is_among as is_among_by};
ghost use Rattle.deal_floor.specs.Admission.{admitted, refused_offer, kept_length, life_by, number_or_zero, allows as allows_by, case_by_parts};
ghost use Rattle.deal_floor.specs.declared.terms.TheConstants.{MOST_KEPT, MOST_LIFE, NO_IMP};

use crate::asked::{Asked, place_of_imp, sale_of};
use crate::deals::{allows, charge_of, is_deal_eligible, named_deal};
use crate::reason::Reason;
use crate::roster::Roster;
use crate::terms::{MOST_LIFE, NO_IMP, USUAL_LIFE};
use adx_units::{ADMITTED, Offer, Units, any_among, is_among};
use rtb_request::{BidRequest, Deal};
use rtb_response::{Bid, SeatBid};
use std::alloc::Global;

/// The offer that a bid is, or the first of the seven rules that it fails. `bidder` is the bidder's place in the roster
/// and `bidid` the answer's; `bid` is one of the seat's. Memory is taken where two long lists of names are compared, and
/// given back; where it is refused the answer is the same.
pub fn admit(
    alloc: Global,
    request: &BidRequest,
    roster: &Roster,
    bidder: u32,
    bidid: &str,
    seat: &SeatBid,
    bid: &Bid,
) -> Result<Offer, Reason>
    ensures gives { result ≡ admitted (case_by_parts request.now roster.entry.now.campaigns bidder bidid.now seat.now bid.now) }
    ensures reason { IfOk result (λ o. o.reason ≡ ADMITTED) }
    ensures imp { IfOk result (λ o. o.imp < length request.now.imps) }
    ensures campaign { IfOk result (λ o. o.campaign < length roster.entry.now.campaigns) }
    ensures charge { IfOk result (λ o. (1 ≤ o.charge.0) × (o.charge.0 ≤ PRICE_LIMIT)) }
    ensures life { IfOk result (λ o. (1 ≤ o.life) × (o.life ≤ MOST_LIFE)) }
    ensures texts { IfOk result (λ _. kept_length bidid.now seat.now bid.now ≤ MOST_KEPT) }
{
    let asked = Asked {
        request,
        campaigns: &roster.campaigns,
        bidder,
        bidid,
        seat,
        bid,
    };
    let Some(sale) = sale_of(&asked) else {
        return Err(Reason::NotEligible);
    };
    let deal = named_deal(sale.imp, bid);
    if !is_seat_allowed(request, seat) {
        return Err(Reason::SeatNotAllowed);
    }
    if !is_deal_eligible(alloc, seat, bid, sale.imp.private_only, deal) {
        return Err(Reason::DealNotEligible);
    }
    if bid.dealid.is_none() && sale.price.0 < sale.imp.floor.0 {
        return Err(Reason::BelowFloor);
    }
    if bid.dealid.is_some() && sale.price.0 < floor_of(deal) {
        return Err(Reason::BelowDealFloor);
    }
    if any_among(alloc, bid.adomain.as_slice(), request.badv.as_slice()) {
        return Err(Reason::BlockedAdvertiser);
    }
    if any_among(alloc, bid.cat.as_slice(), request.bcat.as_slice()) {
        return Err(Reason::BlockedCategory);
    }
    Ok(Offer {
        imp: sale.place as u32,
        campaign: sale.campaign as u32,
        charge: charge_of(deal, sale.price),
        life: life_of(bid.exp, sale.imp.exp),
        reason: ADMITTED,
    })
}

/// The offer that a refused bid is: for the impression that it names, or for none, at no charge.
pub fn refused(request: &BidRequest, bid: &Bid, reason: Reason) -> Offer
    ensures gives { result ≡ refused_offer request.now bid.now reason }
    ensures imp { (result.imp < length request.now.imps) ⊎ (result.imp ≡ NO_IMP) }
{
    let imp = match place_of_imp(request, bid) {
        Some(place) => place as u32,
        None => NO_IMP,
    };
    Offer {
        imp,
        campaign: 0,
        charge: Units(0),
        life: 0,
        reason: reason.number(),
    }
}

/// Whether a request lets a seat bid.
fn is_seat_allowed(request: &BidRequest, seat: &SeatBid) -> bool
    ensures { result ≡ (allows_by request.now.wseat seat.now.seat && not (is_among_by request.now.bseat seat.now.seat)) }
{
    let name = seat.seat.as_bytes();
    allows(request.wseat.as_slice(), name) && !is_among(request.bseat.as_slice(), name)
}

/// The floor of a deal; 0 where there is none.
fn floor_of(deal: Option<&Deal>) -> u64
    ensures { result ≡ number_or_zero (λ d. d.now.floor.0) deal.entry }
{
    match deal {
        Some(deal) => deal.floor.0,
        None => 0,
    }
}

/// How many seconds an award of a bid stays open: what the bid says, else the impression, else an hour; at most a week.
fn life_of(bid: u32, imp: u32) -> u32
    ensures value { result ≡ life_by bid imp }
    ensures range { (1 ≤ result) × (result ≤ MOST_LIFE) }
{
    let life = if bid != 0 {
        bid
    } else if imp != 0 {
        imp
    } else {
        USUAL_LIFE
    };
    life.min(MOST_LIFE)
}
