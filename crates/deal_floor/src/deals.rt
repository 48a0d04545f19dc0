//! The rules on lists of names, and on deals.
ghost use Rattle.std.specs.Prelude.{◌≡◌, Some, option_map};
ghost use Rattle.std.specs.List.{position};
ghost use Rattle.rtb_request.specs.Ids.{deal_has_id};
ghost use Rattle.deal_floor.specs.Admission.{allows as allows_by, advertisers_allowed, deal_is_open_to, deal_eligible_by, deal_in as deal_in_by, deal_by, charge_by};

use adx_units::{Text, Units, all_among, is_among};
use rtb_request::{Deal, Imp};
use rtb_response::{Bid, SeatBid};
use std::alloc::Global;

/// Whether a list of those that are allowed allows a name; an empty one allows all.
pub(crate) fn allows(names: &[Text], name: &[u8]) -> bool
    ensures { result ≡ allows_by names.now name.now }
{
    names.is_empty() || is_among(names, name)
}

/// The deal of an impression that a bid names. None where it names none, or none of the impression.
pub(crate) fn named_deal<'a>(imp: &'a Imp, bid: &Bid) -> Option<&'a Deal>
    ensures { option_map (λ d. d.now) result ≡ deal_by bid.now.dealid (Some imp.now) }
{
    match &bid.dealid {
        Some(id) => deal_in(imp, id),
        None => None,
    }
}

/// The first deal of an impression with an id.
fn deal_in<'a>(imp: &'a Imp, id: &Text) -> Option<&'a Deal>
    ensures { option_map (λ d. d.now) result ≡ deal_in_by imp.now id.now }
{
    let deals = imp.deals.as_slice();
    deals.get(place_in(deals, id)?)
}

fn place_in(deals: &[Deal], id: &Text) -> Option<usize>
    ensures { result ≡ position (deal_has_id id.now) deals.now }
{
    deals
        .iter()
        .position(|deal| deal.id.as_bytes() == id.as_bytes())
}

/// Whether the advertisers of a bid may use a deal.
fn are_advertisers_allowed(alloc: Global, deal: &Deal, bid: &Bid) -> bool
    ensures { result ≡ advertisers_allowed deal.now bid.now }
{
    let adomain = bid.adomain.as_slice();
    deal.wadomain.is_empty()
        || !adomain.is_empty() && all_among(alloc, adomain, deal.wadomain.as_slice())
}

/// Whether a deal is open to a bid: to its seat and its advertisers, and its fixed price isn't 0.
fn is_open_to(alloc: Global, seat: &SeatBid, bid: &Bid, deal: &Deal) -> bool
    ensures { result ≡ deal_is_open_to seat.now bid.now deal.now }
{
    allows(deal.wseat.as_slice(), seat.seat.as_bytes())
        && are_advertisers_allowed(alloc, deal, bid)
        && !(deal.fixed && deal.floor.0 == 0)
}

/// Whether a bid's deal, or its want of one, is in order.
pub(crate) fn is_deal_eligible(
    alloc: Global,
    seat: &SeatBid,
    bid: &Bid,
    private_only: bool,
    deal: Option<&Deal>,
) -> bool
    ensures { result ≡ deal_eligible_by seat.now bid.now private_only (option_map (λ d. d.now) deal.entry) }
{
    if bid.dealid.is_none() {
        return !private_only;
    }
    match deal {
        Some(deal) => is_open_to(alloc, seat, bid, deal),
        None => false,
    }
}

/// What is paid: the price, or the floor of a fixed deal.
pub(crate) fn charge_of(deal: Option<&Deal>, price: Units) -> Units
    ensures { result ≡ charge_by (option_map (λ d. d.now) deal.entry) price.0 }
{
    match deal {
        Some(deal) if deal.fixed => deal.floor,
        _ => price,
    }
}
