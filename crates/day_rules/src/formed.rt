//! Which asks are well formed.
ghost use Rattle.std.specs.Prelude.{◌≡◌, ◌≢◌, ◌↔◌, ◌≤◌, AllPairs, IsTrue, bytes_eq, length, not};
ghost use Rattle.std.specs.List.{list_all};
ghost use Rattle.day_rules.specs.Asks.{IsWellFormed, is_decided as is_decided_by};
ghost use Rattle.day_rules.specs.OfferTests.{are_distinct as distinct, are_others as others, is_admitted as admitted, is_living as living, is_nothing as nothing, is_of_admitted as of_admitted, is_offer as an_offer, is_priced as priced, is_refused as refused, is_refused_by as refused_by};

use crate::ask::Ask;
use crate::limits::{MAX_IMPS, MAX_LIFE, MAX_OFFERS, NO_IMP};
use crate::needed;
use adx_units::{ADMITTED, Id, Offer, PRICE_LIMIT};
use allocator_core::{AWARDED, LOST_TO_HIGHER, OVER_BUDGET};

/// Whether admission refuses a bid with that reason.
fn is_refused_by(reason: u16) -> bool
    ensures { result ≡ refused_by reason }
{
    reason == 3
        || reason == 104
        || reason == 4
        || reason == 100
        || reason == 101
        || reason == 205
        || reason == 209
}

/// Whether only the day gives the reason.
pub(crate) fn is_decided(reason: u16) -> bool
    ensures { result ≡ is_decided_by reason }
{
    reason == AWARDED || (reason == LOST_TO_HIGHER || reason == OVER_BUDGET)
}

/// Whether an admitted bid has that reason.
fn is_of_admitted(reason: u16) -> bool
    ensures { result ≡ of_admitted reason }
{
    is_decided(reason) || reason == ADMITTED
}

/// Whether the bid has a campaign and a charge of it.
fn is_priced(campaigns: u32, offer: &Offer) -> bool
    ensures { result ≡ priced campaigns offer.now }
{
    offer.campaign < campaigns && offer.charge.0 >= 1 && offer.charge.0 <= PRICE_LIMIT
}

/// Whether an award of the bid has a life.
fn is_living(offer: &Offer) -> bool
    ensures { result ≡ living offer.now }
{
    offer.life >= 1 && offer.life <= MAX_LIFE
}

/// Whether the bid was admitted on one of the impressions.
fn is_admitted(campaigns: u32, imps: u32, offer: &Offer) -> bool
    ensures { result ≡ admitted campaigns imps offer.now }
{
    is_of_admitted(offer.reason)
        && offer.imp < imps
        && is_priced(campaigns, offer)
        && is_living(offer)
}

/// Whether the bid takes nothing from a campaign.
fn is_nothing(offer: &Offer) -> bool
    ensures { result ≡ nothing offer.now }
{
    offer.campaign == 0 && offer.charge.0 == 0 && offer.life == 0
}

/// Whether the bid was refused, on one of the impressions or on none.
fn is_refused(imps: u32, offer: &Offer) -> bool
    ensures { result ≡ refused imps offer.now }
{
    is_refused_by(offer.reason) && (offer.imp < imps || offer.imp == NO_IMP) && is_nothing(offer)
}

/// Whether the bid is as admission or the day leaves one.
fn is_offer(campaigns: u32, imps: u32, offer: &Offer) -> bool
    ensures { result ≡ an_offer campaigns imps offer.now }
{
    is_admitted(campaigns, imps, offer) || is_refused(imps, offer)
}

/// Whether each bid is as admission or the day leaves one.
fn are_offers(campaigns: u32, imps: u32, offers: &[Offer]) -> bool
    ensures { result ≡ list_all (an_offer campaigns imps) offers.now }
{
    offers.iter().all(|offer| is_offer(campaigns, imps, offer))
}

/// Whether the ids aren't the same.
fn is_other(id: &Id, other: &Id) -> bool
    ensures { result ≡ not (bytes_eq id.now other.now) }
{
    id.as_str() != other.as_str()
}

/// Whether none of the ids is that one.
fn are_others(id: &Id, ids: &[Id]) -> bool
    ensures { result ≡ others id.now ids.now }
{
    ids.iter().all(|other| is_other(id, other))
}

/// Whether no id is there twice.
fn are_distinct(ids: &[Id]) -> bool
    ensures { result ≡ distinct ids.now }
{
    for place in 0..ids.len() {
        if !are_others(&ids[place], &ids[place + 1..]) {
            return false;
        }
    }
    true
}

/// Whether there are as many impressions as an ask may have, each once.
fn are_imps(imps: &[Id]) -> bool
    ensures { IsTrue result ↔ ((1 ≤ length imps.now) × (length imps.now ≤ 16) × AllPairs (λ i j. i ≢ j) imps.now) }
{
    if imps.is_empty() || imps.len() > MAX_IMPS {
        return false;
    }
    are_distinct(imps)
}

/// Whether a day with so many campaigns takes the ask.
pub fn is_well_formed(campaigns: u32, ask: &Ask) -> bool
    ensures { IsTrue result ↔ IsWellFormed campaigns ask.entry.now }
{
    if !are_imps(ask.imps.as_slice()) || ask.offers.len() > MAX_OFFERS || ask.now >= 1 << 63 {
        return false;
    }
    if !are_offers(campaigns, ask.imps.len() as u32, ask.offers.as_slice()) {
        return false;
    }
    needed::are_kept_texts(ask.offers.as_slice(), ask.kept.as_slice())
}
