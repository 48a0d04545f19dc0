//! The choice for one impression.
ghost use Rattle.std.specs.Prelude.{◌≡◌, ◌<◌, ◌≤◌, ◌^◌, All, IfSome, length};
ghost use Rattle.adx_units.specs.declared.offer.TheConstants.{ADMITTED as ADMITTED_MARK};
ghost use Rattle.adx_units.specs.declared.price.TheConstants.{PRICE_LIMIT};
ghost use Rattle.allocator_core.specs.declared.limits.TheConstants.{OFFER_LIMIT};
ghost use Rattle.allocator_core.specs.declared.reason.TheConstants.{AWARDED as AWARDED_MARK};
ghost use Rattle.campaign_book.specs.Accounts.{account_at};
ghost use Rattle.allocator_core.specs.Choice.{chosen_at};
ghost use Rattle.allocator_core.specs.Passes.{competing_weight, fitting_weight};
ghost use Rattle.allocator_core.specs.Settling.{budgets_in, standing_beside, taken_of, AreOffers, IsPriced};

use crate::best::Best;
use crate::reason::AWARDED;
use adx_units::{ADMITTED, Offer};
use campaign_book::Book;

/// The weight of an offer beside so much more of its campaign's budget; none where it doesn't fit.
pub(crate) fn weight_beside(book: &Book, more: u64, offer: &Offer) -> Option<u128>
    requires { offer.now.campaign < length book.now }
    ensures { result ≡ fitting_weight (account_at book.now offer.now.campaign) more offer.now.charge.0 }
{
    if book.fits(offer.campaign, more, offer.charge) {
        Some(book.weight(offer.campaign, more, offer.charge))
    } else {
        None
    }
}

/// What the offers that are awarded already take from a campaign, in units.
fn awarded_charges(offers: &[Offer], campaign: u32) -> u64
    requires few { length offers.now ≤ OFFER_LIMIT }
    requires small { All (λ o. o.reason ≡ AWARDED_MARK → o.charge.0 ≤ PRICE_LIMIT) offers.now }
    ensures { result ≡ taken_of offers.now campaign }
{
    let mut units = 0;
    for offer in offers {
        if offer.reason == AWARDED && offer.campaign == campaign {
            units += offer.charge.0;
        }
    }
    units
}

/// The weight of an offer that competes for the impression beside what is awarded; none of another.
fn weight_among(book: &Book, offers: &[Offer], imp: u32, offer: &Offer) -> Option<u128>
    requires offers { AreOffers (length book.now) offers.now }
    requires priced { offer.now.reason ≡ ADMITTED_MARK → IsPriced (length book.now) offer.now }
    ensures { result ≡ competing_weight (budgets_in book.now) (standing_beside book.now offers.now) imp offer.now }
{
    if offer.imp != imp || offer.reason != ADMITTED {
        return None;
    }
    let more = awarded_charges(offers, offer.campaign);
    weight_beside(book, more, offer)
}

/// The place of the first offer with the greatest weight among those of the impression that are
/// admitted and fit beside the offers that are awarded already; none where none fits.
pub fn choose(book: &Book, offers: &[Offer], imp: u32) -> Option<usize>
    requires { AreOffers (length book.now) offers.now }
    ensures value { result ≡ chosen_at (budgets_in book.now) (standing_beside book.now offers.now) offers.now imp }
    ensures within { IfSome result (λ place. place < length offers.now) }
{
    let mut best = Best::new();
    for (place, offer) in offers.iter().enumerate() {
        let weight = weight_among(book, offers, imp, offer);
        best = best.with(place, weight);
    }
    best.place
}
