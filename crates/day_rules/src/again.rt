//! Whether settling an ask again changes nothing.
ghost use Rattle.std.specs.Prelude.{◌≡◌, ◌↔◌, ◌≤◌, ℕ, ◌<◌, All, IsTrue, length, map, slice_index_or};
ghost use Rattle.std.specs.List.{list_all};
ghost use Rattle.adx_units.specs.declared.offer.Offer.{Offer as OfferValue};
ghost use Rattle.day_rules.specs.Asks.{IsOffer, admitted_again as admitted_again_of};
ghost use Rattle.day_rules.specs.Again.{AreSettledOffers, IsSettledBy};
ghost use Rattle.day_rules.specs.OfferTests.{stays_whole as stays_whole_by};

use crate::ask::{Ask, Kept};
use crate::formed::is_decided;
use crate::kept::{is_winners, may_be_told};
use crate::limits::MAX_OFFERS;
use adx_units::{ADMITTED, Offer, Units};
use campaign_book::Book;

/// How many offers most asks have at most: so many are settled again in a small array.
const FEW: usize = 64;

/// What an array of offers holds before they are copied to it.
const NO_OFFER: Offer = Offer {
    imp: 0,
    campaign: 0,
    charge: Units(0),
    life: 0,
    reason: 0,
};

/// The offer as it was before it was decided.
fn admitted_again(offer: &Offer) -> Offer
    ensures { result ≡ admitted_again_of offer.now }
{
    if is_decided(offer.reason) {
        Offer {
            reason: ADMITTED,
            ..*offer
        }
    } else {
        *offer
    }
}

/// Copies the offers, each as it was before it was decided.
fn copy_undecided(offers: &[Offer], again: &mut [Offer])
    requires { length again.old ≡ length offers.now }
    ensures { again.new ≡ map admitted_again_of offers.now }
{
    for place in 0..offers.len() {
        again[place] = admitted_again(&offers[place]);
    }
}

/// Whether the offers have the same reasons.
fn are_same(offers: &[Offer], others: &[Offer]) -> bool
    requires { length others.now ≡ length offers.now }
    ensures { IsTrue result ↔ ((k : ℕ) → (d : OfferValue) → k < length offers.now
        → (slice_index_or offers.now k d).reason ≡ (slice_index_or others.now k d).reason) }
{
    for place in 0..offers.len() {
        if offers[place].reason != others[place].reason {
            return false;
        }
    }
    true
}

/// Whether the offers are what they settle to again, in an array of as many.
fn settle_again(book: &Book, offers: &[Offer], imps: u32, again: &mut [Offer]) -> bool
    requires long { length again.old ≡ length offers.now }
    requires few { length offers.now ≤ 1024 }
    requires few_imps { imps ≤ 16 }
    requires formed { All (IsOffer (length book.now) imps) offers.now }
    ensures { IsTrue result ↔ AreSettledOffers book.now offers.now }
{
    copy_undecided(offers, again);
    allocator_core::settle(book, again, imps);
    are_same(again, offers)
}

/// Whether a few offers are what they settle to again.
fn are_few_settled(book: &Book, offers: &[Offer], imps: u32) -> bool
    requires few { length offers.now ≤ 64 }
    requires few_imps { imps ≤ 16 }
    requires formed { All (IsOffer (length book.now) imps) offers.now }
    ensures { IsTrue result ↔ AreSettledOffers book.now offers.now }
{
    let mut again = [NO_OFFER; FEW];
    settle_again(book, offers, imps, &mut again[..offers.len()])
}

/// Whether many offers are what they settle to again.
#[inline(never)]
fn are_many_settled(book: &Book, offers: &[Offer], imps: u32) -> bool
    requires few { length offers.now ≤ 1024 }
    requires few_imps { imps ≤ 16 }
    requires formed { All (IsOffer (length book.now) imps) offers.now }
    ensures { IsTrue result ↔ AreSettledOffers book.now offers.now }
{
    let mut again = [NO_OFFER; MAX_OFFERS];
    settle_again(book, offers, imps, &mut again[..offers.len()])
}

/// Whether the offers are what they settle to again.
fn are_settled(book: &Book, offers: &[Offer], imps: u32) -> bool
    requires few { length offers.now ≤ 1024 }
    requires few_imps { imps ≤ 16 }
    requires formed { All (IsOffer (length book.now) imps) offers.now }
    ensures { IsTrue result ↔ AreSettledOffers book.now offers.now }
{
    if offers.len() <= FEW {
        are_few_settled(book, offers, imps)
    } else {
        are_many_settled(book, offers, imps)
    }
}

/// Whether no text of the bid goes.
fn stays_whole(offers: &[Offer], kept: &Kept) -> bool
    ensures { result ≡ stays_whole_by offers.now kept.entry.now }
{
    is_winners(offers, kept)
        || (may_be_told(kept)
            && kept.nurl.as_str().is_empty()
            && kept.burl.as_str().is_empty()
            && kept.body.as_str().is_empty())
}

/// Whether no text of any bid goes.
fn stay_whole(offers: &[Offer], kept: &[Kept]) -> bool
    ensures { result ≡ list_all (stays_whole_by offers.now) kept.now }
{
    kept.iter().all(|texts| stays_whole(offers, texts))
}

/// Whether the ask is what it settles to again over the book, at a moment and with its first award's
/// number.
pub fn is_settled(book: &Book, moment: u64, first: u32, ask: &Ask) -> bool
    requires few { length ask.now.offers ≤ 1024 }
    requires few_imps { length ask.now.imps ≤ 16 }
    requires formed { All (IsOffer (length book.now) (length ask.now.imps)) ask.now.offers }
    ensures { IsTrue result ↔ IsSettledBy book.now moment first ask.entry.now }
{
    if ask.now < moment || ask.first != first {
        return false;
    }
    if !stay_whole(ask.offers.as_slice(), ask.kept.as_slice()) {
        return false;
    }
    are_settled(book, ask.offers.as_slice(), ask.imps.len() as u32)
}
