//! Whether an ask keeps the texts that it needs.
ghost use Rattle.std.specs.Prelude.{◌≡◌, ◌↔◌, ◌&&◌, IsTrue, not, slice_get};
ghost use Rattle.day_rules.specs.Asks.{AreKeptTexts};
ghost use Rattle.day_rules.specs.OfferTests.{are_of as of_place, are_short_of as short_of_place, needs_texts as needs};

use crate::ask::Kept;
use crate::kept::text_size;
use crate::limits::MAX_KEPT;
use adx_units::{ADMITTED, Offer};
use allocator_core::AWARDED;

/// Whether the bid was awarded, or still may be.
fn needs_texts(offer: &Offer) -> bool
    ensures { result ≡ needs offer.now }
{
    offer.reason == AWARDED || offer.reason == ADMITTED
}

/// Whether the next texts are those of the bid at a place.
fn are_of(kept: &[Kept], next: usize, place: usize) -> bool
    ensures { result ≡ of_place place (slice_get kept.now next) }
{
    match kept.get(next) {
        Some(texts) => texts.bid as usize == place,
        None => false,
    }
}

/// Whether the next texts are those of the bid at a place, and no longer than they may be.
fn are_short_of(kept: &[Kept], next: usize, place: usize) -> bool
    ensures { result ≡ short_of_place place (slice_get kept.now next) }
{
    match kept.get(next) {
        Some(texts) => texts.bid as usize == place && text_size(texts) <= u128::from(MAX_KEPT),
        None => false,
    }
}

/// Whether the bid needs texts that don't come next.
fn lacks_texts(offer: &Offer, kept: &[Kept], next: usize, place: usize) -> bool
    ensures { result ≡ (needs offer.now && not (short_of_place place (slice_get kept.now next))) }
{
    needs_texts(offer) && !are_short_of(kept, next, place)
}

/// Whether the texts are in the order of bids, no bid's twice, with those of each bid that needs them.
pub(crate) fn are_kept_texts(offers: &[Offer], kept: &[Kept]) -> bool
    ensures { IsTrue result ↔ AreKeptTexts offers.now kept.now }
{
    let mut next = 0;
    for (place, offer) in offers.iter().enumerate() {
        if lacks_texts(offer, kept, next, place) {
            return false;
        }
        if are_of(kept, next, place) {
            next += 1;
        }
    }
    next == kept.len()
}
