//! The kept texts of bids: what they count, and which of them stay.
ghost use Rattle.std.specs.Prelude.{◌≡◌, ◌*◌, ◌^◌, ◌<◌, ◌≤◌, All, is_some, length, take};
ghost use Rattle.day_rules.specs.Asks.{is_winners as is_winners_of, may_be_told as may_be_told_of, settled_kept, stays as what_stays};
ghost use Rattle.day_rules.specs.Books.{kept_size, text_size as text_size_of};
ghost use Rattle.day_rules.specs.KeptTexts.{IsShort, sizes_of};
ghost use Rattle.day_rules.specs.OfferTests.{trimmed};

use crate::ask::Kept;
use crate::limits::{KEPT_OVERHEAD, MAX_KEPT};
use adx_units::{Offer, Text};
use allocator_core::AWARDED;
use std::alloc::Global;

/// The bytes of a kept bid's texts.
pub(crate) fn text_size(kept: &Kept) -> u128
    ensures { result ≡ text_size_of kept.entry.now }
{
    let told = size(&kept.nurl) + (size(&kept.burl) + (size(&kept.lurl) + size(&kept.body)));
    size(&kept.seat) + (size(&kept.bidid) + (size(&kept.adid) + told))
}

fn size(text: &Text) -> u128
    ensures value { result ≡ length text.now }
    ensures small { result < 2 ^ 64 }
{
    text.as_bytes().len() as u128
}

/// Whether the bid was awarded.
pub(crate) fn is_winners(offers: &[Offer], kept: &Kept) -> bool
    ensures { result ≡ is_winners_of offers.now kept.entry.now }
{
    match offers.get(kept.bid as usize) {
        Some(offer) => offer.reason == AWARDED,
        None => false,
    }
}

/// Whether the bid wants to be notified of its loss, and its texts fit.
pub(crate) fn may_be_told(kept: &Kept) -> bool
    ensures { result ≡ may_be_told_of kept.entry.now }
{
    !kept.lurl.as_str().is_empty() && text_size(kept) <= u128::from(MAX_KEPT)
}

/// Whether texts of the bid stay.
fn stays(offers: &[Offer], kept: &Kept) -> bool
    ensures { result ≡ is_some (what_stays offers.now kept.entry.now) }
{
    is_winners(offers, kept) || may_be_told(kept)
}

/// Empties the texts of a loser that its notice of loss doesn't need.
fn trim(alloc: Global, offers: &[Offer], kept: &mut Kept)
    ensures { kept.new ≡ trimmed offers.now kept.old }
{
    if !is_winners(offers, kept) {
        kept.nurl = Text::from(String::new(alloc));
        kept.burl = Text::from(String::new(alloc));
        kept.body = Text::from(String::new(alloc));
    }
}

/// Moves the texts that stay beside offers that were decided to the front, trimmed and in their order,
/// and says how many they are.
fn settle_front(alloc: Global, offers: &[Offer], kept: &mut [Kept]) -> usize
    ensures front { take result kept.new ≡ settled_kept offers.now kept.old }
    ensures within { result ≤ length kept.new }
{
    let mut count = 0;
    for place in 0..kept.len() {
        if stays(offers, &kept[place]) {
            trim(alloc, offers, &mut kept[place]);
            kept.swap(count, place);
            count += 1;
        }
    }
    count
}

/// The texts that stay beside offers that were decided, without memory. Their list keeps the room that it had:
/// who holds it for long keeps a copy.
pub fn settle_kept(alloc: Global, offers: &[Offer], mut kept: Vec<Kept>) -> Vec<Kept>
    ensures { result.items ≡ settled_kept offers.now kept.items }
{
    let count = settle_front(alloc, offers, &mut kept);
    kept.truncate(count);
    kept
}

/// What kept bids count, each with its overhead, in bytes.
pub fn size_of_all(kept: &[Kept]) -> u64
    requires few { length kept.now ≤ 1024 }
    requires short { All IsShort kept.now }
    ensures value { result ≡ sizes_of kept.now }
    ensures small { result ≤ 1024 * 33024 }
{
    let mut sum = 0;
    for texts in kept {
        sum += KEPT_OVERHEAD + text_size(texts) as u64;
    }
    sum
}
