//! Entries read back.
ghost use Rattle.std.specs.Prelude.{◌≡◌, ℕ, List, Some, IfOk, IfNone, IfSome, option_map};
ghost use Rattle.day_entries.specs.Entries.{BeginsWith, all_kept, ask, change, entry, imps, kept, offers};
ghost use Rattle.day_entries.specs.Reading.{Gives};
ghost use Rattle.day_rules.specs.declared.entry.Entry.{Entry};
ghost use Rattle.day_rules.specs.Entries.{entry_of_change};

use crate::fields::{digest_of, id_of, offer_of, text_of};
use crate::numbers::Numbers;
use crate::unread::Unread;
use adx_units::{Id, Offer, OutOfMemory, Sequence, Units};
use day_rules::{Ask, Entry, Kept};
use std::alloc::Global;

/// The entry with which the bytes begin in a journal of this format, 1 or 2, and how many bytes it has;
/// None exactly where they begin with none.
pub fn decode(
    alloc: Global,
    bytes: &[u8],
    format: u8,
) -> Result<Option<(Entry, usize)>, OutOfMemory>
    // What is read is spelled so, each byte of it.
    ensures found { IfOk result (λ found. IfSome found (λ x. BeginsWith format bytes.now x.0 x.1)) }
    // What is spelled so is read, whatever follows, unless memory is refused.
    ensures only { (entry : Entry) (n : ℕ) → BeginsWith format bytes.now entry n → IfOk result (λ found. found ≡ Some (entry, n)) }
    ensures none { IfOk result (λ found. IfNone found ((entry : Entry) (n : ℕ) → BeginsWith format bytes.now entry n → ⊥)) }
{
    match entry_of(alloc, Numbers::of(format), bytes) {
        Ok((entry, rest)) => Ok(Some((entry, bytes.len() - rest.len()))),
        Err(Unread::NoEntry) => Ok(None),
        Err(Unread::OutOfMemory) => Err(OutOfMemory),
    }
}

/// An entry: the byte of its kind, and what it says.
#[tactic(auto, unfolding(crate::specs::Entries::entry))]
fn entry_of(alloc: Global, numbers: Numbers, bytes: &[u8]) -> Result<(Entry, &[u8]), Unread>
    ensures { Gives (λ x. (x.0, x.1.now)) result ((entry numbers).reads bytes.now) }
{
    let Some((kind, told)) = bytes.split_first() else {
        return Err(Unread::NoEntry);
    };
    match *kind {
        1 => {
            let (ask, rest) = ask_of(alloc, numbers, told)?;
            Ok((Entry::Ask(ask), rest))
        }
        2 => {
            let (award, rest) = numbers.long(told)?;
            Ok((Entry::Win { award }, rest))
        }
        3 => {
            let (award, rest) = numbers.long(told)?;
            Ok((Entry::Bill { award }, rest))
        }
        4 => {
            let (award, rest) = numbers.long(told)?;
            Ok((Entry::Loss { award }, rest))
        }
        5 => {
            let (now, rest) = numbers.wide(told)?;
            Ok((Entry::Expire { now }, rest))
        }
        6 => budget_of(numbers, told),
        _ => Err(Unread::NoEntry),
    }
}

/// An ask.
#[tactic(auto, unfolding(crate::specs::Entries::ask))]
fn ask_of(alloc: Global, numbers: Numbers, bytes: &[u8]) -> Result<(Ask, &[u8]), Unread>
    ensures { Gives (λ x. (x.0, x.1.now)) result ((ask numbers).reads bytes.now) }
{
    let (auction, rest) = id_of(alloc, numbers, bytes)?;
    let (digest, rest) = digest_of(rest)?;
    let (now, rest) = numbers.wide(rest)?;
    let (first, rest) = numbers.long(rest)?;
    let (imps, rest) = imps_of(alloc, numbers, rest)?;
    let (offers, rest) = offers_of(alloc, numbers, rest)?;
    let (kept, rest) = all_kept_of(alloc, numbers, rest)?;
    let ask = Ask {
        auction,
        digest,
        now,
        first,
        imps,
        offers,
        kept,
    };
    Ok((ask, rest))
}

/// The ids of impressions after their number.
#[tactic(auto, unfolding(crate::specs::Entries::imps))]
fn imps_of(alloc: Global, numbers: Numbers, bytes: &[u8]) -> Result<(Sequence<Id>, &[u8]), Unread>
    ensures { Gives (λ x. (x.0, x.1.now)) result ((imps numbers).reads bytes.now) }
{
    let (count, first) = numbers.small(bytes)?;
    // No more than the bytes can hold, whatever the number says.
    let room = first.len() / numbers.least_name();
    let mut imps = Vec::with_capacity(alloc, (count as usize).min(room))?;
    let mut rest = first;
    for _ in 0..count {
        let (imp, after) = id_of(alloc, numbers, rest)?;
        imps.push(imp)?;
        rest = after;
    }
    Ok((Sequence::from(imps), rest))
}

/// Offers after their number.
#[tactic(auto, unfolding(crate::specs::Entries::offers))]
fn offers_of(
    alloc: Global,
    numbers: Numbers,
    bytes: &[u8],
) -> Result<(Sequence<Offer>, &[u8]), Unread>
    ensures { Gives (λ x. (x.0, x.1.now)) result ((offers numbers).reads bytes.now) }
{
    let (count, first) = numbers.long(bytes)?;
    // No more than the bytes can hold, whatever the number says.
    let room = first.len() / numbers.least_offer();
    let mut offers = Vec::with_capacity(alloc, (count as usize).min(room))?;
    let mut rest = first;
    for _ in 0..count {
        let (offer, after) = offer_of(numbers, rest)?;
        offers.push(offer)?;
        rest = after;
    }
    Ok((Sequence::from(offers), rest))
}

/// The texts of bids after the number of these bids.
#[tactic(auto, unfolding(crate::specs::Entries::all_kept))]
fn all_kept_of(
    alloc: Global,
    numbers: Numbers,
    bytes: &[u8],
) -> Result<(Sequence<Kept>, &[u8]), Unread>
    ensures { Gives (λ x. (x.0, x.1.now)) result ((all_kept numbers).reads bytes.now) }
{
    let (count, first) = numbers.long(bytes)?;
    // No more than the bytes can hold, whatever the number says.
    let room = first.len() / numbers.least_kept();
    let mut kept = Vec::with_capacity(alloc, (count as usize).min(room))?;
    let mut rest = first;
    for _ in 0..count {
        let (one, after) = kept_of(alloc, numbers, rest)?;
        kept.push(one)?;
        rest = after;
    }
    Ok((Sequence::from(kept), rest))
}

/// The texts of one bid after its place.
#[tactic(auto, unfolding(crate::specs::Entries::kept))]
fn kept_of(alloc: Global, numbers: Numbers, bytes: &[u8]) -> Result<(Kept, &[u8]), Unread>
    ensures { Gives (λ x. (x.0, x.1.now)) result ((kept numbers).reads bytes.now) }
{
    let (bid, rest) = numbers.long(bytes)?;
    let (seat, rest) = text_of(alloc, numbers, rest)?;
    let (bidid, rest) = text_of(alloc, numbers, rest)?;
    let (adid, rest) = text_of(alloc, numbers, rest)?;
    let (nurl, rest) = text_of(alloc, numbers, rest)?;
    let (burl, rest) = text_of(alloc, numbers, rest)?;
    let (lurl, rest) = text_of(alloc, numbers, rest)?;
    let (body, rest) = text_of(alloc, numbers, rest)?;
    let kept = Kept {
        bid,
        seat,
        bidid,
        adid,
        nurl,
        burl,
        lurl,
        body,
    };
    Ok((kept, rest))
}

/// A change of a campaign's budget.
#[tactic(auto, unfolding(crate::specs::Entries::change))]
fn budget_of(numbers: Numbers, bytes: &[u8]) -> Result<(Entry, &[u8]), Unread>
    ensures { Gives {Y = Entry × List ℕ} (λ x. (x.0, x.1.now)) result (option_map (λ x. (entry_of_change x.0, x.1)) ((change numbers).reads bytes.now)) }
{
    let (campaign, rest) = numbers.long(bytes)?;
    let (change, rest) = numbers.long(rest)?;
    let (budget, rest) = numbers.wide(rest)?;
    let entry = Entry::Budget {
        campaign,
        change,
        budget: Units(budget),
    };
    Ok((entry, rest))
}
