//! The asks of a generated day, by the words of its seed.
ghost use Rattle.std.specs.Prelude.{◌≡◌, ◌+◌, ◌*◌, ℕ, [], ◌∷◌, map, codes, decimal, IfOk, OnOk};
ghost use Rattle.adx_units.specs.Ids.{IsSized};
ghost use Rattle.command_gen.specs.Generated.{ask_by, kept_by, offer_by, offer_places, offers_by, state_before, word_at};

use adx_units::{ADMITTED, Id, Offer, OutOfMemory, Sequence, Text, Units};
use day_rules::{Ask, Kept};
use rand_core::utils::NextWord;
use rand_xoshiro::SplitMix64;
use sha2::{Digest, Sha256};
use std::alloc::Global;

/// How many offers an ask has.
const OFFERS: u32 = 8;

/// How many campaigns the roster has.
const CAMPAIGNS: u64 = 16;

/// The greatest charge, in units.
const MOST_CHARGE: u64 = 1_000_000;

/// The life of each award, in seconds.
const LIFE: u32 = 3_600;

/// The offer that a word says.
fn offer_of(word: u64) -> Offer
    ensures { result ≡ offer_by word }
{
    Offer {
        imp: 0,
        campaign: (word % CAMPAIGNS) as u32,
        charge: Units(1 + word / CAMPAIGNS % MOST_CHARGE),
        life: LIFE,
        reason: ADMITTED,
    }
}

/// The next word.
pub(crate) fn next_word(words: &mut SplitMix64) -> u64
    ensures { (seed number : ℕ) → words.old ≡ state_before seed number → (result ≡ word_at seed number) × (words.new ≡ state_before seed (number + 1)) }
{
    words.next_word()
}

/// The offers of an ask, each by the next word.
fn offers_of(alloc: Global, words: &mut SplitMix64) -> Result<Vec<Offer>, OutOfMemory>
    ensures state { OnOk result ((seed number : ℕ) → words.old ≡ state_before seed number → words.new ≡ state_before seed (number + 8)) }
    ensures offers { IfOk result (λ offers. (seed number : ℕ) → words.old ≡ state_before seed number → offers.items ≡ offers_by seed number) }
{
    let mut offers = Vec::with_capacity(alloc, OFFERS as usize)?;
    'offers: for _place in 0..OFFERS {
        offers.push(offer_of(next_word(words)))?;
    }
    Ok(offers)
}

/// The texts of a bid without any.
fn no_texts(alloc: Global, bid: u32) -> Result<Kept, OutOfMemory>
    ensures { IfOk result (λ kept. kept ≡ kept_by bid) }
{
    Ok(Kept {
        bid,
        seat: Text::of(alloc, "")?,
        bidid: Text::of(alloc, "")?,
        adid: Text::of(alloc, "")?,
        nurl: Text::of(alloc, "")?,
        burl: Text::of(alloc, "")?,
        lurl: Text::of(alloc, "")?,
        body: Text::of(alloc, "")?,
    })
}

/// The kept texts of an ask's bids: a bid without any for each offer.
fn kept_of(alloc: Global) -> Result<Vec<Kept>, OutOfMemory>
    ensures { IfOk result (λ kept. kept.items ≡ map kept_by offer_places) }
{
    let mut kept = Vec::with_capacity(alloc, OFFERS as usize)?;
    'bids: for bid in 0..OFFERS {
        kept.push(no_texts(alloc, bid)?)?;
    }
    Ok(kept)
}

/// A text of an id's length as an id.
fn id_of(alloc: Global, text: &str) -> Result<Id, OutOfMemory>
    requires { IsSized text.now }
    ensures { IfOk result (λ id. id ≡ text.now) }
{
    match Id::of(alloc, text)? {
        Some(id) => Ok(id),
        None => unreachable!(),
    }
}

/// The ids of an ask's impressions.
fn imps_of(alloc: Global) -> Result<Vec<Id>, OutOfMemory>
    ensures { IfOk result (λ imps. imps.items ≡ codes "1" ∷ []) }
{
    let mut imps = Vec::with_capacity(alloc, 1)?;
    imps.push(id_of(alloc, "1")?)?;
    Ok(imps)
}

/// The ask with this number, by the next eight words. Its id is the number in decimal.
pub(crate) fn ask_of(
    alloc: Global,
    words: &mut SplitMix64,
    number: u64,
    id: &str,
) -> Result<Ask, OutOfMemory>
    requires { id.now ≡ decimal number }
    ensures state { OnOk result ((seed : ℕ) → words.old ≡ state_before seed (9 * number) → words.new ≡ state_before seed (9 * number + 8)) }
    ensures ask { IfOk result (λ a. (seed : ℕ) → words.old ≡ state_before seed (9 * number) → a ≡ ask_by seed number) }
{
    let offers = offers_of(alloc, words)?;
    Ok(Ask {
        auction: id_of(alloc, id)?,
        digest: Sha256::digest(id.as_bytes()),
        now: number,
        first: 0,
        imps: Sequence::from(imps_of(alloc)?),
        offers: Sequence::from(offers),
        kept: Sequence::from(kept_of(alloc)?),
    })
}
