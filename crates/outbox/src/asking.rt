//! What an ask gives an outbox: rows of the awarded bids, and posts of the lost ones.
ghost use Rattle.std.specs.Prelude.{◌≡◌, ◌≤◌, ◌==◌, ◌++◌, ◌∷◌, [], if◌then◌else◌, IfOk, OnErr, OnOk, ℕ, find, length, option_copied, take};
ghost use Rattle.std.specs.List.{flat_map};
ghost use Rattle.outbox.specs.Bids.{imp_id as imp_id_of, is_award as is_award_for, no_texts};
ghost use Rattle.outbox.specs.Posts.{lost_post, offer_post};
ghost use Rattle.outbox.specs.Rows.{row_by, row_made, rows_for, rows_made};

use crate::post::Post;
use crate::pushing::push_lurl;
use crate::row::Row;
use adx_units::{Id, Offer, OutOfMemory, Text};
use allocator_core::AWARDED;
use day_rules::{Ask, Kept};
use notice_macros::Values;
use std::alloc::Global;

/// Whether the offer was awarded for the impression.
fn is_award(offer: &Offer, imp: usize) -> bool
    ensures { (place : ℕ) → result ≡ is_award_for imp (place, offer.now) }
{
    offer.reason == AWARDED && offer.imp as usize == imp
}

/// The id of an impression; nothing where the bid named none of the ask.
fn imp_id(ask: &Ask, imp: u32) -> &str
    ensures { result.now ≡ imp_id_of ask.entry.now imp }
{
    match ask.imps.as_slice().get(imp as usize) {
        Some(id) => id.as_str(),
        None => "",
    }
}

/// The texts that are kept of the bid at a place.
fn texts_of(kept: &[Kept], place: usize) -> Option<&Kept>
    ensures { option_copied result ≡ find (λ k. k.bid == place) kept.now }
{
    kept.iter().find(|k| k.bid as usize == place)
}

/// A row of an awarded offer without texts.
fn bare_row(alloc: Global, ask: &Ask, offer: &Offer) -> Result<Row, OutOfMemory>
    ensures { (place : ℕ) → IfOk result (λ r. r ≡ row_by ask.entry.now offer.now (no_texts place)) }
{
    Ok(Row {
        auction: Text::of(alloc, ask.auction.as_str())?,
        imp: Text::of(alloc, imp_id(ask, offer.imp))?,
        seat: Text::of(alloc, "")?,
        bidid: Text::of(alloc, "")?,
        adid: Text::of(alloc, "")?,
        nurl: Text::of(alloc, "")?,
        burl: Text::of(alloc, "")?,
        lurl: Text::of(alloc, "")?,
        charge: offer.charge,
        deadline: ask.now.saturating_add(u64::from(offer.life)),
        won: false,
    })
}

/// A row of an awarded offer with its texts.
fn row_with(alloc: Global, ask: &Ask, offer: &Offer, texts: &Kept) -> Result<Row, OutOfMemory>
    ensures { IfOk result (λ r. r ≡ row_by ask.entry.now offer.now texts.now) }
{
    Ok(Row {
        auction: Text::of(alloc, ask.auction.as_str())?,
        imp: Text::of(alloc, imp_id(ask, offer.imp))?,
        seat: texts.seat.copy(alloc)?,
        bidid: texts.bidid.copy(alloc)?,
        adid: texts.adid.copy(alloc)?,
        nurl: texts.nurl.copy(alloc)?,
        burl: texts.burl.copy(alloc)?,
        lurl: texts.lurl.copy(alloc)?,
        charge: offer.charge,
        deadline: ask.now.saturating_add(u64::from(offer.life)),
        won: false,
    })
}

/// The row of the awarded offer at a place.
fn row_of(alloc: Global, ask: &Ask, place: usize, offer: &Offer) -> Result<Row, OutOfMemory>
    ensures { IfOk result (λ r. r ≡ row_made ask.entry.now (place, offer.now)) }
{
    match texts_of(ask.kept.as_slice(), place) {
        Some(texts) => row_with(alloc, ask, offer, texts),
        None => bare_row(alloc, ask, offer),
    }
}

/// Adds the row of the offer at a place, if it was awarded for the impression.
fn push_row(
    alloc: Global,
    out: &mut Vec<Row>,
    ask: &Ask,
    imp: usize,
    place: usize,
    offer: &Offer,
) -> Result<(), OutOfMemory>
    ensures { OnOk result (out.new.items ≡ out.old.items
        ++ (if is_award_for imp (place, offer.now) then row_made ask.entry.now (place, offer.now) ∷ [] else [])) }
{
    if is_award(offer, imp) {
        out.push(row_of(alloc, ask, place, offer)?)?;
    }
    Ok(())
}

/// Adds the rows of what the ask awarded for an impression.
fn push_rows(alloc: Global, out: &mut Vec<Row>, ask: &Ask, imp: usize) -> Result<(), OutOfMemory>
    ensures { OnOk result (out.new.items ≡ out.old.items ++ rows_for ask.entry.now imp) }
{
    let offers = ask.offers.as_slice();
    for (place, offer) in offers.iter().enumerate() {
        push_row(alloc, out, ask, imp, place, offer)?;
    }
    Ok(())
}

/// The rows of all that the ask awarded, in the order of its impressions.
pub(crate) fn awarded_rows(alloc: Global, ask: &Ask) -> Result<Vec<Row>, OutOfMemory>
    ensures { IfOk result (λ v. v.items ≡ rows_made ask.entry.now) }
{
    let mut out = Vec::new(alloc);
    for imp in 0..ask.imps.len() {
        push_rows(alloc, &mut out, ask, imp)?;
    }
    Ok(out)
}

/// Adds the post that tells of the loss of a bid with kept texts, unless it was awarded.
fn push_lost_bid(
    alloc: Global,
    out: &mut Vec<Post>,
    place: u64,
    ask: &Ask,
    texts: &Kept,
) -> Result<(), OutOfMemory>
    ensures more { OnOk result (out.new.items ≡ out.old.items ++ lost_post place ask.entry.now texts.now) }
    ensures same { OnErr result (out.new.items ≡ out.old.items) }
{
    match ask.offers.as_slice().get(texts.bid as usize) {
        None => Ok(()),
        Some(offer) => push_lost_offer(alloc, out, place, ask, texts, offer),
    }
}

/// Adds the post that tells of the loss of an offer, unless it was awarded.
fn push_lost_offer(
    alloc: Global,
    out: &mut Vec<Post>,
    place: u64,
    ask: &Ask,
    texts: &Kept,
    offer: &Offer,
) -> Result<(), OutOfMemory>
    ensures more { OnOk result (out.new.items ≡ out.old.items ++ offer_post place ask.entry.now texts.now offer.now) }
    ensures same { OnErr result (out.new.items ≡ out.old.items) }
{
    if offer.reason == AWARDED {
        return Ok(());
    }
    let values = Values {
        auction: ask.auction.as_str(),
        bidid: texts.bidid.as_str(),
        imp: imp_id(ask, offer.imp),
        seat: texts.seat.as_str(),
        adid: texts.adid.as_str(),
        price: None,
        loss: offer.reason,
    };
    push_lurl(alloc, out, place, texts.lurl.as_str(), &values)
}

/// Adds the posts that tell of the losses of an ask, in the order of its bids.
pub(crate) fn push_lost(
    alloc: Global,
    out: &mut Vec<Post>,
    place: u64,
    ask: &Ask,
) -> Result<(), OutOfMemory>
    ensures more { OnOk result (out.new.items ≡ out.old.items ++ flat_map (lost_post place ask.entry.now) ask.entry.now.kept) }
    ensures grows { (n : ℕ) → n ≤ length out.old.items → take n out.new.items ≡ take n out.old.items }
{
    let kept = ask.kept.as_slice();
    for texts in kept {
        push_lost_bid(alloc, out, place, ask, texts)?;
    }
    Ok(())
}
