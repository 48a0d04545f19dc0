//! A day of two campaigns on a disk in memory: its roster, its asks and its desk.
ghost use Rattle.std.specs.Prelude.{◌≡◌, ◌≤◌, ◌^◌, ◌<◌, ℕ, All, IfOk, length, slice_index_or};
ghost use Rattle.adx_units.specs.declared.offer.TheConstants.{ADMITTED as ADMITTED_MARK};
ghost use Rattle.day_rules.specs.Asks.{IsAdmittedOffer, IsUndecided, IsWellFormed};
ghost use Rattle.day_rules.specs.declared.ask.Kept.{Kept as KeptValue};
ghost use Rattle.day_rules.specs.KeptTexts.{IsShort};
ghost use Rattle.adx_desk.specs.Rosters.{desk_terms};

use adx_desk::{Desk, DeskFault};
use adx_json::read;
use adx_units::{ADMITTED, Id, Offer, OutOfMemory, Sequence, Text, Units};
use day_journal::MemoryDisk;
use day_rules::{Ask, Kept};
use deal_floor::Roster;
use std::alloc::Global;

/// A roster of a day and two campaigns.
const ROSTER: &str =
    r#"{"day":"2025-03-01","bidders":[{"name":"b1"}],"campaigns":[{"bidder":"b1","seat":"s1","cid":"c1","budget":0.01},{"bidder":"b1","seat":"s1","cid":"c2","budget":0.01}]}"#;

/// The roster.
pub(crate) fn roster(alloc: Global) -> Result<Roster, OutOfMemory>
    ensures { IfOk result (λ r. length r.campaigns ≡ 2) }
{
    let Ok(tree) = read(alloc, ROSTER.as_bytes()) else {
        return Err(OutOfMemory);
    };
    match Roster::of(alloc, &tree) {
        Ok(roster) => {
            if roster.campaigns.len() != 2 {
                return Err(OutOfMemory);
            }
            Ok(roster)
        }
        Err(_) => Err(OutOfMemory),
    }
}

/// A bid: its campaign, charge and life.
pub(crate) type Bid = (u32, u64, u32);

/// The offer of a bid.
fn offer(bid: Bid) -> Offer
    ensures admitted { IsAdmittedOffer 2 1 result }
    ensures undecided { result.reason ≡ ADMITTED_MARK }
{
    let (campaign, charge, life) = bid;
    Offer {
        imp: 0,
        campaign: campaign.min(1),
        charge: Units(charge.clamp(1, 10_000_000)),
        life: life.clamp(1, 3_600),
        reason: ADMITTED,
    }
}

/// The offers of bids.
fn offers(alloc: Global, bids: &[Bid]) -> Result<Vec<Offer>, OutOfMemory>
    ensures admitted { IfOk result (λ v. All (IsAdmittedOffer 2 1) v.items) }
    ensures undecided { IfOk result (λ v. All (λ o. o.reason ≡ ADMITTED_MARK) v.items) }
    ensures long { IfOk result (λ v. length v.items ≡ length bids.now) }
{
    let mut offers = Vec::new(alloc);
    for bid in bids {
        offers.push(offer(*bid))?;
    }
    Ok(offers)
}

/// The texts of the bid at a place.
fn texts_of(alloc: Global, place: u32) -> Result<Kept, OutOfMemory>
    ensures bid { IfOk result (λ k. k.bid ≡ place) }
    ensures short { IfOk result IsShort }
{
    Ok(Kept {
        bid: place,
        seat: Text::of(alloc, "s")?,
        bidid: Text::of(alloc, "i")?,
        adid: Text::of(alloc, "a")?,
        nurl: Text::of(alloc, "n")?,
        burl: Text::of(alloc, "b")?,
        lurl: Text::of(alloc, "l")?,
        body: Text::of(alloc, "{}")?,
    })
}

/// The texts of so many bids.
fn texts(alloc: Global, count: u32) -> Result<Vec<Kept>, OutOfMemory>
    ensures long { IfOk result (λ v. length v.items ≡ count) }
    ensures bids { IfOk result (λ v. (k : ℕ) (d : KeptValue) → k < count → (slice_index_or v.items k d).bid ≡ k) }
    ensures short { IfOk result (λ v. All IsShort v.items) }
{
    let mut kept = Vec::new(alloc);
    for place in 0..count {
        kept.push(texts_of(alloc, place)?)?;
    }
    Ok(kept)
}

/// A name.
fn name(alloc: Global, text: &str) -> Result<Id, OutOfMemory> {
    match Id::of(alloc, text)? {
        Some(name) => Ok(name),
        None => Err(OutOfMemory),
    }
}

/// The one impression of an ask.
fn imps(alloc: Global) -> Result<Vec<Id>, OutOfMemory>
    ensures { IfOk result (λ v. length v.items ≡ 1) }
{
    let mut imps = Vec::new(alloc);
    imps.push(name(alloc, "1")?)?;
    Ok(imps)
}

/// An ask of one impression.
pub(crate) fn ask(
    alloc: Global,
    auction: &str,
    digest: u8,
    now: u64,
    bids: &[Bid],
) -> Result<Ask, OutOfMemory>
    requires few { length bids.now ≤ 1024 }
    requires now { now < 2 ^ 63 }
    ensures formed { IfOk result (λ a. IsWellFormed 2 a) }
    ensures undecided { IfOk result (λ a. IsUndecided a) }
{
    Ok(Ask {
        auction: name(alloc, auction)?,
        digest: [digest; 32],
        now,
        first: 0,
        imps: Sequence::from(imps(alloc)?),
        offers: Sequence::from(offers(alloc, bids)?),
        kept: Sequence::from(texts(alloc, bids.len() as u32)?),
    })
}

/// Opens a desk on a new disk whose calls fail by these words.
pub(crate) fn opened(
    alloc: Global,
    roster: &Roster,
    fails: &[u64],
    stop: Option<u64>,
) -> Result<Desk<MemoryDisk>, DeskFault>
    requires { length roster.now.campaigns ≡ 2 }
    ensures terms { IfOk result (λ d. d.desk.terms ≡ desk_terms roster.entry.now) }
    ensures two { IfOk result (λ d. length d.desk.terms.day.budgets ≡ 2) }
{
    let disk = MemoryDisk::new(alloc, b"", fails, stop)?;
    match Desk::open(alloc, disk, roster) {
        Ok(desk) => Ok(desk),
        Err((fault, _)) => Err(fault),
    }
}
