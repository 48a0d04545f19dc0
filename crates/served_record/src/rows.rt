//! The rows of a record, entry by entry.
ghost use Rattle.std.specs.Prelude.{◌≡◌, ℕ, ◌+◌, ◌<◌, ◌≤◌, ◌^◌, ◌++◌, All, IfOk, OnOk, Some, if◌then◌else◌, is_some, length, map, position};
ghost use Rattle.day_rules.specs.Asks.{is_decided as is_decided_by};
ghost use Rattle.bid_record.specs.Records.{IsImpName};
ghost use Rattle.served_record.specs.Served.{admitted, charge_of as charge_by, end_told, is_admitted as is_admitted_for, is_awarded, name_of as name_by};
ghost use Rattle.served_record.specs.Steps.{AsksFew, IsNamed, end_at, imps_of, row_by, rows_by, rows_for, rows_in, sold_by, sold_in, sold_of};

use crate::copies::copy_of;
use adx_units::{Offer, OutOfMemory, Sequence};
use allocator_core::{AWARDED, LOST_TO_HIGHER, OVER_BUDGET};
use bid_record::{Charge, End, ImpName, ImpRow};
use day_rules::{Ask, Entry};
use notice_book::{Awards, End as AwardEnd};
use std::alloc::Global;

/// The rows so far, and the number of the next award.
#[derive(Drop)]
struct Rows {
    rows: Vec<ImpRow>,
    next: u32,
}

/// The rows of all impressions of a history, with the ends of its awards.
pub(crate) fn rows_of(
    alloc: Global,
    entries: &[Entry],
    awards: &Awards,
) -> Result<Vec<ImpRow>, OutOfMemory>
    requires formed { All AsksFew entries.now }
    requires enough { sold_in entries.now ≤ length awards.now.awards }
    requires few { length awards.now.awards < 2 ^ 32 }
    ensures rows { IfOk result (λ rows. rows.items ≡ rows_in awards.now.awards 0 entries.now) }
    ensures named { IfOk result (λ rows. All IsNamed rows.items) }
{
    let mut rows = Rows {
        rows: Vec::new(alloc),
        next: 0,
    };
    for entry in entries {
        add(alloc, &mut rows, entry, awards)?;
    }
    Ok(rows.rows)
}

/// Adds the rows of an entry's impressions.
fn add(alloc: Global, rows: &mut Rows, entry: &Entry, awards: &Awards) -> Result<(), OutOfMemory>
    requires formed { AsksFew entry.now }
    requires enough { rows.old.next + sold_by entry.now ≤ length awards.now.awards }
    requires few { length awards.now.awards < 2 ^ 32 }
    requires named { All IsNamed rows.old.rows.items }
    ensures rows { OnOk result (rows.new.rows.items ≡ rows.old.rows.items ++ rows_by awards.now.awards rows.old.next entry.now) }
    ensures next { OnOk result (rows.new.next ≡ rows.old.next + sold_by entry.now) }
    ensures named { OnOk result (All IsNamed rows.new.rows.items) }
{
    match entry {
        Entry::Ask(ask) => add_ask(alloc, rows, ask, awards),
        Entry::Win { .. }
        | Entry::Bill { .. }
        | Entry::Loss { .. }
        | Entry::Expire { .. }
        | Entry::Budget { .. } => Ok(()),
    }
}

/// Adds the rows of an ask's impressions.
fn add_ask(alloc: Global, rows: &mut Rows, ask: &Ask, awards: &Awards) -> Result<(), OutOfMemory>
    requires formed { length ask.now.offers ≤ 1024 }
    requires enough { rows.old.next + sold_of ask.now (imps_of ask.now) ≤ length awards.now.awards }
    requires few { length awards.now.awards < 2 ^ 32 }
    requires named { All IsNamed rows.old.rows.items }
    ensures rows { OnOk result (rows.new.rows.items
        ≡ rows.old.rows.items ++ rows_for awards.now.awards rows.old.next ask.entry.now (imps_of ask.entry.now)) }
    ensures next { OnOk result (rows.new.next ≡ rows.old.next + sold_of ask.entry.now (imps_of ask.entry.now)) }
    ensures named { OnOk result (All IsNamed rows.new.rows.items) }
{
    for imp in 0..ask.imps.len() {
        let row = row_of(alloc, ask, imp, awards, rows.next)?;
        let told = awards_told(&row);
        rows.rows.push(row)?;
        rows.next += told;
    }
    Ok(())
}

/// How many awards a row has: one where it has a chosen offer.
fn awards_told(row: &ImpRow) -> u32
    ensures { result ≡ (if is_some row.now.chosen then 1 else 0) }
{
    if row.chosen.is_some() { 1 } else { 0 }
}

/// The row of an ask's impression, whose chosen offer, if it has one, is award `n`.
fn row_of(
    alloc: Global,
    ask: &Ask,
    imp: usize,
    awards: &Awards,
    n: u32,
) -> Result<ImpRow, OutOfMemory>
    requires imp { imp < length ask.now.imps }
    requires few { length ask.now.offers ≤ 1024 }
    ensures row { IfOk result (λ row. row ≡ row_by awards.now.awards n ask.entry.now imp) }
    ensures named { IfOk result IsNamed }
{
    let chosen = chosen_of(ask.offers.as_slice(), imp);
    let end = match chosen {
        Some(_) => end_of(awards, n),
        None => None,
    };
    Ok(ImpRow {
        name: Some(name_of(alloc, ask, imp)?),
        offers: Sequence::from(impression_of(alloc, ask.offers.as_slice(), imp)?),
        chosen,
        end,
    })
}

/// The name of an ask's impression.
fn name_of(alloc: Global, ask: &Ask, imp: usize) -> Result<ImpName, OutOfMemory>
    requires { imp < length ask.now.imps }
    ensures name { IfOk result (λ name. Some name ≡ name_by ask.entry.now imp) }
    ensures named { IfOk result IsImpName }
{
    Ok(ImpName {
        auction: copy_of(alloc, &ask.auction)?,
        imp: copy_of(alloc, &ask.imps.as_slice()[imp])?,
    })
}

/// What the offers charge that were admitted for the impression.
fn impression_of(alloc: Global, offers: &[Offer], imp: usize) -> Result<Vec<Charge>, OutOfMemory>
    ensures { IfOk result (λ charges. charges.items ≡ map charge_by (admitted imp offers.now)) }
{
    let charges = offers
        .iter()
        .filter(|offer| is_admitted(offer, imp))
        .map(|offer| charge_of(offer))
        .collect(alloc)?;
    Ok(charges)
}

/// The place of the awarded offer among those that were admitted for the impression.
fn chosen_of(offers: &[Offer], imp: usize) -> Option<u32>
    requires { length offers.now ≤ 1024 }
    ensures { result ≡ position is_awarded (admitted imp offers.now) }
{
    match place_of(offers, imp) {
        Some(place) => Some(place as u32),
        None => None,
    }
}

/// The same as a place in memory.
fn place_of(offers: &[Offer], imp: usize) -> Option<usize>
    ensures { result ≡ position is_awarded (admitted imp offers.now) }
{
    offers
        .iter()
        .filter(|offer| is_admitted(offer, imp))
        .position(|offer| offer.reason == AWARDED)
}

/// Whether the offer was admitted for the impression.
fn is_admitted(offer: &Offer, imp: usize) -> bool
    ensures { result ≡ is_admitted_for imp offer.now }
{
    is_decided(offer.reason) && offer.imp as usize == imp
}

/// Whether the day gave the reason, and not admission.
fn is_decided(reason: u16) -> bool
    ensures { result ≡ is_decided_by reason }
{
    reason == AWARDED || (reason == LOST_TO_HIGHER || reason == OVER_BUDGET)
}

/// What an offer charges, and whom.
fn charge_of(offer: &Offer) -> Charge
    ensures { result ≡ charge_by offer.now }
{
    Charge {
        campaign: offer.campaign,
        charge: offer.charge,
    }
}

/// How award `n` ended.
fn end_of(awards: &Awards, n: u32) -> Option<End>
    ensures { result ≡ end_at awards.now.awards n }
{
    awards.get(n).map(|award| told(award.end))
}

/// How a record says the end of an award.
fn told(end: Option<AwardEnd>) -> End
    ensures { result ≡ end_told end }
{
    match end {
        None => End::Live,
        Some(AwardEnd::Billed) => End::Billed,
        Some(AwardEnd::Lost) => End::Lost,
        Some(AwardEnd::Expired) => End::Expired,
    }
}
