//! The bills of a history that a bidder owes.
ghost use Rattle.std.specs.Prelude.{◌≡◌, ◌++◌, [], IfOk, OnOk};
ghost use Rattle.std.specs.List.{cons_option};
ghost use Rattle.command_reconcile.specs.DayBills.{day_bills as day_bills_of, is_of_bidder as is_of_bidder_by, place_named as place_named_by};
ghost use Rattle.command_reconcile.specs.Sales.{is_sold as is_sold_by, owed_sale, sale_bill, sale_by, sold, sold_at, sold_by, sold_for, sold_of};

use crate::bill::Bill;
use adx_units::{Offer, OutOfMemory, Units};
use allocator_core::AWARDED;
use day_rules::{Ask, Entry};
use deal_floor::{Campaign, Place};
use std::alloc::Global;

/// The place of the bidder with that name.
pub(crate) fn place_named(bidders: &[Place], name: &str) -> Option<usize>
    ensures { result ≡ place_named_by name.now bidders.now }
{
    bidders
        .iter()
        .position(|bidder| bidder.name.as_str() == name)
}

/// Whether the campaign is that bidder's.
fn is_of_bidder(campaigns: &[Campaign], bidder: usize, campaign: u32) -> bool
    ensures { result ≡ is_of_bidder_by campaigns.now bidder campaign }
{
    match campaigns.get(campaign as usize) {
        Some(campaign) => campaign.bidder as usize == bidder,
        None => false,
    }
}

/// What was sold: the place of its ask in the history, its campaign, and its charge.
#[derive(Clone, Copy, Debug, Drop)]
pub(crate) struct Sale {
    ask: usize,
    campaign: u32,
    charge: Units,
}

/// Whether the offer was awarded for the impression.
fn is_sold(offer: &Offer, imp: usize) -> bool
    ensures { result ≡ is_sold_by imp offer.now }
{
    offer.reason == AWARDED && offer.imp as usize == imp
}

/// Adds what an offer of the ask at that place sold for an impression.
fn sell_offer(
    sales: &mut Vec<Sale>,
    place: usize,
    imp: usize,
    offer: &Offer,
) -> Result<(), OutOfMemory>
    ensures { OnOk result (sales.new.items ≡ sales.old.items ++ sold_at place imp offer.now) }
{
    if is_sold(offer, imp) {
        sales.push(Sale {
            ask: place,
            campaign: offer.campaign,
            charge: offer.charge,
        })?;
    }
    Ok(())
}

/// Adds what the ask at that place sold for an impression.
fn sell_imp(
    sales: &mut Vec<Sale>,
    place: usize,
    imp: usize,
    offers: &[Offer],
) -> Result<(), OutOfMemory>
    ensures { OnOk result (sales.new.items ≡ sales.old.items ++ sold_for place offers.now imp) }
{
    for offer in offers {
        sell_offer(sales, place, imp, offer)?;
    }
    Ok(())
}

/// Adds what the ask at that place sold.
fn sell_ask(sales: &mut Vec<Sale>, place: usize, ask: &Ask) -> Result<(), OutOfMemory>
    ensures { OnOk result (sales.new.items ≡ sales.old.items ++ sold_of place ask.entry.now) }
{
    let offers = ask.offers.as_slice();
    for imp in 0..ask.imps.len() {
        sell_imp(sales, place, imp, offers)?;
    }
    Ok(())
}

/// Adds what the entry at that place sold.
fn sell(sales: &mut Vec<Sale>, place: usize, entry: &Entry) -> Result<(), OutOfMemory>
    ensures { OnOk result (sales.new.items ≡ sales.old.items ++ sold_by (place, entry.now)) }
{
    match entry {
        Entry::Ask(ask) => sell_ask(sales, place, ask),
        Entry::Win { .. }
        | Entry::Bill { .. }
        | Entry::Loss { .. }
        | Entry::Expire { .. }
        | Entry::Budget { .. } => Ok(()),
    }
}

/// What a history sold; the n-th, from 0, is that of award n.
fn sales_in(alloc: Global, entries: &[Entry]) -> Result<Vec<Sale>, OutOfMemory>
    ensures { IfOk result (λ sales. sales.items ≡ sold entries.now) }
{
    let mut sales = Vec::new(alloc);
    for (place, entry) in entries.iter().enumerate() {
        sell(&mut sales, place, entry)?;
    }
    Ok(sales)
}

/// The bill of what was sold, where a campaign of that bidder owes it.
fn owed(
    alloc: Global,
    campaigns: &[Campaign],
    bidder: usize,
    entries: &[Entry],
    sale: &Sale,
) -> Result<Option<Bill>, OutOfMemory>
    ensures { IfOk result (λ bill. bill ≡ owed_sale campaigns.now bidder entries.now sale.now) }
{
    if !is_of_bidder(campaigns, bidder, sale.campaign) {
        return Ok(None);
    }
    match entries.get(sale.ask) {
        Some(Entry::Ask(ask)) => Ok(Some(Bill {
            auction: ask.auction.copy(alloc)?,
            price: sale.charge,
        })),
        _ => Ok(None),
    }
}

/// The bill that an entry records, where that bidder owes it.
fn bill_in(
    alloc: Global,
    campaigns: &[Campaign],
    bidder: usize,
    entries: &[Entry],
    sales: &[Sale],
    entry: &Entry,
) -> Result<Option<Bill>, OutOfMemory>
    ensures { IfOk result (λ bill. bill ≡ sale_bill campaigns.now bidder entries.now sales.now entry.now) }
{
    match entry {
        Entry::Bill { award } => match sales.get(*award as usize) {
            Some(sale) => owed(alloc, campaigns, bidder, entries, sale),
            None => Ok(None),
        },
        Entry::Ask(_)
        | Entry::Win { .. }
        | Entry::Loss { .. }
        | Entry::Expire { .. }
        | Entry::Budget { .. } => Ok(None),
    }
}

/// Adds a bill, if there is one.
fn push_bill(bills: &mut Vec<Bill>, bill: Option<Bill>) -> Result<(), OutOfMemory>
    ensures { OnOk result (bills.new.items ≡ bills.old.items ++ cons_option bill []) }
{
    if let Some(bill) = bill {
        bills.push(bill)?;
    }
    Ok(())
}

/// The bills of a history that the bidder at that place owes, in the order of their entries.
pub(crate) fn day_bills(
    alloc: Global,
    campaigns: &[Campaign],
    bidder: usize,
    entries: &[Entry],
) -> Result<Vec<Bill>, OutOfMemory>
    ensures { IfOk result (λ bills. bills.items ≡ day_bills_of campaigns.now bidder entries.now) }
{
    let sales = sales_in(alloc, entries)?;
    let sold = sales.as_slice();
    let mut bills = Vec::new(alloc);
    for entry in entries {
        let bill = bill_in(alloc, campaigns, bidder, entries, sold, entry)?;
        push_bill(&mut bills, bill)?;
    }
    Ok(bills)
}
