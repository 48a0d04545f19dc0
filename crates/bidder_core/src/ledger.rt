//! The ledger of a bidder: which notices were counted.
ghost use Rattle.std.specs.Prelude.{◌≡◌, ◌≤◌, ◌<◌, ◌++◌, ◌∷◌, [], All, IfOk, OnErr, OnOk, length, string_bytes, true};
ghost use Rattle.bidder_core.specs.BidIds.{is_made, price_in};
ghost use Rattle.bidder_core.specs.Ledger.{AreOnce, bill_count as bill_count_of, billed_in, known_ruling as known_ruling_by, row_of, rows_after, ruling_in};
ghost use Rattle.bidder_core.specs.LedgerState.{key_of as key_by, noticed_at as noticed_by_key, noticed_in};
ghost use Rattle.notice_book.specs.declared.ruling.Ruling.TheVariants.{Counted};

use crate::award::{Noticed, with_notice};
use crate::sums::{BillSum, no_bills, sum_at, summed};
use adx_units::{Id, OutOfMemory, Text, Units};
use indexmap::IndexMap;
use notice_book::{NoticeKind, Ruling, rule};
use std::alloc::Global;
use std::marker::Model;

/// A notice that was counted.
#[derive(Debug, Drop)]
pub struct LedgerRow {
    /// The auction that it is about.
    pub auction: Id,
    /// The id of the bid that won there.
    pub bid: Text,
    /// What it tells.
    pub kind: NoticeKind,
    /// The price that it told, in units of 10^-6 CPM dollar; a loss may tell none, which is 0.
    pub price: Units,
}

/// The notices that were counted, with a place for each award and a sum for each price. A contract sees the notices in
/// their order, and for how many prices there is a sum.
#[derive(Drop)]
pub(crate) struct Ledger {
    rows: Vec<LedgerRow>,
    known: IndexMap<String, Noticed>,
    sums: Vec<BillSum>,
}

impl Model for Ledger {
    ghost use Rattle.std.specs.Prelude.{length};
    ghost use Rattle.bidder_core.specs.LedgerState.{AreKept, LedgerState};

    ghost Value = { LedgerState };

    ghost view = { λ l. record { rows = l.rows.items; prices = length l.sums.items } };

    ghost invariant = { λ l. AreKept l.rows.items l.known l.sums.items };
}

/// The key of an award, and what was counted for it.
#[derive(Drop)]
struct Found {
    key: String,
    award: Noticed,
}

/// The key of an award.
fn key_of(alloc: Global, auction: &str, bid: &str) -> Result<String, OutOfMemory>
    ensures { IfOk result (λ key. string_bytes key ≡ key_by auction.now bid.now) }
{
    let mut key = String::with_capacity(alloc, bid.len() + auction.len() + 1)?;
    key.push_str(bid)?;
    key.push_str("/")?;
    key.push_str(auction)?;
    Ok(key)
}

/// What was counted for the award with that key.
fn noticed_at(known: &IndexMap<String, Noticed>, key: &str) -> Noticed
    ensures { result ≡ noticed_by_key known.now key.now }
{
    match known.get(key) {
        Some(award) => *award,
        None => Noticed {
            won: false,
            end: None,
        },
    }
}

impl Ledger {
    /// No notice yet, at a bidder with so many prices.
    pub(crate) fn new(alloc: Global, prices: usize) -> Result<Ledger, OutOfMemory>
        requires some { 1 ≤ prices }
        ensures rows { IfOk result (λ l. l.rows ≡ []) }
        ensures prices { IfOk result (λ l. l.prices ≡ prices) }
    {
        let sums = no_bills(alloc, prices)?;
        Ok(Ledger {
            rows: Vec::new(alloc),
            known: IndexMap::new(alloc),
            sums,
        })
    }

    /// The notices that were counted, in their order.
    pub(crate) fn rows(&self) -> &[LedgerRow]
        ensures rows { result.now ≡ self.now.rows }
        ensures once { AreOnce self.now.rows }
        ensures made { All (λ r. is_made self.now.prices r.bid ≡ true) self.now.rows }
    {
        &self.rows
    }

    /// The sum of the bills at the price in that place, in units.
    pub(crate) fn billed(&self, price: u32) -> u128
        requires { price < self.now.prices }
        ensures { result ≡ billed_in price self.now.rows }
    {
        sum_at(&self.sums, price as usize).billed
    }

    /// How many bills were counted at the price in that place.
    pub(crate) fn bill_count(&self, price: u32) -> u64
        requires { price < self.now.prices }
        ensures { result ≡ bill_count_of price self.now.rows }
    {
        sum_at(&self.sums, price as usize).count
    }

    /// Rules on a notice, and adds it where it counts. The place is that of its bid's price.
    pub(crate) fn notice(
        &mut self,
        alloc: Global,
        kind: NoticeKind,
        auction: &Id,
        bid: &str,
        place: usize,
        price: Units,
    ) -> Result<Ruling, OutOfMemory>
        requires made { is_made self.old.prices bid.now ≡ true }
        requires place { place ≡ price_in bid.now }
        requires below { place < self.old.prices }
        ensures ruling { IfOk result (λ r. r ≡ ruling_in kind auction.now bid.now self.old.rows) }
        ensures rows { IfOk result (λ r. self.new.rows ≡ rows_after (known_ruling_by r) (row_of auction.now bid.now kind price) self.old.rows) }
        ensures kept { OnErr result (self.new.rows ≡ self.old.rows) }
        ensures prices { self.new.prices ≡ self.old.prices }
    {
        let found = self.award_of(alloc, auction.as_str(), bid)?;
        match rule(kind, found.award.won, found.award.end) {
            Ruling::Counted => {
                let row = LedgerRow {
                    auction: auction.copy(alloc)?,
                    bid: Text::of(alloc, bid)?,
                    kind,
                    price,
                };
                self.count(found, row, place)?;
                Ok(Ruling::Counted)
            }
            other => Ok(other),
        }
    }

    /// The key of an award, and what was counted for it.
    fn award_of(&self, alloc: Global, auction: &str, bid: &str) -> Result<Found, OutOfMemory>
        requires made { is_made self.now.prices bid.now ≡ true }
        ensures key { IfOk result (λ f. string_bytes f.key ≡ key_by auction.now bid.now) }
        ensures award { IfOk result (λ f. f.award ≡ noticed_in auction.now bid.now self.now.rows) }
    {
        let key = key_of(alloc, auction, bid)?;
        let award = noticed_at(&self.known, key.as_str());
        Ok(Found { key, award })
    }

    /// Adds a notice that counts, where its award was so before it.
    fn count(&mut self, found: Found, row: LedgerRow, place: usize) -> Result<(), OutOfMemory>
        requires key { string_bytes found.key ≡ key_by row.auction row.bid }
        requires award { found.award ≡ noticed_in row.auction row.bid self.old.rows }
        requires counts { ruling_in row.kind row.auction row.bid self.old.rows ≡ Counted }
        requires made { is_made self.old.prices row.bid ≡ true }
        requires place { place ≡ price_in row.bid }
        requires below { place < self.old.prices }
        ensures rows { OnOk result (self.new.rows ≡ self.old.rows ++ row ∷ []) }
        ensures kept { OnErr result (self.new.rows ≡ self.old.rows) }
        ensures prices { self.new.prices ≡ self.old.prices }
    {
        self.rows.reserve(1)?;
        self.known
            .insert(found.key, with_notice(row.kind, found.award))?;
        // From here on nothing fails.
        prove!(self.rows.len() < self.rows.capacity());
        self.sums[place] = summed(sum_at(&self.sums, place), row.kind, row.price);
        self.rows.push_reserved(row);
        Ok(())
    }
}
