//! A bidder: what it bids with, and the notices that it was told.
ghost use Rattle.std.specs.Prelude.{◌≡◌, ◌<◌, [], All, IfOk, OnErr, length, option_map, true};
ghost use Rattle.adx_json.specs.View.{tree_of};
ghost use Rattle.adx_json.specs.Rows.{Answers, Says};
ghost use Rattle.deal_floor.specs.Faults.{lacks_memory};
ghost use Rattle.bidder_core.specs.Answers.{answer_for, answer_to};
ghost use Rattle.bidder_core.specs.BidIds.{is_made};
ghost use Rattle.bidder_core.specs.Ledger.{AreOnce, bidder_ruling, bill_count as bill_count_of, billed_in, row_of, rows_after};
ghost use Rattle.bidder_core.specs.PriceLines.{line_fault, line_rows};

use crate::answer::answer_of;
use crate::bid_id::price_place;
use crate::ledger::{Ledger, LedgerRow};
use crate::price_line::{Price, PriceLine};
use crate::ruling::{BidderRuling, known_ruling};
use adx_json::Json;
use adx_units::{Id, OutOfMemory, Units};
use deal_floor::RosterFault;
use notice_book::NoticeKind;
use rtb_request::{BidRequest, OfferedImps};
use std::alloc::Global;
use std::marker::Model;

/// A bidder with its ledger. A contract sees what it bids with, and the notices that were counted, in their order.
#[derive(Drop)]
pub struct Bidder {
    line: PriceLine,
    ledger: Ledger,
}

impl Model for Bidder {
    ghost use Rattle.std.specs.Prelude.{◌≡◌, length};
    ghost use Rattle.bidder_core.specs.Seen.{BidderState};

    ghost Value = { BidderState };

    ghost view = { λ b. record { line = b.line; rows = b.ledger.rows } };

    ghost invariant = { λ b. b.ledger.prices ≡ length b.line.prices };
}

impl Bidder {
    /// The bidder of a price line, with no notice yet, or the line's first fault: its seat, its base, its list of prices,
    /// then price by price the campaign, the price, and a campaign that an earlier price is for. Prices are read as
    /// `price_of` reads them.
    pub fn of(alloc: Global, tree: &Json) -> Result<Bidder, RosterFault>
        ensures line { Answers lacks_memory (line_fault (tree_of tree.now)) (λ b. Says line_rows (Some (tree_of tree.now)) b.line) result }
        ensures ledger { IfOk result (λ b. b.rows ≡ []) }
    {
        let line = match PriceLine::of(alloc, tree) {
            Ok(line) => line,
            Err(fault) => return Err(fault),
        };
        let ledger = Ledger::new(alloc, line.prices.len())?;
        Ok(Bidder { line, ledger })
    }

    /// The answer to a request (OpenRTB 2.6, section 4.2.1, BidResponse). None exactly where no price reaches a floor. The
    /// one error is want of memory.
    pub fn answer(&self, alloc: Global, request: &BidRequest) -> Result<Option<Json>, OutOfMemory>
        ensures { IfOk result (λ a. option_map tree_of a ≡ answer_to self.now.line request.now) }
    {
        answer_of(alloc, &self.line, &request.id, request.imps.as_slice())
    }

    /// The answer to what a request offers, as `answer` gives it for the request. None exactly where no price reaches a
    /// floor. The one error is want of memory.
    pub fn answer_offered(
        &self,
        alloc: Global,
        offered: &OfferedImps,
    ) -> Result<Option<Json>, OutOfMemory>
        ensures { IfOk result (λ a. option_map tree_of a ≡ answer_for self.now.line offered.now.id offered.now.imps) }
    {
        answer_of(alloc, &self.line, &offered.id, offered.imps.as_slice())
    }

    /// Rules on a notice of a bid of an auction, and counts it where it is new. The price is in units, 0 where a loss
    /// tells none; of a repeated notice it isn't read. Where memory is wanting nothing is counted.
    pub fn notice(
        &mut self,
        alloc: Global,
        kind: NoticeKind,
        auction: &Id,
        bid: &str,
        price: Units,
    ) -> Result<BidderRuling, OutOfMemory>
        ensures ruling { IfOk result (λ r. r ≡ bidder_ruling (length self.old.line.prices) kind auction.now bid.now self.old.rows) }
        ensures rows { IfOk result (λ r. self.new.rows ≡ rows_after r (row_of auction.now bid.now kind price) self.old.rows) }
        ensures kept { OnErr result (self.new.rows ≡ self.old.rows) }
        ensures line { self.new.line ≡ self.old.line }
    {
        let Some(place) = price_place(bid, self.line.prices.len()) else {
            return Ok(BidderRuling::Unknown);
        };
        let ruling = self.ledger.notice(alloc, kind, auction, bid, place, price)?;
        Ok(known_ruling(ruling))
    }

    /// The prices, in the order of the price line.
    pub fn prices(&self) -> &[Price]
        ensures { result.now ≡ self.now.line.prices }
    {
        self.line.prices.as_slice()
    }

    /// The sum of the bills that were counted for the price in that place, in units.
    pub fn billed(&self, cid: u32) -> u128
        requires { cid < length self.now.line.prices }
        ensures { result ≡ billed_in cid self.now.rows }
    {
        self.ledger.billed(cid)
    }

    /// How many bills were counted for the price in that place.
    pub fn bill_count(&self, cid: u32) -> u64
        requires { cid < length self.now.line.prices }
        ensures { result ≡ bill_count_of cid self.now.rows }
    {
        self.ledger.bill_count(cid)
    }

    /// The notices that were counted, in their order: each once, and each of a bid that the bidder makes.
    pub fn ledger(&self) -> &[LedgerRow]
        ensures rows { result.now ≡ self.now.rows }
        ensures once { AreOnce self.now.rows }
        ensures made { All (λ r. is_made (length self.now.line.prices) r.bid ≡ true) self.now.rows }
    {
        self.ledger.rows()
    }
}
