//! Notices that a bidder is sent.
ghost use Rattle.std.specs.Prelude.{◌≡◌, List, [], codes, IfOk, OnErr, option_map, string_bytes, Some, None};
ghost use Rattle.adx_http.specs.Targets.{value_of};
ghost use Rattle.adx_units.specs.Money.{price_of as price_of_text};
ghost use Rattle.bidder_core.specs.Ledger.{rows_after};
ghost use Rattle.bidder_core.specs.declared.ledger.LedgerRow.{LedgerRow};
ghost use Rattle.bidder_http.specs.Told.{row_of};
ghost use Rattle.bidder_http.specs.Notices.{AnswersNotice, TellsNotice, auction_in, notice_in, price_by, price_in, priced, ruled_answer, ruled_body, ruling_on};

use adx_http::query_value;
use adx_units::{Id, OutOfMemory, Text, Units, price_of};
use answer_lines::push_answer;
use bidder_core::{Bidder, BidderRuling};
use day_rules::Answer as DayAnswer;
use http_service::{Answer, plain, push_refused};
use notice_book::NoticeKind;
use std::alloc::Global;

/// What a notice says.
#[derive(Drop)]
pub(crate) struct Told {
    /// The auction.
    pub auction: Id,
    /// The id of the bid.
    pub bid: Text,
    /// The price in units; 0 where a loss says none.
    pub price: Units,
}

/// The auction that a query names; None where it names none of 1 to 128 bytes.
fn auction_of(alloc: Global, query: &[u8]) -> Result<Option<Id>, OutOfMemory>
    ensures { IfOk result (λ found. found ≡ auction_in query.now) }
{
    match query_value(alloc, query, "a")? {
        Some(value) => Id::of(alloc, value.as_str()),
        None => Ok(None),
    }
}

/// The bid that a query names.
fn bid_of(alloc: Global, query: &[u8]) -> Result<Option<Text>, OutOfMemory>
    ensures { IfOk result (λ found. found ≡ value_of (codes "b") query.now) }
{
    match query_value(alloc, query, "b")? {
        Some(value) => Ok(Some(Text::of(alloc, value.as_str())?)),
        None => Ok(None),
    }
}

/// The price of a text in CPM dollars, in units; None where it is none.
fn price_in_text(text: &str) -> Option<Units>
    ensures { result ≡ priced (price_of_text text.now) }
{
    match price_of(text.as_bytes()) {
        Ok(price) => Some(price),
        Err(_) => None,
    }
}

/// The price where a notice says none; only a loss needn't.
fn untold_price(kind: NoticeKind) -> Option<Units>
    ensures { result ≡ price_by None kind }
{
    match kind {
        NoticeKind::Loss => Some(Units(0)),
        NoticeKind::Win => None,
        NoticeKind::Bill => None,
    }
}

/// The price that a query says, in units; None where it says none that is one.
fn price_told(alloc: Global, kind: NoticeKind, query: &[u8]) -> Result<Option<Units>, OutOfMemory>
    ensures { IfOk result (λ found. found ≡ price_in kind query.now) }
{
    match query_value(alloc, query, "p")? {
        Some(value) => Ok(price_in_text(value.as_str())),
        None => Ok(untold_price(kind)),
    }
}

/// The notice of a kind that a query says.
fn told_by(alloc: Global, kind: NoticeKind, query: &[u8]) -> Result<Option<Told>, OutOfMemory>
    ensures { IfOk result (λ found. option_map (row_of kind) found ≡ notice_in kind query.now) }
{
    let Some(auction) = auction_of(alloc, query)? else {
        return Ok(None);
    };
    let Some(bid) = bid_of(alloc, query)? else {
        return Ok(None);
    };
    match price_told(alloc, kind, query)? {
        Some(price) => Ok(Some(Told {
            auction,
            bid,
            price,
        })),
        None => Ok(None),
    }
}

/// Writes the body of a ruling's answer, and gives the answer.
fn answer_ruling(ruling: BidderRuling, body: &mut String) -> Result<Answer, OutOfMemory>
    requires { string_bytes body.old ≡ [] }
    ensures answer { IfOk result (λ a. a ≡ ruled_answer ruling) }
    ensures body { IfOk result (λ a. string_bytes body.new ≡ ruled_body ruling) }
    ensures uncounted { OnErr result ((row : LedgerRow) (rows : List LedgerRow) → rows_after ruling row rows ≡ rows) }
{
    match ruling {
        BidderRuling::Counted => Ok(plain(204)),
        BidderRuling::Repeat => Ok(plain(204)),
        BidderRuling::Conflict(end) => {
            push_answer(body, &[], &DayAnswer::Conflict { kept: end }, None)?;
            Ok(plain(409))
        }
        BidderRuling::Unknown => {
            push_answer(body, &[], &DayAnswer::Unknown, None)?;
            Ok(plain(404))
        }
    }
}

/// Counts a notice, where it is new, and answers it.
fn answer_told(
    alloc: Global,
    bidder: &mut Bidder,
    kind: NoticeKind,
    told: &Told,
    body: &mut String,
) -> Result<Answer, OutOfMemory>
    requires { string_bytes body.old ≡ [] }
    ensures told { IfOk result (λ a. TellsNotice (Some (row_of kind told.now)) bidder.old a (string_bytes body.new) bidder.new.rows) }
    ensures kept { OnErr result (bidder.new.rows ≡ bidder.old.rows) }
    ensures line { bidder.new.line ≡ bidder.old.line }
{
    let ruling = bidder.notice(alloc, kind, &told.auction, told.bid.as_str(), told.price)?;
    answer_ruling(ruling, body)
}

/// Answers the notice of a kind that a query says.
pub(crate) fn answer_notice(
    alloc: Global,
    bidder: &mut Bidder,
    kind: NoticeKind,
    query: &[u8],
    body: &mut String,
) -> Result<Answer, OutOfMemory>
    requires { string_bytes body.old ≡ [] }
    ensures told { IfOk result (λ a. AnswersNotice kind query.now bidder.old a (string_bytes body.new) bidder.new.rows) }
    ensures kept { OnErr result (bidder.new.rows ≡ bidder.old.rows) }
    ensures line { bidder.new.line ≡ bidder.old.line }
{
    match told_by(alloc, kind, query)? {
        Some(told) => answer_told(alloc, bidder, kind, &told, body),
        None => {
            push_refused(body, "call")?;
            Ok(plain(400))
        }
    }
}
