//! What a price line says, or its first fault.
ghost use Rattle.std.specs.Prelude.{◌≡◌, ◌≤◌, ◌<◌, [], map, length, Some, true, false, is_ok, IfOk, IfSome, IfNone, Ok};
ghost use Rattle.std.specs.List.{AllZip, list_any};
ghost use Rattle.adx_json.specs.View.{tree_of, trees_of};
ghost use Rattle.adx_units.specs.declared.price.TheConstants.{PRICE_LIMIT};
ghost use Rattle.adx_json.specs.Rows.{Answers, Reads, Says, first_among, first_fault};
ghost use Rattle.adx_json.specs.Values.{items_in as items_by};
ghost use Rattle.adx_units.specs.Among.{is_among as is_among_by};
ghost use Rattle.rtb_request.specs.Distinct.{all_distinct};
ghost use Rattle.deal_floor.specs.Faults.{lacks_memory};
ghost use Rattle.deal_floor.specs.Reading.{given};
ghost use Rattle.deal_floor.specs.Forms.{text_or as text_or_by};
ghost use Rattle.deal_floor.specs.declared.fault.RosterFault.TheVariants.{Repeated};
ghost use Rattle.bidder_core.specs.Forms.{is_plain_base, is_url_mark as is_url_mark_by};
ghost use Rattle.bidder_core.specs.PriceLines.{cid_in, is_base_if_given as is_base_by, line_rows, price_rows, price_told, usual_base};
ghost use Rattle.bidder_core.specs.Seen.{price_has_cid, campaigns_of, price_list_fault};
ghost use Rattle.bidder_core.specs.declared.price_line.TheConstants.{MOST_PRICES};

use crate::price_line::{MOST_PRICES, Price, PriceLine};
use adx_json::{Json, find_members, items_in, number_in, text_in};
use adx_units::{Id, OutOfMemory, Sequence, Text, Units, price_of};
use deal_floor::{Field, RosterFault, id_in, text_or};
use std::alloc::Global;

impl PriceLine {
    /// A price line, or its first fault. A member that is null is there and isn't of its form; members that
    /// no test names are passed over.
    pub(crate) fn of(alloc: Global, tree: &Json) -> Result<PriceLine, RosterFault>
        ensures { Reads lacks_memory line_rows (tree_of tree.now) result }
    {
        let mut found = [None; 3];
        find_members(Some(tree), &["seat", "base", "prices"], &mut found);
        let [seat, base, prices] = found;
        let Some(seat) = id_in(alloc, seat)? else {
            return Err(RosterFault::BadField { field: Field::Seat });
        };
        if !is_base_if_given(base) {
            return Err(RosterFault::BadField { field: Field::Base });
        }
        let prices = match prices_in(alloc, prices) {
            Ok(prices) => prices,
            Err(fault) => return Err(fault),
        };
        let base = base_of(alloc, base)?;
        Ok(PriceLine { seat, base, prices })
    }
}

fn is_url_mark(byte: u8) -> bool
    ensures { result ≡ is_url_mark_by byte }
{
    byte == b'?' || byte == b'#'
}

fn has_url_mark(text: &[u8]) -> bool
    ensures { result ≡ list_any is_url_mark_by text.now }
{
    text.iter().any(|byte| is_url_mark(*byte))
}

/// Whether a text has neither a query nor a fragment.
fn is_plain(text: &[u8]) -> bool
    ensures { result ≡ is_plain_base text.now }
{
    !has_url_mark(text)
}

/// Whether a value is absent or a text without a query or a fragment.
fn is_base_if_given(value: Option<&Json>) -> bool
    ensures { result ≡ is_base_by (given value.entry) }
{
    match text_in(value) {
        Some(base) => is_plain(base.as_bytes()),
        None => value.is_none(),
    }
}

/// A copy of the base that a value is, or of the usual one.
fn base_of(alloc: Global, value: Option<&Json>) -> Result<Text, OutOfMemory>
    requires { is_base_by (given value) ≡ true }
    ensures value { IfOk result (λ t. t ≡ text_or_by usual_base (given value.entry)) }
    ensures plain { IfOk result (λ t. is_plain_base t ≡ true) }
{
    let base = text_or(alloc, value, "http://127.0.0.1")?;
    Ok(base)
}

/// The prices that a value is, or the first fault of the list.
fn prices_in(alloc: Global, value: Option<&Json>) -> Result<Sequence<Price>, RosterFault>
    ensures gives { Answers lacks_memory (price_list_fault (given value.entry))
        (λ ps. AllZip (λ t p. Says (price_rows []) (Some t) p) (items_by (given value.entry)) ps) result }
    ensures distinct { IfOk result (λ ps. all_distinct (campaigns_of ps) ≡ true) }
    ensures some { IfOk result (λ ps. 1 ≤ length ps) }
    ensures few { IfOk result (λ ps. length ps ≤ MOST_PRICES) }
{
    let trees = items_in(value);
    if trees.is_empty() {
        return Err(RosterFault::BadField {
            field: Field::Prices,
        });
    }
    if trees.len() > MOST_PRICES {
        return Err(RosterFault::TooMany);
    }
    match prices_of(alloc, trees) {
        Ok(prices) => Ok(Sequence::from(prices)),
        Err(fault) => Err(fault),
    }
}

/// The prices of a list, or the first fault of any of them.
fn prices_of(alloc: Global, trees: &[Json]) -> Result<Vec<Price>, RosterFault>
    requires few { length trees.now ≤ MOST_PRICES }
    ensures gives { Answers lacks_memory (first_among (λ before. price_rows (map (λ t. cid_in (Some t)) before)) [] (trees_of trees.now))
        (λ ps. AllZip (λ t p. Says (price_rows []) (Some t) p) (trees_of trees.now) ps.items) result }
    ensures distinct { IfOk result (λ ps. all_distinct (campaigns_of ps.items) ≡ true) }
    ensures count { IfOk result (λ ps. length ps.items ≡ length trees.now) }
{
    let mut prices = Vec::new(alloc);
    for tree in trees {
        let price = match price_of_tree(alloc, &prices, tree) {
            Ok(price) => price,
            Err(fault) => return Err(fault),
        };
        prices.push(price)?;
    }
    Ok(prices)
}

/// A price after others, or its first fault.
fn price_of_tree(alloc: Global, others: &Vec<Price>, tree: &Json) -> Result<Price, RosterFault>
    requires room { length others.now.items < MOST_PRICES }
    ensures gives { Answers lacks_memory (first_fault (price_rows (campaigns_of others.now.items)) (Some (tree_of tree.now)))
        (Says (price_rows []) (Some (tree_of tree.now))) result }
    ensures new { IfOk result (λ p. is_among_by (campaigns_of others.now.items) p.cid ≡ false) }
{
    let mut found = [None; 2];
    find_members(Some(tree), &["cid", "price"], &mut found);
    let [cid, price] = found;
    let Some(cid) = id_in(alloc, cid)? else {
        return Err(RosterFault::BadField {
            field: Field::PriceCid,
        });
    };
    let Some(price) = price_in(price) else {
        return Err(RosterFault::BadField {
            field: Field::PricePrice,
        });
    };
    if is_among(others, &cid) {
        return Err(repeated(others));
    }
    Ok(Price { cid, price })
}

/// The price that a value is. None exactly where it is none.
fn price_in(value: Option<&Json>) -> Option<Units>
    ensures some { IfSome result (λ u. price_told (given value.entry) ≡ Ok u) }
    ensures none { IfNone result (is_ok (price_told (given value.entry)) ≡ false) }
    ensures in_range { IfSome result (λ u. (1 ≤ u.0) × (u.0 ≤ PRICE_LIMIT)) }
{
    match price_of(number_in(value)?.as_bytes()) {
        Ok(price) => Some(price),
        Err(_) => None,
    }
}

/// Whether one of the prices is for this campaign.
#[tactic(auto, using(crate::proofs::PriceSteps::among_prices))]
fn is_among(prices: &[Price], cid: &Id) -> bool
    ensures { result ≡ is_among_by (campaigns_of prices.now) cid.now }
{
    any_has_cid(prices, cid)
}

fn any_has_cid(prices: &[Price], cid: &Id) -> bool
    ensures { result ≡ list_any (price_has_cid cid.now) prices.now }
{
    prices
        .iter()
        .any(|price| price.cid.as_bytes() == cid.as_bytes())
}

/// The fault of a price for the campaign of one of these.
#[tactic(auto, using(crate::proofs::PriceSteps::cids_length))]
fn repeated(prices: &[Price]) -> RosterFault
    requires few { length prices.now < MOST_PRICES }
    ensures { result ≡ Repeated (length (campaigns_of prices.now)) }
{
    RosterFault::Repeated {
        index: prices.len() as u32,
    }
}
