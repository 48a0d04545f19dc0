//! The answer of a bidder to an auction of impressions.
ghost use Rattle.std.specs.Prelude.{◌≡◌, ◌≤◌, ◌++◌, ◌∷◌, [], take, length, map, option_map, IfOk, OnOk};
ghost use Rattle.adx_json.specs.View.{tree_of, trees_of, members_view};
ghost use Rattle.bidder_core.specs.Answers.{answer_for, answer_tree as answer_tree_of, bid_tree as bid_tree_of, imp_bids, offer_members as offer_members_of, offered, auction_bids};
ghost use Rattle.bidder_core.specs.declared.answer.TheConstants.{MOST_BIDS};

use crate::bid_id::id_text;
use crate::bid_url::push_notices;
use crate::member::{push_list, push_number, push_text};
use crate::price_line::{Price, PriceLine};
use adx_json::{Json, Member};
use adx_units::{Id, OutOfMemory, Text};
use rtb_request::Imp;
use std::alloc::Global;

/// The most bids of an answer.
pub const MOST_BIDS: usize = 64;

/// The answer to an auction of impressions. None exactly where no price reaches a floor.
pub(crate) fn answer_of(
    alloc: Global,
    line: &PriceLine,
    auction: &Id,
    imps: &[Imp],
) -> Result<Option<Json>, OutOfMemory>
    ensures { IfOk result (λ a. option_map tree_of a ≡ answer_for line.now auction.now imps.now) }
{
    let bids = bids_of(alloc, line, imps)?;
    if bids.is_empty() {
        return Ok(None);
    }
    Ok(Some(answer_tree(alloc, auction, &line.seat, bids)?))
}

/// The bids for the impressions of an auction.
fn bids_of(alloc: Global, line: &PriceLine, imps: &[Imp]) -> Result<Vec<Json>, OutOfMemory>
    ensures { IfOk result (λ bids. trees_of bids.items ≡ auction_bids line.now imps.now) }
{
    let mut bids = Vec::new(alloc);
    for (place, imp) in imps.iter().enumerate() {
        push_bids(alloc, &mut bids, line, place, imp)?;
    }
    Ok(bids)
}

/// Adds the bids for an impression, as far as there may be more.
fn push_bids(
    alloc: Global,
    bids: &mut Vec<Json>,
    line: &PriceLine,
    imp_place: usize,
    imp: &Imp,
) -> Result<(), OutOfMemory>
    requires few { length bids.old.items ≤ MOST_BIDS }
    ensures { OnOk result (trees_of bids.new.items
        ≡ take MOST_BIDS (trees_of bids.old.items ++ imp_bids line.now (imp_place, imp.now))) }
{
    let prices = line.prices.as_slice();
    for (place, price) in prices.iter().enumerate() {
        push_offered(alloc, bids, line, imp_place, imp, place, price)?;
    }
    Ok(())
}

/// Adds the bid for an impression at a price, where the price reaches the floor and there may be one more.
fn push_offered(
    alloc: Global,
    bids: &mut Vec<Json>,
    line: &PriceLine,
    imp_place: usize,
    imp: &Imp,
    price_place: usize,
    price: &Price,
) -> Result<(), OutOfMemory>
    requires few { length bids.old.items ≤ MOST_BIDS }
    ensures { OnOk result (trees_of bids.new.items
        ≡ take MOST_BIDS (trees_of bids.old.items ++ offered line.now imp_place imp.now (price_place, price.now))) }
{
    if price.price.0 < imp.floor.0 {
        return Ok(());
    }
    push_bid(alloc, bids, line, imp_place, imp, price_place, price)?;
    Ok(())
}

/// Adds the bid for an impression at a price, where there may be one more.
fn push_bid(
    alloc: Global,
    bids: &mut Vec<Json>,
    line: &PriceLine,
    imp_place: usize,
    imp: &Imp,
    price_place: usize,
    price: &Price,
) -> Result<(), OutOfMemory>
    requires few { length bids.old.items ≤ MOST_BIDS }
    ensures { OnOk result (trees_of bids.new.items
        ≡ take MOST_BIDS (trees_of bids.old.items ++ bid_tree_of line.now imp_place imp.now price_place price.now ∷ [])) }
{
    if bids.len() == MOST_BIDS {
        return Ok(());
    }
    let bid = bid_tree(alloc, line, imp_place, imp, price_place, price)?;
    bids.push(bid)?;
    Ok(())
}

/// The bid for an impression at a price.
fn bid_tree(
    alloc: Global,
    line: &PriceLine,
    imp_place: usize,
    imp: &Imp,
    price_place: usize,
    price: &Price,
) -> Result<Json, OutOfMemory>
    ensures { IfOk result (λ bid. tree_of bid ≡ bid_tree_of line.now imp_place imp.now price_place price.now) }
{
    let id = id_text(alloc, imp_place, price_place)?;
    let mut members = offer_members(alloc, id.as_str(), imp, price)?;
    push_notices(alloc, &mut members, line.base.as_str(), id.as_str())?;
    Ok(Json::Object(members))
}

/// The members of a bid that stand before its notices.
fn offer_members(
    alloc: Global,
    id: &str,
    imp: &Imp,
    price: &Price,
) -> Result<Vec<Member>, OutOfMemory>
    ensures { IfOk result (λ members. members_view members.items ≡ offer_members_of id.now imp.now price.now) }
{
    let mut members = Vec::with_capacity(alloc, 7)?;
    push_text(alloc, &mut members, "id", Text::of(alloc, id)?)?;
    push_text(
        alloc,
        &mut members,
        "impid",
        Text::of(alloc, imp.id.as_str())?,
    )?;
    push_number(alloc, &mut members, "price", price.price)?;
    push_text(
        alloc,
        &mut members,
        "cid",
        Text::of(alloc, price.cid.as_str())?,
    )?;
    Ok(members)
}

/// The answer with these bids.
fn answer_tree(alloc: Global, auction: &Id, seat: &Id, bids: Vec<Json>) -> Result<Json, OutOfMemory>
    ensures { IfOk result (λ answer. tree_of answer ≡ answer_tree_of auction.now seat.now (trees_of bids.items)) }
{
    let mut of_seat = Vec::with_capacity(alloc, 2)?;
    push_text(alloc, &mut of_seat, "seat", Text::of(alloc, seat.as_str())?)?;
    push_list(alloc, &mut of_seat, "bid", bids)?;
    let mut seats = Vec::with_capacity(alloc, 1)?;
    seats.push(Json::Object(of_seat))?;
    let mut members = Vec::with_capacity(alloc, 3)?;
    push_text(
        alloc,
        &mut members,
        "id",
        Text::of(alloc, auction.as_str())?,
    )?;
    push_list(alloc, &mut members, "seatbid", seats)?;
    push_text(alloc, &mut members, "cur", Text::of(alloc, "USD")?)?;
    Ok(Json::Object(members))
}
