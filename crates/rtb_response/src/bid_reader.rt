//! What a bid's tree says.
ghost use Rattle.std.specs.Prelude.{◌≡◌, ◌≤◌, option_map, codes, Some, IfOk, true};
ghost use Rattle.adx_json.specs.View.{tree_of};
ghost use Rattle.adx_json.specs.Values.{given as given_in, text_in as text_by, text_or_empty as text_or_empty_by};
ghost use Rattle.rtb_response.specs.Prices.{price_in as price_by, is_in_range};
ghost use Rattle.adx_json.specs.Rows.{Says};
ghost use Rattle.rtb_response.specs.Bids.{bid_rows};

use crate::bid::{Bid, MOST_SECONDS};
use crate::bid_names::{KNOWN_NAMES, keep};
use crate::body::body_of;
use adx_json::{Json, given, members_in, number_in, text_in, texts_in, whole_or_zero};
use adx_units::{OutOfMemory, PriceFault, Text, Units, price_of};
use std::alloc::Global;

/// The members of a bid that are read, as they lie in its tree.
#[derive(Clone, Copy)]
struct BidMembers<'a> {
    id: Option<&'a Json>,
    impid: Option<&'a Json>,
    price: Option<&'a Json>,
    nurl: Option<&'a Json>,
    burl: Option<&'a Json>,
    lurl: Option<&'a Json>,
    adid: Option<&'a Json>,
    adomain: Option<&'a Json>,
    cid: Option<&'a Json>,
    cat: Option<&'a Json>,
    dealid: Option<&'a Json>,
    exp: Option<&'a Json>,
}

fn bid_members(tree: &Json) -> BidMembers<'_>
    ensures id { option_map (λ t. tree_of t.now) result.id ≡ given_in (codes "id") (tree_of tree.now) }
    ensures impid { option_map (λ t. tree_of t.now) result.impid ≡ given_in (codes "impid") (tree_of tree.now) }
    ensures price { option_map (λ t. tree_of t.now) result.price ≡ given_in (codes "price") (tree_of tree.now) }
    ensures nurl { option_map (λ t. tree_of t.now) result.nurl ≡ given_in (codes "nurl") (tree_of tree.now) }
    ensures burl { option_map (λ t. tree_of t.now) result.burl ≡ given_in (codes "burl") (tree_of tree.now) }
    ensures lurl { option_map (λ t. tree_of t.now) result.lurl ≡ given_in (codes "lurl") (tree_of tree.now) }
    ensures adid { option_map (λ t. tree_of t.now) result.adid ≡ given_in (codes "adid") (tree_of tree.now) }
    ensures adomain { option_map (λ t. tree_of t.now) result.adomain ≡ given_in (codes "adomain") (tree_of tree.now) }
    ensures cid { option_map (λ t. tree_of t.now) result.cid ≡ given_in (codes "cid") (tree_of tree.now) }
    ensures cat { option_map (λ t. tree_of t.now) result.cat ≡ given_in (codes "cat") (tree_of tree.now) }
    ensures dealid { option_map (λ t. tree_of t.now) result.dealid ≡ given_in (codes "dealid") (tree_of tree.now) }
    ensures exp { option_map (λ t. tree_of t.now) result.exp ≡ given_in (codes "exp") (tree_of tree.now) }
{
    let mut found = [None; KNOWN_NAMES];
    for member in members_in(tree) {
        keep(&mut found, member);
    }
    let [
        id,
        impid,
        price,
        nurl,
        burl,
        lurl,
        adid,
        adomain,
        cid,
        cat,
        dealid,
        exp,
    ] = found;
    BidMembers {
        id: given(id),
        impid: given(impid),
        price: given(price),
        nurl: given(nurl),
        burl: given(burl),
        lurl: given(lurl),
        adid: given(adid),
        adomain: given(adomain),
        cid: given(cid),
        cat: given(cat),
        dealid: given(dealid),
        exp: given(exp),
    }
}

/// A copy of the text that a value is; empty where it is absent or no text.
pub(crate) fn text_or_empty(alloc: Global, value: Option<&Json>) -> Result<Text, OutOfMemory>
    ensures { IfOk result (λ t. t ≡ text_or_empty_by (option_map (λ t. tree_of t.now) value.entry)) }
{
    match text_in(value) {
        Some(text) => text.copy(alloc),
        None => Text::of(alloc, ""),
    }
}

/// A copy of the text that a value is, if it is one.
fn named_text(alloc: Global, value: Option<&Json>) -> Result<Option<Text>, OutOfMemory>
    ensures { IfOk result (λ t. t ≡ text_by (option_map (λ t. tree_of t.now) value.entry)) }
{
    match text_in(value) {
        Some(text) => Ok(Some(text.copy(alloc)?)),
        None => Ok(None),
    }
}

/// The price that a value is, or why it is none.
fn price_in(value: Option<&Json>) -> Result<Units, PriceFault>
    ensures value { result ≡ price_by (option_map (λ t. tree_of t.now) value.entry) }
    ensures range { is_in_range result ≡ true }
{
    match number_in(value) {
        Some(number) => price_of(number.as_bytes()),
        None => Err(PriceFault::NotNumber),
    }
}

/// What a bid says by its members. Its body is made in `scratch`, which serves again.
pub(crate) fn bid_of(alloc: Global, scratch: &mut String, tree: &Json) -> Result<Bid, OutOfMemory>
    ensures { IfOk result (λ b. Says bid_rows (Some (tree_of tree.now)) b) }
{
    let found = bid_members(tree);
    let whole = text_in(found.id).is_some()
        && text_in(found.impid).is_some()
        && found.price.is_some();
    Ok(Bid {
        whole,
        id: text_or_empty(alloc, found.id)?,
        impid: text_or_empty(alloc, found.impid)?,
        price: price_in(found.price),
        nurl: text_or_empty(alloc, found.nurl)?,
        burl: text_or_empty(alloc, found.burl)?,
        lurl: text_or_empty(alloc, found.lurl)?,
        adid: text_or_empty(alloc, found.adid)?,
        adomain: texts_in(alloc, found.adomain)?,
        cid: text_or_empty(alloc, found.cid)?,
        cat: texts_in(alloc, found.cat)?,
        dealid: named_text(alloc, found.dealid)?,
        exp: whole_or_zero(found.exp, MOST_SECONDS) as u32,
        body: body_of(alloc, scratch, tree)?,
    })
}
