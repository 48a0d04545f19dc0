//! The ids of a bidder's bids.
ghost use Rattle.std.specs.Prelude.{◌≡◌, ◌<◌, IfOk, IfSome, IfNone, true, false};
ghost use Rattle.adx_units.specs.Number.{digits_value};
ghost use Rattle.bidder_core.specs.BidIds.{bid_id, is_below, is_made, price_in};

use adx_units::{OutOfMemory, Text, whole_up_to};
use formats::push_number;
use rtb_request::MOST_IMPS;
use std::alloc::Global;

/// The whole number below a bound that a text is. None exactly where it is none.
fn whole_below(text: &str, bound: usize) -> Option<usize>
    ensures some { IfSome result (λ _. is_below bound text.now ≡ true) }
    ensures value { IfSome result (λ n. n ≡ digits_value text.now) }
    ensures below { IfSome result (λ n. n < bound) }
    ensures none { IfNone result (is_below bound text.now ≡ false) }
{
    let number = whole_up_to(text.as_bytes(), u64::MAX)?;
    if number >= bound as u64 {
        return None;
    }
    Some(number as usize)
}

/// The place of the price that an id names. None exactly where a bidder with so many prices makes no such id.
pub(crate) fn price_place(bid: &str, prices: usize) -> Option<usize>
    ensures some { IfSome result (λ _. is_made prices bid.now ≡ true) }
    ensures value { IfSome result (λ place. place ≡ price_in bid.now) }
    ensures below { IfSome result (λ place. place < prices) }
    ensures none { IfNone result (is_made prices bid.now ≡ false) }
{
    let (imp, price) = bid.split_once('-')?;
    let _imp = whole_below(imp, MOST_IMPS)?;
    whole_below(price, prices)
}

/// The id of the bid for an impression at a price, by their places.
pub(crate) fn id_text(alloc: Global, imp: usize, price: usize) -> Result<Text, OutOfMemory>
    ensures { IfOk result (λ id. id ≡ bid_id imp price) }
{
    let mut id = String::new(alloc);
    push_number(&mut id, imp as u64)?;
    id.push_str("-")?;
    push_number(&mut id, price as u64)?;
    Ok(Text::from(id))
}
