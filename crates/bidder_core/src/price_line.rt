//! The price line of a bidder: its seat, its base and its prices.
ghost use Rattle.std.specs.Prelude.{◌≡◌, ◌≤◌, length, map, true};
ghost use Rattle.adx_units.specs.declared.price.TheConstants.{PRICE_LIMIT};
ghost use Rattle.rtb_request.specs.Distinct.{all_distinct};
ghost use Rattle.bidder_core.specs.Forms.{is_plain_base};
ghost use Rattle.bidder_core.specs.declared.price_line.TheConstants.{MOST_PRICES};

use adx_units::{Id, Sequence, Text, Units};

/// The most prices of a bidder.
pub const MOST_PRICES: usize = 64;

/// What a bidder bids for one of its campaigns.
#[derive(Debug, Drop)]
pub struct Price {
    /// The campaign.
    pub cid: Id,
    /// The price, in units of 10^-6 CPM dollar: 1 to 10^12.
    pub price: Units,
    pub ghost above_zero: { 1 ≤ price.0 },
    pub ghost in_range: { price.0 ≤ PRICE_LIMIT },
}

/// What a bidder bids with.
#[derive(Debug, Drop)]
pub struct PriceLine {
    /// The bidder's seat.
    pub seat: Id,
    /// Where its notices go, without a query or a fragment; `http://127.0.0.1` where none is given.
    pub base: Text,
    /// 1 to 64 prices, each for a campaign of its own.
    pub prices: Sequence<Price>,
    pub ghost plain_base: { is_plain_base base ≡ true },
    pub ghost some_price: { 1 ≤ length prices },
    pub ghost few_prices: { length prices ≤ MOST_PRICES },
    pub ghost distinct_cids: { all_distinct (map (λ p. p.cid) prices) ≡ true },
}
