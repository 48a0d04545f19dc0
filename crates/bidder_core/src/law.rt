//! A law of the ids of bids.
ghost use Rattle.std.specs.Prelude.{◌≡◌, ℕ, ◌<◌, ◌≤◌, true};
ghost use Rattle.rtb_request.specs.declared.bid_request.TheConstants.{MOST_IMPS};
ghost use Rattle.bidder_core.specs.BidIds.{bid_id, is_made, price_in};
ghost use Rattle.bidder_core.specs.declared.price_line.TheConstants.{MOST_PRICES};

/// The id that a bidder gives a bid is one that it makes, and names the bid's price.
pub fn ids_are_read_back()
    ensures made { (prices imp price : ℕ) → prices ≤ MOST_PRICES → imp < MOST_IMPS → price < prices → is_made prices (bid_id imp price) ≡ true }
    ensures price { (imp price : ℕ) → imp < MOST_IMPS → price < MOST_PRICES → price_in (bid_id imp price) ≡ price }
{}
