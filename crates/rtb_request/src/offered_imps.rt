//! What a request offers for sale, as a bidder reads it.
ghost use Rattle.std.specs.Prelude.{◌≡◌, ◌≤◌, map, length, true};
ghost use Rattle.rtb_request.specs.declared.bid_request.TheConstants.{MOST_IMPS};
ghost use Rattle.rtb_request.specs.Distinct.{all_distinct};

use crate::imp::Imp;
use adx_units::{Id, Sequence};

/// What a bidder reads of a request for bids (OpenRTB 2.6, section 3.2.1, BidRequest): the auction and the impressions
/// that it offers for sale.
#[derive(Debug, Drop)]
pub struct OfferedImps {
    /// The auction's id.
    pub id: Id,
    /// 1 to 16 impressions, each with an id of its own.
    pub imps: Sequence<Imp>,
    pub ghost some_imp: { 1 ≤ length imps },
    pub ghost few_imps: { length imps ≤ MOST_IMPS },
    pub ghost distinct: { all_distinct (map (λ i. i.id) imps) ≡ true },
}
