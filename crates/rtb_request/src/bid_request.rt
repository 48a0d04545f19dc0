//! A request for bids, as it is read.
ghost use Rattle.std.specs.Prelude.{◌≡◌, ◌≤◌, map, length, true};
ghost use Rattle.rtb_request.specs.declared.bid_request.TheConstants.{MOST_IMPS};
ghost use Rattle.rtb_request.specs.Distinct.{all_distinct};

use crate::imp::Imp;
use adx_units::{Id, Sequence, Text};

/// The most impressions of a request.
pub const MOST_IMPS: usize = 16;

/// What an exchange reads of a request for bids (OpenRTB 2.6, section 3.2.1, BidRequest).
#[derive(Debug, Drop)]
pub struct BidRequest {
    /// The auction's id.
    pub id: Id,
    /// 1 to 16 impressions, each with an id of its own.
    pub imps: Sequence<Imp>,
    /// The seats that may bid; empty: all.
    pub wseat: Sequence<Text>,
    /// The seats that may not bid.
    pub bseat: Sequence<Text>,
    /// The categories that are blocked.
    pub bcat: Sequence<Text>,
    /// The domains of the advertisers that are blocked.
    pub badv: Sequence<Text>,
    /// SHA-256 (FIPS 180-4) of the compact spelling of the request.
    pub digest: [u8; 32],
    pub ghost some_imp: { 1 ≤ length imps },
    pub ghost few_imps: { length imps ≤ MOST_IMPS },
    pub ghost distinct: { all_distinct (map (λ i. i.id) imps) ≡ true },
}
