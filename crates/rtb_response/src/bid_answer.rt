//! An answer's seats as an exchange sees them.
ghost use Rattle.std.specs.Prelude.{◌≤◌, length};
ghost use Rattle.std.specs.List.{sum_by};
ghost use Rattle.rtb_response.specs.declared.bid.TheConstants.{MOST_BIDS};

use crate::bid::Bid;
use adx_units::{Sequence, Text};

/// The bids of one seat (OpenRTB 2.6, section 4.2.2, SeatBid).
#[derive(Debug, Drop)]
pub struct SeatBid {
    /// The id of the bidder's seat; empty where none is given.
    pub seat: Text,
    /// Whether its bids win together or not at all: the number of `group` has the text `1`.
    pub all_or_none: bool,
    /// The bids in their order.
    pub bids: Sequence<Bid>,
}

/// What an exchange reads of a bidder's answer (OpenRTB 2.6, section 4.2.1, BidResponse).
#[derive(Debug, Drop)]
pub struct BidAnswer {
    /// The bidder's id of the answer; empty where none is given.
    pub bidid: Text,
    /// The seats in their order, with at most 64 bids together.
    pub seats: Sequence<SeatBid>,
    pub ghost few: { sum_by (λ s. length s.bids) seats ≤ MOST_BIDS },
}
