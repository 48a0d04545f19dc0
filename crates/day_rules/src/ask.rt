//! Asks: a request for bids with all that was bid, and the texts of bids that a day keeps.
use adx_units::{Id, Offer, Sequence, Text};

/// The texts of one bid that the day keeps.
#[derive(Debug, Drop)]
pub struct Kept {
    /// The place of the bid in the offers of its ask.
    pub bid: u32,
    /// The buyer's seat (OpenRTB 2.6, SeatBid, seat).
    pub seat: Text,
    /// The answer's own id (OpenRTB 2.6, BidResponse, bidid); may be empty.
    pub bidid: Text,
    /// The ad's id (OpenRTB 2.6, Bid, adid); may be empty.
    pub adid: Text,
    /// Where its win is reported (OpenRTB 2.6, Bid, nurl); may be empty.
    pub nurl: Text,
    /// Where its bill is reported (OpenRTB 2.6, Bid, burl); may be empty.
    pub burl: Text,
    /// Where its loss is reported (OpenRTB 2.6, Bid, lurl); may be empty.
    pub lurl: Text,
    /// The members of the bid that are passed on, as compact JSON.
    pub body: Text,
}

/// A request for bids with all that was bid: as it comes, or as the day settled it.
#[derive(Debug, Drop)]
pub struct Ask {
    /// The request's id (OpenRTB 2.6, BidRequest).
    pub auction: Id,
    /// SHA-256 of the request's compact JSON.
    pub digest: [u8; 32],
    /// Seconds; settled, the greatest of the ask's own and those of the history.
    pub now: u64,
    /// Settled: the number of the ask's first award.
    pub first: u32,
    /// The ids of the impressions (OpenRTB 2.6, Imp), in the request's order.
    pub imps: Sequence<Id>,
    /// All bids in the order of bidders, seats and bids, refused ones among them.
    pub offers: Sequence<Offer>,
    /// Texts of bids, in the order of the bids.
    pub kept: Sequence<Kept>,
}
