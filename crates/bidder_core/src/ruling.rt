//! What becomes of a notice at a bidder.
ghost use Rattle.std.specs.Prelude.{◌≡◌};
ghost use Rattle.bidder_core.specs.Ledger.{known_ruling as known_ruling_by};

use notice_book::{End, Ruling};

/// What becomes of a notice that a bidder is told.
#[derive(Clone, Copy, Debug, PartialEq, Eq)]
pub enum BidderRuling {
    /// It is new and counts.
    Counted,
    /// It came before and changes nothing.
    Repeat,
    /// It comes too late: the award has this end.
    Conflict(End),
    /// The bidder makes no bid with such an id.
    Unknown,
}

/// The ruling on a notice of a bid that the bidder makes.
pub(crate) fn known_ruling(ruling: Ruling) -> BidderRuling
    ensures { result ≡ known_ruling_by ruling }
{
    match ruling {
        Ruling::Counted => BidderRuling::Counted,
        Ruling::Repeat => BidderRuling::Repeat,
        Ruling::Conflict(end) => BidderRuling::Conflict(end),
    }
}
