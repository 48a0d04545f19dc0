//! Why a bid is refused.
ghost use Rattle.std.specs.Prelude.{◌≡◌};
ghost use Rattle.deal_floor.specs.Reasons.{number_of};

/// Why a bid is refused: the first rule that fails. Numbers are OpenRTB 2.6's loss reason codes where one is near, and
/// this project's own where none is.
#[derive(Clone, Copy, Debug, PartialEq, Eq)]
pub enum Reason {
    /// The bid can't be sold: it isn't whole, has no price, is for no impression that is sold or of no campaign, has
    /// too much text, or wants several bids to win together.
    NotEligible,
    /// The request doesn't let the seat bid.
    SeatNotAllowed,
    /// No deal where one is needed, or one that isn't the impression's or isn't open to the bid.
    DealNotEligible,
    /// Below the impression's floor.
    BelowFloor,
    /// Below the deal's floor.
    BelowDealFloor,
    /// An advertiser is blocked.
    BlockedAdvertiser,
    /// A category is blocked.
    BlockedCategory,
}

impl Reason {
    /// The reason's number, which a refused bid's offer has.
    pub fn number(self) -> u16
        ensures { result ≡ number_of self }
    {
        match self {
            Reason::NotEligible => 3,
            Reason::SeatNotAllowed => 104,
            Reason::DealNotEligible => 4,
            Reason::BelowFloor => 100,
            Reason::BelowDealFloor => 101,
            Reason::BlockedAdvertiser => 205,
            Reason::BlockedCategory => 209,
        }
    }
}
