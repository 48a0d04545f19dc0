//! Why a tree is no roster's.
ghost use Rattle.std.specs.Prelude.{◌≡◌};
ghost use Rattle.deal_floor.specs.Faults.{name_of};
ghost use Rattle.deal_floor.specs.declared.fault.RosterFault.TheVariants.{BadField};

use adx_units::OutOfMemory;
use std::alloc::AllocFailed;

/// A member of a roster, or of a bidder's price line, that a test is about.
#[derive(Clone, Copy, Debug, PartialEq, Eq)]
pub enum Field {
    Day,
    Base,
    Now,
    Bidders,
    BidderName,
    BidderHost,
    BidderPort,
    BidderPath,
    Campaigns,
    CampaignBidder,
    CampaignSeat,
    CampaignCid,
    CampaignBudget,
    Replies,
    Limits,
    LimitsAuctions,
    LimitsBids,
    LimitsText,
    Seat,
    Prices,
    PriceCid,
    PricePrice,
}

impl Field {
    /// The member's name behind that of its object, but for a member of the line's own object.
    pub fn name(self) -> &'static str
        ensures { result.now ≡ name_of self }
    {
        match self {
            Field::Day => "day",
            Field::Base => "base",
            Field::Now => "now",
            Field::Bidders => "bidders",
            Field::BidderName => "bidder.name",
            Field::BidderHost => "bidder.host",
            Field::BidderPort => "bidder.port",
            Field::BidderPath => "bidder.path",
            Field::Campaigns => "campaigns",
            Field::CampaignBidder => "campaign.bidder",
            Field::CampaignSeat => "campaign.seat",
            Field::CampaignCid => "campaign.cid",
            Field::CampaignBudget => "campaign.budget",
            Field::Replies => "replies",
            Field::Limits => "limits",
            Field::LimitsAuctions => "limits.auctions",
            Field::LimitsBids => "limits.bids",
            Field::LimitsText => "limits.text",
            Field::Seat => "seat",
            Field::Prices => "prices",
            Field::PriceCid => "price.cid",
            Field::PricePrice => "price.price",
        }
    }
}

/// Why a tree is no roster's: the first test that fails, or want of memory.
#[derive(Clone, Copy, Debug, PartialEq, Eq)]
pub enum RosterFault {
    /// A member that is absent or isn't of its form.
    BadField { field: Field },
    /// A bidder with an earlier bidder's name, or a campaign with an earlier one's seat and cid; counted from 0.
    Repeated { index: u32 },
    /// A list that is longer than allowed.
    TooMany,
    /// Memory was refused.
    OutOfMemory,
}

/// The fault of a member that isn't of its form.
pub(crate) fn bad_field(field: Field) -> RosterFault
    ensures { result ≡ BadField field }
{
    RosterFault::BadField { field }
}

impl From<OutOfMemory> for RosterFault {
    ghost use Rattle.std.specs.Prelude.{◌≡◌};
    ghost use Rattle.deal_floor.specs.declared.fault.RosterFault.TheVariants.{OutOfMemory};

    ghost from_gives = { λ _ e. e ≡ OutOfMemory };

    fn from(_refused: OutOfMemory) -> RosterFault {
        RosterFault::OutOfMemory
    }
}

impl<T: Drop> From<AllocFailed<T>> for RosterFault {
    ghost use Rattle.std.specs.Prelude.{◌≡◌};
    ghost use Rattle.deal_floor.specs.declared.fault.RosterFault.TheVariants.{OutOfMemory};

    ghost from_gives = { λ _ e. e ≡ OutOfMemory };

    fn from(_refused: AllocFailed<T>) -> RosterFault {
        RosterFault::OutOfMemory
    }
}
