//! A bid as an exchange sees it.
ghost use Rattle.std.specs.Prelude.{◌≡◌, ◌≤◌, true};
ghost use Rattle.rtb_response.specs.Prices.{is_in_range};
ghost use Rattle.rtb_response.specs.declared.bid.TheConstants.{MOST_SECONDS};

use adx_units::{PriceFault, Sequence, Text, Units};

/// The most bids of an answer, over all its seats.
pub const MOST_BIDS: usize = 64;

/// The most seconds between an auction and a bill that a bid can ask for, 2^31 - 1.
pub const MOST_SECONDS: u64 = 2_147_483_647;

/// One bid (OpenRTB 2.6, section 4.2.3, Bid). A text that is absent is empty.
#[derive(Debug, Drop)]
pub struct Bid {
    /// Whether it is an object with texts `id` and `impid` and a member `price`. A bid that isn't whole is kept, and
    /// refused later.
    pub whole: bool,
    /// The bidder's id of the bid.
    pub id: Text,
    /// The id of the impression that the bid is for.
    pub impid: Text,
    /// The price, 1 to 10^12 units of 10^-6 CPM dollar, or why it is none. A bid with a fault is kept, and refused
    /// later.
    pub price: Result<Units, PriceFault>,
    /// The win notice URL.
    pub nurl: Text,
    /// The billing notice URL.
    pub burl: Text,
    /// The loss notice URL.
    pub lurl: Text,
    /// The id of the ad.
    pub adid: Text,
    /// The advertisers' domains.
    pub adomain: Sequence<Text>,
    /// The id of the campaign.
    pub cid: Text,
    /// The categories of the creative.
    pub cat: Sequence<Text>,
    /// The id of the deal that the bid names, which may be empty; None where it names none.
    pub dealid: Option<Text>,
    /// Seconds from the auction to the bill, below 2^31; 0 where none are given.
    pub exp: u32,
    /// The compact spelling of the object of the members that are passed on: all but `id`, `impid`, `price`, `nurl`,
    /// `burl` and `lurl`. Empty where the bid is no object.
    pub body: Text,
    pub ghost price_in_range: { is_in_range price ≡ true },
    pub ghost exp_in_range: { exp ≤ MOST_SECONDS },
}
