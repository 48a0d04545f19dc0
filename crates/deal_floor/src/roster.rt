//! The roster of a day.
ghost use Rattle.std.specs.Prelude.{◌≡◌, ◌≤◌, length, map, true};
ghost use Rattle.rtb_request.specs.Distinct.{all_distinct};
ghost use Rattle.deal_floor.specs.Forms.{is_date};
ghost use Rattle.deal_floor.specs.Pairs.{all_pairs_distinct, pair_of, have_bidders};
ghost use Rattle.deal_floor.specs.declared.campaign.TheConstants.{MOST_CAMPAIGNS};
ghost use Rattle.deal_floor.specs.declared.place.TheConstants.{MOST_BIDDERS};
ghost use Rattle.deal_floor.specs.declared.roster.TheConstants.{MOST_NOW};

use crate::campaigns::Campaigns;
use crate::limits::Limits;
use crate::place::Place;
use adx_units::{Sequence, Text};

/// The greatest moment that a roster can give: fifteen digits.
pub const MOST_NOW: u64 = 999_999_999_999_999;

/// The roster of a day: who bids, what may be spent, and how much the day may take.
#[derive(Debug, Drop)]
pub struct Roster {
    /// The day, as `2025-03-01`.
    pub day: Text,
    /// Where notices go, `http://localhost` where none is given.
    pub base: Text,
    /// The moment that the day's clock tells, in seconds; 0 where none is given.
    pub now: u64,
    /// 1 to 16 bidders, each with a name of its own.
    pub bidders: Sequence<Place>,
    /// 1 to 1,024 campaigns, no two with the same seat and cid.
    pub campaigns: Campaigns,
    /// What bidders answer, for each of the first bidders a list of texts; a further bidder has none.
    pub replies: Sequence<Sequence<Text>>,
    /// How much the day may take.
    pub limits: Limits,
    /// SHA-256 (FIPS 180-4) of the compact spelling of the list of the trees of `day` and `campaigns`.
    pub digest: [u8; 32],
    pub ghost dated: { is_date day ≡ true },
    pub ghost now_in_range: { now ≤ MOST_NOW },
    pub ghost some_bidder: { 1 ≤ length bidders },
    pub ghost few_bidders: { length bidders ≤ MOST_BIDDERS },
    pub ghost distinct_names: { all_distinct (map (λ p. p.name) bidders) ≡ true },
    pub ghost some_campaign: { 1 ≤ length campaigns },
    pub ghost few_campaigns: { length campaigns ≤ MOST_CAMPAIGNS },
    pub ghost distinct_pairs: { all_pairs_distinct (map pair_of campaigns) ≡ true },
    pub ghost known_bidders: { have_bidders (length bidders) campaigns ≡ true },
    pub ghost few_replies: { length replies ≤ length bidders },
}
