//! The campaigns of a roster.
ghost use Rattle.std.specs.Prelude.{◌≡◌, ◌<◌, ◌==◌, ◌++◌, ◌∷◌, [], map, length, slice_get, false, IfOk, IfErr, OnOk, IfSome};
ghost use Rattle.std.specs.List.{list_any, position};
ghost use Rattle.std.specs.Option.{option_map_or};
ghost use Rattle.deal_floor.specs.Order.{IsOrder, IsFound, IsGap, pair_cmp, pair_at, place_at};
ghost use Rattle.deal_floor.specs.Pairs.{pair_of, has_pair as has_pair_by, is_campaign};
ghost use Rattle.deal_floor.specs.declared.campaign.TheConstants.{MOST_CAMPAIGNS};

use crate::campaign::Campaign;
use adx_units::OutOfMemory;
use std::alloc::Global;
use std::cmp::Ordering;
use std::marker::Model;

/// The campaigns of a roster in their order, with their places sorted by seat and cid. A contract sees a list of
/// campaigns.
#[derive(Debug, Drop)]
pub struct Campaigns {
    campaigns: Vec<Campaign>,
    order: Vec<u32>,
}

impl Model for Campaigns {
    ghost use Rattle.std.specs.Prelude.{List, map};
    ghost use Rattle.deal_floor.specs.Order.{IsOrder};
    ghost use Rattle.deal_floor.specs.Pairs.{pair_of};
    ghost use Rattle.deal_floor.specs.declared.campaign.Campaign.{Campaign};

    ghost Value = { List Campaign };

    ghost view = { λ c. c.campaigns.items };

    ghost invariant = { λ c. IsOrder (map pair_of c.campaigns.items) c.order.items };
}

impl Campaigns {
    /// No campaign.
    pub(crate) fn new(alloc: Global) -> Campaigns
        ensures { result ≡ [] }
    {
        Campaigns {
            campaigns: Vec::new(alloc),
            order: Vec::new(alloc),
        }
    }

    /// The campaigns in their order.
    pub fn as_slice(&self) -> &[Campaign]
        ensures { result.now ≡ self.now }
    {
        self.campaigns.as_slice()
    }

    /// How many campaigns there are.
    pub fn len(&self) -> usize
        ensures { result ≡ length self.now }
    {
        self.campaigns.len()
    }

    /// Whether a campaign has that seat and cid.
    pub fn has_pair(&self, seat: &str, cid: &str) -> bool
        ensures { result ≡ list_any (has_pair_by seat.now cid.now) self.now }
    {
        has_pair_in(&self.campaigns, &self.order, seat, cid)
    }

    /// The place of the bidder's campaign with that seat and cid, from 0. None exactly where there is none.
    pub fn place_of(&self, bidder: u32, seat: &str, cid: &str) -> Option<usize>
        ensures value { result ≡ position (is_campaign bidder seat.now cid.now) self.now }
        ensures below { IfSome result (λ place. place < length self.now) }
    {
        place_in(&self.campaigns, &self.order, bidder, seat, cid)
    }

    /// The place of the campaign with that seat and cid, from 0. None exactly where there is none.
    pub fn place_of_pair(&self, seat: &str, cid: &str) -> Option<usize>
        ensures value { result ≡ position (has_pair_by seat.now cid.now) self.now }
        ensures below { IfSome result (λ place. place < length self.now) }
    {
        place_of_pair_in(&self.campaigns, &self.order, seat, cid)
    }

    /// Adds a campaign behind the others.
    pub(crate) fn push(&mut self, campaign: Campaign) -> Result<(), OutOfMemory>
        requires room { length self.old < MOST_CAMPAIGNS }
        requires new { list_any (has_pair_by campaign.seat campaign.cid) self.old ≡ false }
        ensures { OnOk result (self.new ≡ self.old ++ campaign ∷ []) }
    {
        let place = self.campaigns.len();
        let at = gap_for(&self.campaigns, &self.order, &campaign);
        self.campaigns.push(campaign)?;
        if let Err(refused) = self.order.insert(at, place as u32) {
            self.campaigns.truncate(place);
            return Err(OutOfMemory::from(refused));
        }
        Ok(())
    }
}

/// Where the pair's place stands in the order, or where it would go.
fn search(campaigns: &[Campaign], order: &[u32], seat: &str, cid: &str) -> Result<usize, usize>
    requires sorted { IsOrder (map pair_of campaigns.now) order.now }
    ensures found { IfOk result (IsFound (map pair_of campaigns.now) order.now (seat.now, cid.now)) }
    ensures absent { IfErr result (IsGap (map pair_of campaigns.now) order.now (seat.now, cid.now)) }
{
    order.binary_search_by(|place| compared(campaigns, *place, seat, cid))
}

/// Whether a campaign has that pair.
fn has_pair_in(campaigns: &[Campaign], order: &[u32], seat: &str, cid: &str) -> bool
    requires sorted { IsOrder (map pair_of campaigns.now) order.now }
    ensures { result ≡ list_any (has_pair_by seat.now cid.now) campaigns.now }
{
    match search(campaigns, order, seat, cid) {
        Ok(_at) => true,
        Err(_at) => false,
    }
}

/// The place of the campaign with that pair. None exactly where there is none.
fn place_of_pair_in(campaigns: &[Campaign], order: &[u32], seat: &str, cid: &str) -> Option<usize>
    requires sorted { IsOrder (map pair_of campaigns.now) order.now }
    ensures value { result ≡ position (has_pair_by seat.now cid.now) campaigns.now }
    ensures below { IfSome result (λ place. place < length campaigns.now) }
{
    match search(campaigns, order, seat, cid) {
        Ok(at) => Some(read(order, at)),
        Err(_at) => None,
    }
}

/// The place of the bidder's campaign with that pair. None exactly where there is none.
fn place_in(
    campaigns: &[Campaign],
    order: &[u32],
    bidder: u32,
    seat: &str,
    cid: &str,
) -> Option<usize>
    requires sorted { IsOrder (map pair_of campaigns.now) order.now }
    ensures value { result ≡ position (is_campaign bidder seat.now cid.now) campaigns.now }
    ensures below { IfSome result (λ place. place < length campaigns.now) }
{
    let at = match search(campaigns, order, seat, cid) {
        Ok(at) => at,
        Err(_at) => return None,
    };
    let place = read(order, at);
    if is_of_bidder(campaigns, place, bidder) {
        Some(place)
    } else {
        None
    }
}

/// The place that stands there in the order.
fn read(order: &[u32], at: usize) -> usize
    requires { at < length order.now }
    ensures { result ≡ place_at order.now at }
{
    order[at] as usize
}

/// Whether the campaign at a place is that bidder's.
fn is_of_bidder(campaigns: &[Campaign], place: usize, bidder: u32) -> bool
    ensures { result ≡ option_map_or (λ c. c.bidder == bidder) (slice_get campaigns.now place) false }
{
    match campaigns.get(place) {
        Some(campaign) => campaign.bidder == bidder,
        None => false,
    }
}

/// Where the place of a new campaign goes in the order.
fn gap_for(campaigns: &[Campaign], order: &[u32], campaign: &Campaign) -> usize
    requires sorted { IsOrder (map pair_of campaigns.now) order.now }
    requires new { list_any (has_pair_by campaign.now.seat campaign.now.cid) campaigns.now ≡ false }
    ensures { IsGap (map pair_of campaigns.now) order.now (pair_of campaign.now) result }
{
    match search(
        campaigns,
        order,
        campaign.seat.as_str(),
        campaign.cid.as_str(),
    ) {
        Ok(_at) => unreachable!(),
        Err(at) => at,
    }
}

/// How the pair of the campaign at a place compares with another.
fn compared(campaigns: &[Campaign], place: u32, seat: &str, cid: &str) -> Ordering
    ensures { result ≡ pair_cmp (pair_at (map pair_of campaigns.now) place) (seat.now, cid.now) }
{
    let (this_seat, this_cid) = match campaigns.get(place as usize) {
        Some(campaign) => (campaign.seat.as_str(), campaign.cid.as_str()),
        None => ("", ""),
    };
    match this_seat.cmp(seat) {
        Ordering::Equal => this_cid.cmp(cid),
        unequal => unequal,
    }
}
