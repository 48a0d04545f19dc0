//! The campaigns of a list, or the first fault of any of them.
ghost use Rattle.std.specs.Prelude.{◌≡◌, ◌≤◌, ◌<◌, [], map, length, nat_lt, Some, true, false, IfOk, IfSome};
ghost use Rattle.std.specs.List.{AllZip, list_any, position};
ghost use Rattle.adx_json.specs.View.{tree_of, trees_of};
ghost use Rattle.adx_json.specs.Rows.{Answers, Says, first_among, first_fault};
ghost use Rattle.deal_floor.specs.Faults.{lacks_memory};
ghost use Rattle.deal_floor.specs.Forms.{place_in as place_by};
ghost use Rattle.deal_floor.specs.Pairs.{pair_of, has_pair as has_pair_by, is_pair_among, all_pairs_distinct, have_bidders};
ghost use Rattle.deal_floor.specs.Rosters.{campaign_rows, pair_in};
ghost use Rattle.deal_floor.specs.Reading.{given, names_of, place_has_name};
ghost use Rattle.deal_floor.specs.declared.fault.RosterFault.TheVariants.{Repeated};
ghost use Rattle.deal_floor.specs.declared.campaign.TheConstants.{MOST_CAMPAIGNS};
ghost use Rattle.deal_floor.specs.declared.place.TheConstants.{MOST_BIDDERS};

use crate::campaign::Campaign;
use crate::campaigns::Campaigns;
use crate::fault::{Field, RosterFault, bad_field};
use crate::place::Place;
use crate::value::{budget_in, id_in};
use adx_json::{Json, find_members, text_in};
use adx_units::{Id, Text};
use std::alloc::Global;

/// The campaigns of a list, or the first fault of any of them.
pub(crate) fn campaigns_of(
    alloc: Global,
    bidders: &[Place],
    trees: &[Json],
) -> Result<Campaigns, RosterFault>
    requires bidders { length bidders.now ≤ MOST_BIDDERS }
    requires few { length trees.now ≤ MOST_CAMPAIGNS }
    ensures gives { Answers lacks_memory
        (first_among (λ before. campaign_rows (names_of bidders.now) (map (λ t. pair_in (Some t)) before)) [] (trees_of trees.now))
        (λ cs. AllZip (λ t c. Says (campaign_rows (names_of bidders.now) []) (Some t) c) (trees_of trees.now) cs) result }
    ensures distinct { IfOk result (λ cs. all_pairs_distinct (map pair_of cs) ≡ true) }
    ensures known { IfOk result (λ cs. have_bidders (length bidders.now) cs ≡ true) }
    ensures count { IfOk result (λ cs. length cs ≡ length trees.now) }
{
    let mut campaigns = Campaigns::new(alloc);
    for tree in trees {
        let campaign = match campaign_of(alloc, bidders, &campaigns, tree) {
            Ok(campaign) => campaign,
            Err(fault) => return Err(fault),
        };
        campaigns.push(campaign)?;
    }
    Ok(campaigns)
}

/// A campaign after others, or its first fault.
fn campaign_of(
    alloc: Global,
    bidders: &[Place],
    others: &Campaigns,
    tree: &Json,
) -> Result<Campaign, RosterFault>
    requires bidders { length bidders.now ≤ MOST_BIDDERS }
    requires room { length others.now < MOST_CAMPAIGNS }
    ensures gives { Answers lacks_memory (first_fault (campaign_rows (names_of bidders.now) (map pair_of others.now)) (Some (tree_of tree.now)))
        (Says (campaign_rows (names_of bidders.now) []) (Some (tree_of tree.now))) result }
    ensures new { IfOk result (λ c. list_any (has_pair_by c.seat c.cid) others.now ≡ false) }
    ensures known { IfOk result (λ c. nat_lt c.bidder (length bidders.now) ≡ true) }
{
    let mut found = [None; 4];
    find_members(Some(tree), &["bidder", "seat", "cid", "budget"], &mut found);
    let [bidder, seat, cid, budget] = found;
    let Some(bidder) = place_in(bidders, bidder) else {
        return Err(bad_field(Field::CampaignBidder));
    };
    let Some(seat) = id_in(alloc, seat)? else {
        return Err(bad_field(Field::CampaignSeat));
    };
    let Some(cid) = id_in(alloc, cid)? else {
        return Err(bad_field(Field::CampaignCid));
    };
    let Some(budget) = budget_in(budget) else {
        return Err(bad_field(Field::CampaignBudget));
    };
    if has_pair(others, &seat, &cid) {
        return Err(repeated(others));
    }
    Ok(Campaign {
        bidder: bidder as u32,
        seat,
        cid,
        budget,
    })
}

/// Whether one of the campaigns has this seat and this cid.
#[tactic(auto, using(crate::proofs::CampaignSteps::among_campaigns))]
fn has_pair(campaigns: &Campaigns, seat: &Id, cid: &Id) -> bool
    ensures among { result ≡ is_pair_among (map pair_of campaigns.now) (seat.now, cid.now) }
    ensures listed { result ≡ list_any (has_pair_by seat.now cid.now) campaigns.now }
{
    campaigns.has_pair(seat.as_str(), cid.as_str())
}

/// The place of the bidder whose name a value is. None exactly where it is no bidder's name.
fn place_in(bidders: &[Place], value: Option<&Json>) -> Option<usize>
    ensures place { result ≡ place_by (names_of bidders.now) (given value.entry) }
    ensures within { IfSome result (λ i. i < length bidders.now) }
{
    match text_in(value) {
        Some(name) => place_of_name(bidders, name),
        None => None,
    }
}

fn place_of_name(bidders: &[Place], name: &Text) -> Option<usize>
    ensures place { result ≡ position (place_has_name name.now) bidders.now }
    ensures within { IfSome result (λ i. i < length bidders.now) }
{
    bidders
        .iter()
        .position(|place| place.name.as_bytes() == name.as_bytes())
}

/// The fault of a campaign with the seat and cid of one of these.
#[tactic(auto, using(crate::proofs::CampaignSteps::pairs_length))]
fn repeated(campaigns: &Campaigns) -> RosterFault
    requires few { length campaigns.now < MOST_CAMPAIGNS }
    ensures { result ≡ Repeated (length (map pair_of campaigns.now)) }
{
    RosterFault::Repeated {
        index: campaigns.len() as u32,
    }
}
