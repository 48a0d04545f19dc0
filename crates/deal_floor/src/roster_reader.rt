//! What a roster's tree says, or its first fault.
ghost use Rattle.std.specs.Prelude.{◌≡◌, ◌≤◌, ◌++◌, [], codes, map, length, Some, true, IfOk, OnOk, string_bytes};
ghost use Rattle.std.specs.List.{AllZip};
ghost use Rattle.std.specs.Option.{unwrap_or};
ghost use Rattle.adx_json.specs.Spelling.{spelling};
ghost use Rattle.adx_json.specs.View.{tree_of, trees_of};
ghost use Rattle.adx_json.specs.FoundMembers.{member_within};
ghost use Rattle.adx_json.specs.Rows.{Answers, Reads, Says};
ghost use Rattle.adx_json.specs.Tree.{null};
ghost use Rattle.adx_json.specs.Values.{items_in as items_by, text_or_empty};
ghost use Rattle.rtb_request.specs.Distinct.{all_distinct};
ghost use Rattle.deal_floor.specs.Faults.{lacks_memory};
ghost use Rattle.deal_floor.specs.Forms.{is_date, whole_or as whole_or_by};
ghost use Rattle.deal_floor.specs.Pairs.{pair_of, all_pairs_distinct, have_bidders};
ghost use Rattle.deal_floor.specs.Rosters.{bidder_rows, campaign_rows, roster_rows};
ghost use Rattle.deal_floor.specs.declared.campaign.TheConstants.{MOST_CAMPAIGNS};
ghost use Rattle.deal_floor.specs.declared.place.TheConstants.{MOST_BIDDERS};
ghost use Rattle.deal_floor.specs.declared.limits.TheConstants as most;
ghost use Rattle.deal_floor.specs.declared.roster.TheConstants.{MOST_NOW};
ghost use Rattle.deal_floor.specs.Reading.{HasParts, bidder_list_fault, campaign_list_fault, digest_by, given, head_fault, limits_fault, names_of, replies_fault};

use crate::bidder_reader::bidders_of;
use crate::campaign::MOST_CAMPAIGNS;
use crate::campaign_reader::campaigns_of;
use crate::campaigns::Campaigns;
use crate::fault::{Field, RosterFault, bad_field};
use crate::limits::{Limits, MOST_AUCTIONS, MOST_BIDS, MOST_TEXT};
use crate::members::{RosterMembers, roster_members};
use crate::place::{MOST_BIDDERS, Place};
use crate::replies::{are_replies, replies_of};
use crate::roster::{MOST_NOW, Roster};
use crate::value::{date_in, text_or, whole_or};
use adx_json::{
    Json, find_members, is_list_if_given, is_object_if_given, is_text_if_given, items_in,
    push_value,
};
use adx_units::{OutOfMemory, Sequence, Text};
use sha2::{Digest, Sha256};
use std::alloc::Global;

impl Roster {
    /// A roster, or its first fault. A member that is null is there and isn't of its form; members that no
    /// test names are passed over.
    pub fn of(alloc: Global, tree: &Json) -> Result<Roster, RosterFault>
        ensures { Reads lacks_memory roster_rows (tree_of tree.now) result }
    {
        let found = roster_members(tree);
        let head = match head_of(found.day, found.base, found.now) {
            Ok(head) => head,
            Err(fault) => return Err(fault),
        };
        let bidders = match bidders_in(alloc, found.bidders) {
            Ok(bidders) => bidders,
            Err(fault) => return Err(fault),
        };
        let campaigns = match campaigns_in(alloc, bidders.as_slice(), found.campaigns) {
            Ok(campaigns) => campaigns,
            Err(fault) => return Err(fault),
        };
        let reply_trees = match reply_trees_of(bidders.len(), found.replies) {
            Ok(trees) => trees,
            Err(fault) => return Err(fault),
        };
        let limits = match limits_in(found.limits) {
            Ok(limits) => limits,
            Err(fault) => return Err(fault),
        };
        let roster = roster_with(alloc, found, head, bidders, campaigns, reply_trees, limits)?;
        Ok(roster)
    }
}

/// The roster of these parts, with what isn't read yet of its members.
fn roster_with(
    alloc: Global,
    found: RosterMembers<'_>,
    head: Head<'_>,
    bidders: Sequence<Place>,
    campaigns: Campaigns,
    replies: &[Json],
    limits: Limits,
) -> Result<Roster, OutOfMemory>
    requires dated { is_date head.day.now ≡ true }
    requires now_in_range { head.now ≤ MOST_NOW }
    requires some_bidder { 1 ≤ length bidders }
    requires few_bidders { length bidders ≤ MOST_BIDDERS }
    requires distinct_names { all_distinct (names_of bidders) ≡ true }
    requires some_campaign { 1 ≤ length campaigns }
    requires few_campaigns { length campaigns ≤ MOST_CAMPAIGNS }
    requires distinct_pairs { all_pairs_distinct (map pair_of campaigns) ≡ true }
    requires known_bidders { have_bidders (length bidders) campaigns ≡ true }
    requires few_replies { length replies.now ≤ length bidders }
    ensures { IfOk result (λ r. HasParts r head.entry.day.now head.entry.now bidders campaigns (trees_of replies.now) limits
        (given found.entry.base) (given found.entry.day) (given found.entry.campaigns)) }
{
    Ok(Roster {
        day: head.day.copy(alloc)?,
        base: text_or(alloc, found.base, "http://localhost")?,
        now: head.now,
        bidders,
        campaigns,
        replies: replies_of(alloc, replies)?,
        limits,
        digest: digest_of(alloc, found.day, found.campaigns)?,
    })
}

/// The day and the moment of a roster.
#[derive(Clone, Copy)]
struct Head<'a> {
    day: &'a Text,
    now: u64,
}

/// The day and the moment of a roster, or the first fault of them and the base.
fn head_of<'a>(
    day: Option<&'a Json>,
    base: Option<&Json>,
    now: Option<&Json>,
) -> Result<Head<'a>, RosterFault>
    ensures gives { Answers lacks_memory (head_fault (given day.entry) (given base.entry) (given now.entry))
        (λ h. (h.day.now ≡ text_or_empty (given day.entry)) × (h.now ≡ whole_or_by 0 MOST_NOW (given now.entry))) result }
    ensures dated { IfOk result (λ h. is_date h.day.now ≡ true) }
    ensures small { IfOk result (λ h. h.now ≤ MOST_NOW) }
{
    let Some(day) = date_in(day) else {
        return Err(bad_field(Field::Day));
    };
    if !is_text_if_given(base) {
        return Err(bad_field(Field::Base));
    }
    let Some(now) = whole_or(now, MOST_NOW, 0) else {
        return Err(bad_field(Field::Now));
    };
    Ok(Head { day, now })
}

/// The trees of the replies to so many bidders, or the first fault of the list.
fn reply_trees_of(bidders: usize, value: Option<&Json>) -> Result<&[Json], RosterFault>
    ensures gives { Answers lacks_memory (replies_fault bidders (given value.entry))
        (λ ts. trees_of ts.now ≡ items_by (given value.entry)) result }
    ensures few { IfOk result (λ ts. length ts.now ≤ bidders) }
{
    if !is_list_if_given(value) {
        return Err(bad_field(Field::Replies));
    }
    let trees = items_in(value);
    if trees.len() > bidders {
        return Err(RosterFault::TooMany);
    }
    if !are_replies(trees) {
        return Err(bad_field(Field::Replies));
    }
    Ok(trees)
}

/// The bidders that a value is, or the first fault of the list.
fn bidders_in(alloc: Global, value: Option<&Json>) -> Result<Sequence<Place>, RosterFault>
    ensures gives { Answers lacks_memory (bidder_list_fault (given value.entry))
        (λ ps. AllZip (λ t p. Says (bidder_rows []) (Some t) p) (items_by (given value.entry)) ps) result }
    ensures distinct { IfOk result (λ ps. all_distinct (names_of ps) ≡ true) }
    ensures some { IfOk result (λ ps. 1 ≤ length ps) }
    ensures few { IfOk result (λ ps. length ps ≤ MOST_BIDDERS) }
{
    let trees = items_in(value);
    if trees.is_empty() {
        return Err(bad_field(Field::Bidders));
    }
    if trees.len() > MOST_BIDDERS {
        return Err(RosterFault::TooMany);
    }
    match bidders_of(alloc, trees) {
        Ok(bidders) => Ok(Sequence::from(bidders)),
        Err(fault) => Err(fault),
    }
}

/// The campaigns that a value is, or the first fault of the list.
fn campaigns_in(
    alloc: Global,
    bidders: &[Place],
    value: Option<&Json>,
) -> Result<Campaigns, RosterFault>
    requires bidders { length bidders.now ≤ MOST_BIDDERS }
    ensures gives { Answers lacks_memory (campaign_list_fault (names_of bidders.now) (given value.entry))
        (λ cs. AllZip (λ t c. Says (campaign_rows (names_of bidders.now) []) (Some t) c) (items_by (given value.entry)) cs) result }
    ensures distinct { IfOk result (λ cs. all_pairs_distinct (map pair_of cs) ≡ true) }
    ensures known { IfOk result (λ cs. have_bidders (length bidders.now) cs ≡ true) }
    ensures some { IfOk result (λ cs. 1 ≤ length cs) }
    ensures few { IfOk result (λ cs. length cs ≤ MOST_CAMPAIGNS) }
{
    let trees = items_in(value);
    if trees.is_empty() {
        return Err(bad_field(Field::Campaigns));
    }
    if trees.len() > MOST_CAMPAIGNS {
        return Err(RosterFault::TooMany);
    }
    match campaigns_of(alloc, bidders, trees) {
        Ok(campaigns) => Ok(campaigns),
        Err(fault) => Err(fault),
    }
}

/// The limits that a value gives, or the first fault of any of them.
fn limits_in(value: Option<&Json>) -> Result<Limits, RosterFault>
    ensures { Answers lacks_memory (limits_fault (given value.entry))
        (λ l. (l.auctions ≡ whole_or_by most.MOST_AUCTIONS most.MOST_AUCTIONS (member_within (codes "auctions") (given value.entry)))
        × (l.bids ≡ whole_or_by most.MOST_BIDS most.MOST_BIDS (member_within (codes "bids") (given value.entry)))
        × (l.text ≡ whole_or_by most.MOST_TEXT most.MOST_TEXT (member_within (codes "text") (given value.entry)))) result }
{
    let mut found = [None; 3];
    find_members(value, &["auctions", "bids", "text"], &mut found);
    let [auctions, bids, text] = found;
    if !is_object_if_given(value) {
        return Err(bad_field(Field::Limits));
    }
    let Some(auctions) = whole_or(auctions, MOST_AUCTIONS, MOST_AUCTIONS) else {
        return Err(bad_field(Field::LimitsAuctions));
    };
    let Some(bids) = whole_or(bids, MOST_BIDS, MOST_BIDS) else {
        return Err(bad_field(Field::LimitsBids));
    };
    let Some(text) = whole_or(text, MOST_TEXT, MOST_TEXT) else {
        return Err(bad_field(Field::LimitsText));
    };
    Ok(Limits {
        auctions,
        bids,
        text,
    })
}

/// SHA-256 of the compact spelling of the list of two values; what is absent is spelled as null.
fn digest_of(
    alloc: Global,
    day: Option<&Json>,
    campaigns: Option<&Json>,
) -> Result<[u8; 32], OutOfMemory>
    ensures { IfOk result (λ d. d ≡ digest_by (given day.entry) (given campaigns.entry)) }
{
    let mut text = String::new(alloc);
    text.push_str("[")?;
    push_or_null(&mut text, day)?;
    text.push_str(",")?;
    push_or_null(&mut text, campaigns)?;
    text.push_str("]")?;
    Ok(Sha256::digest(text.as_bytes()))
}

fn push_or_null(out: &mut String, value: Option<&Json>) -> Result<(), OutOfMemory>
    ensures { OnOk result (string_bytes out.new ≡ string_bytes out.old ++ spelling (unwrap_or (given value.entry) null)) }
{
    match value {
        Some(value) => push_value(out, value),
        None => Ok(out.push_str("null")?),
    }
}
