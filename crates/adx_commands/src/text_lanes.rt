//! The lanes to the bidders of a roster.
ghost use Rattle.std.specs.Prelude.{◌≡◌, [], get_or, IfOk};
ghost use Rattle.adx_commands.specs.RosterLinks.{AreRosterLanes};

use crate::link::RosterLink;
use adx_units::{OutOfMemory, Text};
use deal_floor::Roster;
use fan_out::Lane;
use std::alloc::Global;

/// The texts of a bidder, by its place in the roster.
fn texts_at(roster: &Roster, bidder: usize) -> &[Text]
    ensures { result.now ≡ get_or roster.entry.now.replies bidder [] }
{
    match roster.replies.as_slice().get(bidder) {
        Some(texts) => texts.as_slice(),
        None => &[],
    }
}

/// The lanes to the bidders of a roster, in its order. Each bidder's link answers by the bidder's own list of the roster's
/// `replies`, and by no text where the roster has no list for it.
pub fn roster_lanes(
    alloc: Global,
    roster: &Roster,
) -> Result<Vec<Lane<RosterLink<'_>>>, OutOfMemory>
    ensures { IfOk result (λ lanes. AreRosterLanes roster.entry.now lanes.items) }
{
    let mut lanes = Vec::new(alloc);
    for place in roster.bidders.as_slice() {
        let texts = texts_at(roster, lanes.as_slice().len());
        lanes.push(Lane::to(alloc, place, RosterLink::over(texts))?)?;
    }
    Ok(lanes)
}
