//! Changes of campaigns' budgets.
ghost use Rattle.std.specs.Prelude.{◌≡◌, option_map, IfSome, length};
ghost use Rattle.day_rules.specs.Replies.{set_budget};
ghost use Rattle.day_rules.specs.Runs.{IsCall};
ghost use Rattle.adx_json.specs.Values.{number_in as number_by, text_in as text_by};
ghost use Rattle.script_lines.specs.Changes.{change_in, change_named, change_told, pair_place};
ghost use Rattle.script_lines.specs.Members.{change_number as change_number_by};
ghost use Rattle.deal_floor.specs.Reading.{given};

use crate::limits::LAST_CHANGE;
use adx_json::{Json, number_in, text_in};
use adx_units::{Units, budget_of, whole_up_to};
use deal_floor::Roster;

/// A change of a campaign's budget, as a line gives it.
#[derive(Clone, Copy, Debug, PartialEq, Eq)]
pub struct Change {
    /// The campaign's place in the roster; as many as there are campaigns, where the roster hasn't its seat and id.
    pub campaign: u32,
    /// The number of the change among those of its campaign, from 1.
    pub number: u32,
    /// The budget, in units, of 1 to 10^15.
    pub budget: Units,
}

/// The place of the campaign with that seat and id; as many as there are campaigns, where there is none.
fn campaign_of(roster: &Roster, seat: &str, cid: &str) -> u32
    ensures { result ≡ pair_place roster.entry.now.campaigns seat.now cid.now }
{
    match roster.campaigns.place_of_pair(seat, cid) {
        Some(place) => place as u32,
        None => roster.campaigns.len() as u32,
    }
}

/// The number of a change, from 1.
fn change_number(text: &[u8]) -> Option<u32>
    ensures { result ≡ change_number_by text.now }
{
    match whole_up_to(text, LAST_CHANGE) {
        None | Some(0) => None,
        Some(number) => Some(number as u32),
    }
}

/// The change that a campaign's seat and id, a whole number from 1 to 2^32 - 1 and a budget in dollars, as JSON (RFC 8259)
/// spells numbers, name. None where the number or the budget isn't of its form. No seat and no id is refused: a pair that
/// the roster hasn't names no campaign of the day.
pub fn read_change(
    roster: &Roster,
    seat: &str,
    cid: &str,
    change: &[u8],
    budget: &[u8],
) -> Option<Change>
    ensures value { option_map change_told result ≡ change_named roster.entry.now.campaigns seat.now cid.now change.now budget.now }
    ensures ready { IfSome result (λ c. IsCall (length roster.entry.now.campaigns) (set_budget (change_told c))) }
{
    let number = change_number(change)?;
    let Ok(budget) = budget_of(budget) else {
        return None;
    };
    Some(Change {
        campaign: campaign_of(roster, seat, cid),
        number,
        budget,
    })
}

/// The change that a line is with these members. None where it isn't of its form.
pub(crate) fn change_of(
    roster: &Roster,
    seat: Option<&Json>,
    cid: Option<&Json>,
    change: Option<&Json>,
    budget: Option<&Json>,
) -> Option<Change>
    ensures value { option_map change_told result ≡ change_in roster.entry.now.campaigns
        (text_by (given seat.entry)) (text_by (given cid.entry)) (number_by (given change.entry)) (number_by (given budget.entry)) }
    ensures ready { IfSome result (λ c. IsCall (length roster.entry.now.campaigns) (set_budget (change_told c))) }
{
    let Some(seat) = text_in(seat) else {
        return None;
    };
    let Some(cid) = text_in(cid) else {
        return None;
    };
    let Some(change) = number_in(change) else {
        return None;
    };
    let Some(budget) = number_in(budget) else {
        return None;
    };
    read_change(
        roster,
        seat.as_str(),
        cid.as_str(),
        change.as_bytes(),
        budget.as_bytes(),
    )
}
