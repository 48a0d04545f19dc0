//! The day that a roster opens.
ghost use Rattle.std.specs.Prelude.{◌≡◌, [], map, IfOk};
ghost use Rattle.deal_floor.specs.declared.campaign.Campaign.{Campaign};
ghost use Rattle.adx_desk.specs.Rosters.{desk_terms};

use adx_units::{OutOfMemory, Units};
use day_machine::MeteredDay;
use day_rules::DayLimits;
use deal_floor::{Campaign, Roster};
use std::alloc::Global;

/// The budgets of campaigns, in their order.
fn budgets_of(alloc: Global, campaigns: &[Campaign]) -> Result<Vec<Units>, OutOfMemory>
    ensures { IfOk result (λ budgets. budgets.items ≡ map (λ (c : Campaign). c.budget) campaigns.now) }
{
    let mut budgets = Vec::new(alloc);
    for campaign in campaigns {
        budgets.push(campaign.budget)?;
    }
    Ok(budgets)
}

/// The day of a roster, without entries.
pub(crate) fn day_of(alloc: Global, roster: &Roster) -> Result<MeteredDay, OutOfMemory>
    ensures terms { IfOk result (λ day. day.terms ≡ (desk_terms roster.entry.now).day) }
    ensures history { IfOk result (λ day. day.history ≡ []) }
{
    let budgets = budgets_of(alloc, roster.campaigns.as_slice())?;
    let limits = DayLimits {
        auctions: roster.limits.auctions,
        bids: roster.limits.bids,
        text: roster.limits.text,
    };
    let day = MeteredDay::new(alloc, budgets.as_slice(), limits)?;
    Ok(day)
}
