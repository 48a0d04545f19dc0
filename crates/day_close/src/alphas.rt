//! The alphas of a day.
ghost use Rattle.std.specs.Prelude.{◌≡◌, ℕ, ◌<◌, ◌≤◌, ◌^◌, All, IfOk, vec_len, length, slice_index, slice_index_or};
ghost use Rattle.bid_record.specs.declared.rows.CampaignRow.{CampaignRow};
ghost use Rattle.dual_cert.specs.Whole.{whole};
ghost use Rattle.day_close.specs.Closing.{alpha_of as alpha_of_slab, row_alpha, money_in, IsWithinBudgets};

use crate::money::moneys_of;
use adx_units::OutOfMemory;
use bid_record::{CampaignRow, Record};
use campaign_book::{discount, slab_of};
use dual_cert::WHOLE;
use std::alloc::Global;

/// From this slab on an alpha is the whole.
const LAST_SLAB: u8 = 99;

/// The alpha of each campaign.
pub(crate) fn alphas_of(alloc: Global, day: &Record) -> Result<Vec<u64>, OutOfMemory>
    requires { IsWithinBudgets day.now }
    ensures len { IfOk result (λ alphas. vec_len alphas ≡ length day.now.campaigns) }
    ensures value { IfOk result (λ alphas. (campaign : ℕ) (row : CampaignRow) → campaign < length day.now.campaigns
        → slice_index alphas.items campaign ≡ row_alpha (slice_index_or day.now.campaigns campaign row) (money_in day.now.imps campaign)) }
{
    let campaigns = day.campaigns.as_slice();
    let moneys = moneys_of(alloc, campaigns.len(), day.imps.as_slice())?;
    from_moneys(alloc, campaigns, moneys.as_slice())
}

/// The alpha of each campaign with so much money.
fn from_moneys(
    alloc: Global,
    campaigns: &[CampaignRow],
    moneys: &[u64],
) -> Result<Vec<u64>, OutOfMemory>
    requires len { length moneys.now ≡ length campaigns.now }
    requires budgets { All (λ row. (1 ≤ row.budget.0) × (row.budget.0 ≤ 10 ^ 15)) campaigns.now }
    requires within { (campaign : ℕ) (row : CampaignRow) → campaign < length campaigns.now
        → slice_index moneys.now campaign ≤ (slice_index_or campaigns.now campaign row).budget.0 }
    ensures len { IfOk result (λ alphas. vec_len alphas ≡ length campaigns.now) }
    ensures value { IfOk result (λ alphas. (campaign : ℕ) (row : CampaignRow) → campaign < length campaigns.now
        → slice_index alphas.items campaign ≡ row_alpha (slice_index_or campaigns.now campaign row) (slice_index moneys.now campaign)) }
{
    let mut alphas = Vec::with_capacity(alloc, campaigns.len())?;
    for (i, campaign) in campaigns.iter().enumerate() {
        let alpha = alpha_of(slab_of(moneys[i], campaign.budget.0));
        alphas.push(alpha)?;
    }
    Ok(alphas)
}

/// The alpha of a slab.
fn alpha_of(slab: u8) -> u64
    requires { slab ≤ 100 }
    ensures { result ≡ alpha_of_slab slab }
{
    if slab >= LAST_SLAB {
        WHOLE
    } else {
        WHOLE - discount(slab)
    }
}
