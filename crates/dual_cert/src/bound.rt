//! The bound that alphas and betas give.
ghost use Rattle.std.specs.Prelude.{◌≡◌, ◌*◌, ◌^◌, ◌≤◌, ◌<◌, length, sum, All};
ghost use Rattle.dual_cert.specs.Certificates.{Fit, laid_on, bound_by as bound_by_alphas};

use crate::cert::WHOLE;
use bid_record::{CampaignRow, Record};

/// The bound that these alphas and betas give the day: the budgets, each times its campaign's alpha,
/// as parts of `WHOLE` and rounded down once, and the betas. In units.
pub fn bound_by(day: &Record, alphas: &[u64], betas: &[u64]) -> u128
    requires alphas { length alphas.now ≡ length day.now.campaigns }
    requires betas { length betas.now ≡ length day.now.imps }
    requires fit { Fit alphas.now (length alphas.now) }
    ensures { result ≡ bound_by_alphas alphas.now betas.now day.now.campaigns }
{
    laid(alphas, day.campaigns.as_slice()) / u128::from(WHOLE) + spread(betas)
}

/// The budgets, each times its campaign's alpha.
fn laid(alphas: &[u64], campaigns: &[CampaignRow]) -> u128
    requires few { length campaigns.now ≤ 1024 }
    requires shape { length alphas.now ≡ length campaigns.now }
    requires fit { Fit alphas.now (length alphas.now) }
    requires budgets { All (λ c. c.budget.0 ≤ 10 ^ 15) campaigns.now }
    ensures value { result ≡ laid_on alphas.now campaigns.now }
    ensures small { result ≤ 1024 * 10 ^ 24 }
{
    let mut total = 0;
    for (i, campaign) in campaigns.iter().enumerate() {
        total += u128::from(alphas[i]) * u128::from(campaign.budget.0);
    }
    total
}

/// The betas, added up.
fn spread(betas: &[u64]) -> u128
    requires few { length betas.now < 2 ^ 32 }
    ensures value { result ≡ sum betas.now }
    ensures small { result < 2 ^ 96 }
{
    let mut total = 0;
    for beta in betas {
        total += u128::from(*beta);
    }
    total
}
