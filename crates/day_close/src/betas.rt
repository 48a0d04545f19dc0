//! The betas of a day.
ghost use Rattle.std.specs.Prelude.{◌≡◌, ℕ, ◌<◌, ◌≤◌, ◌^◌, ◌*◌, All, IfOk, vec_len, length, slice_index, slice_index_or, []};
ghost use Rattle.bid_record.specs.Records.{IsCharge};
ghost use Rattle.dual_cert.specs.Assignments.{impressions_of};
ghost use Rattle.dual_cert.specs.Certificates.{Fit};
ghost use Rattle.day_close.specs.Closing.{IsLeastBeta};
ghost use Rattle.day_close.specs.Steps.{IsMostOf, weight};

use adx_units::OutOfMemory;
use bid_record::{Charge, ImpRow};
use dual_cert::WHOLE;
use std::alloc::Global;

/// The least beta of each impression.
pub(crate) fn betas_of(
    alloc: Global,
    imps: &[ImpRow],
    alphas: &[u64],
) -> Result<Vec<u64>, OutOfMemory>
    requires listed { All (λ row. All (IsCharge (length alphas.now)) row.offers) imps.now }
    requires fit { Fit alphas.now (length alphas.now) }
    ensures len { IfOk result (λ betas. vec_len betas ≡ length imps.now) }
    ensures value { IfOk result (λ betas. (imp : ℕ) → imp < length imps.now
        → IsLeastBeta alphas.now (slice_index_or (impressions_of imps.now) imp []) (slice_index betas.items imp)) }
{
    let mut betas = Vec::with_capacity(alloc, imps.len())?;
    for row in imps {
        betas.push(least_beta(row.offers.as_slice(), alphas))?;
    }
    Ok(betas)
}

/// The least beta that covers these offers.
fn least_beta(offers: &[Charge], alphas: &[u64]) -> u64
    requires listed { All (IsCharge (length alphas.now)) offers.now }
    requires fit { Fit alphas.now (length alphas.now) }
    ensures { IsLeastBeta alphas.now offers.now result }
{
    let whole = u128::from(WHOLE);
    let most = most_of(offers, alphas);
    ((most + (whole - 1)) / whole) as u64
}

/// The greatest part of a charge that isn't laid on its campaign's budget, times `WHOLE`.
fn most_of(offers: &[Charge], alphas: &[u64]) -> u128
    requires listed { All (IsCharge (length alphas.now)) offers.now }
    requires fit { Fit alphas.now (length alphas.now) }
    ensures most { IsMostOf alphas.now offers.now result }
    ensures small { result ≤ 10 ^ 12 * 10 ^ 9 }
{
    let mut most: u128 = 0;
    for offer in offers {
        most = most.max(weight_of(*offer, alphas));
    }
    most
}

/// The part of a charge that isn't laid on its campaign's budget, times `WHOLE`.
fn weight_of(offer: Charge, alphas: &[u64]) -> u128
    requires listed { IsCharge (length alphas.now) offer }
    requires fit { Fit alphas.now (length alphas.now) }
    ensures value { result ≡ weight alphas.now offer }
    ensures small { result ≤ 10 ^ 12 * 10 ^ 9 }
{
    let part = WHOLE - alphas[offer.campaign as usize];
    u128::from(offer.charge.0) * u128::from(part)
}
