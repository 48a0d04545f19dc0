//! The rules, tested in order.
ghost use Rattle.std.specs.Prelude.{◌≡◌, ℕ, ◌^◌, ◌≤◌, ◌<◌, length, All, MatchOption};
ghost use Rattle.bid_record.specs.Records.{IsCharge};
ghost use Rattle.dual_cert.specs.Assignments.{impressions_of};
ghost use Rattle.dual_cert.specs.Certificates.{Fit, Covers, AreCovered, IsCertificate};
ghost use Rattle.cert_check.specs.Verdicts.{IsAboveAt, IsUncoveredAt, IsBrokenAt, IsVerdict, IsBound};

use crate::verdict::Verdict;
use bid_record::{CampaignRow, Charge, ImpRow, Record};
use dual_cert::{Cert, WHOLE, bound_by};

/// Whether the certificate is one of this record, or else the first rule that fails.
#[tactic(auto, using(crate::proofs::Verdicts::certificate_accepted))]
pub fn check(day: &Record, cert: &Cert) -> Verdict
    // The certificate is one of the record, or the verdict names the first rule that fails.
    ensures rules { IsVerdict day.now cert.now result }
    // A certificate of the record is accepted.
    ensures accepts { IsCertificate day.now cert.now → result ≡ Verdict.Accepted cert.now.bound }
    // An accepted bound is one that no assignment passes.
    ensures bound { IsBound day.now result }
{
    let campaigns = day.campaigns.as_slice();
    let imps = day.imps.as_slice();
    let alphas = cert.alphas.as_slice();
    let betas = cert.betas.as_slice();
    if alphas.len() != campaigns.len() || betas.len() != imps.len() {
        return Verdict::Shape;
    }
    if let Some(campaign) = first_above(alphas) {
        return Verdict::Alpha { campaign };
    }
    if let Some((impression, offer)) = first_broken(imps, alphas, betas) {
        return Verdict::Broken { impression, offer };
    }
    let computed = bound_by(day, alphas, betas);
    if cert.bound == computed {
        Verdict::Accepted { bound: computed }
    } else {
        Verdict::Bound {
            stated: cert.bound,
            computed,
        }
    }
}

/// The place of the first alpha that is more than the whole.
fn first_above(alphas: &[u64]) -> Option<u32>
    requires { length alphas.now ≤ 1024 }
    ensures { MatchOption result (Fit alphas.now (length alphas.now)) (λ place. IsAboveAt alphas.now place) }
{
    for (i, alpha) in alphas.iter().enumerate() {
        if *alpha > WHOLE {
            return Some(i as u32);
        }
    }
    None
}

/// The place of an impression's first offer that isn't covered.
fn first_uncovered(offers: &[Charge], alphas: &[u64], beta: u64) -> Option<u32>
    requires few { length offers.now < 2 ^ 32 }
    requires listed { All (IsCharge (length alphas.now)) offers.now }
    requires fit { Fit alphas.now (length alphas.now) }
    ensures { MatchOption result (All (Covers alphas.now beta) offers.now) (λ place. IsUncoveredAt alphas.now beta offers.now place) }
{
    let covered = u128::from(beta) * u128::from(WHOLE);
    for (i, offer) in offers.iter().enumerate() {
        let part = WHOLE - alphas[offer.campaign as usize];
        if u128::from(offer.charge.0) * u128::from(part) > covered {
            return Some(i as u32);
        }
    }
    None
}

/// The first offer of the first impression of which an offer isn't covered.
fn first_broken(imps: &[ImpRow], alphas: &[u64], betas: &[u64]) -> Option<(u32, u32)>
    requires few { length imps.now < 2 ^ 32 }
    requires shape { length betas.now ≡ length imps.now }
    requires fit { Fit alphas.now (length alphas.now) }
    requires few_offers { All (λ row. length row.offers < 2 ^ 32) imps.now }
    requires listed { All (λ row. All (IsCharge (length alphas.now)) row.offers) imps.now }
    ensures { MatchOption result (AreCovered alphas.now betas.now (impressions_of imps.now) (length imps.now))
        (λ p. IsBrokenAt alphas.now betas.now (impressions_of imps.now) p.0 p.1) }
{
    for (j, row) in imps.iter().enumerate() {
        if let Some(offer) = first_uncovered(row.offers.as_slice(), alphas, betas[j]) {
            return Some((j as u32, offer));
        }
    }
    None
}
