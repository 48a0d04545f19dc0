//! The closer's certificate.
ghost use Rattle.std.specs.Prelude.{◌≡◌, IfOk};
ghost use Rattle.dual_cert.specs.Certificates.{IsCertificate};
ghost use Rattle.day_close.specs.Closing.{IsWithinBudgets, IsClosing};

use crate::alphas::alphas_of;
use crate::betas::betas_of;
use adx_units::{OutOfMemory, Sequence};
use bid_record::Record;
use dual_cert::{Cert, bound_by};
use std::alloc::Global;

/// The certificate of a day: each alpha from the slab where its campaign ended, each beta the least
/// that covers its impression, and their bound. One pass over the record, in time in proportion to
/// its offers.
pub fn close(alloc: Global, day: &Record) -> Result<Cert, OutOfMemory>
    // The money of the day's billed and open awards is within each budget.
    requires { IsWithinBudgets day.now }
    // It is the closer's certificate.
    ensures closing { IfOk result (λ c. IsClosing day.now c) }
    // It meets the rules of a certificate, so that a checker accepts it.
    ensures certificate { IfOk result (λ c. IsCertificate day.now c) }
{
    let alphas = alphas_of(alloc, day)?;
    let betas = betas_of(alloc, day.imps.as_slice(), alphas.as_slice())?;
    let bound = bound_by(day, alphas.as_slice(), betas.as_slice());
    Ok(Cert {
        alphas: Sequence::from(alphas),
        betas: Sequence::from(betas),
        bound,
    })
}
