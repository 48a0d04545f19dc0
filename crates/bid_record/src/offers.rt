//! The offers of an impression's line.
ghost use Rattle.std.specs.Prelude.{◌≡◌, ◌≤◌, ◌<◌, ◌^◌, MatchResult};
ghost use Rattle.bid_record.specs.Taking.{IsPut, IsOffersRead};

use crate::fault::Misfit;
use crate::parts::offer;
use crate::rows::Charge;
use adx_units::Units;
use std::alloc::Global;

/// Offers as they were read.
#[derive(Debug, Drop)]
pub(crate) struct Offers {
    /// Those that name a listed campaign.
    pub kept: Vec<Charge>,
    /// Whether each does.
    pub listed: bool,
    /// How many there are in all.
    pub count: u64,
}

/// The offers in these bytes, all of them, beside so many campaigns.
pub(crate) fn offers_of(alloc: Global, campaigns: usize, bytes: &[u8]) -> Result<Offers, Misfit>
    requires { campaigns ≤ 1024 }
    ensures { IsOffersRead campaigns bytes.now result }
{
    let mut offers = Offers {
        kept: Vec::new(alloc),
        listed: true,
        count: 0,
    };
    let mut left = bytes;
    'offers: while !left.is_empty() {
        let Some(found) = offer(left) else {
            return Err(Misfit::Form);
        };
        match put(&mut offers, campaigns, found.campaign, found.charge) {
            Ok(()) => {}
            Err(misfit) => return Err(misfit),
        }
        left = found.rest;
    }
    Ok(offers)
}

/// One offer more.
fn put(offers: &mut Offers, campaigns: usize, campaign: u64, charge: u64) -> Result<(), Misfit>
    requires few { campaigns ≤ 1024 }
    requires room { offers.old.count < 2 ^ 63 }
    ensures { MatchResult result (λ _. IsPut campaigns campaign charge offers.old offers.new) (λ misfit. misfit ≡ Misfit.Memory) }
{
    offers.count += 1;
    if campaign < campaigns as u64 {
        offers.kept.push(Charge {
            campaign: campaign as u32,
            charge: Units(charge),
        })?;
        Ok(())
    } else {
        offers.listed = false;
        Ok(())
    }
}
