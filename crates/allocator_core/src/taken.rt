//! What the offers that were chosen for the earlier impressions of an ask take from their campaigns.
ghost use Rattle.std.specs.Prelude.{◌≡◌, ◌++◌, ◌<◌, ◌≤◌, ◌^◌, [], ◌∷◌, length};
ghost use Rattle.adx_units.specs.declared.price.TheConstants.{PRICE_LIMIT};
ghost use Rattle.allocator_core.specs.declared.limits.TheConstants.{IMP_LIMIT};
ghost use Rattle.allocator_core.specs.Passes.{taken_from};

use crate::limits::IMP_LIMIT;
use adx_units::Units;
use std::marker::Model;

/// What a chosen offer takes from its campaign.
#[derive(Clone, Copy)]
pub(crate) struct Take {
    pub(crate) campaign: u32,
    pub(crate) charge: Units,
}

/// What the chosen offers take, one for each impression. A contract sees the list.
#[derive(Drop)]
pub(crate) struct Taken {
    takes: [Take; IMP_LIMIT],
    len: usize,
}

impl Model for Taken {
    ghost use Rattle.std.specs.Prelude.{List, All, ◌≡◌, ◌^◌, ◌≤◌, length, take};
    ghost use Rattle.adx_units.specs.declared.price.TheConstants.{PRICE_LIMIT};
    ghost use Rattle.allocator_core.specs.declared.limits.TheConstants.{IMP_LIMIT};
    ghost use Rattle.allocator_core.specs.declared.taken.Take.{Take};

    ghost Value = { List Take };

    ghost view = { λ t. take t.len t.takes };

    ghost invariant = { λ t. (t.len ≤ IMP_LIMIT) × All (λ x. x.charge.0 ≤ PRICE_LIMIT) (take t.len t.takes) };
}

impl Taken {
    /// Nothing is taken yet.
    pub(crate) fn new() -> Taken
        ensures { result ≡ [] }
    {
        let nothing = Take {
            campaign: 0,
            charge: Units(0),
        };
        Taken {
            takes: [nothing; IMP_LIMIT],
            len: 0,
        }
    }

    /// What was taken from a campaign, in units.
    pub(crate) fn of(&self, campaign: u32) -> u64
        ensures { result ≡ taken_from self.now campaign }
    {
        let mut units = 0;
        for take in &self.takes[..self.len] {
            if take.campaign == campaign {
                units += take.charge.0;
            }
        }
        units
    }

    /// Adds what the chosen offer of the next impression takes.
    pub(crate) fn push(&mut self, campaign: u32, charge: Units)
        requires room { length self.old < IMP_LIMIT }
        requires small { charge.0 ≤ PRICE_LIMIT }
        ensures { self.new ≡ self.old ++ record { campaign = campaign; charge = charge } ∷ [] }
    {
        self.takes[self.len] = Take { campaign, charge };
        self.len += 1;
    }
}
