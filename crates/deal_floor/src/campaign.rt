//! A campaign of a roster.
ghost use Rattle.std.specs.Prelude.{◌≤◌};
ghost use Rattle.adx_units.specs.declared.price.TheConstants.{BUDGET_LIMIT};

use adx_units::{Id, Units};

/// The most campaigns of a roster.
pub const MOST_CAMPAIGNS: usize = 1_024;

/// A campaign of the roster.
#[derive(Debug, Drop)]
pub struct Campaign {
    /// The place of its bidder in the roster, from 0.
    pub bidder: u32,
    /// The bidder's seat that it buys by.
    pub seat: Id,
    /// Its id, which a bid names by `cid`.
    pub cid: Id,
    /// What it may spend in the day: 1 to 10^15 units, 10^9 of them being a dollar.
    pub budget: Units,
    pub ghost positive: { 1 ≤ budget.0 },
    pub ghost in_range: { budget.0 ≤ BUDGET_LIMIT },
}
