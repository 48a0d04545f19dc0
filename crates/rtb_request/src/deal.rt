//! A deal of an impression.
ghost use Rattle.std.specs.Prelude.{◌≤◌};
ghost use Rattle.adx_units.specs.declared.price.TheConstants.{PRICE_LIMIT};

use adx_units::{Sequence, Text, Units};

/// A deal between the seller and some buyers (OpenRTB 2.6, section 3.2.12, Deal), whose floor is in USD.
#[derive(Debug, Drop)]
pub struct Deal {
    /// Its id, which may be empty.
    pub id: Text,
    /// The least price, in units of 10^-6 CPM dollar, at most 10^12; 0 where none is given.
    pub floor: Units,
    /// Whether the floor is the price that is paid (`at` 3).
    pub fixed: bool,
    /// The seats that may use it; empty: all.
    pub wseat: Sequence<Text>,
    /// The advertisers that may use it; empty: all.
    pub wadomain: Sequence<Text>,
    pub ghost in_range: { floor.0 ≤ PRICE_LIMIT },
}
