//! An impression of a request.
ghost use Rattle.std.specs.Prelude.{◌≡◌, ◌≤◌, map, true};
ghost use Rattle.adx_units.specs.declared.price.TheConstants.{PRICE_LIMIT};
ghost use Rattle.rtb_request.specs.declared.imp.TheConstants.{MOST_SECONDS};
ghost use Rattle.rtb_request.specs.Distinct.{all_distinct};

use crate::deal::Deal;
use adx_units::{Id, Sequence, Text, Units};

/// The most seconds that count as given.
pub const MOST_SECONDS: u64 = 2_147_483_647;

/// An impression that is offered for sale (OpenRTB 2.6, section 3.2.4, Imp), with what its Pmp
/// (section 3.2.11) says.
#[derive(Debug, Drop)]
pub struct Imp {
    pub id: Id,
    /// The least price without a deal, in units of 10^-6 CPM dollar, at most 10^12; 0 where none is given.
    pub floor: Units,
    /// Whether this exchange sells it: the request and its floor leave USD, and it has no `qty`.
    pub sold: bool,
    /// Whether it is sold by deals alone (`private_auction` 1 of its Pmp).
    pub private_only: bool,
    /// The deals in USD, the first of each id in the order of the request.
    pub deals: Sequence<Deal>,
    /// Seconds from the auction to the bill, below 2^31; 0 where none are given.
    pub exp: u32,
    pub ghost in_range: { floor.0 ≤ PRICE_LIMIT },
    pub ghost exp_in_range: { exp ≤ MOST_SECONDS },
    pub ghost distinct: { all_distinct (map (λ d. d.id) deals) ≡ true },
}
