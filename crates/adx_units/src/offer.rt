//! One bid of an auction as admission or the day left it.

use crate::units::Units;

/// The mark of a bid that was admitted and isn't decided yet.
pub const ADMITTED: u16 = 65_535;

/// One bid as admission or the day left it.
#[derive(Clone, Copy, Debug, PartialEq, Eq)]
pub struct Offer {
    /// The place of the impression in its ask, from 0, or 16 where the bid named none of the ask.
    pub imp: u32,
    /// The place of the campaign in the roster, from 0; 0 for a refused bid.
    pub campaign: u32,
    /// What the campaign pays if this bid is awarded; 0 for a refused bid.
    pub charge: Units,
    /// How many seconds an award of this bid stays open for its bill; 0 for a refused bid.
    pub life: u32,
    /// `ADMITTED`, or why the bid lost, or 0 where it was awarded.
    pub reason: u16,
}
