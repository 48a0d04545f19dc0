//! An award, and how it ended.
use adx_units::Units;

/// How an award ended.
#[derive(Clone, Copy, Debug, PartialEq, Eq)]
pub enum End {
    /// A bill moved its charge to the billed money.
    Billed,
    /// A loss notice released its charge.
    Lost,
    /// Its deadline passed and its charge was released.
    Expired,
}

/// An award and what became of it.
#[derive(Clone, Copy, Debug, PartialEq, Eq)]
pub struct Award {
    /// The place of its ask in the history, from 0.
    pub ask: u32,
    /// The place of its campaign in the roster, from 0.
    pub campaign: u32,
    /// What its campaign pays, in units.
    pub charge: Units,
    /// Whether a win notice was counted.
    pub won: bool,
    /// Its end; none while it is open.
    pub end: Option<End>,
    /// The last moment, in seconds, at which it is still open.
    pub deadline: u64,
}
