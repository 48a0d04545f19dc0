//! How much a day may take.
ghost use Rattle.std.specs.Prelude.{◌≤◌};
ghost use Rattle.deal_floor.specs.declared.limits.TheConstants.{MOST_AUCTIONS, MOST_BIDS, MOST_TEXT};

/// The most auctions of a day.
pub const MOST_AUCTIONS: u64 = 1_000_000;

/// The most recorded bids of a day, refused ones among them.
pub const MOST_BIDS: u64 = 33_554_432;

/// The most kept text of a day, in bytes.
pub const MOST_TEXT: u64 = 1_073_741_824;

/// How much a day may take. Each number may be 0, and is the greatest where none is given.
#[derive(Debug, Drop)]
pub struct Limits {
    /// Auctions, at most `MOST_AUCTIONS`.
    pub auctions: u64,
    /// Recorded bids, at most `MOST_BIDS`.
    pub bids: u64,
    /// Bytes of kept text, at most `MOST_TEXT`.
    pub text: u64,
    pub ghost few_auctions: { auctions ≤ MOST_AUCTIONS },
    pub ghost few_bids: { bids ≤ MOST_BIDS },
    pub ghost short_text: { text ≤ MOST_TEXT },
}
