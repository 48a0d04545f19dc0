//! What a generated day is made by.

/// The most asks of a generated day.
pub const MOST_ASKS: u64 = 1_000_000;

/// What a generated day is made by.
#[derive(Clone, Copy, Debug, PartialEq, Eq)]
pub struct Generator {
    /// The seed of its words.
    pub seed: u64,
    /// How many asks it has, at most `MOST_ASKS`.
    pub asks: u64,
}
