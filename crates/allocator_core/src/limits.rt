//! How many impressions and offers are settled at once.

/// The most impressions of an ask.
pub const IMP_LIMIT: usize = 16;

/// The most offers of an ask.
pub const OFFER_LIMIT: usize = 1_024;
