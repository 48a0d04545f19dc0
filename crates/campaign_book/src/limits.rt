//! How many campaigns a book may have.

/// The most campaigns of a roster.
pub const CAMPAIGN_LIMIT: usize = 1_024;
