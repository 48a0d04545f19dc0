//! The bounds of counts.

/// The most items that one run of a job adds.
pub const MOST_ADDED: u64 = 32;

/// The most passes that are out at once: split from the first one, and not joined yet.
pub const MOST_OUT: u64 = 4_294_967_295;

/// Where a count of faults stays.
pub const LAST_COUNT: u64 = u64::MAX;
