//! The greatest numbers of a script line.

/// The latest moment that a line can name, in seconds: fifteen digits.
pub const LATEST_MOMENT: u64 = 999_999_999_999_999;

/// The greatest number of an award that a line can name, 2^32 - 1.
pub const LAST_AWARD: u64 = 4_294_967_295;

/// The greatest number of a change of a budget that a line can name, 2^32 - 1. The least is 1.
pub const LAST_CHANGE: u64 = 4_294_967_295;
