//! The limits and terms of admission.

/// The most bytes of text that a day keeps of one bid.
pub const MOST_KEPT: u64 = 32_768;

/// How many seconds an award stays open where neither the bid nor the impression tells.
pub const USUAL_LIFE: u32 = 3_600;

/// The most seconds that an award stays open: a week.
pub const MOST_LIFE: u32 = 604_800;

/// The impression of a refused bid that names none of its request.
pub const NO_IMP: u32 = 16;
