//! How much a command reads.

/// The most bytes of a line, without its newline.
pub const LINE_LIMIT: usize = 4_194_304;

/// The most bytes of an input that is read by lines.
pub const INPUT_LIMIT: u64 = 68_719_476_736;

/// The most bytes of an input that is read whole, as one document.
pub const DOCUMENT_LIMIT: u64 = 2_147_483_648;
