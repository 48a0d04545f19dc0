//! The exit statuses, as `check_input` gives them.

/// The status where the certificate is accepted.
pub(crate) const ACCEPTED: u8 = 0;

/// The status where words are given, of which the program takes none.
pub(crate) const NO_WORDS: u8 = 2;

/// The status where the bytes are no document, or pass the limit.
pub(crate) const NO_DOCUMENT: u8 = 3;

/// The status where standard input failed.
pub(crate) const READ_FAULT: u8 = 4;

/// The status where standard output failed.
pub(crate) const WRITE_FAULT: u8 = 5;

/// The status where the certificate isn't accepted.
pub(crate) const NOT_ACCEPTED: u8 = 8;

/// The status where memory was refused.
pub(crate) const OUT_OF_MEMORY: u8 = 12;
