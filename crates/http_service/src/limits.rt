//! The limits of a connection.

/// The most messages that one connection may bring.
pub const MESSAGE_LIMIT: u32 = 1_048_576;

/// The longest body of a request, in bytes.
pub const REQUEST_LIMIT: u32 = 65_536;
