//! Replies that are on their way to the exchange.
use adx_units::{Sequence, Text};

/// The reply to a message that was delivered once more, on its way to the exchange.
#[derive(Debug, Drop)]
pub struct Late {
    /// The whole request that it answers.
    pub request: Text,
    /// Its bytes.
    pub bytes: Sequence<u8>,
}
