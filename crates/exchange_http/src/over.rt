//! Why no more messages are read.
use adx_http::HttpFault;

/// Why no more messages of a connection are read.
#[derive(Clone, Copy, Debug, PartialEq, Eq)]
pub(crate) enum Over {
    /// The source ended between messages, or the last message doesn't keep the connection.
    Closed,
    /// As many messages came as a connection may bring.
    Spent,
    /// The next message has this fault.
    Fault(HttpFault),
}
