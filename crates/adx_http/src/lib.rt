//! HTTP/1.1 as the exchange reads and writes it: the connection, replies and targets.
//!
//! `write_reply` puts exactly the bytes of a reply, which one definition states; after a fault of the sink it took some
//! front of them. `read_target` says a target's path and query, `query_value` the first value of a name in a query, and
//! `query_values` those of two names. No buffer and no offset is in a contract.
//!
//! One exchange with another host over a link: it is called, asked, and what it answers is heard. `exchange` calls a
//! host, asks it some bytes whole, and reads the HTTP response that comes, as `http_connection` reads it from any
//! source; a `Hearer` makes of its status and body what it wants. The contract says what it did of each thing that a
//! link reports: what it was asked and answered, and its plan.
//!
//! Uses `adx_units`, `adx_io`, `http_connection`, `form_urlencoded`, `http`, `httparse`, `itoa`, `adx_links` and
//! `http_grammar`.
#![tactic(auto)]

mod asking;
mod exchanging;
mod gathered;
mod hearer;
mod link_end;
mod reply;
mod target;

pub use exchanging::exchange;
pub use hearer::Hearer;
pub use http_connection::{Conn, ConnEnd, HttpFault, Message, Response, Verb};
pub use reply::{Reply, WriteFault, write_reply};
pub use target::{Target, query_value, query_values, read_target};
