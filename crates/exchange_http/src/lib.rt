//! The exchange on a connection: requests for bids, notices, changes of budgets, the books and the meters over
//! HTTP/1.1.
//!
//! `serve_connection` reads messages from a source, asks bidders over links, keeps the day on a desk, and puts the
//! reply to each message into a sink, in their order. Its contract names the messages, the steps that they made on the
//! desk, what each was replied by the history of its own steps, what the disk keeps of it, and why no more were read.
//! `serve_floor` is the same loop over any desk that one calls.
//!
//! A desk that one connection owns, as a desk that one calls. `OwnDesk` lends a desk: its history stays between two
//! calls. What the disk keeps of the calls is a run of `Records`.
//!
//! Uses `http_service` for the loop over messages, and `exchange_messages` for what is done with each.
#![tactic(auto)]

mod ending;
mod keeping;
mod laws;
mod messages;
mod notices;
mod others;
mod outgoing;
mod outlet;
mod over;
mod own_desk;
mod serving;
mod stop;
mod waiting;

pub use laws::{has_meaning, one_reply};
pub use own_desk::OwnDesk;
pub use serving::{serve_connection, serve_floor};
