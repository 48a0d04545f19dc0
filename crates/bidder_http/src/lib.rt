//! A bidder (OpenRTB 2.6) that answers the messages of an HTTP connection.
//!
//! `serve_bidder` answers requests for bids at `/`, counts the notices at `/n/win`, `/n/bill` and `/n/loss`, and shows
//! its sums at `/books` and its ledger at `/ledger`. One relation says what each message is answered and what the ledger
//! is then; the sink takes exactly the replies to the messages of the bytes, each notice counted once.
//! Uses `bidder_core` for the bidder and `http_service` for connections.
#![tactic(auto)]

mod books;
mod notice;
mod offers;
mod page;
mod refusals;
mod serving;

pub use page::Page;
pub use serving::serve_bidder;
