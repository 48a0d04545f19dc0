//! The command of a bidder.
//!
//! `run_bidder` reads the price line of a bidder and serves the messages of the HTTP connection that comes after it.
//! What it replies is in `specs/Bidders`. It knows no exchange.
//!
//! The price line of a bidder: the bidder that a line is, or why it is none. `read_prices` reads one line, in any
//! spelling of its value. `first_prices` reads the first line of a document, and says too where it is too long or has
//! no newline.
//!
//! A bidder that serves connections one after another on one ledger. `bid` takes the bidder of a document's first line,
//! and serves each connection that an acceptor gives out, until no more come or the acceptor fails. Each connection
//! begins with the ledger that those before it left, and each pair is given back to the acceptor.
//!
//! Uses `command_runs` for the run, `http_service` for a connection, and `bidder_http` for the replies.
#![tactic(auto)]

mod bidding;
mod document;
mod ending;
mod fault;
mod line;
mod prices;
mod serving;
mod turn;

pub use bidding::bid;
pub use document::first_prices;
pub use ending::{BidEnd, status_of};
pub use fault::PricesFault;
pub use line::read_prices;
pub use serving::run_bidder;
