//! Answers to requests for bids (OpenRTB 2.6): those of bidders read, and the exchange's own written.
//!
//! An answer's tree says something by its members, or has a first fault; `BidAnswer::of` gives just that.
//! `write_answer` gives the compact spelling of one object. Ranges and the number of bids are facts of the types.
//!
//! Stands on `adx_units`, `adx_json`, `notice_macros` and `itoa`.
#![tactic(auto)]

mod answer_reader;
mod bid;
mod bid_answer;
mod bid_names;
mod bid_reader;
mod body;
mod exchange_answer;
mod fault;
mod notice;
mod sold;

pub use bid::{Bid, MOST_BIDS, MOST_SECONDS};
pub use bid_answer::{BidAnswer, SeatBid};
pub use exchange_answer::write_answer;
pub use fault::{AnswerFault, Field};
pub use sold::Sold;
