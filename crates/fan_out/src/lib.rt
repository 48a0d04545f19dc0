//! Bidders that are asked at the same time, and what each of them answered.
//!
//! `gather` sends one request to every lane's bidder and gives one answer per lane, in their order, each a function of
//! the bytes that its own bidder answered; `gather_in_turn` does the same without threads. A fault of one bidder takes
//! out that bidder alone.
//!
//! Uses `adx_links` for links, `adx_http` for an exchange with a host, and `rtb_response` for answers.
#![tactic(auto)]

mod answer;
mod auction;
mod gathering;
mod head;
mod lane;

pub use answer::{ANSWER_LIMIT, BidderAnswer, Refusal};
pub use gathering::{gather, gather_in_turn};
pub use lane::Lane;
