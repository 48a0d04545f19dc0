//! Requests for bids (OpenRTB 2.6) as an exchange sees them.
//!
//! A request's tree says something by its members, or has a first fault; `BidRequest::of` gives just that, and
//! `OfferedImps::of` as much of it as a bidder reads. Ranges, lengths and distinct ids are facts of the types.
//! `push_for_bidders` writes what bidders are asked.
//!
//! Stands on `adx_units`, `adx_json` and `sha2`.
#![tactic(auto)]

mod amount;
mod asked;
mod bid_request;
mod deal;
mod deal_reader;
mod fault;
mod imp;
mod imp_reader;
mod offered_imps;
mod request_reader;

pub use asked::push_for_bidders;
pub use bid_request::{BidRequest, MOST_IMPS};
pub use deal::Deal;
pub use fault::{Field, RequestFault};
pub use imp::{Imp, MOST_SECONDS};
pub use offered_imps::OfferedImps;
