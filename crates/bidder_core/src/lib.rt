//! A bidder (OpenRTB 2.6): its prices, its answer to a request, and the ledger of the notices that it was told.
//!
//! The answer is a function of the price line and the request. The ledger is the list of the notices that were counted:
//! one table rules on a notice, and a repeated one is never added.
//!
//! Stands on `adx_units`, `adx_json`, `rtb_request`, `deal_floor`, `notice_book`, `notice_macros`, `formats` and
//! `indexmap`.
#![tactic(auto)]

mod answer;
mod award;
mod bid_id;
mod bid_url;
mod bidder;
mod law;
mod ledger;
mod line_reader;
mod member;
mod price_line;
mod ruling;
mod sums;

pub use answer::MOST_BIDS;
pub use bidder::Bidder;
pub use law::ids_are_read_back;
pub use ledger::LedgerRow;
pub use price_line::{MOST_PRICES, Price, PriceLine};
pub use ruling::BidderRuling;
