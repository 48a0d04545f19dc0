//! The record of a day that was served, and its certificate, by the day's history.
//!
//! `record_of` gives the record of a legal history: its impressions with all that was admitted for them, the chosen
//! offers, and how the award of each ended. `close_day` gives the certificate beside it, whose bound no assignment of
//! the day's impressions passes.
//!
//! Uses `adx_units`, `campaign_book`, `formats`, `deal_floor`, `allocator_core`, `notice_book`, `day_rules`,
//! `day_machine`, `bid_record`, `dual_cert` and `day_close`.
#![tactic(auto)]

mod award_list;
mod closed;
mod copies;
mod heading;
mod law;
mod rows;
mod served;

pub use closed::{ClosedDay, close_day};
pub use law::one_record;
pub use served::record_of;
