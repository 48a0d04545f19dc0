//! The lines that say the answers of a day, and the closing table.
//!
//! An answer's line is a function of the campaigns, the answer, and the ask that the answer is about; it is written
//! straight into an output. A call that was given up has a line too. The closing table has a row for each campaign, by
//! its account, and the counts of a history. It knows no day: who holds one gives the ask at hand.
//!
//! Uses `adx_units`, `adx_json`, `campaign_book`, `notice_book`, `allocator_core`, `day_rules`, `deal_floor` and
//! `hex`.
#![tactic(auto)]

mod answers;
mod at_hand;
mod awards;
mod faults;
mod pieces;
mod table;

pub use answers::{push_answer, push_digest};
pub use at_hand::ask_at_hand;
pub use faults::{Fault, push_fault};
pub use table::push_table;
