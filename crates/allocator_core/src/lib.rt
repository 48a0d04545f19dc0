//! Which offer of each impression is chosen over a book: the greatest weight that fits its budget.
//!
//! A contract says the choice by the definitions of `specs/Choice.antt`: the first of the offers with the greatest
//! discounted charge, at what the campaigns have committed for that impression.
//!
//! Uses `adx_units` and `campaign_book`.
#![tactic(auto)]

mod best;
mod impression;
mod limits;
mod passes;
mod reason;
mod taken;

pub use impression::choose;
pub use limits::{IMP_LIMIT, OFFER_LIMIT};
pub use passes::settle;
pub use reason::{AWARDED, LOST_TO_HIGHER, OVER_BUDGET};
