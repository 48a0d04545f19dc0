//! The command that reconciles a journal's day with a bidder's ledger.
//!
//! `reconcile_ledger` reads a roster's line and after it the lines of a bidder's ledger, and writes a line for each
//! auction and price of which the day and the ledger have different numbers of bills, and the two sums. What it means
//! stands in `specs/DayBills`, `specs/Ledgers` and `specs/Reconciling`.
//!
//! The bills that two books count differently: an exchange's and a bidder's. `push_reconciliation` writes a line for
//! each auction and price of which the two sides have different numbers of bills, in order, and then the two sums. What
//! it writes is in `specs/Differences`, and what that says of the two sides in `specs/Agreements`: it is the one text that
//! reconciles them, and is without a difference just where both have the same bills, and then the sums are equal. It knows
//! no day and no ledger.
//!
//! Stands on `history_runs` for the run, and on `bidder_core` and `bidder_http` for the rows of a ledger.
#![tactic(auto)]

mod bill;
mod day_bills;
mod ledger;
mod lines;
mod reconcile;
mod row;
mod walk;

pub use bill::Bill;
pub use reconcile::reconcile_ledger;
pub use walk::push_reconciliation;
