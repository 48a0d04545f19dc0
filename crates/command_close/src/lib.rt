//! The commands that close a day.
//!
//! `close_journal` prints the document of the day that a journal keeps: the record of its history, and the certificate
//! that bounds what any assignment of its impressions earns. `measure_journal` prints the line of its revenue guarantee.
//! What they print is in `specs/ClosedDays` and `specs/Guarantees`.
//! Uses `history_runs` for the run, `served_record` for the document, and `ratio_law` for the guarantee.
#![tactic(auto)]

mod closing;
mod measuring;
mod pieces;

pub use closing::close_journal;
pub use measuring::measure_journal;
