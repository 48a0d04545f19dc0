//! Meters that one thread publishes and others read without waiting.
//!
//! A `StepBoard` keeps a list of steps, of which readers see a beginning, and each reader has seen a beginning of that.
//! The contracts say that a read gives the fold of steps that begin with all that this reader saw or heard of.
//!
//! Uses `core`, `adx_units`, `day_rules`, `left_right`, `logbook`, `crossbeam_utils` and `atomic_table`.
#![tactic(auto)]

mod board;
mod book;
mod calls;
mod origin;
mod reader;
mod reading;
mod shown;
mod taking;
mod views;

pub use board::StepBoard;
pub use origin::Origin;
pub use reader::MeterReader;
