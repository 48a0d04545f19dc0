//! The desk of an exchange: a serving day whose history a journal keeps on a disk.
//!
//! A contract sees a `Desk` as its terms, its history and its disk. Each call answers what the plain day answers after
//! that history; an entry is in the journal before it is in the history, and a crash at any moment leaves a file that
//! represents the history, or it and the record that was being written. Opening reads a file that represents a
//! history, or names the first fault in the order of its bytes.
//!
//! `DayDesk` is the trait of a desk as one who calls it sees it, whether others call it too or not. Its clauses say of
//! each call the history at which it was taken, and how it ended; and that the calls come one after another. Where the
//! desk is owned the history stays between two calls, and where threads share it others may add entries there.
//!
//! Runs of calls on a desk: what they answer, the books that they leave, and what the disk keeps of them at each
//! moment. A run's calls may be those of lines, each written alone, or of messages, whose notices may be written
//! together. Beside the definitions and their laws the crate writes a desk's closing table.
//!
//! Uses `day_machine` for the day, `day_journal` and `day_entries` for the disk, and `answer_lines` and `script_lines`
//! for what is answered and read.
#![tactic(auto)]

mod copying;
mod day_desk;
mod desk;
mod done;
mod fault;
mod framing;
mod journaled_day;
mod laws;
mod lines;
mod loading;
mod opening;
mod outcomes;
mod parts;
mod record_reading;
mod roster_day;
mod shared;
mod steps;
mod table;
mod turn;

pub use day_desk::DayDesk;
pub use desk::Desk;
pub use done::Done;
pub use fault::DeskFault;
pub use laws::{one_history, one_refusal, refusals_exclude};
pub use lines::{answer_line, fault_line};
pub use outcomes::{take_all, take_one};
pub use shared::OpenedWith;
pub use steps::{each_between, owned_run};
pub use table::{push_books, table_of};
pub use turn::{Call, Turn};
