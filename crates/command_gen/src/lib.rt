//! The command that generates a day.
//!
//! `run_generated` takes the calls of a generated day on a desk over a disk, and puts its closing table into a sink.
//! The calls are a list over the words of a seed, that no loop defines. How it ends is in `specs/GeneratedEnds`. It
//! reads nothing, and knows no words of a command.
//!
//! Uses `history_runs` for the day, and `rand_xoshiro` for the numbers.
#![tactic(auto)]

mod asks;
mod calls;
mod early;
mod generated;
mod generator;
mod roster;

pub use generated::run_generated;
pub use generator::{Generator, MOST_ASKS};
