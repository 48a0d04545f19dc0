//! The command that serves a day of script lines.
//!
//! `run_day` reads a roster's line and the lines of a script, answers each line with a line, and closes with the table of
//! the campaigns' books. What it writes is in `specs/Days`.
//! Uses `command_runs` for the run, `history_runs` for the roster's line, `adx_desk` for the day, and
//! `script_lines` and `answer_lines` for the lines. It knows no words of a command.
#![tactic(auto)]

mod answering;
mod day;
mod lines;

pub use day::run_day;
