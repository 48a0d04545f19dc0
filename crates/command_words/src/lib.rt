//! What the words of a command line ask for.
//!
//! The call `command_of` reads words with the builder of `clap`, and `network_command_of` those of the commands that talk
//! over the network. Their contracts say which words in plain spelling ask for what, in `specs/Spelling`, `specs/Meanings`
//! and `specs/Network`, which don't know `clap`, and by `clap`'s own definitions what words of any spelling come to. A
//! command is a row of the table `COMMANDS`, of which the parse, the help, the man page and the completions are made, and a variant
//! of `Command` or `NetworkCommand` with its arm. `paths_of` has the values of the options that name what a command works on.
//! Stands on `adx_units` and on the kit's `clap`.
#![tactic(auto)]

mod application;
mod command;
mod complaint;
mod help;
mod network;
mod network_reading;
mod paths;
mod reading;
mod table;

pub use command::{Command, MOST_ASKS, Topic};
pub use complaint::complaint_of;
pub use help::{PROGRAM_ABOUT, PROGRAM_STATUSES, VERSION, help_of};
pub use network::{MOST_PORT, MOST_WORKERS, NetworkCommand};
pub use network_reading::network_command_of;
pub use paths::{Paths, paths_of};
pub use reading::command_of;
pub use table::{COMMANDS, Choice, HELPS, Help, Row};
