//! All that the program does, as a call.
//!
//! `adx` does what the words of a command line ask for, over a source, a sink, a disk and a keeper of closed days, and
//! gives the exit status; its contract is the program's. `kept_by_words` says where the journal or the archive of a
//! command is kept.
//!
//! What the commands that talk over the network do, as a call. `adx_serve` does what the words of a command line ask
//! for, over an acceptor, a disk, links and a document, and gives these objects back with the exit status; its contract
//! is that of the program's commands that talk over the network.
//!
//! The command that serves a day of an exchange on one connection. `run_conn` reads a roster's line from a source, opens
//! the roster's day on a disk, and serves the HTTP connection that comes after the line, with bidders that answer by the
//! roster's own texts. What it writes is in `specs/Exchanges`. A `RosterLink` is the link to such a bidder: at each start
//! it answers the next of the bidder's texts, borrowed from the roster. It never fails, takes no memory in its calls,
//! says what it will answer and what it answered, and keeps nothing of what it is asked. `roster_lanes` has a lane for
//! each bidder of a roster, with such a link.
//!
//! Uses `command_words`, which reads the words, the crates of the commands, and `exchange_http` for the one connection.
#![tactic(auto)]

mod anew;
mod command;
mod connection;
mod kept;
mod lanes;
mod link;
mod link_calls;
mod network_command;
mod not_begun;
mod objects;
mod runs;
mod served;
mod serving;
mod status;
mod text_lanes;

pub use anew::adx_in_memory;
pub use command::adx;
pub use connection::run_conn;
pub use kept::{Kept, kept_by_words};
pub use link::RosterLink;
pub use network_command::{PENDING, adx_serve};
pub use not_begun::NotBegun;
pub use served::Served;
pub use status::{
    DISK_FAULT, DONE, KEEPER_FAULT, NO_COMMAND, NO_HISTORY, NOT_ACCEPTED, NOT_KEPT, OUT_OF_MEMORY,
    READ_FAULT, REFUSED, WRITE_FAULT,
};
pub use text_lanes::roster_lanes;
