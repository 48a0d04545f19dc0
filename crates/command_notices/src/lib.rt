//! The command that prints the notices of a day.
//!
//! `print_notices` prints a line for each notice that the history of a journal's day owes its bidders, in the order of
//! the history's entries. What it prints is in `specs/PostLines`. It tries no post.
//!
//! The notices of a day's history, each tried once over a link. `post_notices` takes the roster of a document's first
//! line, opens its day on a disk, and tries each notice that the day's history owes its bidders once, in order. The
//! disk represents the history afterwards.
//!
//! Uses `history_runs` for the run, and `outbox` for the notices and their tries.
#![tactic(auto)]

mod ending;
mod lines;
mod posting;
mod printing;
mod roster;

pub use ending::{PostEnd, status_of};
pub use posting::post_notices;
pub use printing::print_notices;
pub use roster::first_roster;
