//! What the lines of a day's script mean, and the roster line before them.
//!
//! `read_line` gives the call of the day that a line means, or why the line is refused; `read_roster` gives the roster
//! that the first line is, or why it is none. Both go by the value of the line, in any spelling of it.
//!
//! The lines that say why a line is refused. `push_roster_refused` writes that a first line isn't of its form, and
//! `push_refused` that a line of a script isn't. It knows no day.
//!
//! The ask that a request for bids and its bidders' answers make. `make_ask` gives every bid, in the order of bidders,
//! seats and bids, as the offer that admission says it is, with its texts. The ask is one that a day takes, and none of
//! its offers is decided yet.
//!
//! Stands on `adx_units`, `adx_json`, `rtb_request`, `rtb_response`, `notice_book`, `deal_floor`, `day_rules` and
//! `allocator_core`.
#![tactic(auto)]

mod ask;
mod bids;
mod budget;
mod limits;
mod line;
mod making;
mod members;
mod notice;
mod refusal;
mod refusals;
mod roster;
mod why;

pub use budget::{Change, read_change};
pub use limits::{LAST_AWARD, LAST_CHANGE, LATEST_MOMENT};
pub use line::{ScriptLine, read_line};
pub use making::make_ask;
pub use notice::Notice;
pub use refusal::{LineFault, Refusal, RosterLineFault, RosterRefusal};
pub use refusals::{push_refusal, push_refused, push_roster_refused};
pub use roster::read_roster;
pub use why::{push_roster_why, push_why};
