//! The roster of a day, and which bids an exchange admits (OpenRTB 2.6): floors, deals and blocks.
//!
//! A roster's tree has a first fault or is a roster's, and `Roster::of` gives just that; ranges and distinct names are facts
//! of the types. `admit` gives the offer that a bid is, or the first of seven rules that fails.
//!
//! Stands on `adx_units`, `adx_json`, `rtb_request`, `rtb_response` and `sha2`.
#![tactic(auto)]

mod admission;
mod asked;
mod bidder_reader;
mod campaign;
mod campaign_reader;
mod campaigns;
mod deals;
mod fault;
mod limits;
mod members;
mod place;
mod reason;
mod replies;
mod roster;
mod roster_reader;
mod terms;
mod value;

pub use admission::{admit, refused};
pub use campaign::{Campaign, MOST_CAMPAIGNS};
pub use campaigns::Campaigns;
pub use fault::{Field, RosterFault};
pub use limits::{Limits, MOST_AUCTIONS, MOST_BIDS, MOST_TEXT};
pub use place::{MOST_BIDDERS, MOST_PORT, Place};
pub use reason::Reason;
pub use roster::{MOST_NOW, Roster};
pub use terms::{MOST_KEPT, MOST_LIFE, NO_IMP, USUAL_LIFE};
pub use value::{id_in, text_or};
