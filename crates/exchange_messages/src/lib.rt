//! What a message to the exchange means, what it does on a day, and the reply to each.
//!
//! A message asks for bids, is a notice, sets a budget, wants the books or the meters, or is refused; that is one
//! relation over its head and body (`Means`), and what it is answered is one relation over the day's history
//! (`IsAnswered`): the calls that it makes, what becomes of the lanes to the bidders, and the reply. The functions read
//! what the head says, and write the replies: the exchange's answer to an ask that was awarded (OpenRTB 2.6, section
//! 4.2.1), what else a call is answered, the meters, and why a message is no call.
//!
//! What an exchange does with a message: on its day's desk, over the lanes to its bidders, at the moment of its clock.
//! A `Floor` takes messages one at a time, over a desk that is owned or shared and with lanes that are asked in turn or
//! at once. `make_ask` is the ask of a request and its answers.
//!
//! Uses `adx_desk` for the desk, `fan_out` for the bidders, and `http_service` for messages.
#![tactic(auto)]

mod asking;
mod asks;
mod changing;
mod clock;
mod floor;
mod gathering;
mod meters;
mod outcomes;
mod path;
mod refusal;
mod replies;
mod sales;
mod wanted;

pub use asks::make_ask;
pub use clock::{Clock, FixedClock};
pub use floor::Floor;
pub use gathering::{Given, Round, at_once, in_turn};
pub use meters::push_meters;
pub use outcomes::notice_reply;
pub use path::Path;
pub use refusal::Refusal;
pub use replies::{answer_done, answer_fault, answer_tick_fault, refuse};
pub use wanted::{ChangeTexts, Other, Wanted, wanted_by};
