//! Two books over a lossy network: an exchange's day and its outbox, the messages that it ever sent, and a bidder's
//! ledger.
//!
//! A `World` goes from step to step: asks, notices, moments, changes of budgets, pumps whose messages are lost, delivered
//! or delivered without their reply, late deliveries, replies that come after later steps, and restarts of either side.
//! Its contract says what each step does, also if memory is refused; and that after every step each bill that the bidder
//! counted is one of the exchange's, with the same auction and charge, and no two are the same. So the sum of the
//! ledger's bills is at most the exchange's; where nothing of a bill is left over the two are equal; and where they are
//! equal no bill is missing.
//!
//! Uses `day_machine` for the day, `outbox` for the posts, and `bidder_http` for the bidder.
#![tactic(auto)]

mod acknowledging;
mod answering;
mod books;
mod delivery;
mod exchange;
mod late;
mod opening;
mod playing;
mod pumping;
mod replay;
mod step;
mod world;

pub use late::Late;
pub use step::{Fate, Step};
pub use world::World;
