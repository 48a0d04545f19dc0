//! The notices that an exchange owes its bidders: the posts of a history, and which are still pending.
#![tactic(auto)]

mod asking;
mod calling;
mod outbox;
mod post;
mod pushing;
mod report;
mod row;
mod rows;
mod trying;

pub use calling::{Call, HTTP_PORT, call_of};
pub use outbox::{ANSWER_LIMIT, Outbox};
pub use post::{OPPORTUNITY_EXPIRED, Post, PostKind};
pub use report::{Outcome, Report};
