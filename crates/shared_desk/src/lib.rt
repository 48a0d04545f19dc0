//! A desk that threads share: one legal history for all who have a pass.
//!
//! A `SharedDesk` is a turnstile over a desk of `adx_desk`. Each call is answered at a history that begins with all
//! that its pass had seen, as the day answers there; the pass then has seen that history with the call's entries behind
//! it, and has the call among its turns. Whoever joins all passes and closes the desk has each entry as one turn of one
//! pass.
//!
//! A pass of a desk that threads share, as a desk that one calls. `PassDesk` lends a pass, and one who reads the day's
//! meters. What its steps tell is `Gains`: the pass gained just the turns of its calls, each at the history at which it
//! was taken, and what it has seen goes on from step to step.
//!
//! Uses `turnstile` for passes, and `adx_desk` for the desk.
#![tactic(auto)]

mod asking;
mod batching;
mod budgeting;
mod copying;
mod lent_desk;
mod looking;
mod noticing;
mod pass_desk;
mod ran;
mod shared_desk;
mod stepping;
mod ticking;

pub use day_rules::{MeterStep, MeterView, Meters, StepKind};
pub use lent_desk::LentDesk;
pub use pass_desk::{PassDesk, calls_are_turns};
pub use shared_desk::SharedDesk;
