//! One value that many threads share, one turn at a time.
//!
//! A `Turnstile` keeps the value, and a `Pass` is what one thread has seen of its list and the turns that it made.
//! The contracts say that all passes see one list: what a pass saw begins what it sees next, each item past the first
//! ones is of one turn, and two passes that met have seen the same. Nothing is said of waiting, order or fairness.
//! Uses adx_units and the kit's `atomic_table`.
#![tactic(auto)]

mod calls;
mod ends;
mod job;
mod limits;
mod noted;
mod order;
mod pass;
mod plays;
mod running;
mod seats;
mod turnstile;
mod view;
mod waiting;
mod words;

pub use job::Job;
pub use limits::{LAST_COUNT, MOST_ADDED, MOST_OUT};
pub use noted::Noted;
pub use pass::Pass;
pub use turnstile::Turnstile;
