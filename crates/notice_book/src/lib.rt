//! The awards of a day, what notices and moments make of them, and which of them a moment ends.
//!
//! A contract sees the awards as a list by their numbers. One table rules on a notice, by its kind
//! and by the award's win and end.
//! Uses `adx_units`.
#![tactic(auto)]

mod award;
mod awards;
mod deadlines;
mod kind;
mod rules;
mod ruling;
mod tree;

pub use award::{Award, End};
pub use awards::Awards;
pub use kind::NoticeKind;
pub use rules::rule;
pub use ruling::Ruling;
