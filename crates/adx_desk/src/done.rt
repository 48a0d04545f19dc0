//! What a desk answers to an ask.
use day_rules::{Answer, Ask};

/// What a desk answers to an ask that it took.
#[derive(Debug, Drop)]
pub struct Done {
    /// The day's answer.
    pub answer: Answer,
    /// A copy of the ask that the history keeps, where the answer is Awarded, NoSale or Repeat.
    pub ask: Option<Ask>,
}
