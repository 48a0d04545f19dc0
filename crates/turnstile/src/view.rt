//! What a seat at the table knows. Such values are in proofs alone.
use crate::noted::Noted;
use std::collections::LinkedList;

/// Whose seat it is: the first pass's, with how many passes are out; a pass's that was split from it; one that carries
/// a message between two passes; or one that was joined and does nothing any more.
pub enum Role {
    First(u64),
    Parted,
    Brief,
    Spent,
}

/// Where a seat is in its turn, with its ticket.
pub enum Stage {
    Idle,
    Waits(u64),
    Holds(u64),
}

/// What one seat knows of the list, and what it did.
pub struct SeatView<I, F, N> {
    pub role: Role,
    pub stage: Stage,
    /// The part of the value that never changes.
    pub fixed: Option<F>,
    /// The length of the list when the table was made.
    pub opening: u64,
    pub seen: LinkedList<I>,
    /// What the seat had seen that was joined last.
    pub told: LinkedList<I>,
    /// The length of the list that it knows of.
    pub known: u64,
    pub faults: u64,
    /// The places of the items that it added.
    pub own: LinkedList<u64>,
    /// By how much it raised the faults.
    pub raised: u64,
    pub turns: LinkedList<Noted<N>>,
}
