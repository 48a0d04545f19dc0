//! A turn as a pass keeps it.

/// A turn, with the length of the list at its call. Passes keep them in contracts alone: no value of it is made.
pub struct Noted<N> {
    /// How many items the list had when the turn was called.
    pub at: u64,
    /// The call, its outcome, and the item that it added.
    pub turn: N,
}
