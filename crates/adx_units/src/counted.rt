//! What a shared value counts and which rules it keeps.

ghost use Rattle.std.specs.Prelude.{◌≡◌, ℕ, Bool, List, Option, length};

/// A value that represents a list that only grows, a number of faults and a part that never changes,
/// as a desk represents its history, its disk's faults and the roster that it was opened with; and that
/// keeps rules: which lists it may represent, and which turns are right where they are called.
pub trait Counted {
    /// One item of the list.
    type Item;

    /// What stays the same for as long as the value is shared.
    type Fixed;

    /// What is kept of one call on the value: the call, its outcome, and the item that it added.
    type Turn;

    // The items, the first first.
    ghost items: { Self → List Self.Item };

    // How many faults there were.
    ghost fault_count: { Self → ℕ };

    // The part that doesn't change.
    ghost fixed: { Self → Self.Fixed };

    // The item that a turn adds to the list, if any.
    ghost adds: { Self.Turn → Option Self.Item };

    // Whether a turn met a fault that is counted.
    ghost is_fault: { Self.Turn → Bool };

    // The list is one that a value with this fixed part may represent, as a history is legal.
    ghost legal: { Self.Fixed → List Self.Item → Type 0 };

    // The turn is one that the rules give where it is called at this list.
    ghost right: { Self.Fixed → List Self.Item → Self.Turn → Type 0 };

    /// How many items the list has.
    fn count(&self) -> u64
        ensures items { result ≡ length (items self.now) };

    /// How many faults there were; at 2^64 - 1 the number stays.
    fn faults(&self) -> u64
        ensures faults { result ≡ fault_count self.now };

    /// The value's own list is legal. It does nothing.
    fn is_legal(&self)
        ensures legal { legal (Self.fixed self.now) (Self.items self.now) };
}
