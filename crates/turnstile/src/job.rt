//! What is done to the value in one turn at the turnstile.
ghost use Rattle.std.specs.Prelude.{◌≡◌, ◌++◌, ◌≤◌, ◌+◌, ℕ, List, length};
ghost use Rattle.turnstile.specs.Turns.{added_by, faults_in, AreRight, HasRisen};
ghost use Rattle.turnstile.specs.declared.limits.TheConstants.{MOST_ADDED};

use adx_units::Counted;

/// Work on a shared value, done while no other thread has it. It adds to the list and changes nothing of what is
/// there, and it says which turns its caller's pass keeps.
pub trait Job<T: Counted> {
    /// What it changes beside the value, which stays its caller's.
    type Lent;

    // What it needs to know of the part that never changes.
    ghost needs: { Self → Self.Lent → T.Fixed → Type 0 };

    // What a run did: the job and what is lent before, the part that never changes, the items before, and both after.
    ghost ran: { Self × Self.Lent → T.Fixed → List T.Item → Self × Self.Lent → Type 0 };

    // The turns that a job that ran gives the pass, in order. There may be none.
    ghost notes: { Self × Self.Lent → List T.Turn };

    // By how much a job that ran raised the faults, at the least, unless these are at their last value.
    ghost risen: { Self × Self.Lent → ℕ };

    /// Runs once. What it finds out stays in the job.
    fn run(&mut self, lent: &mut Self::Lent, value: &mut T)
        requires { needs self.old lent.old (T.fixed value.old) }
        ensures items { T.items value.new ≡ T.items value.old ++ added_by T.adds (notes (self.new, lent.new)) }
        ensures few { length (added_by T.adds (notes (self.new, lent.new))) ≤ MOST_ADDED }
        ensures fixed { T.fixed value.new ≡ T.fixed value.old }
        ensures no_fewer { T.fault_count value.old ≤ T.fault_count value.new }
        ensures one_at_most { T.fault_count value.new ≤ T.fault_count value.old + 1 }
        ensures right { AreRight T.adds (T.right (T.fixed value.old)) (T.items value.old) (notes (self.new, lent.new)) }
        ensures noted { faults_in T.is_fault (notes (self.new, lent.new)) ≤ risen (self.new, lent.new) }
        ensures counted { HasRisen (risen (self.new, lent.new)) (T.fault_count value.old) (T.fault_count value.new) }
        ensures ran { ran (self.old, lent.old) (T.fixed value.old) (T.items value.old) (self.new, lent.new) };
}
