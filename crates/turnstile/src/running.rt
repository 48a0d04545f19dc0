//! A job's run, from the value in hand to the next ticket served.
ghost use Rattle.std.specs.Prelude.{◌≡◌, ◌+◌, ◌++◌, ℕ, List, [], ◌∷◌, length, Some};
ghost use Rattle.turnstile.specs.Hand.{Begun, HasRun, InHand, with_new, with_rise, RanOnce};

use crate::job::Job;
use crate::pass::TableSeat;
use crate::turnstile::Turnstile;
use adx_units::Counted;
use std::marker::Brand;
use std::snapshot::Snapshot;

/// What a run leaves: the value after it, how many items there were before, how many were added, and by how much the
/// faults rose.
#[derive(Drop)]
struct Run<T> {
    left: Snapshot<T>,
    before: u64,
    added: u64,
    risen: u64,
}

/// Runs the job on a value, and finds what it added.
fn run_on<T: Counted, J: Job<T>>(value: &mut T, job: &mut J, lent: &mut J::Lent) -> Run<T>
    requires needs { J.needs job.old lent.old (T.fixed value.old) }
    ensures ran { HasRun T.adds T.is_fault T.items T.fault_count T.fixed T.legal T.right J.ran J.notes J.risen
        (job.old, lent.old) (job.new, lent.new) value.old value.new result.before result.added result.risen }
    ensures left { result.left.value ≡ value.new }
{
    let before = value.count();
    let faults = value.faults();
    job.run(lent, value);
    value.is_legal();
    let added = value.count() - before;
    let risen = value.faults() - faults;
    Run {
        left: Snapshot::of(value),
        before,
        added,
        risen,
    }
}

impl<T: Counted + Drop> Turnstile<T> {
    /// Runs the job on the value in hand, raises the front and the faults, gives the value back and serves the next.
    pub(crate) fn run_in<J: Job<T>>(&self, seat: &mut TableSeat<T>, job: &mut J, lent: &mut J::Lent)
        requires seat { seat.old.table_id ≡ self.now.id }
        requires hand { (x : T) × Begun T.items T.fault_count T.fixed seat.old.me x × J.needs job.old lent.old (T.fixed x) }
        ensures id { (seat.new.table_id ≡ seat.old.table_id) × (seat.new.id ≡ seat.old.id) }
        ensures ran { RanOnce T.adds T.is_fault T.legal T.right J.ran J.notes J.risen (job.old, lent.old)
            (job.new, lent.new) seat.old.me seat.new.me }
    {
        let run = self.run_there(seat, job, lent);
        self.raise_all(seat, &run.left, run.added);
        self.count_all(seat, run.risen);
        self.serve::<J, Brand>(seat, job, lent, run.before);
        self.wake_next(seat);
    }

    /// Runs the job on the value where it lies, in the slot in hand.
    fn run_there<J: Job<T>>(
        &self,
        seat: &mut TableSeat<T>,
        job: &mut J,
        lent: &mut J::Lent,
    ) -> Run<T>
        requires seat { seat.old.table_id ≡ self.now.id }
        requires hand { (x : T) × (seat.old.me.1 ≡ (0, Some x) ∷ []) × J.needs job.old lent.old (T.fixed x) }
        ensures id { (seat.new.table_id ≡ seat.old.table_id) × (seat.new.id ≡ seat.old.id) }
        ensures ran { (x : T) × (seat.old.me.1 ≡ (0, Some x) ∷ []) × HasRun T.adds T.is_fault T.items T.fault_count T.fixed
            T.legal T.right J.ran J.notes J.risen (job.old, lent.old) (job.new, lent.new) x result.left.value
            result.before result.added result.risen }
        ensures view { seat.new.me ≡ (seat.old.me.0, (0, Some result.left.value) ∷ []) }
    {
        match seat.slot_mut(&self.table.shared, 0) {
            Some(value) => run_on(value, job, lent),
            None => unreachable!(),
        }
    }

    /// Raises the front where items were added.
    pub(crate) fn raise_all(&self, seat: &mut TableSeat<T>, _value: &Snapshot<T>, n: u64)
        requires seat { seat.old.table_id ≡ self.now.id }
        requires hand { (new : List T.Item) × (m : ℕ)
            × InHand T.items T.fault_count T.fixed seat.old.me _value.now.value new m × (length new ≡ n) }
        ensures id { (seat.new.table_id ≡ seat.old.table_id) × (seat.new.id ≡ seat.old.id) }
        ensures raised { (new : List T.Item) → length new ≡ n → T.items _value.now.value ≡ seat.old.me.0.seen ++ new
            → seat.old.me.0.known ≡ length seat.old.me.0.seen → seat.new.me ≡ (with_new seat.old.me.0 new, seat.old.me.1) }
    {
        if n > 0 {
            self.raise(seat, n);
        }
    }

    /// Raises the faults where there were any.
    pub(crate) fn count_all(&self, seat: &mut TableSeat<T>, n: u64)
        requires seat { seat.old.table_id ≡ self.now.id }
        requires hand { (x : T) × (new : List T.Item) × InHand T.items T.fault_count T.fixed seat.old.me x new n }
        ensures id { (seat.new.table_id ≡ seat.old.table_id) × (seat.new.id ≡ seat.old.id) }
        ensures counted { seat.new.me ≡ (with_rise seat.old.me.0 n, seat.old.me.1) }
    {
        if n > 0 {
            self.count_faults(seat, n);
        }
    }
}
