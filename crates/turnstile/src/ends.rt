//! How a table is made, and what it leaves.
ghost use Rattle.std.specs.Prelude.{◌≡◌, ℕ, [], ◌∷◌, length, Some, IfOk};
ghost use Rattle.turnstile.specs.declared.view.Role.TheVariants.{First};
ghost use Rattle.turnstile.specs.Rule.{first_view, Shows};
ghost use Rattle.turnstile.specs.Hand.{IsAllOf, IsLastSeat};

use crate::pass::TableSeat;
use crate::turnstile::Turnstile;
use adx_units::{Counted, OutOfMemory};
use atomic_table::{Refused, Table};
use std::alloc::Global;
use std::snapshot::Snapshot;

impl<T: Counted + Drop> Turnstile<T> {
    /// A turnstile whose slot has this value, with the seat of its first pass.
    pub(crate) fn with_table(
        alloc: Global,
        slots: Vec<Option<T>>,
        about: Snapshot<T>,
        words: &[u64],
    ) -> Result<(Turnstile<T>, TableSeat<T>), OutOfMemory>
        requires slots { slots.items ≡ Some about.value ∷ [] }
        requires words { Shows words.now 0 0 (length (T.items about.value)) (T.fault_count about.value) }
        ensures of { IfOk result (λ r. (r.1.table_id ≡ r.0.id) × (r.0.fixed ≡ T.fixed about.value)) }
        ensures first { IfOk result (λ r. r.1.me ≡ (first_view T.items T.fault_count T.fixed about.value, [])) }
    {
        match Table::new(alloc, words, slots, &about) {
            Ok((table, seat)) => Ok((Turnstile { table }, seat)),
            Err(Refused { slots: _ }) => Err(OutOfMemory),
        }
    }

    /// The value, once no pass is out.
    pub(crate) fn take_apart(self, seat: TableSeat<T>) -> T
        requires seat { seat.table_id ≡ self.id }
        requires first { IsLastSeat seat.me.0 }
        ensures all { IsAllOf T.items T.fault_count T.fixed seat.me.0 result }
    {
        let Turnstile { table } = self;
        let mut closed = table.close_with(seat);
        let value = closed.take(0);
        closed.free();
        value.unwrap()
    }
}
