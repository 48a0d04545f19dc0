//! The rule of the table, as a type.
use crate::view::SeatView;
use adx_units::Counted;
use atomic_table::TableRule;
use std::marker::PhantomData;
use std::snapshot::Snapshot;

/// What holds of words, slot and seats between any two steps.
pub struct Order<T> {
    of: PhantomData<T>,
}

impl<T: Counted> TableRule<Option<T>, SeatView<T::Item, T::Fixed, T::Turn>, Snapshot<T>>
    for Order<T> {
    ghost use Rattle.turnstile.specs.Rule.{Kept, first_view};

    ghost holds = { λ _. Kept T.items T.fault_count T.fixed };

    ghost first = { λ key. first_view T.items T.fault_count T.fixed key.value };
}
