//! A pass of a turnstile.
ghost use Rattle.std.specs.Prelude.{◌≡◌, ◌≤◌, length, Some};
ghost use Rattle.turnstile.specs.Turns.{AreAllRight, Stand};

use crate::view::SeatView;
use adx_units::Counted;
use atomic_table::Seat;
use std::marker::Model;

/// A seat at a turnstile's table.
pub type TableSeat<T> = Seat<
    Option<T>,
    SeatView<<T as Counted>::Item, <T as Counted>::Fixed, <T as Counted>::Turn>,
>;

/// What one thread has seen of a turnstile's list, and the turns that it made. A contract sees it as a `PassView`:
/// the list seen, the length and the faults known, and the turns. It takes eight bytes and goes from thread to thread.
#[derive(Drop)]
pub struct Pass<T: Counted> {
    pub(crate) seat: Seat<Option<T>, SeatView<T::Item, T::Fixed, T::Turn>>,
    pub(crate) out: u64,
}

impl<T: Counted> Model for Pass<T> {
    ghost use Rattle.turnstile.specs.Passes.{PassView};

    ghost Value = { PassView T.Item T.Fixed T.Turn };

    ghost use Rattle.turnstile.specs.Hand.{shown, AtRest};

    ghost view = { λ p. shown p.seat.table_id p.out p.seat.me.0 };

    ghost invariant = { λ p. AtRest T.adds T.is_fault T.legal T.right p.out p.seat.me };
}

impl<T: Counted> Pass<T> {
    /// What every pass has, whatever was called: the list that it has seen is legal, each of its turns is right at the
    /// front of it that has the length of the turn's call, and has its item after that. It does nothing.
    pub fn recall(&self)
        ensures legal { (f : T.Fixed) → self.now.fixed ≡ Some f → T.legal f self.now.seen }
        ensures right { (f : T.Fixed) → self.now.fixed ≡ Some f → AreAllRight (T.right f) self.now.seen self.now.turns }
        ensures stand { Stand T.adds self.now.seen self.now.turns }
        ensures known { length self.now.seen ≤ self.now.known }
    {
        let _ = &self.seat;
    }
}
