//! The turnstile, and the steps on its words.
ghost use Rattle.std.specs.Prelude.{◌≡◌, true, false, ◌+◌, ◌++◌, ◌%◌, ◌^◌, ◌<◌, ◌≤◌, ℕ, List, [], ◌∷◌, length, Some};
ghost use mathlib.Core.List.{IsPrefix};
ghost use mathlib.Core.Option.{none};
ghost use Rattle.atomic_table.specs.Table.{step};
ghost use Rattle.turnstile.specs.declared.view.Stage.TheVariants.{Idle, Waits, Holds};
ghost use Rattle.turnstile.specs.Turns.{placed};
ghost use Rattle.turnstile.specs.Places.{longer, AreOneList, AreDifferent};
ghost use Rattle.turnstile.specs.Rule.{is_pass};
ghost use Rattle.turnstile.specs.Steps.{looked};
ghost use Rattle.turnstile.specs.Hand.{InHand, with_new, with_rise};

use crate::job::Job;
use crate::order::Order;
use crate::pass::TableSeat;
use crate::plays::{Count, Learn, Look, Mark, Notes, Raise, ReadFront, Serve, Try};
use crate::view::SeatView;
use crate::words::{FAULTS, FRONT, SERVED, SLEEPERS, TICKETS, WORDS};
use adx_units::Counted;
use atomic_table::Table;
use std::alloc::Global;
use std::marker::Model;
use std::snapshot::Snapshot;

/// A value that many threads share, one turn at a time. A contract sees which turnstile it is, and the part of the value
/// that never changes: all else that is known of the value is in the passes.
#[derive(Drop)]
pub struct Turnstile<T: Counted + Drop> {
    pub(crate) table: Table<
        Option<T>,
        SeatView<T::Item, T::Fixed, T::Turn>,
        Snapshot<T>,
        Order<T>,
        Global,
    >,
}

impl<T: Counted + Drop> Model for Turnstile<T> {
    ghost use Rattle.std.specs.Prelude.{◌≡◌};
    ghost use Rattle.turnstile.specs.declared.words.TheConstants.{WORDS};
    ghost use Rattle.turnstile.specs.Passes.{TurnstileState};

    ghost Value = { TurnstileState T.Fixed };

    ghost view = { λ t. record { id = t.table.shared.table_id; fixed = T.fixed t.table.shared.key.value } };

    ghost invariant = { λ t. (t.table.shared.table_id.words ≡ WORDS) × (t.table.shared.table_id.slots ≡ 1) };
}

impl<T: Counted + Drop> Turnstile<T> {
    /// Draws the next ticket where a word shows that it is this one. Answers whether it did.
    pub(crate) fn try_draw(&self, seat: &mut TableSeat<T>, ticket: u64) -> bool
        requires seat { seat.old.table_id ≡ self.now.id }
        requires idle { seat.old.me.0.stage ≡ Idle }
        requires pass { is_pass seat.old.me.0.role ≡ 1 }
        ensures id { (seat.new.table_id ≡ seat.old.table_id) × (seat.new.id ≡ seat.old.id) }
        ensures drawn { result ≡ true → (t : ℕ) × (ticket ≡ t % 2 ^ 64)
            × (seat.new.me ≡ (record seat.old.me.0 { stage = Waits t }, seat.old.me.1)) }
        ensures same { result ≡ false → seat.new.me ≡ seat.old.me }
    {
        let found = self
            .table
            .shared
            .compare_exchange::<Try>(seat, TICKETS, ticket, ticket.wrapping_add(1));
        found == ticket
    }

    /// Answers which ticket is served. Where it is the seat's own, the seat has the value.
    pub(crate) fn look(&self, seat: &mut TableSeat<T>) -> u64
        requires seat { seat.old.table_id ≡ self.now.id }
        requires waits { (t : ℕ) × (seat.old.me.0.stage ≡ Waits t) }
        requires pass { is_pass seat.old.me.0.role ≡ 1 }
        ensures id { (seat.new.table_id ≡ seat.old.table_id) × (seat.new.id ≡ seat.old.id) }
        ensures looked { looked T.items T.fault_count T.fixed (step self.now.id.slots SERVED 0 0 none) seat.old.me result seat.new.me }
    {
        self.table.shared.load::<Look<T>>(seat, SERVED)
    }

    /// Raises the front by the n items that the value in hand has more.
    pub(crate) fn raise(&self, seat: &mut TableSeat<T>, n: u64)
        requires seat { seat.old.table_id ≡ self.now.id }
        requires hand { (x : T) × (new : List T.Item) × (m : ℕ)
            × InHand T.items T.fault_count T.fixed seat.old.me x new m × (length new ≡ n) }
        ensures id { (seat.new.table_id ≡ seat.old.table_id) × (seat.new.id ≡ seat.old.id) }
        ensures raised { (new : List T.Item) → length new ≡ n → (x : T) → seat.old.me.1 ≡ (0, Some x) ∷ []
            → T.items x ≡ seat.old.me.0.seen ++ new → seat.new.me ≡ (with_new seat.old.me.0 new, seat.old.me.1) }
    {
        self.table.shared.fetch_add::<Raise<T>>(seat, FRONT, n);
    }

    /// Raises the faults by n.
    pub(crate) fn count_faults(&self, seat: &mut TableSeat<T>, n: u64)
        requires seat { seat.old.table_id ≡ self.now.id }
        requires hand { (x : T) × (new : List T.Item) × InHand T.items T.fault_count T.fixed seat.old.me x new n }
        ensures id { (seat.new.table_id ≡ seat.old.table_id) × (seat.new.id ≡ seat.old.id) }
        ensures counted { seat.new.me ≡ (with_rise seat.old.me.0 n, seat.old.me.1) }
    {
        self.table.shared.fetch_add::<Count>(seat, FAULTS, n);
    }

    /// Gives the value back and serves the next ticket. The pass keeps the turns of the job.
    pub(crate) fn serve<J: Job<T>, K: Notes<T::Turn>>(
        &self,
        seat: &mut TableSeat<T>,
        _job: &J,
        _lent: &J::Lent,
        _at: u64,
    )
        requires turns { K.turns ≡ placed T.adds _at (J.notes (_job.now, _lent.now)) }
        requires seat { seat.old.table_id ≡ self.now.id }
        requires hand { (x : T) × InHand T.items T.fault_count T.fixed seat.old.me x [] 0 }
        ensures id { (seat.new.table_id ≡ seat.old.table_id) × (seat.new.id ≡ seat.old.id) }
        ensures noted { seat.new.me ≡ (
          record seat.old.me.0 {
            stage = Idle;
            turns = seat.old.me.0.turns
                ++ placed T.adds _at (J.notes (_job.now, _lent.now));
          },
          [],
        ) }
    {
        self.table.shared.fetch_add::<Serve<K>>(seat, SERVED, 1);
    }

    /// The length of the list.
    pub(crate) fn read_front(&self, seat: &mut TableSeat<T>) -> u64
        requires seat { seat.old.table_id ≡ self.now.id }
        requires pass { is_pass seat.old.me.0.role ≡ 1 }
        ensures id { (seat.new.table_id ≡ seat.old.table_id) × (seat.new.id ≡ seat.old.id) }
        ensures front { seat.new.me ≡ (record seat.old.me.0 { known = result }, seat.old.me.1) }
        ensures no_less { seat.old.me.0.known ≤ result }
    {
        self.table.shared.load::<ReadFront>(seat, FRONT)
    }

    /// Finds that what was learned and what was seen begin one list, and takes the longer as seen.
    pub(crate) fn learn(&self, seat: &mut TableSeat<T>)
        requires seat { seat.old.table_id ≡ self.now.id }
        requires idle { seat.old.me.0.stage ≡ Idle }
        requires pass { is_pass seat.old.me.0.role ≡ 1 }
        ensures id { (seat.new.table_id ≡ seat.old.table_id) × (seat.new.id ≡ seat.old.id) }
        ensures learned { seat.new.me ≡ (record seat.old.me.0 { seen = longer seat.old.me.0.seen seat.old.me.0.told }, seat.old.me.1) }
        ensures one { AreOneList seat.old.me.0.seen seat.old.me.0.told }
        ensures own { AreDifferent seat.old.me.0.own }
    {
        self.table.shared.load::<Learn>(seat, FRONT);
    }

    /// Says whether somebody may sleep.
    pub(crate) fn mark(&self, seat: &mut TableSeat<T>, asleep: u64)
        requires seat { seat.old.table_id ≡ self.now.id }
        ensures id { (seat.new.table_id ≡ seat.old.table_id) × (seat.new.id ≡ seat.old.id) }
        ensures same { seat.new.me ≡ seat.old.me }
    {
        self.table.shared.store::<Mark>(seat, SLEEPERS, asleep);
    }
}
