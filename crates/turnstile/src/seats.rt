//! Seats that are split and joined.
ghost use Rattle.std.specs.Prelude.{◌≡◌, ◌<◌, ◌≤◌, ℕ, [], length};
ghost use Rattle.turnstile.specs.declared.limits.TheConstants.{MOST_OUT};
ghost use Rattle.turnstile.specs.declared.view.Role.TheVariants.{First, Parted};
ghost use Rattle.turnstile.specs.declared.view.Stage.TheVariants.{Idle};
ghost use Rattle.turnstile.specs.Rule.{is_pass};
ghost use Rattle.turnstile.specs.Steps.{lender, parted, brief, united, met};

use crate::pass::TableSeat;
use crate::plays::{Meet, Part};
use crate::turnstile::Turnstile;
use adx_units::Counted;

impl<T: Counted + Drop> Turnstile<T> {
    /// Splits a pass's seat from the first one's, of which so many are out.
    pub(crate) fn split_off(&self, seat: &mut TableSeat<T>, _out: u64) -> TableSeat<T>
        requires seat { seat.old.table_id ≡ self.now.id }
        requires first { (seat.old.me.0.role ≡ First _out) × (_out < MOST_OUT) }
        requires idle { seat.old.me.0.stage ≡ Idle }
        ensures id { (seat.new.table_id ≡ seat.old.table_id) × (seat.new.id ≡ seat.old.id) × (result.table_id ≡ seat.old.table_id) }
        ensures left { seat.new.me ≡ (lender seat.old.me.0, seat.old.me.1) }
        ensures new { result.me ≡ (parted seat.old.me.0, []) }
    {
        self.table.shared.split_seat::<Part>(seat)
    }

    /// Joins a pass's seat into the first one's.
    pub(crate) fn merge(&self, seat: &mut TableSeat<T>, other: TableSeat<T>)
        requires seat { (seat.old.table_id ≡ self.now.id) × (other.table_id ≡ self.now.id) }
        requires first { (n : ℕ) × (seat.old.me.0.role ≡ First n) }
        requires parted { (other.me.0.role ≡ Parted) × (other.me.1 ≡ []) }
        requires idle { (seat.old.me.0.stage ≡ Idle) × (other.me.0.stage ≡ Idle) }
        requires short { (length seat.old.me.0.told ≤ length seat.old.me.0.seen) × (length other.me.0.told ≤ length other.me.0.seen) }
        ensures id { (seat.new.table_id ≡ seat.old.table_id) × (seat.new.id ≡ seat.old.id) }
        ensures views { seat.new.me ≡ (united seat.old.me.0 other.me.0, seat.old.me.1) }
    {
        self.table.shared.join_seat::<Part>(seat, other);
    }

    /// Carries what one seat has seen to another.
    pub(crate) fn tell(&self, from: &mut TableSeat<T>, to: &mut TableSeat<T>)
        requires seats { (from.old.table_id ≡ self.now.id) × (to.old.table_id ≡ self.now.id) }
        requires passes { (is_pass from.old.me.0.role ≡ 1) × (is_pass to.old.me.0.role ≡ 1) }
        requires idle { to.old.me.0.stage ≡ Idle }
        requires short { length to.old.me.0.told ≤ length to.old.me.0.seen }
        ensures id { (to.new.table_id ≡ to.old.table_id) × (to.new.id ≡ to.old.id) }
        ensures from { (from.new.table_id ≡ from.old.table_id) × (from.new.id ≡ from.old.id) × (from.new.me ≡ from.old.me) }
        ensures to { to.new.me ≡ (met to.old.me.0 (brief from.old.me.0), to.old.me.1) }
    {
        let message = self.table.shared.split_seat::<Meet>(from);
        self.table.shared.join_seat::<Meet>(to, message);
    }
}
