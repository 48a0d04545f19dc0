//! Waiting for one's turn, and waking who waits.
ghost use Rattle.std.specs.Prelude.{◌≡◌, ◌%◌, ◌^◌, ℕ, [], true, false};
ghost use Rattle.turnstile.specs.declared.view.Stage.TheVariants.{Idle, Waits};
ghost use Rattle.turnstile.specs.Rule.{is_pass};
ghost use Rattle.turnstile.specs.Hand.{Took};

use crate::pass::TableSeat;
use crate::turnstile::Turnstile;
use crate::words::{SERVED, SLEEPERS, TICKETS};
use adx_units::Counted;
use std::hint::spin_loop;
use std::sync::Wait;

/// How often a thread looks before it sleeps.
const SPINS: u32 = 100;

/// Nobody sleeps, or all who do were woken.
const AWAKE: u64 = 0;

/// Somebody may sleep.
const ASLEEP: u64 = 1;

impl<T: Counted + Drop> Turnstile<T> {
    /// Draws a ticket once none is out, and takes the value. The seat then has the value, and has seen all of it.
    pub(crate) fn wait_for<R: Wait>(&self, rt: &R, seat: &mut TableSeat<T>)
        requires seat { seat.old.table_id ≡ self.now.id }
        requires idle { seat.old.me.0.stage ≡ Idle }
        requires pass { is_pass seat.old.me.0.role ≡ 1 }
        requires bare { seat.old.me.1 ≡ [] }
        ensures id { (seat.new.table_id ≡ seat.old.table_id) × (seat.new.id ≡ seat.old.id) }
        ensures took { (x : T) × Took T.items T.fault_count T.fixed seat.old.me x seat.new.me }
    {
        let ticket = self.draw(rt, seat);
        // A ticket that was drawn while none was out is served already: the first look finds it.
        for _ in rt.forever() {
            if self.has_come(seat, ticket) {
                break;
            }
            spin_loop();
        }
    }

    /// Draws a ticket once none is out: while another thread has the value, nobody else has a ticket, and so nobody waits
    /// for a thread that isn't running.
    fn draw<R: Wait>(&self, rt: &R, seat: &mut TableSeat<T>) -> u64
        requires seat { seat.old.table_id ≡ self.now.id }
        requires idle { seat.old.me.0.stage ≡ Idle }
        requires pass { is_pass seat.old.me.0.role ≡ 1 }
        ensures id { (seat.new.table_id ≡ seat.old.table_id) × (seat.new.id ≡ seat.old.id) }
        ensures ticket { (t : ℕ) × (result ≡ t % 2 ^ 64) × (seat.new.me ≡ (record seat.old.me.0 { stage = Waits t }, seat.old.me.1)) }
    {
        let mut ticket = 0;
        let mut tries = 0;
        for _ in rt.forever() {
            ticket = self.table.shared.peek(SERVED);
            if self.table.shared.peek(TICKETS) == ticket && self.try_draw(seat, ticket) {
                break;
            }
            tries = self.pause(rt, seat, tries);
        }
        ticket
    }

    /// Whether the seat's ticket is served. Where it is, the seat has the value.
    pub(crate) fn has_come(&self, seat: &mut TableSeat<T>, ticket: u64) -> bool
        requires seat { seat.old.table_id ≡ self.now.id }
        requires waits { (t : ℕ) × (seat.old.me.0.stage ≡ Waits t) × (ticket ≡ t % 2 ^ 64) }
        requires pass { is_pass seat.old.me.0.role ≡ 1 }
        requires bare { seat.old.me.1 ≡ [] }
        ensures id { (seat.new.table_id ≡ seat.old.table_id) × (seat.new.id ≡ seat.old.id) }
        ensures took { result ≡ true → (x : T) × Took T.items T.fault_count T.fixed seat.old.me x seat.new.me }
        ensures same { result ≡ false → seat.new.me ≡ seat.old.me }
    {
        self.look(seat) == ticket
    }

    /// Spins at the first tries, and then sleeps. Answers the number of tries.
    fn pause<R: Wait>(&self, rt: &R, seat: &mut TableSeat<T>, tries: u32) -> u32
        requires seat { seat.old.table_id ≡ self.now.id }
        ensures id { (seat.new.table_id ≡ seat.old.table_id) × (seat.new.id ≡ seat.old.id) }
        ensures same { seat.new.me ≡ seat.old.me }
    {
        if tries < SPINS {
            spin_loop();
            return tries + 1;
        }
        self.sleep(rt, seat);
        tries
    }

    /// Sleeps until it is woken, unless no ticket is out by then. It may wake for no reason.
    fn sleep<R: Wait>(&self, rt: &R, seat: &mut TableSeat<T>)
        requires seat { seat.old.table_id ≡ self.now.id }
        ensures id { (seat.new.table_id ≡ seat.old.table_id) × (seat.new.id ≡ seat.old.id) }
        ensures same { seat.new.me ≡ seat.old.me }
    {
        // A server that finds nobody asleep has served before this: then the look below finds no ticket out.
        self.mark(seat, ASLEEP);
        if self.table.shared.peek(SERVED) != self.table.shared.peek(TICKETS) {
            self.table.shared.park(rt, SLEEPERS, ASLEEP as u32);
            // Others may sleep, and only this thread was woken.
            self.mark(seat, ASLEEP);
        }
    }

    /// Wakes one who sleeps, unless all who do were woken.
    pub(crate) fn wake_next(&self, seat: &mut TableSeat<T>)
        requires seat { seat.old.table_id ≡ self.now.id }
        ensures id { (seat.new.table_id ≡ seat.old.table_id) × (seat.new.id ≡ seat.old.id) }
        ensures same { seat.new.me ≡ seat.old.me }
    {
        if self.table.shared.peek(SLEEPERS) == ASLEEP {
            self.mark(seat, AWAKE);
            self.table.shared.wake_one(SLEEPERS);
        }
    }
}
