//! The calls.
ghost use Rattle.std.specs.Prelude.{◌≡◌, ◌+◌, ◌<◌, ◌≤◌, true, false, length, Some, IfOk, OnOk, OnErr, IsOk};
ghost use Rattle.turnstile.specs.declared.limits.TheConstants.{LAST_COUNT};
ghost use Rattle.turnstile.specs.Turns.{places_of, faults_noted, Stand};
ghost use Rattle.turnstile.specs.Places.{AreOneList, AreDifferent, AreAllOnce};
ghost use Rattle.turnstile.specs.Passes.{IsOf, first_pass, split_from, told, joined, IsTurn};

use crate::job::Job;
use crate::limits::MOST_OUT;
use crate::pass::Pass;
use crate::turnstile::Turnstile;
use crate::words::{FAULTS, FRONT, WORDS};
use adx_units::{Counted, OutOfMemory};
use std::alloc::Global;
use std::snapshot::Snapshot;
use std::sync::Wait;

impl<T: Counted + Drop> Turnstile<T> {
    /// A turnstile for this value, with the first pass. The value is given up if memory is refused.
    pub fn new(alloc: Global, value: T) -> Result<(Turnstile<T>, Pass<T>), OutOfMemory>
        ensures first { IfOk result
            (λ r. r.1 ≡ first_pass r.0.id (T.items value) (T.fault_count value) (T.fixed value)) }
        ensures fixed { IfOk result (λ r. r.0.fixed ≡ T.fixed value) }
    {
        let mut words = [0; WORDS];
        words[FRONT] = value.count();
        words[FAULTS] = value.faults();
        value.is_legal();
        let about = Snapshot::of(&value);
        let mut slots = Vec::new(alloc);
        if slots.push(Some(value)).is_err() {
            return Err(OutOfMemory);
        }
        let (turnstile, seat) = Turnstile::with_table(alloc, slots, about, &words)?;
        Ok((turnstile, Pass { seat, out: 0 }))
    }

    /// Waits for a turn, and runs the job in it with what is lent to it. Memory isn't taken.
    pub fn turn<J: Job<T>, R: Wait>(
        &self,
        rt: &R,
        pass: &mut Pass<T>,
        job: &mut J,
        lent: &mut J::Lent,
    )
        requires of { IsOf pass.old self.now }
        requires needs { J.needs job.old lent.old self.now.fixed }
        ensures turn { IsTurn T.adds J.ran J.notes J.risen (job.old, lent.old) (job.new, lent.new) pass.old pass.new }
        ensures stand { Stand T.adds pass.new.seen pass.new.turns }
    {
        self.wait_for(rt, &mut pass.seat);
        self.run_in(&mut pass.seat, job, lent);
    }

    /// How many items the list has. Others may add to it at any moment. It waits for nobody.
    pub fn front(&self, pass: &mut Pass<T>) -> u64
        requires of { IsOf pass.old self.now }
        ensures seen { length pass.old.seen ≤ result }
        ensures no_less { pass.old.known ≤ result }
        ensures known { pass.new ≡ record pass.old { known = result } }
    {
        self.read_front(&mut pass.seat)
    }

    /// A pass for another thread, split from the first one. It waits for nobody and takes no memory. The answer is
    /// `OutOfMemory` exactly where `MOST_OUT` passes are out.
    pub fn split(&self, pass: &mut Pass<T>) -> Result<Pass<T>, OutOfMemory>
        requires of { IsOf pass.old self.now }
        requires first { pass.old.is_first ≡ true }
        ensures pass { IfOk result (λ p. p ≡ split_from pass.old) }
        ensures out { OnOk result (pass.new ≡ record pass.old { out = pass.old.out + 1 }) }
        ensures room { OnOk result (pass.old.out < MOST_OUT) }
        ensures full { OnErr result (pass.old.out ≡ MOST_OUT) }
        ensures same { OnErr result (pass.new ≡ pass.old) }
    {
        if pass.out >= MOST_OUT {
            return Err(OutOfMemory);
        }
        let seat = self.split_off(&mut pass.seat, pass.out);
        pass.out += 1;
        Ok(Pass { seat, out: 0 })
    }

    /// Joins a pass that was split from the first one into it. It waits for nobody.
    pub fn join(&self, into: &mut Pass<T>, from: Pass<T>)
        requires into_of { IsOf into.old self.now }
        requires from_of { IsOf from self.now }
        requires first { into.old.is_first ≡ true }
        requires split { from.is_first ≡ false }
        requires out { 0 < into.old.out }
        ensures joined { into.new ≡ joined into.old from }
        ensures one { AreOneList into.old.seen from.seen }
        ensures own { AreDifferent (places_of T.adds into.new.turns) }
        ensures stand { Stand T.adds into.new.seen into.new.turns }
    {
        let Pass { seat, out: _ } = from;
        self.merge(&mut into.seat, seat);
        self.learn(&mut into.seat);
        into.out -= 1;
    }

    /// Lets each of two passes know what the other has seen and knows. It waits for nobody and takes no memory.
    pub fn meet(&self, a: &mut Pass<T>, b: &mut Pass<T>) -> Result<(), OutOfMemory>
        requires a_of { IsOf a.old self.now }
        requires b_of { IsOf b.old self.now }
        ensures ok { IsOk result }
        ensures a { a.new ≡ told a.old b.old }
        ensures b { b.new ≡ told b.old a.old }
        ensures one { AreOneList a.old.seen b.old.seen }
        ensures same { a.new.seen ≡ b.new.seen }
        ensures a_stand { Stand T.adds a.new.seen a.new.turns }
        ensures b_stand { Stand T.adds b.new.seen b.new.turns }
    {
        self.inform(a, b);
        self.inform(b, a);
        Ok(())
    }

    /// Lets one pass know what another has seen and knows.
    pub(crate) fn inform(&self, from: &mut Pass<T>, to: &mut Pass<T>)
        requires from_of { IsOf from.old self.now }
        requires to_of { IsOf to.old self.now }
        ensures from { from.new ≡ from.old }
        ensures to { to.new ≡ told to.old from.old }
        ensures one { AreOneList to.old.seen from.old.seen }
        ensures stand { Stand T.adds to.new.seen to.new.turns }
    {
        self.tell(&mut from.seat, &mut to.seat);
        self.learn(&mut to.seat);
    }

    /// Ends the turnstile and gives the value back. No other pass may be out.
    pub fn close(self, pass: Pass<T>) -> T
        requires of { IsOf pass self }
        requires first { pass.is_first ≡ true }
        requires none_out { pass.out ≡ 0 }
        ensures list { T.items result ≡ pass.seen }
        ensures known { pass.known ≡ length pass.seen }
        ensures fixed { pass.fixed ≡ Some (T.fixed result) }
        ensures faults { pass.faults ≤ T.fault_count result }
        ensures counted { T.fault_count result < LAST_COUNT
            → faults_noted T.is_fault pass.turns ≤ T.fault_count result }
        ensures own { AreAllOnce pass.opening (length pass.seen) (places_of T.adds pass.turns) }
        ensures stand { Stand T.adds pass.seen pass.turns }
    {
        let Pass { seat, out: _ } = pass;
        self.take_apart(seat)
    }
}
