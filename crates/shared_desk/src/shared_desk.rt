//! The shared desk, and its calls that wait for nobody.
ghost use Rattle.std.specs.Prelude.{◌≡◌, ◌≤◌, ◌<◌, ◌+◌, true, false, length, Some, IfOk, OnOk, OnErr, IsOk};
ghost use Rattle.turnstile.specs.declared.limits.TheConstants.{LAST_COUNT, MOST_OUT};
ghost use Rattle.turnstile.specs.Turns.{places_of, faults_noted};
ghost use Rattle.turnstile.specs.Places.{AreAllOnce, AreDifferent, AreOneList};
ghost use Rattle.turnstile.specs.Passes.{IsOf, first_pass, joined, split_from, told};
ghost use Rattle.adx_desk.specs.Shared.{is_disk_fault, opened_with};
ghost use Rattle.shared_desk.specs.Callers.{IsRightPass, entry_of};

use adx_desk::Desk;
use adx_units::OutOfMemory;
use day_journal::Disk;
use std::alloc::Global;
use std::marker::Model;
use turnstile::{Pass, Turnstile};

/// A desk that threads share. A contract sees which shared desk it is, and what the desk was opened with: all that is known
/// of its history stands in the passes.
#[derive(Drop)]
pub struct SharedDesk<D: Disk + Drop> {
    pub(crate) turnstile: Turnstile<Desk<D>>,
}

impl<D: Disk + Drop> Model for SharedDesk<D> {
    ghost use Rattle.turnstile.specs.Passes.{TurnstileState};
    ghost use Rattle.adx_desk.specs.declared.shared.OpenedWith.{OpenedWith};

    ghost Value = { TurnstileState OpenedWith };

    ghost view = { λ s. s.turnstile };
}

impl<D: Disk + Drop> SharedDesk<D> {
    /// Shares a desk, with the first pass. The desk is given up where memory is wanting.
    pub fn new(alloc: Global, desk: Desk<D>) -> Result<(SharedDesk<D>, Pass<Desk<D>>), OutOfMemory>
        ensures first { IfOk result (λ r. r.1 ≡ first_pass r.0.id desk.desk.history desk.desk.faults r.0.fixed) }
        ensures opened { IfOk result (λ r. r.0.fixed ≡ opened_with desk.desk.terms desk.since) }
    {
        let (turnstile, pass) = Turnstile::new(alloc, desk)?;
        Ok((SharedDesk { turnstile }, pass))
    }

    /// The turnstile, for who splits and joins passes.
    pub fn turnstile(&self) -> &Turnstile<Desk<D>>
        ensures { result.now ≡ self.now }
    {
        &self.turnstile
    }

    /// How many entries the history has. Others may add to it at any moment. It waits for nobody.
    pub fn front(&self, pass: &mut Pass<Desk<D>>) -> u64
        requires of { IsOf pass.old self.now }
        ensures seen { length pass.old.seen ≤ result }
        ensures no_less { pass.old.known ≤ result }
        ensures known { pass.new ≡ record pass.old { known = result } }
    {
        self.turnstile.front(pass)
    }

    /// A pass for another thread, split from the first one. It waits for nobody and takes no memory. The answer is
    /// `OutOfMemory` exactly where `MOST_OUT` passes are out.
    pub fn split(&self, pass: &mut Pass<Desk<D>>) -> Result<Pass<Desk<D>>, OutOfMemory>
        requires of { IsOf pass.old self.now }
        requires first { pass.old.is_first ≡ true }
        ensures pass { IfOk result (λ p. p ≡ split_from pass.old) }
        ensures out { OnOk result (pass.new ≡ record pass.old { out = pass.old.out + 1 }) }
        ensures room { OnOk result (pass.old.out < MOST_OUT) }
        ensures full { OnErr result (pass.old.out ≡ MOST_OUT) }
        ensures same { OnErr result (pass.new ≡ pass.old) }
    {
        self.turnstile.split(pass)
    }

    /// Joins a pass that was split from the first one into it. It waits for nobody.
    pub fn join(&self, into: &mut Pass<Desk<D>>, from: Pass<Desk<D>>)
        requires into_of { IsOf into.old self.now }
        requires from_of { IsOf from self.now }
        requires first { into.old.is_first ≡ true }
        requires split { from.is_first ≡ false }
        requires out { 0 < into.old.out }
        ensures joined { into.new ≡ joined into.old from }
        ensures one { AreOneList into.old.seen from.seen }
        ensures own { AreDifferent (places_of entry_of into.new.turns) }
    {
        self.turnstile.join(into, from);
    }

    /// Lets each of two passes know what the other has seen and knows. It waits for nobody and takes no memory.
    pub fn meet(&self, a: &mut Pass<Desk<D>>, b: &mut Pass<Desk<D>>) -> Result<(), OutOfMemory>
        requires a_of { IsOf a.old self.now }
        requires b_of { IsOf b.old self.now }
        ensures ok { IsOk result }
        ensures a { a.new ≡ told a.old b.old }
        ensures b { b.new ≡ told b.old a.old }
        ensures one { AreOneList a.old.seen b.old.seen }
        ensures same { a.new.seen ≡ b.new.seen }
    {
        self.turnstile.meet(a, b)
    }

    /// Ends the sharing and gives the desk back. No other pass may be out.
    pub fn close(self, pass: Pass<Desk<D>>) -> Desk<D>
        requires of { IsOf pass self }
        requires first { pass.is_first ≡ true }
        requires none_out { pass.out ≡ 0 }
        ensures history { result.desk.history ≡ pass.seen }
        ensures opened { opened_with result.desk.terms result.since ≡ self.fixed }
        ensures faults { pass.faults ≤ result.desk.faults }
        ensures counted { result.desk.faults < LAST_COUNT
            → faults_noted (λ t. is_disk_fault t.ended) pass.turns ≤ result.desk.faults }
        ensures own { AreAllOnce pass.opening (length pass.seen) (places_of entry_of pass.turns) }
        ensures right { IsRightPass self.fixed pass }
    {
        pass.recall();
        self.turnstile.close(pass)
    }

    /// What every pass of this desk has, whatever was called: its history is legal, and each of its turns is one of the day at
    /// the front of that history that has the length of the turn's call. It does nothing.
    pub fn recall(&self, pass: &Pass<Desk<D>>)
        requires of { IsOf pass.now self.now }
        ensures right { IsRightPass self.now.fixed pass.now }
    {
        pass.recall();
    }
}
