//! The steps of a shared desk's entries, for the meters.
ghost use Rattle.std.specs.Prelude.{◌≡◌, ◌≤◌, drop, length, take, IfOk};
ghost use Rattle.turnstile.specs.Passes.{IsOf};
ghost use Rattle.day_rules.specs.DayMeters.{steps_of};
ghost use Rattle.day_rules.specs.Steps.{StayInRange, meters_of};
ghost use Rattle.shared_desk.specs.Callers.{Looks};

use crate::shared_desk::SharedDesk;
use adx_desk::Desk;
use adx_units::OutOfMemory;
use day_journal::Disk;
use day_rules::MeterStep;
use std::alloc::Global;
use std::sync::Wait;
use turnstile::{Job, Pass};

/// The steps of the entries from a place on; none where it is past the end.
#[derive(Drop)]
struct Steps {
    alloc: Global,
    n: u64,
    found: Option<Result<Vec<MeterStep>, OutOfMemory>>,
}

impl<D: Disk> Job<Desk<D>> for Steps {
    ghost use Rattle.std.specs.Prelude.{◌≡◌, [], drop, take, IfOk, IsSomeAnd};
    ghost use Rattle.day_rules.specs.DayMeters.{steps_of};
    ghost use Rattle.day_rules.specs.Steps.{StayInRange, meters_of};

    type Lent = ();

    ghost needs = { λ _ _ _. Unit {0} };

    ghost ran = { λ j _ before k. IsSomeAnd k.0.found (λ r. IfOk r (λ steps. (steps.items ≡ drop j.0.n (steps_of before))
        × StayInRange (meters_of (take j.0.n (steps_of before))) steps.items)) };

    ghost notes = { λ _. [] };

    ghost risen = { λ _. 0 };

    fn run(&mut self, _lent: &mut (), desk: &mut Desk<D>) {
        let n = self.n.min(desk.count());
        self.found = Some(copied(self.alloc, desk, n));
    }
}

/// The steps of the desk's entries from a place on.
fn copied<D: Disk>(alloc: Global, desk: &Desk<D>, n: u64) -> Result<Vec<MeterStep>, OutOfMemory>
    requires within { n ≤ length desk.now.desk.history }
    ensures steps { IfOk result (λ steps. steps.items ≡ drop n (steps_of desk.now.desk.history)) }
    ensures range { IfOk result (λ steps.
        StayInRange (meters_of (take n (steps_of desk.now.desk.history))) steps.items) }
{
    let _ = desk.entries();
    let steps = Vec::from_slice(alloc, desk.steps_since(n))?;
    Ok(steps)
}

impl<D: Disk + Drop> SharedDesk<D> {
    /// The steps of the history's entries from the place n on, from 0; none where n is past the end. Meters of the steps
    /// before them stay in their range over these.
    pub fn steps_since<R: Wait>(
        &self,
        rt: &R,
        alloc: Global,
        pass: &mut Pass<Desk<D>>,
        n: u64,
    ) -> Result<Vec<MeterStep>, OutOfMemory>
        requires of { IsOf pass.old self.now }
        ensures turn { Looks self.now.fixed pass.old pass.new }
        ensures steps { IfOk result (λ steps. steps.items ≡ drop n (steps_of pass.new.seen)) }
        ensures range { IfOk result (λ steps.
            StayInRange (meters_of (take n (steps_of pass.new.seen))) steps.items) }
    {
        let mut job = Steps {
            alloc,
            n,
            found: None,
        };
        self.turnstile.turn(rt, pass, &mut job, &mut ());
        pass.recall();
        job.found.unwrap()
    }
}
