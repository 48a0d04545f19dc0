//! Ticks on a shared desk.
ghost use Rattle.std.specs.Prelude.{◌<◌, ◌^◌};
ghost use Rattle.turnstile.specs.Passes.{IsOf};
ghost use Rattle.adx_desk.specs.declared.turn.Call.{Call};
ghost use Rattle.shared_desk.specs.Callers.{AddsTurn};
ghost use Rattle.shared_desk.specs.Jobs.{Makes};

use crate::ran::{Ran, as_it_is};
use crate::shared_desk::SharedDesk;
use adx_desk::{Desk, DeskFault};
use day_journal::Disk;
use day_rules::Answer;
use std::sync::Wait;
use turnstile::{Job, Pass};

/// A moment in seconds that has come.
#[derive(Drop)]
struct Tick<D: Disk> {
    now: u64,
    ran: Option<Ran<D>>,
}

impl<D: Disk> Job<Desk<D>> for Tick<D> {
    ghost use Rattle.std.specs.Prelude.{◌≡◌, ◌<◌, ◌^◌};
    ghost use Rattle.adx_desk.specs.declared.turn.Call.{Call};
    ghost use Rattle.shared_desk.specs.Jobs.{RanAt, raised_where_ran, turn_where_ran};

    type Lent = ();

    ghost needs = { λ j _ _. j.now < 2 ^ 63 };

    ghost ran = { λ j opened before k. (k.0.now ≡ j.0.now) × RanAt opened before (Call.Tick j.0.now) k.0.ran };

    ghost notes = { λ j. turn_where_ran (Call.Tick j.0.now) j.0.ran };

    ghost risen = { λ j. raised_where_ran j.0.ran };

    fn run(&mut self, _lent: &mut (), desk: &mut Desk<D>) {
        self.ran = Some(ticked(desk, self.now));
    }
}

/// A tick answered by the desk.
fn ticked<D: Disk>(desk: &mut Desk<D>, now: u64) -> Ran<D>
    requires moment { now < 2 ^ 63 }
    ensures made { Makes desk.old desk.new (Call.Tick now) result }
{
    let at = as_it_is(desk);
    let ended = desk.tick(now);
    Ran { at, ended }
}

impl<D: Disk + Drop> SharedDesk<D> {
    /// Answers a tick at a moment in seconds, at its turn. Takes no memory; its only fault is the disk's.
    pub fn tick<R: Wait>(
        &self,
        rt: &R,
        pass: &mut Pass<Desk<D>>,
        now: u64,
    ) -> Result<Answer, DeskFault>
        requires of { IsOf pass.old self.now }
        requires moment { now < 2 ^ 63 }
        ensures turn { AddsTurn self.now.fixed (Call.Tick now) result pass.old pass.new }
    {
        let mut job = Tick { now, ran: None };
        self.turnstile.turn(rt, pass, &mut job, &mut ());
        pass.recall();
        let ran = job.ran.unwrap();
        ran.ended
    }
}
