//! Asks on a shared desk.
ghost use Rattle.std.specs.Prelude.{◌≡◌, length, IfOk};
ghost use Rattle.turnstile.specs.Passes.{IsOf};
ghost use Rattle.day_rules.specs.Asks.{IsUndecided, IsWellFormed};
ghost use Rattle.adx_desk.specs.Asked.{ask_for};
ghost use Rattle.adx_desk.specs.declared.turn.Call.{Call};
ghost use Rattle.shared_desk.specs.Callers.{AddsTurn, answer_in};
ghost use Rattle.shared_desk.specs.Jobs.{HasCopy, Makes};

use crate::ran::{Ran, as_it_is};
use crate::shared_desk::SharedDesk;
use adx_desk::{Desk, DeskFault, Done};
use day_journal::Disk;
use day_rules::{Answer, Ask};
use std::snapshot::Snapshot;
use std::sync::Wait;
use turnstile::{Job, Pass};

/// An ask to be answered, and the copy that its answer brings.
#[derive(Drop)]
struct Asking<D: Disk> {
    ask: Option<Ask>,
    wanted: Snapshot<Ask>,
    copy: Option<Ask>,
    ran: Option<Ran<D>>,
}

impl<D: Disk> Job<Desk<D>> for Asking<D> {
    ghost use Rattle.std.specs.Prelude.{◌≡◌, length, Some};
    ghost use Rattle.day_rules.specs.Asks.{IsUndecided, IsWellFormed};
    ghost use Rattle.adx_desk.specs.declared.turn.Call.{Call};
    ghost use Rattle.shared_desk.specs.Jobs.{AskedAt, raised_where_ran, turn_where_ran};

    type Lent = ();

    ghost needs = { λ j _ opened. (j.ask ≡ Some j.wanted.value)
        × IsWellFormed (length opened.budgets) j.wanted.value × IsUndecided j.wanted.value };

    ghost ran = { λ j opened before k. (k.0.wanted ≡ j.0.wanted)
        × AskedAt opened before j.0.wanted.value k.0.copy k.0.ran };

    ghost notes = { λ j. turn_where_ran (Call.Ask j.0.wanted.value) j.0.ran };

    ghost risen = { λ j. raised_where_ran j.0.ran };

    fn run(&mut self, _lent: &mut (), desk: &mut Desk<D>) {
        let ask = self.ask.take().unwrap();
        let (ran, copy) = asked(desk, ask);
        self.copy = copy;
        self.ran = Some(ran);
    }
}

/// An ask answered by the desk, and the copy of it that the history has.
fn asked<D: Disk>(desk: &mut Desk<D>, ask: Ask) -> (Ran<D>, Option<Ask>)
    requires formed { IsWellFormed (length desk.old.desk.terms.day.budgets) ask }
    requires undecided { IsUndecided ask }
    ensures made { Makes desk.old desk.new (Call.Ask ask) result.0 }
    ensures copy { HasCopy desk.old.desk.history ask result.1 result.0 }
{
    let at = as_it_is(desk);
    let done = desk.ask(ask);
    let (ended, copy) = parts_of(done);
    (Ran { at, ended }, copy)
}

/// The answer of a done ask, or its fault, and the copy.
fn parts_of(done: Result<Done, DeskFault>) -> (Result<Answer, DeskFault>, Option<Ask>)
    ensures ended { result.0 ≡ answer_in done }
    ensures copy { IfOk done (λ d. result.1 ≡ d.ask) }
{
    match done {
        Ok(Done { answer, ask }) => (Ok(answer), ask),
        Err(fault) => (Err(fault), None),
    }
}

/// What a desk answers, of its parts.
fn done_of(ended: Result<Answer, DeskFault>, copy: Option<Ask>) -> Result<Done, DeskFault>
    ensures ended { answer_in result ≡ ended }
    ensures copy { IfOk result (λ d. d.ask ≡ copy) }
{
    match ended {
        Ok(answer) => Ok(Done { answer, ask: copy }),
        Err(fault) => Err(fault),
    }
}

impl<D: Disk + Drop> SharedDesk<D> {
    /// Answers an ask, at its turn. The ask is given up on a refusal. The copy is of the ask that the history has.
    pub fn ask<R: Wait>(
        &self,
        rt: &R,
        pass: &mut Pass<Desk<D>>,
        ask: Ask,
    ) -> Result<Done, DeskFault>
        requires of { IsOf pass.old self.now }
        requires formed { IsWellFormed (length self.now.fixed.budgets) ask }
        requires undecided { IsUndecided ask }
        ensures turn { AddsTurn self.now.fixed (Call.Ask ask) (answer_in result) pass.old pass.new }
        ensures copy { IfOk result (λ d. d.ask ≡ ask_for pass.new.seen d.answer) }
    {
        let wanted = Snapshot::of(&ask);
        let mut job = Asking {
            ask: Some(ask),
            wanted,
            copy: None,
            ran: None,
        };
        self.turnstile.turn(rt, pass, &mut job, &mut ());
        pass.recall();
        let Asking {
            ask: _,
            wanted: _,
            copy,
            ran,
        } = job;
        let ran = ran.unwrap();
        done_of(ran.ended, copy)
    }
}
