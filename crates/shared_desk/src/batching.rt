//! Notices that are answered together on a shared desk.
ghost use Rattle.std.specs.Prelude.{◌≡◌, None, IfErr, OnErr, OnOk};
ghost use Rattle.turnstile.specs.Passes.{IsOf};
ghost use Rattle.adx_desk.specs.declared.fault.DeskFault.{DeskFault as Fault};
ghost use Rattle.shared_desk.specs.Callers.{AnswersBatch, FailsBatch};
ghost use Rattle.shared_desk.specs.Jobs.{EndsBatch, MakesAll};

use crate::ran::as_it_is;
use crate::shared_desk::SharedDesk;
use adx_desk::{Desk, DeskFault};
use day_journal::Disk;
use day_machine::Batch;
use std::snapshot::Snapshot;
use std::sync::Wait;
use turnstile::{Job, Pass};

/// How a batch ended, and the desk as it was before.
#[derive(Drop)]
pub(crate) struct RanTogether<D: Disk> {
    pub(crate) at: Snapshot<Desk<D>>,
    pub(crate) ended: Result<(), DeskFault>,
}

/// A batch to be answered.
#[derive(Drop)]
struct Together<D: Disk> {
    ran: Option<RanTogether<D>>,
}

impl<D: Disk> Job<Desk<D>> for Together<D> {
    ghost use Rattle.std.specs.Prelude.{◌≡◌, None};
    ghost use Rattle.shared_desk.specs.Jobs.{RanTogetherAt, raised_together, turns_together};

    type Lent = Batch;

    ghost needs = { λ _ batch _. batch.answers ≡ None };

    ghost ran = { λ j opened before k. RanTogetherAt opened before j.1 k.1 k.0.ran };

    ghost notes = { λ j. turns_together j.1.calls j.0.ran };

    ghost risen = { λ j. raised_together j.0.ran };

    fn run(&mut self, lent: &mut Batch, desk: &mut Desk<D>) {
        self.ran = Some(answered(desk, lent));
    }
}

/// A batch answered by the desk.
fn answered<D: Disk>(desk: &mut Desk<D>, batch: &mut Batch) -> RanTogether<D>
    requires waits { batch.old.answers ≡ None }
    ensures made { MakesAll desk.old desk.new batch.new.calls result }
    ensures ends { EndsBatch desk.old.desk.history batch.old batch.new result.ended }
{
    let at = as_it_is(desk);
    let _ = batch.len();
    let ended = desk.batch(batch);
    RanTogether { at, ended }
}

impl<D: Disk + Drop> SharedDesk<D> {
    /// Answers the calls of a batch that didn't run, together and at one turn: each behind the entries of those before it.
    /// Takes no memory; its only fault is the disk's, after which the batch didn't run and no turn is added.
    pub fn batch<R: Wait>(
        &self,
        rt: &R,
        pass: &mut Pass<Desk<D>>,
        batch: &mut Batch,
    ) -> Result<(), DeskFault>
        requires of { IsOf pass.old self.now }
        requires waits { batch.old.answers ≡ None }
        ensures ok { OnOk result (AnswersBatch self.now.fixed batch.old batch.new pass.old pass.new) }
        ensures fault { OnErr result (FailsBatch self.now.fixed pass.old pass.new) }
        ensures cause { IfErr result (λ fault. fault ≡ Fault.DiskFault) }
        ensures waits { OnErr result (batch.new ≡ batch.old) }
    {
        let mut job = Together { ran: None };
        self.turnstile.turn(rt, pass, &mut job, batch);
        pass.recall();
        let ran = job.ran.unwrap();
        ran.ended
    }
}
