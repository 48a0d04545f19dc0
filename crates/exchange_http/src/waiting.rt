//! Notices that wait, and are answered together.
ghost use Rattle.std.proofs.Props.{props};
ghost use Rattle.std.specs.Prelude.{◌≡◌, ◌≤◌, ◌==◌, ◌&&◌, [], length, None, IfOk, OnOk, OnErr, MatchBool, vec_capacity};
ghost use Rattle.day_machine.specs.Batches.{AreApart, MayJoin, joined};
ghost use Rattle.day_machine.specs.declared.batch.TheConstants.{BATCH_LIMIT as batch_limit};
ghost use Rattle.adx_http.specs.Written.{Writes, WritesBy};
ghost use Rattle.adx_io.specs.Streams.{HasCause};
ghost use Rattle.exchange_http.specs.Running.{FlushFails, Flushes, outcome_bytes, outcomes_bytes};

use crate::outlet::Outlet;
use adx_desk::{DayDesk, take_all};
use adx_http::WriteFault;
use adx_io::Failed;
use adx_units::OutOfMemory;
use day_machine::{BATCH_LIMIT, Batch};
use day_rules::Answer;
use exchange_messages::notice_reply;
use notice_book::NoticeKind;
use std::alloc::Global;

/// Notices that wait. Their outcomes have room of their own: the day's answer, or None where the disk's fault gave the
/// notice up.
#[derive(Drop)]
pub(crate) struct Waiting {
    batch: Batch,
    outcomes: Vec<Option<Answer>>,
    ghost waits: { batch.answers ≡ None },
    ghost few: { length batch.calls ≤ batch_limit },
    ghost apart: { AreApart batch.calls } by { Prim.hlevel props },
    ghost room: { batch_limit ≤ vec_capacity outcomes },
}

impl Waiting {
    /// No notice waits.
    pub(crate) fn new(alloc: Global) -> Result<Waiting, OutOfMemory>
        ensures { IfOk result (λ w. w.batch.calls ≡ []) }
    {
        let batch = Batch::new(alloc)?;
        let outcomes = Vec::with_capacity(alloc, BATCH_LIMIT)?;
        Ok(Waiting { batch, outcomes })
    }

    /// Lets a notice wait after the others. False, and nothing is changed, exactly where 32 wait, or one of that award,
    /// or the auction's id isn't of 1 to 128 bytes.
    pub(crate) fn add(&mut self, kind: NoticeKind, auction: &str, award: u32) -> bool
        ensures { MatchBool result
            (MayJoin self.old.batch (record { kind = kind; auction = auction.now; award = award })
            × (self.new.batch ≡ joined self.old.batch (record { kind = kind; auction = auction.now; award = award })))
            ((MayJoin self.old.batch (record { kind = kind; auction = auction.now; award = award }) → ⊥) × (self.new.batch ≡ self.old.batch)) }
    {
        self.batch.add(kind, auction, award)
    }

    /// Takes the notices that wait, and gathers the replies to them in their order; after the last of them the
    /// connection closes or stays.
    pub(crate) fn flush<Y: DayDesk, O: Outlet>(
        &mut self,
        desk: &mut Y,
        outlet: &mut O,
        close: bool,
    ) -> Result<(), Failed>
        ensures flushes { OnOk result (Flushes Y.runs close self.old.batch.calls
            desk.old desk.new (O.held outlet.old) (O.held outlet.new) (O.least outlet.old) (O.waiting outlet.old) (O.least outlet.new) (O.waiting outlet.new)) }
        ensures fails { OnErr result (FlushFails Y.runs close self.old.batch.calls
            desk.old desk.new (O.held outlet.old) (O.held outlet.new) (O.least outlet.old) (O.waiting outlet.old) (O.least outlet.new) (O.waiting outlet.new)) }
        ensures empty { OnOk result (self.new.batch.calls ≡ []) }
        ensures cause { HasCause (O.faults outlet.old) (O.faults outlet.new) result }
        ensures place { O.place outlet.new ≡ O.place outlet.old }
        ensures desk { Y.place desk.new ≡ Y.place desk.old }
    {
        let count = self.batch.len();
        if count == 0 {
            return Ok(());
        }
        match outlet.expect(count) {
            Ok(()) => {
                take_all(desk, &mut self.batch, &mut self.outcomes);
                match write_outcomes(outlet, self.outcomes.as_slice(), close) {
                    Ok(()) => Ok(()),
                    Err(_) => Err(Failed),
                }
            }
            Err(failed) => Err(failed),
        }
    }
}

/// Gathers the replies to notices; after the last of them the connection closes or stays.
fn write_outcomes<O: Outlet>(
    outlet: &mut O,
    outcomes: &[Option<Answer>],
    close: bool,
) -> Result<(), WriteFault>
    ensures written { Writes (O.held outlet.old) (O.held outlet.new) (outcomes_bytes close outcomes.now) result }
    ensures cause { WritesBy (O.faults outlet.old) (O.faults outlet.new) result }
    ensures same { (O.waiting outlet.new ≡ O.waiting outlet.old) × (O.least outlet.new ≡ O.least outlet.old) }
    ensures place { O.place outlet.new ≡ O.place outlet.old }
{
    let mut rest = outcomes;
    'outcomes: while let Some((first, behind)) = rest.split_first() {
        match write_outcome(outlet, first, closes_behind(close, behind)) {
            Ok(()) => rest = behind,
            Err(failed) => return Err(failed),
        }
    }
    Ok(())
}

/// Whether the connection closes after a reply that these come after.
fn closes_behind(close: bool, behind: &[Option<Answer>]) -> bool
    ensures { result ≡ (close && (length behind.now == 0)) }
{
    close && behind.is_empty()
}

/// Gathers the reply to a notice.
pub(crate) fn write_outcome<O: Outlet>(
    outlet: &mut O,
    outcome: &Option<Answer>,
    close: bool,
) -> Result<(), WriteFault>
    ensures written { Writes (O.held outlet.old) (O.held outlet.new) (outcome_bytes close outcome.now) result }
    ensures cause { WritesBy (O.faults outlet.old) (O.faults outlet.new) result }
    ensures same { (O.waiting outlet.new ≡ O.waiting outlet.old) × (O.least outlet.new ≡ O.least outlet.old) }
    ensures place { O.place outlet.new ≡ O.place outlet.old }
{
    let (answer, body) = notice_reply(outcome);
    outlet.answer(answer, body.as_bytes(), close, false)
}
