//! A pass of a shared desk, as a desk that one calls.
ghost use Rattle.std.proofs.Props.{props};
ghost use Rattle.std.specs.Prelude.{◌≡◌};
ghost use Rattle.adx_desk.specs.Rosters.{desk_terms};
ghost use Rattle.adx_desk.specs.Shared.{terms_in};
ghost use Rattle.turnstile.specs.Passes.{IsOf};
ghost use Rattle.shared_desk.specs.Gains.{CallsAreTurns};

use crate::shared_desk::SharedDesk;
use adx_desk::{DayDesk, Desk, DeskFault, Done};
use adx_units::{OutOfMemory, Units};
use day_journal::Disk;
use day_machine::Batch;
use day_rules::{Answer, Ask, MeterView, Meters, Seen};
use deal_floor::Roster;
use notice_book::NoticeKind;
use std::alloc::Global;
use std::sync::Wait;
use turnstile::Pass;

/// A pass that is lent to one who calls its desk.
#[derive(Drop)]
pub struct PassDesk<'a, R, D: Disk + Drop, M> {
    /// Where the closing table's memory comes from.
    pub alloc: &'a Global,
    /// What waits for a turn.
    pub rt: &'a R,
    /// The desk.
    pub shared: &'a SharedDesk<D>,
    /// The pass.
    pub pass: &'a mut Pass<Desk<D>>,
    /// The roster that the desk was opened with.
    pub roster: &'a Roster,
    /// What reads the meters.
    pub view: &'a mut M,
    pub ghost of: { IsOf pass.now shared.now } by { Prim.hlevel props },
    pub ghost opened: { terms_in shared.now.fixed ≡ desk_terms roster.now } by { Prim.hlevel props },
}

impl<R: Wait, D: Disk + Drop, M: MeterView> DayDesk for PassDesk<'_, R, D, M> {
    ghost use Rattle.std.specs.Prelude.{[], ◌∷◌};
    ghost use Rattle.std.proofs.Common.{ap};
    ghost use Rattle.adx_desk.specs.Rosters.{desk_terms};
    ghost use Rattle.adx_desk.specs.Steps.{shared};
    ghost use Rattle.shared_desk.specs.Passes.{PassRuns, viewed};
    ghost use Rattle.shared_desk.specs.PassLaws.{runs_join, runs_none};

    ghost terms = { λ d. desk_terms d.roster.now };

    ghost seen = { λ d. d.pass.now.seen };

    ghost way = { shared };

    ghost runs = { λ a b steps. PassRuns a.roster b.roster a.pass.now b.pass.now
        (viewed (M.origin a.view.now) (M.seen a.view.now)) (viewed (M.origin b.view.now) (M.seen b.view.now)) steps };

    ghost lost = { λ a b _. PassRuns a.roster b.roster a.pass.now b.pass.now
        (viewed (M.origin a.view.now) (M.seen a.view.now)) (viewed (M.origin b.view.now) (M.seen b.view.now)) [] };

    ghost place = { λ d. d.pass.ghost_name ∷ d.view.ghost_name ∷ [] };

    ghost none = { λ d. runs_none d.roster d.pass.now (viewed (M.origin d.view.now) (M.seen d.view.now)) };

    ghost join = { λ _ _ _ first rest. runs_join first rest };

    ghost retried = { λ _ _ _ _ _ steps _ _ lost _ ran. runs_join [] steps lost ran };

    ghost along = { λ _ _ _ ran. ran.gains.along };

    ghost same = { λ _ _ _ ran. ap (λ r. desk_terms r.now) ran.roster };

    fn seen(&mut self, auction: &str, digest: &[u8; 32]) -> Seen {
        self.shared.seen(self.rt, self.pass, auction, digest)
    }

    fn tick(&mut self, now: u64) -> Result<Answer, DeskFault> {
        self.shared.tick(self.rt, self.pass, now)
    }

    fn notice(&mut self, kind: NoticeKind, auction: &str, award: u32) -> Result<Answer, DeskFault> {
        self.shared.notice(self.rt, self.pass, kind, auction, award)
    }

    fn ask(&mut self, ask: Ask) -> Result<Done, DeskFault> {
        self.shared.ask(self.rt, self.pass, ask)
    }

    fn set_budget(
        &mut self,
        campaign: u32,
        change: u32,
        budget: Units,
    ) -> Result<Answer, DeskFault> {
        self.shared
            .set_budget(self.rt, self.pass, campaign, change, budget)
    }

    fn batch(&mut self, batch: &mut Batch) -> Result<(), DeskFault> {
        self.shared.batch(self.rt, self.pass, batch)
    }

    fn meters(&mut self) -> Meters {
        // What a pass has seen is legal.
        self.shared.recall(self.pass);
        self.view.read()
    }

    fn push_books(&mut self, out: &mut String, roster: &Roster) -> Result<(), OutOfMemory> {
        let lines = self
            .shared
            .book_lines(self.rt, *self.alloc, self.pass, roster)?;
        out.push_str(lines.as_str())?;
        Ok(())
    }
}

/// The calls among the steps of a pass are the turns that it gained.
pub fn calls_are_turns()
    ensures { CallsAreTurns }
{}
