//! A pass that is lent to one who calls its desk, beside the board that shows the desk's meters.
ghost use Rattle.std.proofs.Props.{props};
ghost use Rattle.std.specs.Prelude.{◌≡◌, [], IfSome};
ghost use Rattle.adx_desk.specs.Rosters.{desk_terms};
ghost use Rattle.adx_links.specs.Serving.{IsBeside};
ghost use Rattle.day_rules.specs.DayMeters.{meters_after};
ghost use Rattle.day_rules.specs.Legal.{IsLegal};
ghost use Rattle.day_rules.specs.Steps.{meters_of};
ghost use Rattle.meter_board.specs.Words.{list_read, seen};
ghost use Rattle.shared_desk.specs.Passes.{PassRuns, viewed};

use crate::names::DayNames;
use crate::round::Boards;
use adx_desk::{DayDesk, Desk, DeskFault, Done};
use adx_units::{OutOfMemory, Units};
use day_journal::Disk;
use day_machine::Batch;
use day_rules::{Answer, Ask, Meters, Seen};
use deal_floor::Roster;
use meter_board::MeterReader;
use notice_book::NoticeKind;
use shared_desk::PassDesk;
use std::alloc::Global;
use std::sync::Wait;

/// A pass with its reader, and the board that the reader reads: before meters are read the pass sees what the desk has then, and
/// the board shows it.
#[derive(Drop)]
pub(crate) struct BoardDesk<'a, 'b, R: Wait, D: Disk + Drop, L, J: DayNames<L>> {
    pub(crate) own: PassDesk<'a, R, D, MeterReader>,
    pub(crate) board: &'a Boards<'b, R, D, L, J>,
    /// Memory was refused for showing meters: some that were read since may be older.
    pub(crate) short: bool,
    pub ghost beside: { IsBeside J.first own.pass.now } by { Prim.hlevel props },
    pub ghost reader: { list_read own.view.now ≡ J.book } by { Prim.hlevel props },
}

/// Shows readers the meters of all that the desk has now, which the pass has seen then, and lets its reader read them. None where
/// memory was refused.
fn bring<'b, R: Wait, D: Disk + Drop, L, J: DayNames<L>>(
    own: &mut PassDesk<'_, R, D, MeterReader>,
    board: &Boards<'b, R, D, L, J>,
) -> Option<Meters>
    requires beside { IsBeside J.first own.old.pass.now }
    requires reader { list_read own.old.view.now ≡ J.book }
    ensures runs { PassRuns own.old.roster own.new.roster own.old.pass.now own.new.pass.now
        (viewed (list_read own.old.view.now) (seen own.old.view.now))
        (viewed (list_read own.new.view.now) (seen own.new.view.now)) [] }
    ensures legal { IsLegal (desk_terms own.new.roster.now).day own.new.pass.now.seen }
    ensures read { IfSome result (λ m. m ≡ meters_of (seen own.new.view.now)) }
    ensures meters { IfSome result (λ m. m ≡ meters_after own.new.pass.now.seen) }
    ensures pass { own.new.pass.ghost_name ≡ own.old.pass.ghost_name }
    ensures view { own.new.view.ghost_name ≡ own.old.view.ghost_name }
{
    let brought = board
        .lock(own.rt)
        .bring(own.rt, *own.alloc, own.shared, own.pass, own.view);
    // What a pass has seen is legal.
    own.shared.recall(own.pass);
    brought
}

impl<'b, R: Wait, D: Disk + Drop, L, J: DayNames<L>> DayDesk for BoardDesk<'_, 'b, R, D, L, J> {
    ghost use Rattle.std.specs.Prelude.{[], ◌∷◌};
    ghost use Rattle.std.proofs.Common.{ap};
    ghost use Rattle.adx_desk.specs.Rosters.{desk_terms};
    ghost use Rattle.adx_desk.specs.Steps.{shared};
    ghost use Rattle.meter_board.specs.Words.{list_read, seen};
    ghost use Rattle.shared_desk.specs.Passes.{viewed};
    ghost use Rattle.exchange_serving.specs.Showing.{BoardRuns, runs_join, runs_none};

    ghost terms = { λ d. desk_terms d.own.roster.now };

    ghost seen = { λ d. d.own.pass.now.seen };

    ghost way = { shared };

    ghost runs = { λ a b steps. BoardRuns a.own.roster b.own.roster a.own.pass.now b.own.pass.now
        (viewed (list_read a.own.view.now) (seen a.own.view.now)) (viewed (list_read b.own.view.now) (seen b.own.view.now))
        a.short b.short steps };

    ghost lost = { λ a b _. BoardRuns a.own.roster b.own.roster a.own.pass.now b.own.pass.now
        (viewed (list_read a.own.view.now) (seen a.own.view.now)) (viewed (list_read b.own.view.now) (seen b.own.view.now))
        a.short b.short [] };

    ghost place = { λ d. d.own.pass.ghost_name ∷ d.own.view.ghost_name ∷ [] };

    ghost none = { λ d. runs_none d.own.roster d.own.pass.now (viewed (list_read d.own.view.now) (seen d.own.view.now)) d.short };

    ghost join = { λ _ _ _ first rest. runs_join first rest };

    ghost retried = { λ _ _ _ _ _ steps _ _ lost _ ran. runs_join [] steps lost ran };

    ghost along = { λ _ _ _ ran. ran.ran.gains.along };

    ghost same = { λ _ _ _ ran. ap (λ r. desk_terms r.now) ran.ran.roster };

    fn seen(&mut self, auction: &str, digest: &[u8; 32]) -> Seen {
        self.own.seen(auction, digest)
    }

    fn tick(&mut self, now: u64) -> Result<Answer, DeskFault> {
        self.own.tick(now)
    }

    fn notice(&mut self, kind: NoticeKind, auction: &str, award: u32) -> Result<Answer, DeskFault> {
        self.own.notice(kind, auction, award)
    }

    fn ask(&mut self, ask: Ask) -> Result<Done, DeskFault> {
        self.own.ask(ask)
    }

    fn set_budget(
        &mut self,
        campaign: u32,
        change: u32,
        budget: Units,
    ) -> Result<Answer, DeskFault> {
        self.own.set_budget(campaign, change, budget)
    }

    fn batch(&mut self, batch: &mut Batch) -> Result<(), DeskFault> {
        self.own.batch(batch)
    }

    fn meters(&mut self) -> Meters {
        match bring(&mut self.own, self.board) {
            Some(meters) => meters,
            None => {
                self.short = true;
                self.own.meters()
            }
        }
    }

    fn push_books(&mut self, out: &mut String, roster: &Roster) -> Result<(), OutOfMemory> {
        self.own.push_books(out, roster)
    }
}
