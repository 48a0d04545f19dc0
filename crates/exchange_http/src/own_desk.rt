//! A desk that nobody else calls.
use adx_desk::{DayDesk, Desk, DeskFault, Done};
use adx_units::{OutOfMemory, Units};
use day_journal::Disk;
use day_machine::Batch;
use day_rules::{Answer, Ask, Meters, Seen};
use deal_floor::Roster;
use notice_book::NoticeKind;

/// A desk that is lent to one who calls it alone.
#[derive(Drop)]
pub struct OwnDesk<'a, D: Disk> {
    /// The desk.
    pub desk: &'a mut Desk<D>,
}

impl<D: Disk> DayDesk for OwnDesk<'_, D> {
    ghost use Rattle.std.specs.Prelude.{[], ◌∷◌};
    ghost use Rattle.adx_desk.specs.Steps.{alone};
    ghost use Rattle.exchange_http.specs.Owned.{OwnLost, OwnRuns};
    ghost use Rattle.exchange_http.specs.OwnLaws.{own_join, own_none, own_retried};

    ghost terms = { λ o. o.desk.now.desk.terms };

    ghost seen = { λ o. o.desk.now.desk.history };

    ghost way = { alone };

    ghost runs = { λ a b steps. OwnRuns D.Disk a.desk.now b.desk.now steps };

    ghost lost = { λ a b notices. OwnLost D.Disk a.desk.now b.desk.now notices };

    ghost place = { λ o. o.desk.ghost_name ∷ [] };

    ghost none = { λ o. own_none (record {
      faults = D.faults;
      reads = D.reads;
      may_leave = D.may_leave;
      moment = D.moment;
      left_since = D.left_since;
      lasts = D.lasts;
    }) o.desk.now (D.only_now o.desk.now.disk) (D.lasts_same o.desk.now.disk) };

    ghost join = { λ a b c first rest. own_join _ D.lasts_on a.desk.now b.desk.now c.desk.now first rest };

    ghost retried = { λ a b c notices outcomes steps few apart lost are ran.
        own_retried _ D.lasts_on a.desk.now b.desk.now c.desk.now notices outcomes steps few apart lost are ran };

    ghost along = { λ _ _ _ ran. ran.along };

    ghost same = { λ _ _ _ ran. ran.terms };

    fn seen(&mut self, auction: &str, digest: &[u8; 32]) -> Seen {
        // A desk's history is legal.
        let _entries = self.desk.entries();
        self.desk.seen(auction, digest)
    }

    fn tick(&mut self, now: u64) -> Result<Answer, DeskFault> {
        let _entries = self.desk.entries();
        self.desk.tick(now)
    }

    fn notice(&mut self, kind: NoticeKind, auction: &str, award: u32) -> Result<Answer, DeskFault> {
        let _entries = self.desk.entries();
        self.desk.notice(kind, auction, award)
    }

    fn ask(&mut self, ask: Ask) -> Result<Done, DeskFault> {
        let _entries = self.desk.entries();
        self.desk.ask(ask)
    }

    fn set_budget(
        &mut self,
        campaign: u32,
        change: u32,
        budget: Units,
    ) -> Result<Answer, DeskFault> {
        let _entries = self.desk.entries();
        self.desk.set_budget(campaign, change, budget)
    }

    fn batch(&mut self, batch: &mut Batch) -> Result<(), DeskFault> {
        let _entries = self.desk.entries();
        self.desk.batch(batch)
    }

    fn meters(&mut self) -> Meters {
        let _entries = self.desk.entries();
        self.desk.meters()
    }

    fn push_books(&mut self, out: &mut String, roster: &Roster) -> Result<(), OutOfMemory> {
        let _entries = self.desk.entries();
        adx_desk::push_books(out, self.desk, roster)
    }
}
