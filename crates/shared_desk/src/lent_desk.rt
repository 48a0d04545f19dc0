//! A desk that is lent to one who calls it.
use adx_desk::{DayDesk, DeskFault, Done};
use adx_units::{OutOfMemory, Units};
use day_machine::Batch;
use day_rules::{Answer, Ask, Meters, Seen};
use deal_floor::Roster;
use notice_book::NoticeKind;

/// A desk that is lent to one who calls it: what it tells is what the desk tells.
#[derive(Drop)]
pub struct LentDesk<'a, Y> {
    /// The desk.
    pub desk: &'a mut Y,
}

impl<Y: DayDesk> DayDesk for LentDesk<'_, Y> {
    ghost use Rattle.std.specs.Prelude.{◌∷◌};

    ghost terms = { λ d. Y.terms d.desk.now };

    ghost seen = { λ d. Y.seen d.desk.now };

    ghost way = { Y.way };

    ghost runs = { λ a b steps. Y.runs a.desk.now b.desk.now steps };

    ghost lost = { λ a b notices. Y.lost a.desk.now b.desk.now notices };

    ghost place = { λ d. d.desk.ghost_name ∷ Y.place d.desk.now };

    ghost none = { λ d. Y.none d.desk.now };

    ghost join = { λ a b c first rest. Y.join a.desk.now b.desk.now c.desk.now first rest };

    ghost retried = { λ a b c notices outcomes steps. Y.retried a.desk.now b.desk.now c.desk.now notices outcomes steps };

    ghost along = { λ a b steps. Y.along a.desk.now b.desk.now steps };

    ghost same = { λ a b steps. Y.same a.desk.now b.desk.now steps };

    fn seen(&mut self, auction: &str, digest: &[u8; 32]) -> Seen {
        self.desk.seen(auction, digest)
    }

    fn tick(&mut self, now: u64) -> Result<Answer, DeskFault> {
        self.desk.tick(now)
    }

    fn notice(&mut self, kind: NoticeKind, auction: &str, award: u32) -> Result<Answer, DeskFault> {
        self.desk.notice(kind, auction, award)
    }

    fn ask(&mut self, ask: Ask) -> Result<Done, DeskFault> {
        self.desk.ask(ask)
    }

    fn set_budget(
        &mut self,
        campaign: u32,
        change: u32,
        budget: Units,
    ) -> Result<Answer, DeskFault> {
        self.desk.set_budget(campaign, change, budget)
    }

    fn batch(&mut self, batch: &mut Batch) -> Result<(), DeskFault> {
        self.desk.batch(batch)
    }

    fn meters(&mut self) -> Meters {
        self.desk.meters()
    }

    fn push_books(&mut self, out: &mut String, roster: &Roster) -> Result<(), OutOfMemory> {
        self.desk.push_books(out, roster)
    }
}
