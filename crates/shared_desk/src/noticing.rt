//! Notices on a shared desk.
ghost use Rattle.turnstile.specs.Passes.{IsOf};
ghost use Rattle.adx_desk.specs.declared.turn.Call.{Call};
ghost use Rattle.shared_desk.specs.Callers.{AddsTurn};
ghost use Rattle.shared_desk.specs.Jobs.{Makes};

use crate::ran::{Ran, as_it_is};
use crate::shared_desk::SharedDesk;
use adx_desk::{Desk, DeskFault};
use day_journal::Disk;
use day_rules::Answer;
use notice_book::NoticeKind;
use std::sync::Wait;
use turnstile::{Job, Pass};

/// A notice to be answered.
#[derive(Drop)]
struct Notice<'a, D: Disk> {
    kind: NoticeKind,
    auction: &'a str,
    award: u32,
    ran: Option<Ran<D>>,
}

impl<'a, D: Disk> Job<Desk<D>> for Notice<'a, D> {
    ghost use Rattle.std.specs.Prelude.{◌≡◌, None};
    ghost use Rattle.adx_desk.specs.declared.turn.Call.{Call};
    ghost use Rattle.shared_desk.specs.Jobs.{RanAt, raised_where_ran, turn_where_ran};

    type Lent = ();

    ghost needs = { λ _ _ _. Unit {0} };

    ghost ran = { λ j opened before k.
        (k.0.kind ≡ j.0.kind) × (k.0.auction.now ≡ j.0.auction.now) × (k.0.award ≡ j.0.award)
        × RanAt opened before (Call.Notice j.0.kind j.0.auction.now j.0.award) k.0.ran };

    ghost notes = { λ j. turn_where_ran (Call.Notice j.0.kind j.0.auction.now j.0.award) j.0.ran };

    ghost risen = { λ j. raised_where_ran j.0.ran };

    fn run(&mut self, _lent: &mut (), desk: &mut Desk<D>) {
        self.ran = Some(noticed(desk, self.kind, self.auction, self.award));
    }
}

/// A notice answered by the desk.
fn noticed<D: Disk>(desk: &mut Desk<D>, kind: NoticeKind, auction: &str, award: u32) -> Ran<D>
    ensures made { Makes desk.old desk.new (Call.Notice kind auction.now award) result }
{
    let at = as_it_is(desk);
    let ended = desk.notice(kind, auction, award);
    Ran { at, ended }
}

impl<D: Disk + Drop> SharedDesk<D> {
    /// Answers a notice of an award of an auction, at its turn. Takes no memory; its only fault is the disk's.
    pub fn notice<R: Wait>(
        &self,
        rt: &R,
        pass: &mut Pass<Desk<D>>,
        kind: NoticeKind,
        auction: &str,
        award: u32,
    ) -> Result<Answer, DeskFault>
        requires of { IsOf pass.old self.now }
        ensures turn { AddsTurn self.now.fixed (Call.Notice kind auction.now award) result
            pass.old pass.new }
    {
        let mut job = Notice {
            kind,
            auction,
            award,
            ran: None,
        };
        self.turnstile.turn(rt, pass, &mut job, &mut ());
        pass.recall();
        let ran = job.ran.unwrap();
        ran.ended
    }
}
