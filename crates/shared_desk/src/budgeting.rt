//! Changes of budgets on a shared desk.
ghost use Rattle.std.specs.Prelude.{◌≤◌};
ghost use Rattle.turnstile.specs.Passes.{IsOf};
ghost use Rattle.campaign_book.specs.Accounts.{IsBudget};
ghost use Rattle.adx_desk.specs.declared.turn.Call.{Call};
ghost use Rattle.shared_desk.specs.Callers.{AddsTurn};
ghost use Rattle.shared_desk.specs.Jobs.{Makes};

use crate::ran::{Ran, as_it_is};
use crate::shared_desk::SharedDesk;
use adx_desk::{Desk, DeskFault};
use adx_units::Units;
use day_journal::Disk;
use day_rules::Answer;
use std::sync::Wait;
use turnstile::{Job, Pass};

/// A change of a campaign's budget to be answered.
#[derive(Drop)]
struct Budgeting<D: Disk> {
    campaign: u32,
    change: u32,
    budget: Units,
    ran: Option<Ran<D>>,
}

impl<D: Disk> Job<Desk<D>> for Budgeting<D> {
    ghost use Rattle.std.specs.Prelude.{◌≡◌, ◌≤◌};
    ghost use Rattle.campaign_book.specs.Accounts.{IsBudget};
    ghost use Rattle.adx_desk.specs.declared.turn.Call.{Call};
    ghost use Rattle.shared_desk.specs.Jobs.{RanAt, raised_where_ran, turn_where_ran};

    type Lent = ();

    ghost needs = { λ j _ _. (1 ≤ j.change) × IsBudget j.budget };

    ghost ran = { λ j opened before k.
        (k.0.campaign ≡ j.0.campaign) × (k.0.change ≡ j.0.change) × (k.0.budget ≡ j.0.budget)
        × RanAt opened before (Call.Budget j.0.campaign j.0.change j.0.budget) k.0.ran };

    ghost notes = { λ j. turn_where_ran (Call.Budget j.0.campaign j.0.change j.0.budget) j.0.ran };

    ghost risen = { λ j. raised_where_ran j.0.ran };

    fn run(&mut self, _lent: &mut (), desk: &mut Desk<D>) {
        self.ran = Some(budgeted(desk, self.campaign, self.change, self.budget));
    }
}

/// A change of a budget answered by the desk.
fn budgeted<D: Disk>(desk: &mut Desk<D>, campaign: u32, change: u32, budget: Units) -> Ran<D>
    requires change { 1 ≤ change }
    requires budget { IsBudget budget }
    ensures made { Makes desk.old desk.new (Call.Budget campaign change budget) result }
{
    let at = as_it_is(desk);
    let ended = desk.set_budget(campaign, change, budget);
    Ran { at, ended }
}

impl<D: Disk + Drop> SharedDesk<D> {
    /// Answers a change of a campaign's budget to this many units, at its turn. Changes of a campaign are numbered from 1 up.
    pub fn set_budget<R: Wait>(
        &self,
        rt: &R,
        pass: &mut Pass<Desk<D>>,
        campaign: u32,
        change: u32,
        budget: Units,
    ) -> Result<Answer, DeskFault>
        requires of { IsOf pass.old self.now }
        requires change { 1 ≤ change }
        requires budget { IsBudget budget }
        ensures turn { AddsTurn self.now.fixed (Call.Budget campaign change budget) result
            pass.old pass.new }
    {
        let mut job = Budgeting {
            campaign,
            change,
            budget,
            ran: None,
        };
        self.turnstile.turn(rt, pass, &mut job, &mut ());
        pass.recall();
        let ran = job.ran.unwrap();
        ran.ended
    }
}
