//! A change of a campaign's budget.
ghost use Rattle.std.specs.Prelude.{◌≡◌, [], length, IfOk, OnErr, string_bytes};
ghost use Rattle.adx_desk.specs.Rosters.{desk_terms};
ghost use Rattle.day_rules.specs.Replies.{set_budget};
ghost use Rattle.day_rules.specs.Runs.{IsCall};
ghost use Rattle.exchange_messages.specs.Asking.{LeavesCall, TakesCall};
ghost use Rattle.exchange_messages.specs.Courses.{reply_of};
ghost use Rattle.script_lines.specs.Changes.{change_told};

use crate::replies::{answer_done, answer_fault};
use adx_desk::DayDesk;
use adx_units::OutOfMemory;
use deal_floor::Roster;
use http_service::Answer as HttpAnswer;
use script_lines::Change;
use std::alloc::Global;

/// Takes a change of a campaign's budget, and replies to it; the reply's body is put into `out`.
pub(crate) fn take_change<Y: DayDesk>(
    alloc: Global,
    roster: &Roster,
    desk: &mut Y,
    change: Change,
    out: &mut String,
) -> Result<HttpAnswer, OutOfMemory>
    requires terms { Y.terms desk.old ≡ desk_terms roster.now }
    requires ready { IsCall (length roster.now.campaigns) (set_budget (change_told change)) }
    requires empty { string_bytes out.old ≡ [] }
    ensures taken { IfOk result (λ a.
        TakesCall Y.runs desk.old desk.new roster.entry.now (set_budget (change_told change)) (reply_of a (string_bytes out.new))) }
    ensures left { OnErr result (LeavesCall Y.runs desk.old desk.new (set_budget (change_told change))) }
    ensures place { Y.place desk.new ≡ Y.place desk.old }
{
    match desk.set_budget(change.campaign, change.number, change.budget) {
        Ok(answer) => answer_done(alloc, roster, &answer, None, out),
        Err(fault) => match fault.told() {
            Some(told) => answer_fault(out, told),
            None => Err(OutOfMemory),
        },
    }
}
