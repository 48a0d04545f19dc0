//! The body of the command that lists a campaign's days.
ghost use Rattle.std.specs.Prelude.{◌≡◌, ◌++◌, ℕ, List, Err, IfOk, IsOk, OnOk, OnErr, string_bytes};
ghost use Rattle.adx_io.specs.Streams.{WhereTold};
ghost use Rattle.day_archive.specs.declared.refusal.KeeperRefusal.TheVariants.{KeeperFault};
ghost use Rattle.day_archive.specs.Answers.{HasKeeperCause, TellsDays};
ghost use Rattle.command_archive.specs.Courses.{Counts, IsAtMostUpgraded, ListsDays, ListsUpgraded, ending, list_text, rows_in};

use crate::filing::Filing;
use crate::lines::{push_refusal, push_rows};
use adx_units::OutOfMemory;
use day_archive::{DayRow, Keeper, KeeperRefusal};

/// How a command ends by a refusal.
pub(crate) fn ending_of(refusal: &KeeperRefusal) -> Filing
    ensures { result ≡ ending {T = ℕ} (Err refusal.now) }
{
    match refusal {
        KeeperRefusal::KeeperFault => Filing::Fault,
        KeeperRefusal::DayThere { .. } | KeeperRefusal::BadDate { .. } | KeeperRefusal::BadRange =>
            { Filing::Refused }
    }
}

/// Upgrades the keeper, and then lists.
fn upgrade_and_list<P: Keeper>(
    keeper: &mut P,
    seat: &str,
    cid: &str,
    first: &str,
    last: &str,
) -> Result<Vec<DayRow>, KeeperRefusal>
    ensures days { TellsDays first.now last.now result }
    ensures kept { WhereTold (P.contents keeper.old) (P.contents keeper.new)
        (ListsUpgraded seat.now cid.now first.now last.now (rows_in (λ v. v.items) result)) }
    ensures cause { HasKeeperCause (P.faults keeper.old) (P.faults keeper.new) result }
{
    keeper.upgrade()?;
    keeper.days_of(seat, cid, first, last)
}

/// Writes what was answered, and says how the command ends.
fn push_listing(
    out: &mut String,
    answer: Result<Vec<DayRow>, KeeperRefusal>,
) -> Result<Filing, OutOfMemory>
    ensures text { OnOk result (string_bytes out.new ≡ string_bytes out.old ++ list_text (rows_in (λ v. v.items) answer)) }
    ensures ends { IfOk result (λ end. end ≡ ending answer) }
    ensures fault { answer ≡ Err KeeperFault → IsOk result }
{
    match answer {
        Ok(rows) => {
            push_rows(out, rows.as_slice())?;
            Ok(Filing::Done)
        }
        Err(refusal) => {
            let end = ending_of(&refusal);
            push_refusal(out, refusal)?;
            Ok(end)
        }
    }
}

/// Lists a campaign's days from the first to the last, both included, in order of day: a line for each is put at the end
/// of `out`, or a line that says why not. The keeper is upgraded first.
pub fn list_days<P: Keeper>(
    keeper: &mut P,
    seat: &str,
    cid: &str,
    first: &str,
    last: &str,
    out: &mut String,
) -> Result<Filing, OutOfMemory>
    ensures listed { IfOk result (λ end. (written : List ℕ) × (string_bytes out.new ≡ string_bytes out.old ++ written)
        × ListsDays seat.now cid.now first.now last.now (P.contents keeper.old) (P.contents keeper.new) written end) }
    ensures refused { OnErr result (WhereTold (P.contents keeper.old) (P.contents keeper.new) IsAtMostUpgraded) }
    ensures cause { IfOk result (Counts (P.faults keeper.old) (P.faults keeper.new)) }
    ensures stands { OnErr result (P.faults keeper.new ≡ P.faults keeper.old) }
{
    let answer = upgrade_and_list(keeper, seat, cid, first, last);
    push_listing(out, answer)
}
