//! The record of a day that was served.
ghost use Rattle.std.specs.Prelude.{◌≡◌, IfOk, IsTrue};
ghost use Rattle.day_close.specs.Choosing.{IsChosenByRule, is_undisturbed};
ghost use Rattle.day_close.specs.Closing.{IsWithinBudgets};
ghost use Rattle.served_record.specs.Days.{IsHistoryOf, campaign_rows};
ghost use Rattle.served_record.specs.Served.{IsRecordOf};

use crate::award_list::awards_in;
use crate::heading::{Heading, heading_of};
use crate::rows::rows_of;
use adx_units::{OutOfMemory, Sequence};
use bid_record::Record;
use day_rules::Entry;
use deal_floor::Roster;
use std::alloc::Global;

/// The format of a served day's record, in which impressions have names.
const FORMAT: u8 = 2;

/// The record of a roster's day, by its history: a row for each impression of each ask, in their order,
/// with all offers that were admitted for it, the place of the awarded one, and how that award ended.
/// Its budgets are those at the history's end, each with how often it changed.
pub fn record_of(alloc: Global, roster: &Roster, entries: &[Entry]) -> Result<Record, OutOfMemory>
    // The entries are a legal history of the roster.
    requires { IsHistoryOf roster.now.campaigns entries.now }
    // Its impressions are those of the history, and chosen offers and ends are as the books have them.
    ensures served { IfOk result (λ r. IsRecordOf roster.entry.now.day roster.entry.now.campaigns entries.now r) }
    // So the money of its billed and open awards is within each budget.
    ensures within { IfOk result (λ r. IsWithinBudgets r) }
    // Where no award was lost or expired and no budget changed, each impression went to the rule's choice.
    ensures chosen { IfOk result (λ r. IsTrue (is_undisturbed r) → IsChosenByRule r) }
{
    let heading = heading_of(alloc, roster, entries)?;
    record_by(alloc, roster, heading, entries)
}

/// The record with this heading, by its history.
fn record_by(
    alloc: Global,
    roster: &Roster,
    heading: Heading,
    entries: &[Entry],
) -> Result<Record, OutOfMemory>
    requires history { IsHistoryOf roster.now.campaigns entries.now }
    requires day { heading.day ≡ roster.now.day }
    requires campaigns { heading.campaigns ≡ campaign_rows roster.now.campaigns entries.now }
    ensures served { IfOk result (λ r. IsRecordOf roster.entry.now.day roster.entry.now.campaigns entries.now r) }
    ensures within { IfOk result (λ r. IsWithinBudgets r) }
    ensures chosen { IfOk result (λ r. IsTrue (is_undisturbed r) → IsChosenByRule r) }
{
    let awards = awards_in(alloc, entries)?;
    let rows = rows_of(alloc, entries, &awards)?;
    let Heading { day, campaigns } = heading;
    Ok(Record {
        format: FORMAT,
        day,
        campaigns,
        imps: Sequence::from(rows),
    })
}
