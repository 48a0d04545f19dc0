//! What a record takes of a day's roster and of its history: the day, and the campaigns at the end.
ghost use Rattle.std.proofs.Props.{props};
ghost use Rattle.std.specs.Prelude.{◌≡◌, All, IfOk};
ghost use Rattle.bid_record.specs.Records.{IsCampaign};
ghost use Rattle.served_record.specs.Days.{IsHeading, IsHistoryOf, campaign_rows as rows_by};
ghost use Rattle.served_record.specs.Steps.{MayChange, MayCome, opened_row, opened_rows as opened_by, rebudgeted, rows_after};

use crate::copies::copy_of;
use adx_units::{OutOfMemory, Sequence, Text, Units};
use bid_record::CampaignRow;
use day_rules::Entry;
use deal_floor::{Campaign, Roster};
use std::alloc::Global;

/// The first lines of a record: its date, and its campaigns at the end of a history.
#[derive(Debug, Drop)]
pub(crate) struct Heading {
    /// The day, as `2025-03-01`.
    pub day: Text,
    /// 1 to 1,024 campaigns, no two with the same seat and cid.
    pub campaigns: Sequence<CampaignRow>,
    pub ghost sound: { IsHeading day campaigns } by { Prim.hlevel props },
}

/// The day of a roster, and the roster's campaigns at the end of a history.
pub(crate) fn heading_of(
    alloc: Global,
    roster: &Roster,
    entries: &[Entry],
) -> Result<Heading, OutOfMemory>
    requires { IsHistoryOf roster.now.campaigns entries.now }
    ensures day { IfOk result (λ h. h.day ≡ roster.entry.now.day) }
    ensures campaigns { IfOk result (λ h. h.campaigns ≡ rows_by roster.entry.now.campaigns entries.now) }
{
    let day = roster.day.copy(alloc)?;
    let rows = campaign_rows(alloc, roster.campaigns.as_slice(), entries)?;
    Ok(Heading {
        day,
        campaigns: Sequence::from(rows),
    })
}

/// The campaigns of a roster at the end of a history: one pass over its entries.
fn campaign_rows(
    alloc: Global,
    campaigns: &[Campaign],
    entries: &[Entry],
) -> Result<Vec<CampaignRow>, OutOfMemory>
    requires { IsHistoryOf campaigns.now entries.now }
    ensures rows { IfOk result (λ rows. rows.items ≡ rows_by campaigns.now entries.now) }
    ensures sound { IfOk result (λ rows. All (IsCampaign 2) rows.items) }
{
    let mut rows = opened_rows(alloc, campaigns)?;
    for entry in entries {
        follow(&mut rows, entry);
    }
    Ok(rows)
}

/// The campaigns of a roster before any change.
fn opened_rows(alloc: Global, campaigns: &[Campaign]) -> Result<Vec<CampaignRow>, OutOfMemory>
    ensures rows { IfOk result (λ rows. rows.items ≡ opened_by campaigns.now) }
    ensures sound { IfOk result (λ rows. All (IsCampaign 2) rows.items) }
{
    let mut rows = Vec::new(alloc);
    for campaign in campaigns {
        rows.push(row_of(alloc, campaign)?)?;
    }
    Ok(rows)
}

/// A campaign of a roster before any change.
fn row_of(alloc: Global, campaign: &Campaign) -> Result<CampaignRow, OutOfMemory>
    ensures row { IfOk result (λ row. row ≡ opened_row campaign.now) }
    ensures sound { IfOk result (λ row. IsCampaign 2 row) }
{
    Ok(CampaignRow {
        seat: copy_of(alloc, &campaign.seat)?,
        cid: copy_of(alloc, &campaign.cid)?,
        budget: campaign.budget,
        changes: Some(0),
    })
}

/// Brings the campaigns after an entry.
fn follow(rows: &mut Vec<CampaignRow>, entry: &Entry)
    requires { MayCome rows.old.items entry.now }
    ensures { rows.new.items ≡ rows_after entry.now rows.old.items }
{
    match entry {
        Entry::Budget {
            campaign,
            budget,
            ..
        } => rebudget(&mut rows[*campaign as usize], *budget),
        Entry::Ask(_)
        | Entry::Win { .. }
        | Entry::Bill { .. }
        | Entry::Loss { .. }
        | Entry::Expire { .. } => {}
    }
}

/// Brings a campaign after a change of its budget.
fn rebudget(row: &mut CampaignRow, budget: Units)
    requires { MayChange row.old }
    ensures { row.new ≡ rebudgeted budget row.old }
{
    row.budget = budget;
    row.changes = match row.changes {
        Some(changes) => Some(changes + 1),
        None => None,
    };
}
