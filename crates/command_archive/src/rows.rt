//! The rows of a record.
ghost use Rattle.std.specs.Prelude.{◌≡◌, ◌<◌, IfOk, length};
ghost use Rattle.day_archive.specs.Kept.{AreOfOneDay};
ghost use Rattle.command_archive.specs.Moneys.{HasMoneys};
ghost use Rattle.command_archive.specs.Rows.{row_of as row_of_record, rows_of as rows_of_record};

use crate::money::{Moneys, moneys_of};
use adx_units::OutOfMemory;
use bid_record::{CampaignRow, Record};
use day_archive::DayRow;
use std::alloc::Global;

/// The row of a campaign.
fn row_of(
    alloc: Global,
    day: &Record,
    bound: u128,
    moneys: &Moneys,
    place: usize,
    campaign: &CampaignRow,
) -> Result<DayRow, OutOfMemory>
    requires moneys { HasMoneys (length day.now.campaigns) day.now.imps moneys.now }
    requires listed { place < length day.now.campaigns }
    ensures { IfOk result (λ row. row ≡ row_of_record day.now bound (place, campaign.now)) }
{
    Ok(DayRow {
        day: day.day.copy(alloc)?,
        seat: campaign.seat.copy(alloc)?,
        cid: campaign.cid.copy(alloc)?,
        budget: campaign.budget,
        committed: moneys.committed[place],
        billed: moneys.billed[place],
        bound,
        imps: Some(day.imps.len() as u64),
    })
}

/// The rows of a record's campaigns, by the money of each.
#[tactic(auto, using(crate::proofs::Campaigns::rows_more))]
fn campaign_rows(
    alloc: Global,
    day: &Record,
    bound: u128,
    moneys: &Moneys,
) -> Result<Vec<DayRow>, OutOfMemory>
    requires { HasMoneys (length day.now.campaigns) day.now.imps moneys.now }
    ensures { IfOk result (λ v. v.items ≡ rows_of_record day.now bound) }
{
    let mut rows = Vec::new(alloc);
    for (place, campaign) in day.campaigns.as_slice().iter().enumerate() {
        rows.push(row_of(alloc, day, bound, moneys, place, campaign)?)?;
    }
    Ok(rows)
}

/// The rows of a record, one for each campaign in their order, with the day's bound.
pub fn rows_of(alloc: Global, day: &Record, bound: u128) -> Result<Vec<DayRow>, OutOfMemory>
    ensures rows { IfOk result (λ v. v.items ≡ rows_of_record day.now bound) }
    ensures one_day { IfOk result (λ v. AreOfOneDay v.items) }
{
    let moneys = moneys_of(alloc, day.campaigns.len(), day.imps.as_slice())?;
    campaign_rows(alloc, day, bound, &moneys)
}
