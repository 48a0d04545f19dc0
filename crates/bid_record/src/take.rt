//! Takes the lines of campaigns and impressions, and the last, one by one.
ghost use Rattle.std.specs.Prelude.{◌≡◌, ◌≤◌, ◌<◌, ◌^◌, ◌||◌, IsTrue, length, true, false};
ghost use Rattle.std.specs.List.{list_any};
ghost use Rattle.std.specs.Str.{bytes_eq};
ghost use Rattle.adx_units.specs.Number.{begins_with};
ghost use Rattle.bid_record.specs.Taking.{IsTaken, HaveRoom, is_same_pair, may_come as row_may_come};

use crate::fault::{Misfit, RecordFault};
use crate::parts::end_line;
use crate::row_lines::{campaign_line, imp_line};
use crate::rows::{CampaignRow, ImpRow};
use std::alloc::Global;

/// How many campaigns a record has at most.
const MAX_CAMPAIGNS: usize = 1_024;

/// The rows of the lines so far.
#[derive(Debug, Drop)]
pub(crate) struct Rows {
    pub campaigns: Vec<CampaignRow>,
    pub imps: Vec<ImpRow>,
}

/// Takes the line with the number n: one more row, or true at the last line.
pub(crate) fn take_line(
    alloc: Global,
    format: u8,
    rows: &mut Rows,
    line: &[u8],
    n: u64,
) -> Result<bool, RecordFault>
    requires { HaveRoom rows.old.campaigns.items rows.old.imps.items }
    ensures { IsTaken format rows.old.campaigns.items rows.old.imps.items rows.new.campaigns.items rows.new.imps.items line.now n result }
{
    if begins(line, b'c') {
        take_campaign(alloc, format, rows, line, n)
    } else if begins(line, b'i') {
        take_imp(alloc, format, rows, line, n)
    } else {
        take_end(rows, line, n, format)
    }
}

fn begins(line: &[u8], byte: u8) -> bool
    ensures { result ≡ begins_with byte line.now }
{
    match line {
        [first, ..] => *first == byte,
        [] => false,
    }
}

fn take_campaign(
    alloc: Global,
    format: u8,
    rows: &mut Rows,
    line: &[u8],
    n: u64,
) -> Result<bool, RecordFault>
    requires room { HaveRoom rows.old.campaigns.items rows.old.imps.items }
    requires begun { begins_with 99 line.now ≡ true }
    ensures { IsTaken format rows.old.campaigns.items rows.old.imps.items rows.new.campaigns.items rows.new.imps.items line.now n result }
{
    let (index, row) = match campaign_line(alloc, format, line) {
        Ok(found) => found,
        Err(Misfit::Form) => return Err(RecordFault::Line { n }),
        Err(Misfit::Memory) => return Err(RecordFault::OutOfMemory),
    };
    if !may_come(rows, &row) {
        return Err(RecordFault::Line { n });
    }
    if index != rows.campaigns.len() as u64 {
        return Err(RecordFault::Order { n });
    }
    rows.campaigns.push(row)?;
    Ok(false)
}

/// Whether a campaign's row may come next: there is room, no impression was before, and no other
/// campaign has its seat and cid.
fn may_come(rows: &Rows, row: &CampaignRow) -> bool
    ensures { result ≡ row_may_come rows.now.campaigns.items rows.now.imps.items row.now }
{
    rows.campaigns.len() < MAX_CAMPAIGNS
        && rows.imps.is_empty()
        && !is_listed(rows.campaigns.as_slice(), row)
}

/// Whether a campaign of the same seat and cid is listed.
fn is_listed(campaigns: &[CampaignRow], row: &CampaignRow) -> bool
    ensures { result ≡ list_any (is_same_pair row.now) campaigns.now }
{
    campaigns.iter().any(|other| is_same(other, row))
}

fn is_same(other: &CampaignRow, row: &CampaignRow) -> bool
    ensures { result ≡ is_same_pair row.now other.now }
{
    other.seat.as_bytes() == row.seat.as_bytes() && other.cid.as_bytes() == row.cid.as_bytes()
}

fn take_imp(
    alloc: Global,
    format: u8,
    rows: &mut Rows,
    line: &[u8],
    n: u64,
) -> Result<bool, RecordFault>
    requires room { HaveRoom rows.old.campaigns.items rows.old.imps.items }
    requires begun { begins_with 105 line.now ≡ true }
    ensures { IsTaken format rows.old.campaigns.items rows.old.imps.items rows.new.campaigns.items rows.new.imps.items line.now n result }
{
    let campaigns = rows.campaigns.len();
    let found = match imp_line(alloc, format, campaigns, line) {
        Ok(found) => found,
        Err(Misfit::Form) => return Err(RecordFault::Line { n }),
        Err(Misfit::Memory) => return Err(RecordFault::OutOfMemory),
    };
    if campaigns == 0 || rows.imps.len() >= u32::MAX as usize {
        return Err(RecordFault::Line { n });
    }
    if found.index != rows.imps.len() as u64 {
        return Err(RecordFault::Order { n });
    }
    let Some(row) = found.row else {
        return Err(RecordFault::Campaign { n });
    };
    rows.imps.push(row)?;
    Ok(false)
}

fn take_end(rows: &mut Rows, line: &[u8], n: u64, format: u8) -> Result<bool, RecordFault>
    requires room { HaveRoom rows.old.campaigns.items rows.old.imps.items }
    requires no_campaign { begins_with 99 line.now ≡ false }
    requires no_imp { begins_with 105 line.now ≡ false }
    ensures { IsTaken format rows.old.campaigns.items rows.old.imps.items rows.new.campaigns.items rows.new.imps.items line.now n result }
{
    let Some(imps) = end_line(line) else {
        return Err(RecordFault::Line { n });
    };
    if rows.campaigns.is_empty() {
        return Err(RecordFault::Line { n });
    }
    if imps == rows.imps.len() as u64 {
        Ok(true)
    } else {
        Err(RecordFault::Order { n })
    }
}
