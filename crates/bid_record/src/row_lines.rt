//! The lines of campaigns and impressions.
ghost use Rattle.std.specs.Prelude.{◌≡◌, ◌≤◌, ◌<◌, ◌^◌, ◌&&◌, true};
ghost use Rattle.bid_record.specs.Texts.{Gives};
ghost use Rattle.bid_record.specs.Reading.{campaign_at, imp_name_at, is_place as is_place_below};
ghost use Rattle.bid_record.specs.Taking.{IsImpLine, IsImpRow};

use crate::fault::Misfit;
use crate::offers::{Offers, offers_of};
use crate::parts::{BUDGET_LIMIT, amount, changes, ending_part, number_part};
use crate::rows::{CampaignRow, ImpName, ImpRow};
use crate::text::name_part;
use adx_units::{Sequence, Units};
use formats::{behind, is_done};
use std::alloc::Global;

/// An impression's line: its index, and its row where all its places are there.
#[derive(Debug, Drop)]
pub(crate) struct ImpLine {
    pub index: u64,
    pub row: Option<ImpRow>,
}

/// The index and the row of a campaign's line.
#[tactic(auto, unfolding(crate::specs::Reading::campaign_at))]
pub(crate) fn campaign_line(
    alloc: Global,
    format: u8,
    line: &[u8],
) -> Result<(u64, CampaignRow), Misfit>
    ensures { Gives (λ x. x) result (campaign_at format line.now) }
{
    let Some(rest) = behind(line, b"campaign") else {
        return Err(Misfit::Form);
    };
    let Some((index, rest)) = number_part(rest) else {
        return Err(Misfit::Form);
    };
    let Some((budget, rest)) = amount(rest, b' ', BUDGET_LIMIT) else {
        return Err(Misfit::Form);
    };
    let Some((changes, rest)) = changes(rest, format) else {
        return Err(Misfit::Form);
    };
    let (seat, rest) = name_part(alloc, rest)?;
    let (cid, rest) = name_part(alloc, rest)?;
    match is_done(rest) {
        Some(()) => Ok((
            index,
            CampaignRow {
                seat,
                cid,
                budget: Units(budget),
                changes,
            },
        )),
        None => Err(Misfit::Form),
    }
}

/// The names of auction and impression, where the format has them.
#[tactic(auto, unfolding(crate::specs::Reading::imp_name_at))]
fn imp_name(alloc: Global, format: u8, bytes: &[u8]) -> Result<(Option<ImpName>, &[u8]), Misfit>
    ensures { Gives (λ x. (x.0, x.1.now)) result (imp_name_at format bytes.now) }
{
    if format == 2 {
        let (auction, rest) = name_part(alloc, bytes)?;
        let (imp, rest) = name_part(alloc, rest)?;
        Ok((Some(ImpName { auction, imp }), rest))
    } else {
        Ok((None, bytes))
    }
}

/// The index and the row of an impression's line, beside so many campaigns.
pub(crate) fn imp_line(
    alloc: Global,
    format: u8,
    campaigns: usize,
    line: &[u8],
) -> Result<ImpLine, Misfit>
    requires { campaigns ≤ 1024 }
    ensures { IsImpLine format campaigns line.now result }
{
    let Some(rest) = behind(line, b"imp") else {
        return Err(Misfit::Form);
    };
    let Some((index, rest)) = number_part(rest) else {
        return Err(Misfit::Form);
    };
    let (name, rest) = match imp_name(alloc, format, rest) {
        Ok(found) => found,
        Err(misfit) => return Err(misfit),
    };
    match imp_row(alloc, campaigns, name, rest) {
        Ok(row) => Ok(ImpLine { index, row }),
        Err(misfit) => Err(misfit),
    }
}

/// An impression's row behind its name. None where a place isn't there.
fn imp_row(
    alloc: Global,
    campaigns: usize,
    name: Option<ImpName>,
    bytes: &[u8],
) -> Result<Option<ImpRow>, Misfit>
    requires { campaigns ≤ 1024 }
    ensures { IsImpRow campaigns name bytes.now result }
{
    let Some(ending) = ending_part(bytes) else {
        return Err(Misfit::Form);
    };
    let offers = match offers_of(alloc, campaigns, ending.rest) {
        Ok(offers) => offers,
        Err(misfit) => return Err(misfit),
    };
    if offers.count > u64::from(u32::MAX) {
        return Err(Misfit::Form);
    }
    if !has_places(&offers, ending.chosen) {
        return Ok(None);
    }
    Ok(Some(ImpRow {
        name,
        offers: Sequence::from(offers.kept),
        chosen: narrowed(ending.chosen, offers.count),
        end: ending.end,
    }))
}

/// Whether each offer names a listed campaign, and the chosen one is there.
fn has_places(offers: &Offers, chosen: Option<u64>) -> bool
    ensures { result ≡ (offers.now.listed && is_place_below offers.now.count chosen) }
{
    offers.listed && is_place(chosen, offers.count)
}

/// Whether a place, where there is one, is below this number.
fn is_place(place: Option<u64>, count: u64) -> bool
    ensures { result ≡ is_place_below count place }
{
    match place {
        Some(place) => place < count,
        None => true,
    }
}

/// The place as a smaller number.
fn narrowed(place: Option<u64>, count: u64) -> Option<u32>
    requires few { count < 2 ^ 32 }
    requires below { is_place_below count place ≡ true }
    ensures { result ≡ place }
{
    match place {
        Some(place) => Some(place as u32),
        None => None,
    }
}
