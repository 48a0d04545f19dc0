//! The document of a record.
ghost use Rattle.std.specs.Prelude.{◌≡◌, ℕ, ◌++◌, ◌∷◌, ◌<◌, ◌≤◌, ◌^◌, [], List, map, length, IfOk, OnOk, string_bytes};
ghost use Rattle.std.specs.List.{flat_map, enumerate_from};
ghost use Rattle.std.specs.Fmt.{decimal};
ghost use Rattle.adx_units.specs.JsonTexts.{text_spelling};
ghost use Rattle.formats.specs.Parts.{ended, part};
ghost use Rattle.bid_record.specs.Lines.{changes_part, name_part, place_text, end_text, offer_part, head_line, day_line, campaign_line, imp_line, end_line, document, record_front};

use crate::record::Record;
use crate::rows::{CampaignRow, Charge, End, ImpName, ImpRow};
use adx_units::{Id, OutOfMemory, Text, push_text};
use formats::{push_number, push_part};
use std::alloc::Global;

/// The document of the record: its lines, each with a newline.
pub fn write_record(alloc: Global, day: &Record) -> Result<Text, OutOfMemory>
    ensures { IfOk result (λ t. t ≡ document day.now) }
{
    let mut out = String::new(alloc);
    push_record_front(&mut out, day)?;
    push_imps(&mut out, day.imps.as_slice())?;
    push_end_line(&mut out, day.imps.len() as u64)?;
    Ok(Text::from(out))
}

/// Writes what stands before the impressions in the document of a record: the lines of its format, of its day and of its
/// campaigns, each with a newline. With `push_imp_line` for each impression and `push_end_line` a document can be written in
/// pieces; `document_in_pieces` says that these are the document.
pub fn push_record_front(out: &mut String, day: &Record) -> Result<(), OutOfMemory>
    ensures { OnOk result (string_bytes out.new ≡ string_bytes out.old ++ record_front day.now) }
{
    push_head(out, day.format)?;
    push_day(out, day.day.as_str())?;
    push_campaigns(out, day.campaigns.as_slice())
}

fn push_head(out: &mut String, format: u8) -> Result<(), OutOfMemory>
    ensures { OnOk result (string_bytes out.new ≡ string_bytes out.old ++ ended (head_line format)) }
{
    out.push_str("adx-record")?;
    push_part(out, u64::from(format))?;
    out.push_str("\n")?;
    Ok(())
}

fn push_day(out: &mut String, day: &str) -> Result<(), OutOfMemory>
    ensures { OnOk result (string_bytes out.new ≡ string_bytes out.old ++ ended (day_line day.now)) }
{
    out.push_str("day ")?;
    out.push_str(day)?;
    out.push_str("\n")?;
    Ok(())
}

/// Writes the last line of the document of a record with so many impressions.
pub fn push_end_line(out: &mut String, imps: u64) -> Result<(), OutOfMemory>
    ensures { OnOk result (string_bytes out.new ≡ string_bytes out.old ++ ended (end_line imps)) }
{
    out.push_str("end")?;
    push_part(out, imps)?;
    out.push_str("\n")?;
    Ok(())
}

fn push_id(out: &mut String, id: &Id) -> Result<(), OutOfMemory>
    ensures { OnOk result (string_bytes out.new ≡ string_bytes out.old ++ part (text_spelling id.now)) }
{
    out.push_str(" ")?;
    push_text(out, id.as_str())
}

fn push_changes(out: &mut String, changes: Option<u32>) -> Result<(), OutOfMemory>
    ensures { OnOk result (string_bytes out.new ≡ string_bytes out.old ++ changes_part changes) }
{
    match changes {
        Some(changes) => push_part(out, u64::from(changes)),
        None => Ok(()),
    }
}

fn push_campaign(out: &mut String, i: u64, campaign: &CampaignRow) -> Result<(), OutOfMemory>
    ensures { OnOk result (string_bytes out.new ≡ string_bytes out.old ++ ended (campaign_line (i, campaign.now))) }
{
    out.push_str("campaign")?;
    push_part(out, i)?;
    push_part(out, campaign.budget.0)?;
    push_changes(out, campaign.changes)?;
    push_id(out, &campaign.seat)?;
    push_id(out, &campaign.cid)?;
    out.push_str("\n")?;
    Ok(())
}

fn push_campaigns(out: &mut String, campaigns: &[CampaignRow]) -> Result<(), OutOfMemory>
    ensures { OnOk result (string_bytes out.new ≡ string_bytes out.old ++ flat_map ended (map campaign_line (enumerate_from 0 campaigns.now))) }
{
    for (i, campaign) in campaigns.iter().enumerate() {
        push_campaign(out, i as u64, campaign)?;
    }
    Ok(())
}

fn push_name(out: &mut String, name: &Option<ImpName>) -> Result<(), OutOfMemory>
    ensures { OnOk result (string_bytes out.new ≡ string_bytes out.old ++ name_part name.now) }
{
    if let Some(name) = name {
        push_id(out, &name.auction)?;
        push_id(out, &name.imp)?;
    }
    Ok(())
}

fn push_place(out: &mut String, place: Option<u32>) -> Result<(), OutOfMemory>
    ensures { OnOk result (string_bytes out.new ≡ string_bytes out.old ++ part (place_text place)) }
{
    match place {
        Some(place) => push_part(out, u64::from(place)),
        None => Ok(out.push_str(" -")?),
    }
}

fn push_end(out: &mut String, end: Option<End>) -> Result<(), OutOfMemory>
    ensures { OnOk result (string_bytes out.new ≡ string_bytes out.old ++ part (end_text end)) }
{
    let word = match end {
        None => " -",
        Some(End::Live) => " live",
        Some(End::Billed) => " billed",
        Some(End::Lost) => " lost",
        Some(End::Expired) => " expired",
    };
    Ok(out.push_str(word)?)
}

fn push_offer(out: &mut String, offer: Charge) -> Result<(), OutOfMemory>
    ensures { OnOk result (string_bytes out.new ≡ string_bytes out.old ++ offer_part offer) }
{
    push_part(out, u64::from(offer.campaign))?;
    out.push_str(":")?;
    push_number(out, offer.charge.0)
}

fn push_offers(out: &mut String, offers: &[Charge]) -> Result<(), OutOfMemory>
    ensures { OnOk result (string_bytes out.new ≡ string_bytes out.old ++ flat_map offer_part offers.now) }
{
    for offer in offers {
        push_offer(out, *offer)?;
    }
    Ok(())
}

/// Writes the line of an impression with its index in the record, from 0 on.
pub fn push_imp_line(out: &mut String, j: u64, row: &ImpRow) -> Result<(), OutOfMemory>
    ensures { OnOk result (string_bytes out.new ≡ string_bytes out.old ++ ended (imp_line (j, row.now))) }
{
    out.push_str("imp")?;
    push_part(out, j)?;
    push_name(out, &row.name)?;
    push_place(out, row.chosen)?;
    push_end(out, row.end)?;
    push_offers(out, row.offers.as_slice())?;
    out.push_str("\n")?;
    Ok(())
}

fn push_imps(out: &mut String, imps: &[ImpRow]) -> Result<(), OutOfMemory>
    ensures { OnOk result (string_bytes out.new ≡ string_bytes out.old ++ flat_map ended (map imp_line (enumerate_from 0 imps.now))) }
{
    for (j, row) in imps.iter().enumerate() {
        push_imp_line(out, j as u64, row)?;
    }
    Ok(())
}
