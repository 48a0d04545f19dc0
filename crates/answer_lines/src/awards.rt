//! The lines of asks: the awards and the reasons of one, written while its bids are walked.
ghost use Rattle.std.specs.Prelude.{◌≡◌, ◌+◌, ◌<◌, ◌≤◌, ◌^◌, ◌∷◌, ◌++◌, [], IfOk, OnOk, decimal, length, slice_index_or, string_bytes};
ghost use Rattle.adx_units.specs.JsonTexts.{text_spelling};
ghost use Rattle.day_rules.specs.Books.{awarded_offers};
ghost use Rattle.day_rules.specs.Replies.{is_awarded};
ghost use Rattle.answer_lines.specs.Answers.{ask_line, award_text, awarded_line, awards_text, campaign_text, nosale_line, reasons_of};
ghost use Rattle.answer_lines.specs.Steps.{award_behind, awards_behind, comma_behind};

use crate::pieces::push;
use adx_json::{push_comma, push_number};
use adx_units::{Offer, OutOfMemory, push_text};
use allocator_core::AWARDED;
use day_rules::Ask;
use deal_floor::Campaign;

fn push_imp(out: &mut String, ask: &Ask, imp: u32) -> Result<(), OutOfMemory>
    ensures { OnOk result (string_bytes out.new ≡ string_bytes out.old ++ text_spelling (slice_index_or ask.entry.now.imps imp [])) }
{
    match ask.imps.as_slice().get(imp as usize) {
        Some(id) => push_text(out, id.as_str()),
        None => push_text(out, ""),
    }
}

fn push_seat(out: &mut String, campaigns: &[Campaign], campaign: u32) -> Result<(), OutOfMemory>
    ensures { OnOk result (string_bytes out.new ≡ string_bytes out.old
        ++ text_spelling (campaign_text (λ c. c.seat) campaigns.now campaign)) }
{
    match campaigns.get(campaign as usize) {
        Some(campaign) => push_text(out, campaign.seat.as_str()),
        None => push_text(out, ""),
    }
}

fn push_cid(out: &mut String, campaigns: &[Campaign], campaign: u32) -> Result<(), OutOfMemory>
    ensures { OnOk result (string_bytes out.new ≡ string_bytes out.old
        ++ text_spelling (campaign_text (λ c. c.cid) campaigns.now campaign)) }
{
    match campaigns.get(campaign as usize) {
        Some(campaign) => push_text(out, campaign.cid.as_str()),
        None => push_text(out, ""),
    }
}

/// Writes an award with its number.
fn push_award(
    out: &mut String,
    campaigns: &[Campaign],
    ask: &Ask,
    number: u64,
    offer: &Offer,
) -> Result<(), OutOfMemory>
    ensures { OnOk result (string_bytes out.new ≡ string_bytes out.old ++ award_text campaigns.now ask.entry.now (number, offer.now)) }
{
    push(out, "{\"award\":")?;
    push_number(out, number)?;
    push(out, ",\"imp\":")?;
    push_imp(out, ask, offer.imp)?;
    push(out, ",\"seat\":")?;
    push_seat(out, campaigns, offer.campaign)?;
    push(out, ",\"cid\":")?;
    push_cid(out, campaigns, offer.campaign)?;
    push(out, ",\"charge\":")?;
    push_number(out, offer.charge.0)?;
    push(out, "}")
}

/// Writes an award of an ask after so many others.
fn push_next_award(
    out: &mut String,
    campaigns: &[Campaign],
    ask: &Ask,
    others: u64,
    offer: &Offer,
) -> Result<(), OutOfMemory>
    requires { others < 2 ^ 63 }
    ensures { OnOk result (string_bytes out.new ≡ string_bytes out.old ++ award_behind campaigns.now ask.entry.now (others, offer.now)) }
{
    push_comma(out, others == 0)?;
    push_award(out, campaigns, ask, u64::from(ask.first) + others, offer)
}

/// Writes an offer as an award after so many others, where it is one of the impression, and gives how
/// many there are then. The output has a byte for each of them at least.
fn push_if_sold(
    out: &mut String,
    campaigns: &[Campaign],
    ask: &Ask,
    imp: usize,
    others: u64,
    offer: &Offer,
) -> Result<u64, OutOfMemory>
    requires { others ≤ length (string_bytes out.old) }
    ensures count { IfOk result (λ count. count ≡ others + length (awarded_offers (offer.now ∷ []) imp)) }
    ensures few { IfOk result (λ count. count ≤ length (string_bytes out.new)) }
    ensures written { OnOk result (string_bytes out.new
        ≡ string_bytes out.old ++ awards_behind campaigns.now ask.entry.now others (awarded_offers (offer.now ∷ []) imp)) }
{
    if offer.reason == AWARDED && offer.imp as usize == imp {
        push_next_award(out, campaigns, ask, others, offer)?;
        return Ok(others + 1);
    }
    Ok(others)
}

/// Writes the awards of an impression after so many others, and gives how many there are then.
fn push_imp_awards(
    out: &mut String,
    campaigns: &[Campaign],
    ask: &Ask,
    imp: usize,
    others: u64,
) -> Result<u64, OutOfMemory>
    requires { others ≤ length (string_bytes out.old) }
    ensures count { IfOk result (λ count. count ≡ others + length (awarded_offers ask.entry.now.offers imp)) }
    ensures few { IfOk result (λ count. count ≤ length (string_bytes out.new)) }
    ensures written { OnOk result (string_bytes out.new
        ≡ string_bytes out.old ++ awards_behind campaigns.now ask.entry.now others (awarded_offers ask.entry.now.offers imp)) }
{
    let mut count = others;
    for offer in ask.offers.as_slice() {
        count = push_if_sold(out, campaigns, ask, imp, count, offer)?;
    }
    Ok(count)
}

/// Writes the awards of an ask.
fn push_awards(out: &mut String, campaigns: &[Campaign], ask: &Ask) -> Result<(), OutOfMemory>
    ensures { OnOk result (string_bytes out.new ≡ string_bytes out.old ++ awards_text campaigns.now ask.entry.now) }
{
    let mut count = 0;
    for imp in 0..ask.imps.len() {
        count = push_imp_awards(out, campaigns, ask, imp, count)?;
    }
    Ok(())
}

/// Writes the next of several reasons.
fn push_next_reason(out: &mut String, place: usize, offer: &Offer) -> Result<(), OutOfMemory>
    ensures { OnOk result (string_bytes out.new ≡ string_bytes out.old ++ (comma_behind place ++ decimal offer.now.reason)) }
{
    push_comma(out, place == 0)?;
    push_number(out, u64::from(offer.reason))
}

/// Writes the reasons of these bids.
fn push_reasons(out: &mut String, offers: &[Offer]) -> Result<(), OutOfMemory>
    ensures { OnOk result (string_bytes out.new ≡ string_bytes out.old ++ reasons_of offers.now) }
{
    for (place, offer) in offers.iter().enumerate() {
        push_next_reason(out, place, offer)?;
    }
    Ok(())
}

/// Writes the line of an ask that has a winner.
pub(crate) fn push_awarded(
    out: &mut String,
    campaigns: &[Campaign],
    ask: &Ask,
) -> Result<(), OutOfMemory>
    ensures { OnOk result (string_bytes out.new ≡ string_bytes out.old ++ awarded_line campaigns.now ask.entry.now) }
{
    push(out, "{\"answer\":\"awarded\",\"auction\":")?;
    push_text(out, ask.auction.as_str())?;
    push(out, ",\"awards\":[")?;
    push_awards(out, campaigns, ask)?;
    push(out, "],\"reasons\":[")?;
    push_reasons(out, ask.offers.as_slice())?;
    push(out, "]}")?;
    Ok(())
}

/// Writes the line of an ask that has no winner.
pub(crate) fn push_no_sale(out: &mut String, ask: &Ask) -> Result<(), OutOfMemory>
    ensures { OnOk result (string_bytes out.new ≡ string_bytes out.old ++ nosale_line ask.entry.now) }
{
    push(out, "{\"answer\":\"nosale\",\"auction\":")?;
    push_text(out, ask.auction.as_str())?;
    push(out, ",\"reasons\":[")?;
    push_reasons(out, ask.offers.as_slice())?;
    push(out, "]}")?;
    Ok(())
}

fn has_winner(ask: &Ask) -> bool
    ensures { result ≡ is_awarded ask.entry.now }
{
    ask.offers
        .as_slice()
        .iter()
        .any(|offer| offer.reason == AWARDED)
}

/// Writes the line of an ask as it is in the history.
pub(crate) fn push_ask(
    out: &mut String,
    campaigns: &[Campaign],
    ask: &Ask,
) -> Result<(), OutOfMemory>
    ensures { OnOk result (string_bytes out.new ≡ string_bytes out.old ++ ask_line campaigns.now ask.entry.now) }
{
    if has_winner(ask) {
        push_awarded(out, campaigns, ask)
    } else {
        push_no_sale(out, ask)
    }
}
