//! The exchange's answer to a request for bids that was awarded.
ghost use Rattle.std.specs.Prelude.{◌≡◌, ◌<◌, ◌≤◌, ◌+◌, ◌∷◌, ◌++◌, [], ℕ, List, filter, find, length, option_map, IfOk, OnOk, string_bytes, ◌==◌};
ghost use Rattle.std.specs.List.{enumerate_from};
ghost use Rattle.adx_json.specs.Tree.{Tree};
ghost use Rattle.adx_json.specs.View.{tree_of};
ghost use Rattle.adx_units.specs.declared.offer.Offer.{Offer as Bid};
ghost use Rattle.answer_lines.specs.Answers.{campaign_text};
ghost use Rattle.day_rules.specs.declared.limits.TheConstants.{MAX_OFFERS};
ghost use Rattle.script_lines.specs.declared.limits.TheConstants.{LAST_AWARD};
ghost use Rattle.exchange_messages.specs.Sales.{HasTree, IsSale, IsSold, expanded, imp_sold, is_award_for, sold_bids, texts_at, IsBodySold};
ghost use Rattle.exchange_messages.specs.Selling.{AreSold, MayBeTold};

use adx_json::{Json, JsonFault, read, text_in};
use adx_units::{Offer, OutOfMemory, Text};
use allocator_core::AWARDED;
use day_rules::{Ask, Kept};
use deal_floor::{Campaign, Roster};
use notice_macros::{Values, expand_markup};
use rtb_response::{Sold, write_answer};
use std::alloc::Global;

/// The texts of a bid that its markup and its body are made of.
#[derive(Clone, Copy)]
struct Texts<'a> {
    bidid: &'a str,
    seat: &'a str,
    adid: &'a str,
    body: &'a str,
}

/// What is kept of the bid at a place.
fn kept_at(kept: &[Kept], place: u32) -> Option<&Kept>
    ensures { option_map (λ k. k.now) result ≡ find (λ k. k.bid == place) kept.now }
{
    kept.iter().find(|k| k.bid == place)
}

/// The texts that are kept of the bid at a place; each is empty where none are.
fn texts_in(kept: &[Kept], place: u32) -> Texts<'_>
    ensures bidid { result.bidid.now ≡ (texts_at kept.now place).bidid }
    ensures seat { result.seat.now ≡ (texts_at kept.now place).seat }
    ensures adid { result.adid.now ≡ (texts_at kept.now place).adid }
    ensures body { result.body.now ≡ (texts_at kept.now place).body }
{
    match kept_at(kept, place) {
        Some(texts) => Texts {
            bidid: texts.bidid.as_str(),
            seat: texts.seat.as_str(),
            adid: texts.adid.as_str(),
            body: texts.body.as_str(),
        },
        None => Texts {
            bidid: "",
            seat: "",
            adid: "",
            body: "",
        },
    }
}

/// The tree of a kept body; a text that is no JSON has no members.
fn body_of(alloc: Global, body: &str) -> Result<Json, OutOfMemory>
    ensures { IfOk result (λ j. HasTree body.now (tree_of j)) }
{
    match read(alloc, body.as_bytes()) {
        Ok(tree) => Ok(tree),
        Err(JsonFault::OutOfMemory) => Err(OutOfMemory),
        Err(_) => Ok(Json::Null),
    }
}

/// A body with the macros of its markup replaced.
fn with_markup(alloc: Global, body: Json, values: &Values<'_>) -> Result<Json, OutOfMemory>
    ensures { IfOk result (λ j. tree_of j ≡ expanded values.now (tree_of body)) }
{
    let markup = match text_in(body.member("adm")) {
        Some(markup) => expand_markup(alloc, markup.as_str(), values)?,
        None => return Ok(body),
    };
    body.with_member(alloc, "adm", Json::Text(markup))
}

/// A kept body with the macros of its markup replaced.
fn body_with(alloc: Global, values: &Values<'_>, body: &str) -> Result<Json, OutOfMemory>
    ensures { IfOk result (λ j. (t : Tree) × HasTree body.now t × (tree_of j ≡ expanded values.now t)) }
{
    let body = body_of(alloc, body)?;
    with_markup(alloc, body, values)
}

/// The body of an awarded bid, as the exchange's answer passes it on.
fn body_sold(
    alloc: Global,
    ask: &Ask,
    imp: &str,
    place: u32,
    offer: &Offer,
) -> Result<Json, OutOfMemory>
    requires { imp.now ≡ imp_sold ask.now offer.now }
    ensures { IfOk result (λ j. IsBodySold ask.entry.now offer.entry.now place (tree_of j)) }
{
    let texts = texts_in(ask.kept.as_slice(), place);
    let values = Values {
        auction: ask.auction.as_str(),
        bidid: texts.bidid,
        imp,
        seat: texts.seat,
        adid: texts.adid,
        price: Some(offer.charge),
        loss: 0,
    };
    body_with(alloc, &values, texts.body)
}

/// The seat of a campaign.
fn seat_of(alloc: Global, campaigns: &[Campaign], campaign: u32) -> Result<Text, OutOfMemory>
    ensures { IfOk result (λ t. t ≡ campaign_text (λ c. c.seat) campaigns.now campaign) }
{
    match campaigns.get(campaign as usize) {
        Some(campaign) => Text::of(alloc, campaign.seat.as_str()),
        None => Text::of(alloc, ""),
    }
}

/// The award with a number, of the offer at a place.
fn sold_of(
    alloc: Global,
    roster: &Roster,
    ask: &Ask,
    award: u32,
    place: u32,
    offer: &Offer,
) -> Result<Sold, OutOfMemory>
    requires { offer.now.imp < length ask.now.imps }
    ensures { IfOk result (IsSold roster.entry.now.campaigns ask.entry.now (award, (place, offer.entry.now))) }
{
    let imp = &ask.imps.as_slice()[offer.imp as usize];
    Ok(Sold {
        award,
        imp: imp.copy(alloc)?,
        seat: seat_of(alloc, roster.campaigns.as_slice(), offer.campaign)?,
        charge: offer.charge,
        body: body_sold(alloc, ask, imp.as_str(), place, offer)?,
    })
}

/// Adds the offer at a place where it was awarded for the impression.
fn add_if_sold(
    alloc: Global,
    roster: &Roster,
    ask: &Ask,
    imp: u32,
    place: u32,
    offer: &Offer,
    sold: &mut Vec<Sold>,
) -> Result<(), OutOfMemory>
    requires within { imp < length ask.now.imps }
    requires few { ask.now.first + length sold.old.items + length (filter (is_award_for imp) ((place, offer.now) ∷ [])) ≤ LAST_AWARD + 1 }
    ensures counted { OnOk result (length sold.new.items ≡ length sold.old.items + length (filter (is_award_for imp) ((place, offer.entry.now) ∷ []))) }
    ensures added { OnOk result ((done : List (ℕ × Bid)) → AreSold roster.entry.now.campaigns ask.entry.now done sold.old.items
        → AreSold roster.entry.now.campaigns ask.entry.now (done ++ filter (is_award_for imp) ((place, offer.entry.now) ∷ [])) sold.new.items) }
{
    if offer.reason == AWARDED && offer.imp == imp {
        let award = ask.first + sold.as_slice().len() as u32;
        sold.push(sold_of(alloc, roster, ask, award, place, offer)?)?;
    }
    Ok(())
}

/// Adds the awards for an impression after those for the impressions before it.
fn add_sold(
    alloc: Global,
    roster: &Roster,
    ask: &Ask,
    imp: u32,
    sold: &mut Vec<Sold>,
) -> Result<(), OutOfMemory>
    requires within { imp < length ask.now.imps }
    requires places { length ask.now.offers ≤ MAX_OFFERS }
    requires few { ask.now.first + length sold.old.items + length (filter (is_award_for imp) (enumerate_from 0 ask.now.offers)) ≤ LAST_AWARD + 1 }
    ensures counted { OnOk result (length sold.new.items ≡ length sold.old.items + length (filter (is_award_for imp) (enumerate_from 0 ask.entry.now.offers))) }
    ensures added { OnOk result ((done : List (ℕ × Bid)) → AreSold roster.entry.now.campaigns ask.entry.now done sold.old.items
        → AreSold roster.entry.now.campaigns ask.entry.now (done ++ filter (is_award_for imp) (enumerate_from 0 ask.entry.now.offers)) sold.new.items) }
{
    for (place, offer) in ask.offers.as_slice().iter().enumerate() {
        add_if_sold(alloc, roster, ask, imp, place as u32, offer, sold)?;
    }
    Ok(())
}

/// What the exchange's answer says of the awards of an ask, in the order of its impressions.
fn all_sold(alloc: Global, roster: &Roster, ask: &Ask) -> Result<Vec<Sold>, OutOfMemory>
    requires told { MayBeTold ask.now }
    ensures { IfOk result (λ v. AreSold roster.entry.now.campaigns ask.entry.now (sold_bids ask.entry.now) v.items) }
{
    let mut sold = Vec::new(alloc);
    for imp in 0..ask.imps.len() {
        add_sold(alloc, roster, ask, imp as u32, &mut sold)?;
    }
    Ok(sold)
}

/// Writes the exchange's answer to an ask that was awarded (OpenRTB 2.6, section 4.2.1), into an empty text.
pub(crate) fn push_sale(
    alloc: Global,
    roster: &Roster,
    ask: &Ask,
    out: &mut String,
) -> Result<(), OutOfMemory>
    requires empty { string_bytes out.old ≡ [] }
    requires told { MayBeTold ask.now }
    ensures { OnOk result (IsSale roster.entry.now ask.entry.now (string_bytes out.new)) }
{
    let sold = all_sold(alloc, roster, ask)?;
    let text = write_answer(alloc, &ask.auction, roster.base.as_str(), sold.as_slice())?;
    Ok(out.push_str(text.as_str())?)
}
