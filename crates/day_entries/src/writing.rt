//! Entries written into the payload of a record.
ghost use Rattle.std.specs.Prelude.{◌≡◌, ◌<◌, ◌≤◌, ◌+◌, ◌^◌, ◌++◌, [], All, IsOk, IsUtf8, OnOk, OnErr, length};
ghost use Rattle.formats.specs.Formats.{Adds, last_kind};
ghost use Rattle.day_entries.specs.Entries.{Fits, HasBytes, HasShortTexts, IsNoticeOrMoment, IsSpelled, all_kept, ask as ask_format, change as change_format, entry as entry_format, entry_bytes, imps as imps_format, kept as kept_format, name, offer as offer_format, offers as offers_format, text as text_format};
ghost use Rattle.day_entries.specs.Numbers.{long, wide};
ghost use Rattle.day_entries.specs.Pieces.{with_pieces};
ghost use Rattle.day_entries.specs.declared.gathering.TheConstants.{GATHERED, PIECE_ROOM};
ghost use Rattle.day_rules.specs.Entries.{change_of};

use crate::gathering::{Pieces, add_gathered, gather, make_room};
use crate::numbers::Numbers;
use adx_io::Frame;
use adx_units::{Id, Offer, OutOfMemory, Units};
use arrayvec::ArrayVec;
use day_rules::{Ask, Entry, Kept};

/// Adds the bytes of an entry to a payload of a journal of this format, 1 or 2. An entry of a notice or a
/// moment takes no memory where there is room for 11 bytes. Where memory is refused, or the payload would be
/// too long, the payload is as it was.
pub fn encode(entry: &Entry, format: u8, out: &mut Frame) -> Result<(), OutOfMemory>
    requires { IsSpelled entry.now }
    ensures ok { OnOk result (out.new.payload ≡ out.old.payload ++ entry_bytes format entry.now) }
    ensures fits { OnOk result (Fits format entry.now) }
    ensures err { OnErr result (out.new.payload ≡ out.old.payload) }
    ensures succeeds { IsNoticeOrMoment entry.now → 11 ≤ out.old.spare → IsOk result }
    ensures spare { IsNoticeOrMoment entry.now → out.old.spare ≤ out.new.spare + length (entry_bytes format entry.now) }
{
    out.mark();
    let added = push_entry(entry, Numbers::of(format), out);
    if added.is_err() {
        out.take_back();
    }
    added
}

/// Adds an entry.
#[tactic(auto, unfolding(crate::specs::Entries::entry))]
fn push_entry(entry: &Entry, numbers: Numbers, out: &mut Frame) -> Result<(), OutOfMemory>
    requires { IsSpelled entry.now }
    ensures ok { OnOk result (Adds (entry_format numbers) out.old.payload out.new.payload entry.now) }
    ensures succeeds { IsNoticeOrMoment entry.now → 11 ≤ out.old.spare → IsOk result }
    ensures spare { IsNoticeOrMoment entry.now → out.old.spare ≤ out.new.spare + length ((entry_format numbers).write entry.now) }
    ensures marked { out.new.marked ≡ out.old.marked }
{
    match entry {
        Entry::Ask(ask) => push_first_ask(ask, numbers, out),
        Entry::Win { award } => push_award(2, *award, numbers, out),
        Entry::Bill { award } => push_award(3, *award, numbers, out),
        Entry::Loss { award } => push_award(4, *award, numbers, out),
        Entry::Expire { now } => push_moment(*now, numbers, out),
        Entry::Budget {
            campaign,
            change,
            budget,
        } => push_budget(*campaign, *change, *budget, numbers, out),
    }
}

/// Adds a kind and the number of an award.
fn push_award(kind: u8, award: u32, numbers: Numbers, out: &mut Frame) -> Result<(), OutOfMemory>
    ensures ok { OnOk result (Adds (last_kind kind (long numbers)) out.old.payload out.new.payload award) }
    ensures succeeds { 11 ≤ out.old.spare → IsOk result }
    ensures spare { out.old.spare ≤ out.new.spare + length ((last_kind kind (long numbers)).write award) }
    ensures marked { out.new.marked ≡ out.old.marked }
{
    out.push(&[kind])?;
    numbers.push_long(award, out)
}

/// Adds the moment at which awards end.
fn push_moment(now: u64, numbers: Numbers, out: &mut Frame) -> Result<(), OutOfMemory>
    ensures ok { OnOk result (Adds (last_kind 5 (wide numbers)) out.old.payload out.new.payload now) }
    ensures succeeds { 11 ≤ out.old.spare → IsOk result }
    ensures spare { out.old.spare ≤ out.new.spare + length ((last_kind 5 (wide numbers)).write now) }
    ensures marked { out.new.marked ≡ out.old.marked }
{
    out.push(&[5])?;
    numbers.push_wide(now, out)
}

/// Adds an ask after its kind.
fn push_first_ask(ask: &Ask, numbers: Numbers, out: &mut Frame) -> Result<(), OutOfMemory>
    requires { HasBytes ask.now }
    ensures ok { OnOk result (Adds (last_kind 1 (ask_format numbers)) out.old.payload out.new.payload ask.entry.now) }
    ensures marked { out.new.marked ≡ out.old.marked }
{
    out.push(&[1])?;
    let mut pieces = ArrayVec::new();
    gather_ask(ask, numbers, &mut pieces, out)?;
    add_gathered(&mut pieces, out)?;
    Ok(())
}

/// Adds an ask: what it is, its impressions, its offers and the texts that are kept.
fn gather_ask(
    ask: &Ask,
    numbers: Numbers,
    pieces: &mut Pieces,
    out: &mut Frame,
) -> Result<(), OutOfMemory>
    requires { HasBytes ask.now }
    ensures ok { OnOk result (Adds (ask_format numbers) (with_pieces pieces.old.items out.old) (with_pieces pieces.new.items out.new) ask.entry.now) }
    ensures marked { out.new.marked ≡ out.old.marked }
{
    gather_name(&ask.auction, numbers, pieces, out)?;
    gather(&ask.digest, pieces, out)?;
    numbers.gather_wide(ask.now, pieces, out)?;
    numbers.gather_long(ask.first, pieces, out)?;
    gather_imps(ask.imps.as_slice(), numbers, pieces, out)?;
    gather_offers(ask.offers.as_slice(), numbers, pieces, out)?;
    gather_all_kept(ask.kept.as_slice(), numbers, pieces, out)?;
    Ok(())
}

/// Adds a text after its length.
fn gather_text(
    text: &[u8],
    numbers: Numbers,
    pieces: &mut Pieces,
    out: &mut Frame,
) -> Result<(), OutOfMemory>
    requires short { length text.now < 2 ^ 32 }
    requires utf8 { IsUtf8 text.now }
    ensures ok { OnOk result (Adds (text_format numbers) (with_pieces pieces.old.items out.old) (with_pieces pieces.new.items out.new) text.now) }
    ensures marked { out.new.marked ≡ out.old.marked }
{
    numbers.gather_long(text.len() as u32, pieces, out)?;
    if !text.is_empty() {
        gather(text, pieces, out)?;
    }
    Ok(())
}

/// Adds a name after its length.
fn gather_name(
    id: &Id,
    numbers: Numbers,
    pieces: &mut Pieces,
    out: &mut Frame,
) -> Result<(), OutOfMemory>
    ensures ok { OnOk result (Adds (name numbers) (with_pieces pieces.old.items out.old) (with_pieces pieces.new.items out.new) id.now) }
    ensures marked { out.new.marked ≡ out.old.marked }
{
    gather_text(id.as_bytes(), numbers, pieces, out)?;
    Ok(())
}

/// Adds the ids of impressions after their number.
#[tactic(auto, unfolding(crate::specs::Entries::imps))]
fn gather_imps(
    imps: &[Id],
    numbers: Numbers,
    pieces: &mut Pieces,
    out: &mut Frame,
) -> Result<(), OutOfMemory>
    requires { length imps.now < 2 ^ 8 }
    ensures ok { OnOk result (Adds (imps_format numbers) (with_pieces pieces.old.items out.old) (with_pieces pieces.new.items out.new) imps.now) }
    ensures marked { out.new.marked ≡ out.old.marked }
{
    numbers.gather_small(imps.len() as u8, pieces, out)?;
    for imp in imps {
        gather_name(imp, numbers, pieces, out)?;
    }
    Ok(())
}

/// Adds offers after their number.
#[tactic(auto, unfolding(crate::specs::Entries::offers))]
fn gather_offers(
    offers: &[Offer],
    numbers: Numbers,
    pieces: &mut Pieces,
    out: &mut Frame,
) -> Result<(), OutOfMemory>
    requires few { length offers.now < 2 ^ 32 }
    requires imps { All (λ o. o.imp < 2 ^ 8) offers.now }
    ensures ok { OnOk result (Adds (offers_format numbers) (with_pieces pieces.old.items out.old) (with_pieces pieces.new.items out.new) offers.now) }
    ensures marked { out.new.marked ≡ out.old.marked }
{
    numbers.gather_long(offers.len() as u32, pieces, out)?;
    for offer in offers {
        gather_offer(offer, numbers, pieces, out)?;
    }
    Ok(())
}

/// Adds an offer.
fn gather_offer(
    offer: &Offer,
    numbers: Numbers,
    pieces: &mut Pieces,
    out: &mut Frame,
) -> Result<(), OutOfMemory>
    requires { offer.now.imp < 2 ^ 8 }
    ensures ok { OnOk result (Adds (offer_format numbers) (with_pieces pieces.old.items out.old) (with_pieces pieces.new.items out.new) offer.now) }
    ensures marked { out.new.marked ≡ out.old.marked }
{
    make_room(pieces, out)?;
    put_offer(offer, numbers, pieces);
    Ok(())
}

/// Puts an offer after the pieces.
fn put_offer(offer: &Offer, numbers: Numbers, pieces: &mut Pieces)
    requires imp { offer.now.imp < 2 ^ 8 }
    requires room { length pieces.old.items + PIECE_ROOM ≤ GATHERED }
    ensures { Adds (offer_format numbers) pieces.old.items pieces.new.items offer.now }
{
    numbers.put_small(offer.imp as u8, pieces);
    numbers.put_long(offer.campaign, pieces);
    numbers.put_wide(offer.charge.0, pieces);
    numbers.put_long(offer.life, pieces);
    numbers.put_short(offer.reason, pieces);
}

/// Adds the texts of bids after the number of these bids.
#[tactic(auto, unfolding(crate::specs::Entries::all_kept))]
fn gather_all_kept(
    kept: &[Kept],
    numbers: Numbers,
    pieces: &mut Pieces,
    out: &mut Frame,
) -> Result<(), OutOfMemory>
    requires few { length kept.now < 2 ^ 32 }
    requires texts { All HasShortTexts kept.now }
    ensures ok { OnOk result (Adds (all_kept numbers) (with_pieces pieces.old.items out.old) (with_pieces pieces.new.items out.new) kept.now) }
    ensures marked { out.new.marked ≡ out.old.marked }
{
    numbers.gather_long(kept.len() as u32, pieces, out)?;
    for one in kept {
        gather_kept(one, numbers, pieces, out)?;
    }
    Ok(())
}

/// Adds the texts of one bid after its place.
fn gather_kept(
    kept: &Kept,
    numbers: Numbers,
    pieces: &mut Pieces,
    out: &mut Frame,
) -> Result<(), OutOfMemory>
    requires { HasShortTexts kept.now }
    ensures ok { OnOk result (Adds (kept_format numbers) (with_pieces pieces.old.items out.old) (with_pieces pieces.new.items out.new) kept.now) }
    ensures marked { out.new.marked ≡ out.old.marked }
{
    numbers.gather_long(kept.bid, pieces, out)?;
    gather_text(kept.seat.as_bytes(), numbers, pieces, out)?;
    gather_text(kept.bidid.as_bytes(), numbers, pieces, out)?;
    gather_text(kept.adid.as_bytes(), numbers, pieces, out)?;
    gather_text(kept.nurl.as_bytes(), numbers, pieces, out)?;
    gather_text(kept.burl.as_bytes(), numbers, pieces, out)?;
    gather_text(kept.lurl.as_bytes(), numbers, pieces, out)?;
    gather_text(kept.body.as_bytes(), numbers, pieces, out)?;
    Ok(())
}

/// Adds a change of a campaign's budget after its kind.
#[tactic(auto, unfolding(crate::specs::Entries::change))]
fn push_budget(
    campaign: u32,
    change: u32,
    budget: Units,
    numbers: Numbers,
    out: &mut Frame,
) -> Result<(), OutOfMemory>
    ensures ok { OnOk result (Adds (last_kind 6 (change_format numbers)) out.old.payload out.new.payload (change_of campaign change budget)) }
    ensures marked { out.new.marked ≡ out.old.marked }
{
    out.push(&[6])?;
    numbers.push_long(campaign, out)?;
    numbers.push_long(change, out)?;
    numbers.push_wide(budget.0, out)?;
    Ok(())
}
