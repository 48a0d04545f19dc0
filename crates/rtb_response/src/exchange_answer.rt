//! The exchange's answer to a request.
ghost use Rattle.std.specs.Prelude.{◌≡◌, ◌++◌, ◌∷◌, map, IfOk, OnOk, string_bytes, decimal, codes};
ghost use Rattle.std.specs.List.{flat_map};
ghost use Rattle.adx_json.specs.Tree.{items_of};
ghost use Rattle.adx_units.specs.JsonTexts.{text_spelling};
ghost use Rattle.adx_json.specs.Spelling.{spelling, items_spelling, more_members_spelling};
ghost use Rattle.adx_units.specs.Money.{price_text};
ghost use Rattle.notice_macros.specs.Escaped.{url_byte};
ghost use Rattle.rtb_response.specs.Notices.{url_of};
ghost use Rattle.rtb_response.specs.Parts.{own_members};
ghost use Rattle.rtb_response.specs.ExchangeAnswer.{answer_tree, bid_tree, notice_members, seat_tree};

use crate::body::push_passed_on;
use crate::notice::{Addressed, Notice, push_notice};
use crate::sold::Sold;
use adx_json::{members_in, push_comma};
use adx_units::{ArrayText, Id, OutOfMemory, Text, Units, push_text, write_price};
use itoa::Buffer;
use notice_macros::push_percent_encoded;
use std::alloc::Global;
use std::str;

/// The exchange's answer to the request with that id (OpenRTB 2.6, section 4.2.1, BidResponse), as compact JSON:
/// `{"id":A,"seatbid":[..],"cur":"USD"}` with one element for each award in the order given, each
/// `{"seat":S,"bid":[{"id":"N","impid":I,"price":P, ..,"nurl":"..","burl":"..","lurl":".."}]}`. N is the award's
/// number, P its charge as `write_price` writes it, and `..` are the members of its body that are passed on. The notice
/// URLs are `BASE/notice/win?auction=Q&bid=N`, `BASE/notice/bill?..` and `BASE/notice/loss?..`, Q being the
/// percent-encoded id. Fails only where memory is refused.
pub fn write_answer(alloc: Global, id: &Id, base: &str, sold: &[Sold]) -> Result<Text, OutOfMemory>
    ensures { IfOk result (λ t. t ≡ spelling (answer_tree id.now base.now sold.now)) }
{
    let auction = escaped(alloc, id)?;
    let to = Addressed {
        base,
        auction: auction.as_str(),
    };
    let mut out = String::new(alloc);
    out.push_str("{\"id\":")?;
    push_text(&mut out, id.as_str())?;
    out.push_str(",\"seatbid\":[")?;
    push_seats(alloc, &mut out, &to, sold)?;
    out.push_str("],\"cur\":\"USD\"}")?;
    Ok(Text::from(out))
}

/// The percent-encoded id of an auction, as it stands in notice URLs.
fn escaped(alloc: Global, id: &Id) -> Result<String, OutOfMemory>
    ensures { IfOk result (λ t. string_bytes t ≡ flat_map url_byte id.now) }
{
    let mut auction = String::new(alloc);
    push_percent_encoded(&mut auction, id.as_str())?;
    Ok(auction)
}

/// Puts the seats of the awards at the end, with commas between them.
fn push_seats(
    alloc: Global,
    out: &mut String,
    to: &Addressed<'_>,
    sold: &[Sold],
) -> Result<(), OutOfMemory>
    ensures { OnOk result (string_bytes out.new ≡ string_bytes out.old
        ++ items_spelling (items_of (map (seat_tree (url_of to.now.base.now to.now.auction.now)) sold.now))) }
{
    let mut url = String::new(alloc);
    let mut first = true;
    for award in sold {
        push_comma(out, first)?;
        push_seat(out, &mut url, to, award)?;
        first = false;
    }
    Ok(())
}

/// Puts the seat of an award at the end, with its bid.
fn push_seat(
    out: &mut String,
    url: &mut String,
    to: &Addressed<'_>,
    award: &Sold,
) -> Result<(), OutOfMemory>
    ensures { OnOk result (string_bytes out.new ≡ string_bytes out.old
        ++ spelling (seat_tree (url_of to.now.base.now to.now.auction.now) award.now)) }
{
    out.push_str("{\"seat\":")?;
    push_text(out, award.seat.as_str())?;
    out.push_str(",\"bid\":[")?;
    push_bid(out, url, to, award)?;
    out.push_str("]}")?;
    Ok(())
}

/// Puts the bid of an award at the end.
fn push_bid(
    out: &mut String,
    url: &mut String,
    to: &Addressed<'_>,
    award: &Sold,
) -> Result<(), OutOfMemory>
    ensures { OnOk result (string_bytes out.new ≡ string_bytes out.old
        ++ spelling (bid_tree (url_of to.now.base.now to.now.auction.now) award.now)) }
{
    out.push_str("{")?;
    push_own(out, award)?;
    push_passed_on(out, false, members_in(&award.body))?;
    push_notices(out, url, to, award.award)?;
    out.push_str("}")?;
    Ok(())
}

/// Puts the members of an award's bid that stand before its body's at the end.
fn push_own(out: &mut String, award: &Sold) -> Result<(), OutOfMemory>
    ensures { OnOk result (string_bytes out.new ≡ string_bytes out.old ++ own_members award.now) }
{
    let mut number = Buffer::new();
    out.push_str("\"id\":")?;
    push_text(out, number.format(award.award))?;
    out.push_str(",\"impid\":")?;
    push_text(out, award.imp.as_str())?;
    out.push_str(",\"price\":")?;
    push_price(out, award.charge)?;
    Ok(())
}

/// Puts the notice URLs of an award at the end, behind other members.
fn push_notices(
    out: &mut String,
    url: &mut String,
    to: &Addressed<'_>,
    award: u32,
) -> Result<(), OutOfMemory>
    ensures { OnOk result (string_bytes out.new ≡ string_bytes out.old
        ++ more_members_spelling (notice_members (url_of to.now.base.now to.now.auction.now award))) }
{
    push_notice(out, url, to, award, Notice::Win)?;
    push_notice(out, url, to, award, Notice::Bill)?;
    push_notice(out, url, to, award, Notice::Loss)?;
    Ok(())
}

/// Puts the text of a price at the end.
fn push_price(out: &mut String, price: Units) -> Result<(), OutOfMemory>
    ensures { OnOk result (string_bytes out.new ≡ string_bytes out.old ++ price_text price.0) }
{
    let mut digits = ArrayText::new();
    write_price(price, &mut digits);
    out.push_str(str::from_utf8(digits.as_bytes()).unwrap())?;
    Ok(())
}
