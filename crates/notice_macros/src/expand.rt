//! Templates expanded.
ghost use Rattle.std.specs.Prelude.{◌≡◌, ◌++◌, IfOk, OnOk, decimal, string_bytes};
ghost use Rattle.std.specs.List.{flat_map, slice_split};
ghost use Rattle.adx_units.specs.Money.{price_text};
ghost use Rattle.notice_macros.specs.Macros.{charge_text, value_of};
ghost use Rattle.notice_macros.specs.Escaped.{formed, placed};
ghost use Rattle.notice_macros.specs.Expansion.{behind_dollar, expansion, is_dollar, markup_expansion, substitute, url_expansion};

use crate::macros::{Form, Macro, Name};
use crate::place::{Place, push_formed};
use crate::template::{cut_at_dollar, macro_at};
use crate::values::Values;
use adx_units::{ArrayText, OutOfMemory, Text, Units, write_price};
use itoa::Buffer;
use std::alloc::Global;
use std::str;

/// What a notice URL becomes (OpenRTB 2.6, section 4.4): each macro, `${NAME}` or `${NAME:B64}` with a name
/// of the table below, is replaced by its value, every byte of which but letters, digits, `-`, `.`, `_` and
/// `~` is escaped (RFC 3986). All other text stays, an unclosed `${` and an unknown name among it, and what
/// was put in isn't read again. With `:B64` the value is first coded in Base64 with padding (RFC 4648).
///
/// | Name | Value |
/// |---|---|
/// | `AUCTION_ID`, `AUCTION_BID_ID`, `AUCTION_IMP_ID`, `AUCTION_SEAT_ID`, `AUCTION_AD_ID` | `auction`, `bidid`, `imp`, `seat`, `adid` |
/// | `AUCTION_PRICE` | `price` in dollars, as `write_price` writes it |
/// | `AUCTION_CURRENCY` | `USD` |
/// | `AUCTION_LOSS` | `loss` in decimal |
/// | `AUCTION_MBR`, `AUCTION_MIN_TO_WIN` | nothing |
///
/// Fails only where memory is refused.
pub fn expand_url(alloc: Global, template: &str, values: &Values<'_>) -> Result<Text, OutOfMemory>
    ensures { IfOk result (λ t. t ≡ url_expansion values.now template.now) }
{
    expand(alloc, Place::Url, template, values)
}

/// What markup becomes: as by `expand_url`, but values are as they are, without escapes.
/// Fails only where memory is refused.
pub fn expand_markup(
    alloc: Global,
    template: &str,
    values: &Values<'_>,
) -> Result<Text, OutOfMemory>
    ensures { IfOk result (λ t. t ≡ markup_expansion values.now template.now) }
{
    expand(alloc, Place::Markup, template, values)
}

/// What a template becomes in its place, in one pass over its runs without a `$`.
fn expand(
    alloc: Global,
    place: Place,
    template: &str,
    values: &Values<'_>,
) -> Result<Text, OutOfMemory>
    ensures { IfOk result (λ t. t ≡ expansion place values.now template.now) }
{
    let mut out = String::with_capacity(alloc, template.len())?;
    match cut_at_dollar(template) {
        None => out.push_str(template)?,
        Some((first, behind)) => {
            out.push_str(first)?;
            push_pieces(alloc, &mut out, place, behind, values)?;
        }
    }
    Ok(Text::from(out))
}

/// Puts what a `$` and all that comes after it become at the end.
fn push_pieces(
    alloc: Global,
    out: &mut String,
    place: Place,
    behind: &str,
    values: &Values<'_>,
) -> Result<(), OutOfMemory>
    ensures { OnOk result (string_bytes out.new ≡ string_bytes out.old
        ++ flat_map (behind_dollar place values.now) (slice_split is_dollar behind.now)) }
{
    let mut left = behind;
    'pieces: loop {
        let Some((piece, more)) = cut_at_dollar(left) else {
            return push_piece(alloc, out, place, left, values);
        };
        push_piece(alloc, out, place, piece, values)?;
        left = more;
    }
}

/// Puts what a `$` and the text after it, up to the next, become at the end.
fn push_piece(
    alloc: Global,
    out: &mut String,
    place: Place,
    piece: &str,
    values: &Values<'_>,
) -> Result<(), OutOfMemory>
    ensures { OnOk result (string_bytes out.new ≡ string_bytes out.old ++ behind_dollar place values.now piece.now) }
{
    match macro_at(piece) {
        Some((found, rest)) => {
            push_value(alloc, out, place, found, values)?;
            out.push_str(rest)?;
        }
        None => {
            out.push_str("$")?;
            out.push_str(piece)?;
        }
    }
    Ok(())
}

/// Puts what a macro becomes at the end.
fn push_value(
    alloc: Global,
    out: &mut String,
    place: Place,
    found: Macro,
    values: &Values<'_>,
) -> Result<(), OutOfMemory>
    ensures { OnOk result (string_bytes out.new ≡ string_bytes out.old ++ substitute place values.now found) }
{
    let form = found.form;
    match found.name {
        Name::AuctionId => push_formed(alloc, out, place, form, values.auction),
        Name::BidId => push_formed(alloc, out, place, form, values.bidid),
        Name::ImpId => push_formed(alloc, out, place, form, values.imp),
        Name::SeatId => push_formed(alloc, out, place, form, values.seat),
        Name::AdId => push_formed(alloc, out, place, form, values.adid),
        Name::Price => push_charge(alloc, out, place, form, values.price),
        Name::Currency => push_formed(alloc, out, place, form, "USD"),
        Name::Loss => push_loss(alloc, out, place, form, values.loss),
        Name::MarketBidRatio | Name::MinToWin => push_formed(alloc, out, place, form, ""),
    }
}

/// Puts the price at the end, or nothing where there is none.
fn push_charge(
    alloc: Global,
    out: &mut String,
    place: Place,
    form: Form,
    charge: Option<Units>,
) -> Result<(), OutOfMemory>
    ensures { OnOk result (string_bytes out.new ≡ string_bytes out.old ++ placed place (formed form (charge_text charge))) }
{
    match charge {
        Some(price) => push_price(alloc, out, place, form, price),
        None => push_formed(alloc, out, place, form, ""),
    }
}

/// Puts the text of a price at the end.
fn push_price(
    alloc: Global,
    out: &mut String,
    place: Place,
    form: Form,
    price: Units,
) -> Result<(), OutOfMemory>
    ensures { OnOk result (string_bytes out.new ≡ string_bytes out.old ++ placed place (formed form (price_text price.0))) }
{
    let mut digits = ArrayText::new();
    write_price(price, &mut digits);
    push_formed(
        alloc,
        out,
        place,
        form,
        str::from_utf8(digits.as_bytes()).unwrap(),
    )
}

/// Puts the loss number at the end.
fn push_loss(
    alloc: Global,
    out: &mut String,
    place: Place,
    form: Form,
    loss: u16,
) -> Result<(), OutOfMemory>
    ensures { OnOk result (string_bytes out.new ≡ string_bytes out.old ++ placed place (formed form (decimal loss))) }
{
    let mut buffer = Buffer::new();
    push_formed(alloc, out, place, form, buffer.format(loss))
}
