//! The sums of a bidder's bills, and its ledger.
ghost use Rattle.std.specs.Prelude.{◌≡◌, ◌<◌, ◌++◌, OnOk, decimal, length, string_bytes};
ghost use Rattle.std.specs.List.{flat_map};
ghost use Rattle.bidder_http.specs.Books.{book_line, books_text, kind_text, ledger_line, ledger_text, row_names};

use adx_json::push_number;
use adx_units::{OutOfMemory, push_text};
use bidder_core::{Bidder, LedgerRow, Price};
use http_service::push_body;
use itoa::Buffer;
use notice_book::NoticeKind;

/// Writes a sum in units.
fn push_sum(out: &mut String, sum: u128) -> Result<(), OutOfMemory>
    ensures { OnOk result (string_bytes out.new ≡ string_bytes out.old ++ decimal sum) }
{
    let mut buffer = Buffer::new();
    push_body(out, buffer.format(sum))
}

/// Writes the line of the price in that place.
fn push_book(
    out: &mut String,
    bidder: &Bidder,
    place: u32,
    price: &Price,
) -> Result<(), OutOfMemory>
    requires { place < length bidder.now.line.prices }
    ensures { OnOk result (string_bytes out.new ≡ string_bytes out.old ++ book_line bidder.now.rows (place, price.now)) }
{
    push_body(out, "{\"cid\":")?;
    push_text(out, price.cid.as_str())?;
    push_body(out, ",\"billed\":")?;
    push_sum(out, bidder.billed(place))?;
    push_body(out, ",\"count\":")?;
    push_number(out, bidder.bill_count(place))?;
    push_body(out, "}\n")
}

/// Writes a line for each price.
pub(crate) fn push_books(out: &mut String, bidder: &Bidder) -> Result<(), OutOfMemory>
    ensures { OnOk result (string_bytes out.new ≡ string_bytes out.old ++ books_text bidder.now.line bidder.now.rows) }
{
    let prices = bidder.prices();
    for (place, price) in prices.iter().enumerate() {
        push_book(out, bidder, place as u32, price)?;
    }
    Ok(())
}

/// Writes what a notice says.
fn push_kind(out: &mut String, kind: NoticeKind) -> Result<(), OutOfMemory>
    ensures { OnOk result (string_bytes out.new ≡ string_bytes out.old ++ kind_text kind) }
{
    match kind {
        NoticeKind::Win => push_body(out, "\"win\""),
        NoticeKind::Bill => push_body(out, "\"bill\""),
        NoticeKind::Loss => push_body(out, "\"loss\""),
    }
}

/// Writes the award of a notice.
fn push_names(out: &mut String, row: &LedgerRow) -> Result<(), OutOfMemory>
    ensures { OnOk result (string_bytes out.new ≡ string_bytes out.old ++ row_names row.now) }
{
    push_body(out, "{\"auction\":")?;
    push_text(out, row.auction.as_str())?;
    push_body(out, ",\"bid\":")?;
    push_text(out, row.bid.as_str())?;
    Ok(())
}

/// Writes the line of a notice that was counted.
fn push_row(out: &mut String, row: &LedgerRow) -> Result<(), OutOfMemory>
    ensures { OnOk result (string_bytes out.new ≡ string_bytes out.old ++ ledger_line row.now) }
{
    push_names(out, row)?;
    push_body(out, ",\"kind\":")?;
    push_kind(out, row.kind)?;
    push_body(out, ",\"price\":")?;
    push_number(out, row.price.0)?;
    push_body(out, "}\n")
}

/// Writes a line for each notice that was counted.
pub(crate) fn push_ledger(out: &mut String, rows: &[LedgerRow]) -> Result<(), OutOfMemory>
    ensures { OnOk result (string_bytes out.new ≡ string_bytes out.old ++ ledger_text rows.now) }
{
    for row in rows {
        push_row(out, row)?;
    }
    Ok(())
}
