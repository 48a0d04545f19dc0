//! A line of a bidder's ledger.
ghost use Rattle.std.specs.Prelude.{◌≡◌, ◌≤◌, ◌++◌, if◌then◌else◌, IfNone, IfOk, IfSome, None, false, OnOk, Some, option_map, string_bytes};
ghost use Rattle.std.specs.Str.{bytes_eq};
ghost use Rattle.adx_json.specs.Grammar.{IsJson};
ghost use Rattle.adx_json.specs.Tree.{Tree};
ghost use Rattle.adx_json.specs.View.{member_of, members_view, tree_of};
ghost use Rattle.adx_units.specs.Ids.{IsSized};
ghost use Rattle.adx_units.specs.declared.price.TheConstants.{PRICE_LIMIT as price_limit};
ghost use Rattle.bidder_http.specs.Books.{kind_text};
ghost use Rattle.command_reconcile.specs.Ledgers.{IsRowLine, TellsNoRow};
ghost use Rattle.command_reconcile.specs.Rows.{HasTexts, TellsTree, kind_at as kind_at_place, kind_named as kind_named_by, price_at as price_at_place, row_head, row_line, row_tail, row_with, text_at as text_at_place, value_at as value_at_place, wants_memory};

use adx_json::{Json, JsonFault, Member, members_in, number_in, push_number, read, text_in};
use adx_units::{Id, OutOfMemory, PRICE_LIMIT, Text, Units, push_text, whole_up_to};
use bidder_core::LedgerRow;
use notice_book::NoticeKind;
use std::alloc::Global;

/// The kind of notices with that name.
fn kind_named(name: &str) -> Option<NoticeKind>
    ensures { result ≡ kind_named_by name.now }
{
    match name {
        "win" => Some(NoticeKind::Win),
        "bill" => Some(NoticeKind::Bill),
        "loss" => Some(NoticeKind::Loss),
        _ => None,
    }
}

/// The value of a member.
fn value_of(member: &Member) -> &Json
    ensures { tree_of result.now ≡ (member_of member.now).1 }
{
    &member.value
}

/// The value of the member at a place.
fn value_at(members: &[Member], place: usize) -> Option<&Json>
    ensures { option_map (λ t. tree_of t.now) result ≡ value_at_place place (members_view members.now) }
{
    match members.get(place) {
        Some(member) => Some(value_of(member)),
        None => None,
    }
}

/// The text that it is.
fn text_at(members: &[Member], place: usize) -> Option<&Text>
    ensures { option_map (λ t. t.now) result ≡ text_at_place place (members_view members.now) }
{
    text_in(value_at(members, place))
}

/// The kind of notices that it names.
fn kind_at(members: &[Member], place: usize) -> Option<NoticeKind>
    ensures { result ≡ kind_at_place place (members_view members.now) }
{
    match text_at(members, place) {
        Some(name) => kind_named(name.as_str()),
        None => None,
    }
}

/// The price, in units, that it is.
fn price_at(members: &[Member], place: usize) -> Option<u64>
    ensures value { result ≡ price_at_place place (members_view members.now) }
    ensures small { IfSome result (λ n. n ≤ price_limit) }
{
    match number_in(value_at(members, place)) {
        Some(number) => whole_up_to(number.as_bytes(), PRICE_LIMIT),
        None => None,
    }
}

/// The row of two texts, a kind and a price. None where the auction's text is no name.
fn row_of_parts(
    alloc: Global,
    auction: &Text,
    bid: &Text,
    kind: NoticeKind,
    price: u64,
) -> Result<Option<LedgerRow>, OutOfMemory>
    ensures none { IfOk result (λ found. IfNone found (¬ (IsSized auction.now))) }
    ensures some { IfOk result (λ found. IfSome found (λ row. row ≡ row_with auction.now bid.now kind price)) }
{
    match Id::of(alloc, auction.as_str())? {
        Some(auction) => Ok(Some(LedgerRow {
            auction,
            bid: bid.copy(alloc)?,
            kind,
            price: Units(price),
        })),
        None => Ok(None),
    }
}

/// The row that a tree's first four members tell, whatever their names.
fn row_in(alloc: Global, tree: &Json) -> Result<Option<LedgerRow>, OutOfMemory>
    ensures tells { IfOk result (TellsTree (tree_of tree.now)) }
    ensures priced { IfOk result (λ found. IfSome found (λ row. row.price.0 ≤ price_limit)) }
{
    let members = members_in(tree);
    let Some(auction) = text_at(members, 0) else {
        return Ok(None);
    };
    let Some(bid) = text_at(members, 1) else {
        return Ok(None);
    };
    let Some(kind) = kind_at(members, 2) else {
        return Ok(None);
    };
    let Some(price) = price_at(members, 3) else {
        return Ok(None);
    };
    row_of_parts(alloc, auction, bid, kind, price)
}

/// Writes the two texts of a row.
fn push_head(out: &mut String, auction: &str, bid: &str) -> Result<(), OutOfMemory>
    ensures { OnOk result (string_bytes out.new ≡ string_bytes out.old ++ row_head auction.now bid.now) }
{
    out.push_str("{\"auction\":")?;
    push_text(out, auction)?;
    out.push_str(",\"bid\":")?;
    push_text(out, bid)?;
    Ok(())
}

/// Writes what a notice tells.
fn push_kind(out: &mut String, kind: NoticeKind) -> Result<(), OutOfMemory>
    ensures { OnOk result (string_bytes out.new ≡ string_bytes out.old ++ kind_text kind) }
{
    match kind {
        NoticeKind::Win => out.push_str("\"win\"")?,
        NoticeKind::Bill => out.push_str("\"bill\"")?,
        NoticeKind::Loss => out.push_str("\"loss\"")?,
    }
    Ok(())
}

/// Writes the kind and the price of a row.
fn push_tail(out: &mut String, kind: NoticeKind, price: u64) -> Result<(), OutOfMemory>
    ensures { OnOk result (string_bytes out.new ≡ string_bytes out.old ++ row_tail kind price) }
{
    out.push_str(",\"kind\":")?;
    push_kind(out, kind)?;
    out.push_str(",\"price\":")?;
    push_number(out, price)?;
    out.push_str("}")?;
    Ok(())
}

/// Writes the line of a row, without a newline.
fn push_row(out: &mut String, row: &LedgerRow) -> Result<(), OutOfMemory>
    ensures spelled { OnOk result (string_bytes out.new ≡ string_bytes out.old ++ row_line row.now) }
    ensures texts { HasTexts row.now }
{
    let auction = row.auction.as_str();
    let bid = row.bid.as_str();
    push_head(out, auction, bid)?;
    push_tail(out, row.kind, row.price.0)
}

/// Whether a line is that of a row.
fn is_line_of(alloc: Global, row: &LedgerRow, line: &[u8]) -> Result<bool, OutOfMemory>
    ensures same { IfOk result (λ same. same ≡ bytes_eq (row_line row.now) line.now) }
    ensures texts { HasTexts row.now }
{
    let mut out = String::new(alloc);
    push_row(&mut out, row)?;
    Ok(out.as_bytes() == line)
}

/// The row, where that is so.
fn kept_if(same: bool, row: LedgerRow) -> Option<LedgerRow>
    ensures { result ≡ (if same then Some row else None) }
{
    if same { Some(row) } else { None }
}

/// The row whose line it is, by the tree of the line.
fn row_by_tree(alloc: Global, line: &[u8], tree: &Json) -> Result<Option<LedgerRow>, OutOfMemory>
    requires { (t : Tree) → IsJson line.now t → t ≡ tree_of tree.now }
    ensures some { IfOk result (λ found. IfSome found (IsRowLine line.now)) }
    ensures none { IfOk result (λ found. IfNone found (TellsNoRow line.now)) }
{
    let Some(row) = row_in(alloc, tree)? else {
        return Ok(None);
    };
    let same = is_line_of(alloc, &row, line)?;
    Ok(kept_if(same, row))
}

/// No row, where bytes are no JSON text for this fault.
fn none_at(fault: JsonFault) -> Result<Option<LedgerRow>, OutOfMemory>
    ensures { IfOk result (λ found. (found ≡ None) × (wants_memory fault ≡ false)) }
{
    match fault {
        JsonFault::Syntax { .. } | JsonFault::Utf8 { .. } | JsonFault::Depth { .. } => Ok(None),
        JsonFault::OutOfMemory => Err(OutOfMemory),
    }
}

/// The row that a line tells, which comes without its newline. None where it tells none.
pub(crate) fn row_of(alloc: Global, line: &[u8]) -> Result<Option<LedgerRow>, OutOfMemory>
    ensures some { IfOk result (λ found. IfSome found (IsRowLine line.now)) }
    ensures none { IfOk result (λ found. IfNone found (TellsNoRow line.now)) }
{
    match read(alloc, line) {
        Ok(tree) => row_by_tree(alloc, line, &tree),
        Err(fault) => none_at(fault),
    }
}
