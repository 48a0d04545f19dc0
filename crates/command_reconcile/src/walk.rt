//! A walk over the bills of both sides in order.
ghost use Rattle.std.specs.Prelude.{◌≡◌, ◌++◌, [], List, ℕ, OnOk, IfNone, IfSome, string_bytes};
ghost use Rattle.std.specs.List.{flat_map, prefix_len};
ghost use Rattle.std.specs.List.Sorted.{IsPermutation};
ghost use Rattle.command_reconcile.specs.Agreements.{Reconciles};
ghost use Rattle.command_reconcile.specs.Differences.{AreDifferences, difference_line, is_same as is_same_bill};
ghost use Rattle.command_reconcile.specs.Walks.{AreFrom, AreRising, BeginsWith, IsCut, IsLeast, IsLesser};
ghost use Rattle.command_reconcile.specs.declared.bill.Bill.{Bill as BillValue};

use crate::bill::{Bill, compare, is_same};
use crate::lines::{push_difference, push_sums};
use adx_units::OutOfMemory;
use std::cmp::Ordering;

/// Puts bills in order.
fn sort(bills: &mut Vec<Bill>)
    ensures permutation { IsPermutation bills.old.items bills.new.items }
    ensures rising { AreRising bills.new.items }
{
    bills.sort_unstable_by(|a, b| compare(a, b));
}

/// The first bill of a list that is in order. None where there is no bill.
fn first_of(bills: &[Bill]) -> Option<&Bill>
    requires { AreRising bills.now }
    ensures none { IfNone result (bills.now ≡ []) }
    ensures some { IfSome result (λ b. BeginsWith b.now bills.now × AreFrom b.now bills.now) }
{
    match bills.split_first() {
        Some((first, _)) => Some(first),
        None => None,
    }
}

/// One of two bills, such that the other isn't before it.
fn lesser<'a>(ours: &'a Bill, theirs: &'a Bill) -> &'a Bill
    ensures { IsLesser ours.now theirs.now result.now }
{
    match compare(theirs, ours) {
        Ordering::Less => theirs,
        Ordering::Equal | Ordering::Greater => ours,
    }
}

/// The first bill of two lists that are in order. None where there is no bill.
fn least<'a>(exchange: &'a [Bill], bidder: &'a [Bill]) -> Option<&'a Bill>
    requires exchange { AreRising exchange.now }
    requires bidder { AreRising bidder.now }
    ensures none { IfNone result ((exchange.now ≡ []) × (bidder.now ≡ [])) }
    ensures some { IfSome result (λ b. IsLeast b.now exchange.now bidder.now) }
{
    match first_of(exchange) {
        Some(ours) => match first_of(bidder) {
            Some(theirs) => Some(lesser(ours, theirs)),
            None => Some(ours),
        },
        None => match first_of(bidder) {
            Some(theirs) => Some(theirs),
            None => None,
        },
    }
}

/// How many bills at the front are of that auction and price.
fn run_len(bills: &[Bill], wanted: &Bill) -> usize
    ensures { result ≡ prefix_len (is_same_bill wanted.now) bills.now }
{
    bills
        .iter()
        .take_while(|bill| is_same(wanted, bill))
        .count()
}

/// Cuts off the bills at the front that are of that auction and price: how many they are, and what is behind them.
fn cut<'a>(bills: &'a [Bill], wanted: &Bill) -> (u64, &'a [Bill])
    requires rising { AreRising bills.now }
    requires from { AreFrom wanted.now bills.now }
    ensures { IsCut wanted.now bills.now result.1.now result.0 }
{
    let len = run_len(bills, wanted);
    let (_, rest) = bills.split_at(len);
    (len as u64, rest)
}

/// Writes a line for each auction and price of which the two sides have different numbers of bills.
fn push_differences(out: &mut String, exchange: &[Bill], bidder: &[Bill]) -> Result<(), OutOfMemory>
    requires exchange { AreRising exchange.now }
    requires bidder { AreRising bidder.now }
    ensures { OnOk result ((differences : List BillValue) × AreDifferences exchange.now bidder.now differences
        × (string_bytes out.new ≡ string_bytes out.old ++ flat_map (difference_line exchange.now bidder.now) differences)) }
{
    let mut ours = exchange;
    let mut theirs = bidder;
    'pairs: while let Some(bill) = least(ours, theirs) {
        let (our_number, our_rest) = cut(ours, bill);
        let (their_number, their_rest) = cut(theirs, bill);
        push_difference(out, bill, our_number, their_number)?;
        ours = our_rest;
        theirs = their_rest;
    }
    Ok(())
}

/// Writes the reconciliation of the bills of an exchange and of a bidder: a line for each auction and price of which they
/// have different numbers, by the bytes of the auction and then by the price, and after these the two sums. No other text
/// is that; the sums are alone in it just where both sides have the same bills, and then they are equal.
///
/// Both lists may come in any order. Where memory is refused, a part of it may stand there.
pub fn push_reconciliation(
    out: &mut String,
    exchange: Vec<Bill>,
    bidder: Vec<Bill>,
) -> Result<(), OutOfMemory>
    ensures { OnOk result ((text : List ℕ) × (string_bytes out.new ≡ string_bytes out.old ++ text)
        × Reconciles exchange.items bidder.items text) }
{
    let mut exchange = exchange;
    let mut bidder = bidder;
    sort(&mut exchange);
    sort(&mut bidder);
    let ours = exchange.as_slice();
    let theirs = bidder.as_slice();
    push_differences(out, ours, theirs)?;
    push_sums(out, ours, theirs)?;
    Ok(())
}
