//! The lines of a reconciliation.
ghost use Rattle.std.specs.Prelude.{◌≡◌, ◌++◌, OnOk, decimal, string_bytes};
ghost use Rattle.command_reconcile.specs.Differences.{sum_of as sum_of_bills, sums_line};
ghost use Rattle.command_reconcile.specs.Walks.{bill_names, difference_of, numbers_part};

use crate::bill::Bill;
use adx_json::push_number;
use adx_units::{OutOfMemory, push_text};
use itoa::Buffer;

/// Writes an auction and a price.
fn push_bill(out: &mut String, bill: &Bill) -> Result<(), OutOfMemory>
    ensures { OnOk result (string_bytes out.new ≡ string_bytes out.old ++ bill_names bill.now) }
{
    out.push_str("{\"auction\":")?;
    push_text(out, bill.auction.as_str())?;
    out.push_str(",\"price\":")?;
    push_number(out, bill.price.0)?;
    Ok(())
}

/// Writes the number of bills on each side.
fn push_numbers(out: &mut String, exchange: u64, bidder: u64) -> Result<(), OutOfMemory>
    ensures { OnOk result (string_bytes out.new ≡ string_bytes out.old ++ numbers_part exchange bidder) }
{
    out.push_str(",\"exchange\":")?;
    push_number(out, exchange)?;
    out.push_str(",\"bidder\":")?;
    push_number(out, bidder)?;
    out.push_str("}\n")?;
    Ok(())
}

/// Writes the line of an auction and a price with the number of bills on each side, where these differ.
pub(crate) fn push_difference(
    out: &mut String,
    bill: &Bill,
    exchange: u64,
    bidder: u64,
) -> Result<(), OutOfMemory>
    ensures { OnOk result (string_bytes out.new ≡ string_bytes out.old ++ difference_of bill.now exchange bidder) }
{
    if exchange != bidder {
        push_bill(out, bill)?;
        push_numbers(out, exchange, bidder)?;
    }
    Ok(())
}

/// What bills come to, in units.
fn sum_of(bills: &[Bill]) -> u128
    ensures { result ≡ sum_of_bills bills.now }
{
    let mut sum: u128 = 0;
    for bill in bills {
        sum += u128::from(bill.price.0);
    }
    sum
}

/// Writes a sum in units.
fn push_sum(out: &mut String, sum: u128) -> Result<(), OutOfMemory>
    ensures { OnOk result (string_bytes out.new ≡ string_bytes out.old ++ decimal sum) }
{
    let mut buffer = Buffer::new();
    out.push_str(buffer.format(sum))?;
    Ok(())
}

/// Writes the line of the sums of both sides.
pub(crate) fn push_sums(
    out: &mut String,
    exchange: &[Bill],
    bidder: &[Bill],
) -> Result<(), OutOfMemory>
    ensures { OnOk result (string_bytes out.new ≡ string_bytes out.old ++ sums_line exchange.now bidder.now) }
{
    out.push_str("{\"exchange\":")?;
    push_sum(out, sum_of(exchange))?;
    out.push_str(",\"bidder\":")?;
    push_sum(out, sum_of(bidder))?;
    out.push_str("}\n")?;
    Ok(())
}
