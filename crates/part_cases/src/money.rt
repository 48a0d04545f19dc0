//! Prices, floors and budgets of texts, and texts of prices.
use crate::readers::done;
use adx_units::{ArrayText, OutOfMemory, PriceFault, Units, write_price};
use std::fmt::Write;

/// Adds units, or why there are none.
pub(crate) fn push_money(
    out: &mut String,
    money: Result<Units, PriceFault>,
) -> Result<(), OutOfMemory> {
    match money {
        Ok(units) => done(write!(out, "{}", units.0)),
        Err(fault) => done(write!(out, "{fault:?}")),
    }
}

/// Adds the text of the price of so many units.
pub(crate) fn push_price_text(out: &mut String, text: &str) -> Result<(), OutOfMemory> {
    let mut price = ArrayText::new();
    write_price(Units(text.parse::<u64>().unwrap_or(0)), &mut price);
    Ok(out.push_str(std::str::from_utf8(price.as_bytes()).unwrap_or(""))?)
}
