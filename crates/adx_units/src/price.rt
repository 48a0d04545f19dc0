//! Prices, floors and budgets of the texts of JSON numbers.

ghost use Rattle.std.specs.Prelude.{◌≡◌, ◌≤◌, IfOk};
ghost use Rattle.adx_units.specs.Money.{price_of as price_of_text, floor_of as floor_of_text, budget_of as budget_of_text};

use crate::scale::amount_of;
use crate::units::Units;

/// The largest price and the largest floor, in units.
pub const PRICE_LIMIT: u64 = 1_000_000_000_000;

/// The largest budget, in units.
pub const BUDGET_LIMIT: u64 = 1_000_000_000_000_000;

/// Why a text isn't a price, a floor or a budget: the first of these that holds.
#[derive(Clone, Copy, Debug, PartialEq, Eq, Hash)]
pub enum PriceFault {
    /// The text isn't a JSON number (RFC 8259, section 6).
    NotNumber,
    /// The value is negative, or, of a price or a budget, 0, or a price comes to no unit.
    NotPositive,
    /// A price or a floor passes 10^12 units, or a budget 10^15.
    TooLarge,
    /// A budget has a digit other than 0 past the ninth decimal.
    TooFine,
}

/// The price that a JSON number (RFC 8259, section 6) in dollars per thousand represents: the whole
/// part of its value times 10^6, in units.
/// Fails where the text isn't a number, where it is negative or comes to no unit, and past 10^12 units.
pub fn price_of(text: &[u8]) -> Result<Units, PriceFault>
    ensures value { result ≡ price_of_text text.now }
    ensures range { IfOk result (λ price. (1 ≤ price.0) × (price.0 ≤ PRICE_LIMIT)) }
{
    let Some(price) = amount_of(text, 6) else {
        return Err(PriceFault::NotNumber);
    };
    if price.minus || price.units == 0 {
        return Err(PriceFault::NotPositive);
    }
    if price.units > PRICE_LIMIT {
        return Err(PriceFault::TooLarge);
    }
    Ok(Units(price.units))
}

/// The floor that a JSON number in dollars per thousand represents: its value times 10^6, rounded up
/// to a whole unit. A floor may be 0.
/// Fails where the text isn't a number, where it is below 0, and past 10^12 units.
pub fn floor_of(text: &[u8]) -> Result<Units, PriceFault>
    ensures value { result ≡ floor_of_text text.now }
    ensures range { IfOk result (λ floor. floor.0 ≤ PRICE_LIMIT) }
{
    let Some(floor) = amount_of(text, 6) else {
        return Err(PriceFault::NotNumber);
    };
    if floor.minus && !floor.is_zero() {
        return Err(PriceFault::NotPositive);
    }
    let units = floor.rounded_up();
    if units > PRICE_LIMIT {
        return Err(PriceFault::TooLarge);
    }
    Ok(Units(units))
}

/// The budget that a JSON number in dollars represents: its value times 10^9, which has to be whole,
/// in units.
/// Fails where the text isn't a number, where it is 0 or negative, past 10^15 units, and where a part
/// of a unit is left.
pub fn budget_of(text: &[u8]) -> Result<Units, PriceFault>
    ensures value { result ≡ budget_of_text text.now }
    ensures range { IfOk result (λ budget. (1 ≤ budget.0) × (budget.0 ≤ BUDGET_LIMIT)) }
{
    let Some(budget) = amount_of(text, 9) else {
        return Err(PriceFault::NotNumber);
    };
    if budget.minus || budget.is_zero() {
        return Err(PriceFault::NotPositive);
    }
    if budget.passes(BUDGET_LIMIT) {
        return Err(PriceFault::TooLarge);
    }
    if budget.rest {
        return Err(PriceFault::TooFine);
    }
    Ok(Units(budget.units))
}
