//! The value of a number's text times a power of ten: its whole part up to a cap, and whether a part is left.
ghost use Rattle.std.specs.Prelude.{◌≡◌, ◌≤◌, ◌<◌, ◌+◌, ◌-◌, ◌*◌, ◌/◌, ◌%◌, ◌^◌, ◌++◌, ◌==◌, ◌&&◌, ◌||◌, nat_lt, not, min, true, false, if◌then◌else◌, MatchOption};
ghost use Rattle.std.specs.List.{list_all};
ghost use Rattle.adx_units.specs.Number.{digits_value, digits_after, is_digit, is_number, has_minus, numerator, denominator};
ghost use Rattle.adx_units.specs.Numerals.{numerator_in, denominator_in};

use crate::numeral::{Numeral, numeral_of};

/// Above each limit of a price, a floor or a budget: an amount is counted no further.
const CAP: u64 = 10_000_000_000_000_000;

/// So many zeros after a digit other than 0 reach the cap.
const ENOUGH: u128 = 16;

/// Above the length of each text and above each number of 64 bits: an exponent or a whole number is counted no further.
const FAR: u128 = 100_000_000_000_000_000_000;

/// A number's value in units.
#[derive(Clone, Copy)]
pub(crate) struct Amount {
    /// Whether a minus comes first.
    pub minus: bool,
    /// The whole units, or the cap where there are more.
    pub units: u64,
    /// Whether a part of a unit is left.
    pub rest: bool,
}

impl Amount {
    /// Whether the value is 0.
    pub(crate) fn is_zero(self) -> bool
        ensures { result ≡ (self.units == 0 && not self.rest) }
    {
        self.units == 0 && !self.rest
    }

    /// The units, rounded up.
    pub(crate) fn rounded_up(self) -> u64
        requires room { self.units ≤ CAP }
        ensures { result ≡ self.units + (if self.rest then 1 else 0) }
    {
        if self.rest {
            self.units + 1
        } else {
            self.units
        }
    }

    /// Whether the value is more than `limit` units.
    pub(crate) fn passes(self, limit: u64) -> bool
        ensures { result ≡ (nat_lt limit self.units || (self.units == limit && self.rest)) }
    {
        self.units > limit || self.units == limit && self.rest
    }
}

// The digit's number. A byte below the digits counts as 0, which the contract's `-` does too.
fn digit_of(byte: u8) -> u64
    ensures value { result ≡ byte - 48 }
    ensures small { result ≤ 255 }
{
    u64::from(byte.saturating_sub(b'0'))
}

// The number that `digits` represent after those of `start`, up to the cap.
pub(crate) fn value_after(start: u64, digits: &[u8]) -> u64
    requires { start ≤ CAP }
    ensures { result ≡ min (digits_after start digits.now) CAP }
{
    let mut value = start;
    for byte in digits {
        value = (10 * value + digit_of(*byte)).min(CAP);
    }
    value
}

// The number that the digits of two parts represent, up to the cap.
fn value_of(first: &[u8], second: &[u8]) -> u64
    ensures { result ≡ min (digits_value (first.now ++ second.now)) CAP }
{
    value_after(value_after(0, first), second)
}

// The number that digits represent, up to `FAR`.
pub(crate) fn far_value_of(digits: &[u8]) -> u128
    ensures { result ≡ min (digits_value digits.now) FAR }
{
    let mut value: u128 = 0;
    for byte in digits {
        value = (10 * value + u128::from(digit_of(*byte))).min(FAR);
    }
    value
}

// The value with zeros appended, up to the cap.
fn with_zeros(value: u64, zeros: u128) -> u64
    requires { value ≤ CAP }
    ensures { result ≡ min (value * 10 ^ zeros) CAP }
{
    let mut amount = value;
    for i in 0..zeros.min(ENOUGH) {
        amount = (10 * amount).min(CAP);
    }
    amount
}

// The place to which an exponent moves the point.
fn moved_point(point: u128, moved: u128, lowers: bool) -> u128
    requires fits { point + moved < 2 ^ 128 }
    ensures { result ≡ (if lowers then point - moved else point + moved) }
{
    if lowers {
        point.saturating_sub(moved)
    } else {
        point + moved
    }
}

// The value of a number times ten to the power `places`, from the number's parts.
fn shifted(numeral: &Numeral<'_>, places: u128) -> Amount
    requires small { places ≤ 9 }
    requires digits { list_all is_digit (numeral.now.whole.now ++ numeral.now.fraction.now) ≡ true }
    ensures minus { result.minus ≡ numeral.now.minus }
    ensures units { result.units ≡ min (numerator_in numeral.now * 10 ^ places / denominator_in numeral.now) CAP }
    ensures rest { result.rest ≡ not (numerator_in numeral.now * 10 ^ places % denominator_in numeral.now == 0) }
{
    let whole = numeral.whole;
    let fraction = numeral.fraction;
    let moved = far_value_of(numeral.exponent);
    let reach = moved_point(whole.len() as u128 + places, moved, numeral.lowers);
    let kept_whole = reach.min(whole.len() as u128);
    let kept_fraction = (reach - kept_whole).min(fraction.len() as u128);
    let (front, cut) = whole.split_at(kept_whole as usize);
    let (front_fraction, cut_fraction) = fraction.split_at(kept_fraction as usize);
    Amount {
        minus: numeral.minus,
        units: with_zeros(
            value_of(front, front_fraction),
            reach - kept_whole - kept_fraction,
        ),
        rest: value_of(cut, cut_fraction) != 0,
    }
}

/// The value of a number's text times ten to the power `places`. None exactly where the text isn't a JSON
/// number.
pub(crate) fn amount_of(text: &[u8], places: u128) -> Option<Amount>
    requires small { places ≤ 9 }
    ensures { MatchOption result (is_number text.now ≡ false)
        (λ v. (is_number text.now ≡ true) × (v.minus ≡ has_minus text.now)
        × (v.units ≡ min (numerator text.now * 10 ^ places / denominator text.now) CAP)
        × (v.rest ≡ not (numerator text.now * 10 ^ places % denominator text.now == 0))) }
{
    let numeral = numeral_of(text)?;
    Some(shifted(&numeral, places))
}
