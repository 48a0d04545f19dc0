//! Whole numbers of decimal texts.

ghost use Rattle.std.specs.Prelude.{◌≡◌, ◌≤◌, IfSome};
ghost use Rattle.adx_units.specs.Number.{whole_up_to as whole_of_text};

use crate::numeral::is_whole;
use crate::scale::far_value_of;

/// The whole number that a text of decimal digits represents, without a sign or a leading zero, where it is
/// at most `most`. None exactly where the text isn't of that form or its number is above `most`.
pub fn whole_up_to(text: &[u8], most: u64) -> Option<u64>
    ensures value { result ≡ whole_of_text most text.now }
    ensures small { IfSome result (λ n. n ≤ most) }
{
    if !is_whole(text) {
        return None;
    }
    let value = far_value_of(text);
    if value > u128::from(most) {
        return None;
    }
    Some(value as u64)
}
