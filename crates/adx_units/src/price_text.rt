//! The text of a price.
ghost use Rattle.std.specs.Prelude.{◌≡◌, ◌+◌, ◌^◌, ◌%◌, ◌≤◌, ◌++◌, length, decimal};
ghost use Rattle.adx_units.specs.Money.{price_of as price_of_text, price_text as text_of_price, six_decimals as six_decimals_of, without_last_zeros as text_without_last_zeros};

use crate::array_text::ArrayText;
use crate::units::Units;

fn last_digit(n: u64) -> u8
    ensures { result ≡ 48 + n % 10 }
{
    b'0' + (n % 10) as u8
}

// Appends a number in decimal.
fn write_whole(n: u64, out: &mut ArrayText)
    requires room { length out.old + length (decimal n) ≤ 32 }
    ensures { out.new ≡ out.old ++ decimal n }
{
    if n < 10 {
        out.push(last_digit(n));
    } else {
        write_whole(n / 10, out);
        out.push(last_digit(n));
    }
}

fn six_decimals(units: u64) -> [u8; 6]
    ensures { result ≡ six_decimals_of units }
{
    [
        last_digit(units / 100_000),
        last_digit(units / 10_000),
        last_digit(units / 1_000),
        last_digit(units / 100),
        last_digit(units / 10),
        last_digit(units),
    ]
}

fn without_last_zeros(digits: &[u8]) -> &[u8]
    ensures { result.now ≡ text_without_last_zeros digits.now }
{
    let mut n = digits.len();
    while n > 0 && digits[n - 1] == b'0' {
        n -= 1;
    }
    &digits[..n]
}

/// Writes a price in dollars per thousand over `out`: units / 10^6 in decimal, with no zero at its
/// end after the point, and no point where it is whole. From 1 to 10^12 units `price_of` reads the
/// same price back.
pub fn write_price(price: Units, out: &mut ArrayText)
    ensures text { out.new ≡ text_of_price price.0 }
    ensures back { 1 ≤ price.0 → price.0 ≤ 10 ^ 12 → price_of_text out.new ≡ Ok price }
{
    out.clear();
    write_whole(price.0 / 1_000_000, out);
    if price.0 % 1_000_000 != 0 {
        out.push(b'.');
        let decimals = six_decimals(price.0);
        out.extend(without_last_zeros(&decimals));
    }
}
