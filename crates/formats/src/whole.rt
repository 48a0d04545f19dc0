//! Whole numbers without sign or leading zero.
ghost use Rattle.std.specs.Prelude.{◌≡◌, ◌≤◌, ◌<◌, ◌+◌, ◌-◌, ◌*◌, ◌^◌, MatchOption, SomeIff, true, drop};
ghost use Rattle.std.specs.List.{list_all, prefix_len};
ghost use Rattle.adx_units.specs.Number.{is_digit as is_digit_of, is_whole as is_whole_of, digits_value};
ghost use Rattle.formats.specs.Parts.{Finds, front_digits, number_at};

/// The whole number of all the digits at the front, and the bytes after it. None where no digit is
/// there, where a zero leads others, or where the number is 2^64 or more.
#[tactic(auto, unfolding(crate::specs::Parts::number_at))]
pub fn number(bytes: &[u8]) -> Option<(u64, &[u8])>
    ensures { Finds (λ found. (found.0, found.1.now)) result (number_at (2 ^ 64) bytes.now) }
{
    let (digits, rest) = digits_front(bytes);
    if !is_whole(digits) {
        return None;
    }
    match value_of(digits) {
        Some(value) => Some((value, rest)),
        None => None,
    }
}

/// As `number`, for numbers below 2^128.
#[tactic(auto, unfolding(crate::specs::Parts::number_at))]
pub fn wide_number(bytes: &[u8]) -> Option<(u128, &[u8])>
    ensures { Finds (λ found. (found.0, found.1.now)) result (number_at (2 ^ 128) bytes.now) }
{
    let (digits, rest) = digits_front(bytes);
    if !is_whole(digits) {
        return None;
    }
    match wide_value_of(digits) {
        Some(value) => Some((value, rest)),
        None => None,
    }
}

fn digits_len(bytes: &[u8]) -> usize
    ensures { result ≡ prefix_len is_digit_of bytes.now }
{
    bytes.iter().take_while(|byte| is_digit(**byte)).count()
}

/// All the digits at the front, and the bytes after them.
fn digits_front(bytes: &[u8]) -> (&[u8], &[u8])
    ensures front { result.0.now ≡ front_digits bytes.now }
    ensures back { result.1.now ≡ drop (prefix_len is_digit_of bytes.now) bytes.now }
    ensures digits { list_all is_digit_of result.0.now ≡ true }
{
    bytes.split_at(digits_len(bytes))
}

fn is_digit(byte: u8) -> bool
    ensures { result ≡ is_digit_of byte }
{
    byte >= b'0' && byte <= b'9'
}

/// Whether digits are a whole number's: there is one, and a zero leads no other.
fn is_whole(digits: &[u8]) -> bool
    requires { list_all is_digit_of digits.now ≡ true }
    ensures { result ≡ is_whole_of digits.now }
{
    match digits {
        [] => false,
        [_] => true,
        [first, ..] => *first != b'0',
    }
}

/// The number that a digit after those of another gives. None where it is 2^64 or more.
fn with_digit(value: u64, byte: u8) -> Option<u64>
    ensures { SomeIff result (10 * value + (byte - 48) < 2 ^ 64) (10 * value + (byte - 48)) }
{
    match value.checked_mul(10) {
        Some(tens) => tens.checked_add(u64::from(byte.saturating_sub(b'0'))),
        None => None,
    }
}

/// The number that digits represent. None where it is 2^64 or more.
#[tactic(auto, using(crate::proofs::Digits::value_more))]
fn value_of(digits: &[u8]) -> Option<u64>
    ensures { MatchOption result (2 ^ 64 ≤ digits_value digits.now) (λ n. n ≡ digits_value digits.now) }
{
    let mut value: u64 = 0;
    for byte in digits {
        let Some(more) = with_digit(value, *byte) else {
            return None;
        };
        value = more;
    }
    Some(value)
}

/// The number that a digit after those of another gives. None where it is 2^128 or more.
fn with_wide_digit(value: u128, byte: u8) -> Option<u128>
    ensures { SomeIff result (10 * value + (byte - 48) < 2 ^ 128) (10 * value + (byte - 48)) }
{
    match value.checked_mul(10) {
        Some(tens) => tens.checked_add(u128::from(byte.saturating_sub(b'0'))),
        None => None,
    }
}

/// The number that digits represent. None where it is 2^128 or more.
#[tactic(auto, using(crate::proofs::Digits::value_more))]
fn wide_value_of(digits: &[u8]) -> Option<u128>
    ensures { MatchOption result (2 ^ 128 ≤ digits_value digits.now) (λ n. n ≡ digits_value digits.now) }
{
    let mut value: u128 = 0;
    for byte in digits {
        let Some(more) = with_wide_digit(value, *byte) else {
            return None;
        };
        value = more;
    }
    Some(value)
}
