//! The parts of a JSON number's text (RFC 8259, section 6), as slices of the text.
ghost use Rattle.std.specs.Prelude.{◌≡◌, ◌++◌, ◌∷◌, [], ◌&&◌, not, MatchOption, true, false};
ghost use Rattle.std.specs.List.{list_all, prefix_len};
ghost use Rattle.adx_units.specs.Number.{is_digit as is_digit_byte, is_digits, is_whole as is_whole_text, is_number, begins_with, has_minus as has_minus_first, without_minus as text_without_minus, without_sign as text_without_sign, whole_digits, fraction_digits, exponent_part};
ghost use Rattle.adx_units.specs.Scans.{Stops, IsFraction, HasNoFraction, IsExponent, HasNoExponent};

/// The parts of a number's text.
#[derive(Clone, Copy)]
pub(crate) struct Numeral<'a> {
    /// Whether a minus comes first.
    pub minus: bool,
    /// The digits before the point.
    pub whole: &'a [u8],
    /// The digits after the point, or none.
    pub fraction: &'a [u8],
    /// The exponent's digits, or none.
    pub exponent: &'a [u8],
    /// Whether the exponent has a minus, and so moves the point to the left.
    pub lowers: bool,
}

fn is_digit(byte: u8) -> bool
    ensures { result ≡ is_digit_byte byte }
{
    byte >= b'0' && byte <= b'9'
}

fn digits_len(text: &[u8]) -> usize
    ensures { result ≡ prefix_len is_digit_byte text.now }
{
    text.iter().take_while(|byte| is_digit(**byte)).count()
}

/// The digits at the front, and what comes after them.
fn digits_front(text: &[u8]) -> (&[u8], &[u8])
    ensures whole { text.now ≡ result.0.now ++ result.1.now }
    ensures digits { list_all is_digit_byte result.0.now ≡ true }
    ensures stops { Stops is_digit_byte result.1.now }
{
    let len = digits_len(text);
    text.split_at(len)
}

fn begins(text: &[u8], byte: u8) -> bool
    ensures { result ≡ begins_with byte text.now }
{
    match text {
        [first, ..] => *first == byte,
        [] => false,
    }
}

fn without_minus(text: &[u8]) -> &[u8]
    ensures { result.now ≡ text_without_minus text.now }
{
    match text {
        [b'-', rest @ ..] => rest,
        _ => text,
    }
}

fn without_sign(text: &[u8]) -> &[u8]
    ensures { result.now ≡ text_without_sign text.now }
{
    match text {
        [b'-' | b'+', rest @ ..] => rest,
        _ => text,
    }
}

// Whether the text is the digit 0, or digits that don't begin with 0.
pub(crate) fn is_whole(text: &[u8]) -> bool
    ensures { result ≡ is_whole_text text.now }
{
    all_digits(text) && (text.len() == 1 || !begins(text, b'0'))
}

// Whether each byte is a digit; also where there is none.
fn only_digits(text: &[u8]) -> bool
    ensures { result ≡ list_all is_digit_byte text.now }
{
    text.iter().all(|byte| is_digit(*byte))
}

// Whether there is a digit, and nothing else.
fn all_digits(text: &[u8]) -> bool
    ensures { result ≡ is_digits text.now }
{
    !text.is_empty() && only_digits(text)
}

// Whether digits are the one digit 0, or more that don't begin with 0.
fn are_whole(digits: &[u8]) -> bool
    requires { list_all is_digit_byte digits.now ≡ true }
    ensures { result ≡ is_whole_text digits.now }
{
    match digits {
        [] => false,
        [_] => true,
        [first, ..] => *first != b'0',
    }
}

/// The fraction's digits and what comes after them, of what comes after the whole digits. None where a
/// point has no digit after it.
fn fraction_front(text: &[u8]) -> Option<(&[u8], &[u8])>
    requires { Stops is_digit_byte text.now }
    ensures { MatchOption result (HasNoFraction text.now) (λ x. IsFraction text.now x.0.now x.1.now) }
{
    let [b'.', rest @ ..] = text else {
        return Some((&[], text));
    };
    let (digits, behind) = digits_front(rest);
    if digits.is_empty() {
        None
    } else {
        Some((digits, behind))
    }
}

/// The exponent's digits and whether it has a minus, of what comes after the fraction. None where that
/// is neither nothing nor an exponent.
fn exponent_of(text: &[u8]) -> Option<(&[u8], bool)>
    ensures { MatchOption result (HasNoExponent text.now) (λ x. IsExponent text.now x.0.now x.1) }
{
    match text {
        [] => Some((&[], false)),
        [b'e' | b'E', rest @ ..] => {
            let digits = without_sign(rest);
            if all_digits(digits) {
                Some((digits, begins(rest, b'-')))
            } else {
                None
            }
        }
        _ => None,
    }
}

/// The parts of a number's text. None exactly where the text isn't a JSON number.
pub(crate) fn numeral_of(text: &[u8]) -> Option<Numeral<'_>>
    ensures { MatchOption result (is_number text.now ≡ false)
        (λ n. (is_number text.now ≡ true) × (n.minus ≡ has_minus_first text.now)
        × (n.whole.now ≡ whole_digits text.now) × (n.fraction.now ≡ fraction_digits text.now)
        × (n.exponent.now ≡ text_without_sign (exponent_part text.now)) × (n.lowers ≡ has_minus_first (exponent_part text.now))) }
{
    let (whole, behind) = digits_front(without_minus(text));
    if !are_whole(whole) {
        return None;
    }
    let Some((fraction, behind)) = fraction_front(behind) else {
        return None;
    };
    let Some((exponent, lowers)) = exponent_of(behind) else {
        return None;
    };
    Some(Numeral {
        minus: begins(text, b'-'),
        whole,
        fraction,
        exponent,
        lowers,
    })
}
