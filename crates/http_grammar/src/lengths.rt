//! The lengths that a head says, and a number against a limit.
ghost use Rattle.std.specs.Prelude.{◌≡◌, ℕ, ◌<◌, ◌≤◌, ◌+◌, ◌↔◌, List, [], ◌∷◌, ◌++◌, length, take, drop, cond, All, IsTrue, MatchOption, codes};
ghost use Rattle.std.specs.Char.{is_ascii_digit};
ghost use Rattle.std.specs.Str.Parse.{digits_value};
ghost use Rattle.httparse.specs.Grammar.{AllPass};
ghost use Rattle.http_grammar.specs.Heads.{pairs_at, AreWithin};
ghost use Rattle.http_grammar.specs.Fields.{lengths};
ghost use Rattle.http_grammar.specs.Found.{AreLengths, FirstIsDigits};

use crate::fields::field;
use crate::words::same_word;
use httparse::spans::HeaderSpan;

/// The lengths that a head states.
#[derive(Clone, Copy)]
pub(crate) enum Lengths<'a> {
    /// There is none.
    Absent,
    /// Each is digits, and means the same number as this one.
    Same(&'a [u8]),
    /// One isn't digits, or two mean different numbers.
    Unsound,
}

/// Whether each byte is a digit.
pub(crate) fn are_digits(bytes: &[u8]) -> bool
    ensures { IsTrue result ↔ AllPass is_ascii_digit bytes.now }
{
    bytes.iter().all(|b| b.is_ascii_digit())
}

/// Whether each byte is a zero.
fn are_zeros(bytes: &[u8]) -> bool
    ensures { IsTrue result ↔ All (λ b. b ≡ 48) bytes.now }
{
    bytes.iter().all(|b| *b == b'0')
}

/// Whether the longer is the shorter with zeros before it.
fn is_padded(long: &[u8], short: &[u8]) -> bool
    requires shorter { length short.now ≤ length long.now }
    requires digits { AllPass is_ascii_digit long.now }
    requires others { AllPass is_ascii_digit short.now }
    ensures { IsTrue result ↔ (digits_value 10 long.now ≡ digits_value 10 short.now) }
{
    let (front, back) = long.split_at(long.len() - short.len());
    back == short && are_zeros(front)
}

/// Whether the digits mean one number.
fn same_number(a: &[u8], b: &[u8]) -> bool
    requires digits { AllPass is_ascii_digit a.now }
    requires others { AllPass is_ascii_digit b.now }
    ensures { IsTrue result ↔ (digits_value 10 a.now ≡ digits_value 10 b.now) }
{
    if a.len() < b.len() {
        is_padded(b, a)
    } else {
        is_padded(a, b)
    }
}

/// The number that the digits mean, where it is at most the limit.
pub(crate) fn number_within(digits: &[u8], limit: u32) -> Option<usize>
    requires { AllPass is_ascii_digit digits.now }
    ensures { MatchOption result (limit < digits_value 10 digits.now) (λ n. (n ≡ digits_value 10 digits.now) × (n ≤ limit)) }
{
    let most = limit as usize;
    let mut value: usize = 0;
    for digit in digits {
        value = value * 10 + (*digit - b'0') as usize;
        if value > most {
            return None;
        }
    }
    Some(value)
}

/// The lengths with one more, where it is among them.
fn lengths_with<'a>(found: Lengths<'a>, is_one: bool, value: &'a [u8]) -> Lengths<'a>
    requires { FirstIsDigits found }
    ensures first { FirstIsDigits result }
    ensures after { (values : List (List ℕ)) → AreLengths found.entry values
        → AreLengths result (values ++ cond is_one (value.now ∷ []) []) }
{
    if !is_one {
        return found;
    }
    if value.is_empty() || !are_digits(value) {
        return Lengths::Unsound;
    }
    match found {
        Lengths::Absent => Lengths::Same(value),
        Lengths::Same(first) if same_number(first, value) => found,
        Lengths::Same(_) => Lengths::Unsound,
        Lengths::Unsound => Lengths::Unsound,
    }
}

/// The lengths of a head.
pub(crate) fn lengths_of<'a>(head: &'a [u8], spans: &[HeaderSpan]) -> Lengths<'a>
    requires { AreWithin head.now spans.now }
    ensures first { FirstIsDigits result }
    ensures lengths { AreLengths result (lengths (pairs_at head.now spans.now)) }
{
    let mut found = Lengths::Absent;
    for i in 0..spans.len() {
        let (name, value) = field(head, spans, i);
        found = lengths_with(found, same_word(name, b"content-length"), value);
    }
    found
}
