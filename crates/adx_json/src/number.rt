//! A number's text (RFC 8259, section 6), byte by byte.
ghost use Rattle.std.specs.Prelude.{◌≡◌, ◌++◌, List, ℕ, IfOk, IfErr, Some, None, true, false};
ghost use Rattle.adx_json.specs.Machine.{next_numeral, may_end as may_end_of, Frame, in_number, stop_of, Tells};
ghost use Rattle.adx_json.specs.Found.{FoundNumber};
ghost use Rattle.adx_json.specs.Scan.{Scanned};

use crate::fault::Stop;
use crate::front::ascii_text;
use adx_units::Text;
use std::alloc::Global;

/// How far a number has come.
#[derive(Clone, Copy, Debug, PartialEq, Eq)]
pub(crate) enum Numeral {
    Start,
    Minus,
    Zero,
    Whole,
    Point,
    Fraction,
    Mark,
    Sign,
    Exponent,
}

impl Numeral {
    /// How far it comes by a byte. None where the byte can't go on with the number.
    fn next(self, byte: u8) -> Option<Numeral>
        ensures { result ≡ next_numeral self byte }
    {
        match (self, byte) {
            (Numeral::Start, b'-') => Some(Numeral::Minus),
            (Numeral::Start | Numeral::Minus, b'0') => Some(Numeral::Zero),
            (Numeral::Start | Numeral::Minus | Numeral::Whole, b'0'..=b'9') => Some(Numeral::Whole),
            (Numeral::Zero | Numeral::Whole, b'.') => Some(Numeral::Point),
            (Numeral::Point | Numeral::Fraction, b'0'..=b'9') => Some(Numeral::Fraction),
            (Numeral::Zero | Numeral::Whole | Numeral::Fraction, b'e' | b'E') => {
                Some(Numeral::Mark)
            }
            (Numeral::Mark, b'+' | b'-') => Some(Numeral::Sign),
            (Numeral::Mark | Numeral::Sign | Numeral::Exponent, b'0'..=b'9') => {
                Some(Numeral::Exponent)
            }
            _ => None,
        }
    }

    /// Whether the number may end there.
    fn may_end(self) -> bool
        ensures { result ≡ may_end_of self }
    {
        matches!(
            self,
            Numeral::Zero | Numeral::Whole | Numeral::Fraction | Numeral::Exponent
        )
    }
}

/// How far a number at the front comes, and the bytes that don't go on with it.
fn scanned(bytes: &[u8]) -> (Numeral, &[u8])
    ensures { Scanned bytes.now result.0 result.1.now }
{
    let mut numeral = Numeral::Start;
    let mut left = bytes;
    'bytes: loop {
        let Some((byte, rest)) = left.split_first() else {
            return (numeral, left);
        };
        let Some(next) = numeral.next(*byte) else {
            return (numeral, left);
        };
        numeral = next;
        left = rest;
    }
}

/// The number at the front, and the bytes after it.
pub(crate) fn number_at(alloc: Global, bytes: &[u8]) -> Result<(Text, &[u8]), Stop>
    ensures found { IfOk result (λ x. FoundNumber bytes.now x.0 x.1.now) }
    ensures stops { IfErr result (λ e. (fs : List Frame) → Tells e (stop_of 64 (in_number Numeral.Start) fs bytes.now)) }
{
    let (numeral, left) = scanned(bytes);
    if !numeral.may_end() {
        return Err(Stop::Syntax(left.len()));
    }
    let (number, rest) = bytes.split_at(bytes.len() - left.len());
    Ok((ascii_text(alloc, number)?, rest))
}
