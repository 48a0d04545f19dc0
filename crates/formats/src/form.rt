//! The form of a day.
ghost use Rattle.std.specs.Prelude.{◌≡◌, length, IsTrue};
ghost use Rattle.formats.specs.Days.{zeroed as zeroed_byte, is_day as is_day_text};

/// The shape of a day, with 0 for each digit.
const SHAPE: &[u8; 10] = b"0000-00-00";

/// Whether bytes are four digits, two and two, with dashes between them.
pub fn is_day(day: &[u8]) -> bool
    ensures value { result ≡ is_day_text day.now }
    ensures len { IsTrue result → length day.now ≡ 10 }
{
    if day.len() != SHAPE.len() {
        return false;
    }
    for (i, byte) in day.iter().enumerate() {
        if zeroed(*byte) != SHAPE[i] {
            return false;
        }
    }
    true
}

/// The byte, or 0 for a digit.
fn zeroed(byte: u8) -> u8
    ensures { result ≡ zeroed_byte byte }
{
    if byte >= b'0' && byte <= b'9' {
        b'0'
    } else {
        byte
    }
}
