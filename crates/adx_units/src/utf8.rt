//! Bytes as text.
ghost use Rattle.std.specs.Prelude.{◌≡◌, IsUtf8, MatchOption};

use crate::ascii::ascii_len;
use std::str;

/// The text that bytes are, as `str::from_utf8` says it; None where they aren't UTF-8. Most are ASCII, which is seen sixteen
/// bytes at a time.
pub fn utf8_text(bytes: &[u8]) -> Option<&str>
    ensures { MatchOption result (¬ (IsUtf8 bytes.now)) (λ text. (text.now ≡ bytes.now) × IsUtf8 bytes.now) }
{
    if ascii_len(bytes) == bytes.len() {
        return Some(unsafe { str::from_utf8_unchecked(bytes) });
    }
    match str::from_utf8(bytes) {
        Ok(text) => Some(text),
        Err(_) => None,
    }
}
