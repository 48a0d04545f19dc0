//! A given byte at the front of bytes, and copies of ASCII bytes.
ghost use Rattle.std.specs.Prelude.{◌≡◌, ◌≢◌, ◌∷◌, List, ℕ, IfOk, MatchOption, IsAscii};

use adx_units::{OutOfMemory, Text};
use std::alloc::Global;
use std::str;

/// The bytes after this first byte. None where they don't begin so.
pub(crate) fn after(bytes: &[u8], first: u8) -> Option<&[u8]>
    ensures { MatchOption result ((rest : List ℕ) → bytes.now ≢ first ∷ rest) (λ rest. bytes.now ≡ first ∷ rest.now) }
{
    match bytes.split_first() {
        Some((byte, rest)) if *byte == first => Some(rest),
        _ => None,
    }
}

/// A copy of ASCII bytes.
pub(crate) fn ascii_text(alloc: Global, bytes: &[u8]) -> Result<Text, OutOfMemory>
    requires { IsAscii bytes.now }
    ensures { IfOk result (λ t. t ≡ bytes.now) }
{
    Text::of(alloc, unsafe { str::from_utf8_unchecked(bytes) })
}
