//! What a file is before its payloads are read.
ghost use Rattle.day_journal.specs.Places.{IsCleared, IsFormat, IsMarked, head};
ghost use Rattle.day_journal.specs.Starts.{IsStart};
ghost use Rattle.std.specs.Prelude.{◌≡◌, ◌≢◌, ◌∷◌, ◌<◌, ◌≤◌, ◌↔◌, ℕ, length, get_or, take, slice_get, IsTrue, MatchBool, MatchOption};

/// The format of a new journal.
pub const NEW_FORMAT: u8 = 2;

/// A journal's head, but for the digit of its format.
const FRONT: [u8; 8] = *b"\x01ADXJRNL";

/// The bytes after the first of a journal of format 1 without payloads.
const BEHIND_1: [u8; 9] = *b"ADXJRNL1\0";

/// The same of format 2.
const BEHIND_2: [u8; 9] = *b"ADXJRNL2\0";

/// What a file is.
#[derive(Clone, Copy, Debug, PartialEq, Eq)]
pub(crate) enum Start {
    /// Unfinished, and its first byte is 0.
    Cleared,
    /// Unfinished, and its first byte is another one or missing.
    Uncleared,
    /// A journal of this format.
    Journal { format: u8 },
    /// None: this byte is missing, or another one than in a journal's head.
    Other { at: u64 },
}

/// What a file with these first bytes is: eleven, or all that there are.
pub(crate) fn start_of(first: &[u8]) -> Start
    ensures { IsStart first.now result }
{
    if is_cleared(first) {
        return Start::Cleared;
    }
    if first.len() <= 1 || is_marked(first) {
        return Start::Uncleared;
    }
    let at = front_len(first);
    if at < 8 {
        return Start::Other { at: at as u64 };
    }
    match format_of(first) {
        Some(format) => Start::Journal { format },
        None => Start::Other { at: 8 },
    }
}

/// Whether the first byte is 0, of at most ten.
fn is_cleared(first: &[u8]) -> bool
    ensures { IsTrue result ↔ IsCleared first.now }
{
    match first {
        [0, ..] => first.len() <= 10,
        _ => false,
    }
}

/// Whether these are the bytes of a journal without payloads, but perhaps for the first.
fn is_marked(first: &[u8]) -> bool
    ensures { IsTrue result ↔ IsMarked first.now }
{
    let old = has_behind(first, &BEHIND_1);
    let new = has_behind(first, &BEHIND_2);
    old || new
}

/// Whether just these bytes come after the first.
fn has_behind(first: &[u8], behind: &[u8; 9]) -> bool
    ensures { IsTrue result ↔ ((gate : ℕ) × (first.now ≡ gate ∷ behind.now)) }
{
    match first.split_first() {
        Some((_, rest)) => rest == behind.as_slice(),
        None => false,
    }
}

/// With how many bytes before the digit of a journal's head these begin.
fn front_len(first: &[u8]) -> usize
    ensures within { result ≤ 8 }
    ensures same { (format : ℕ) → take result first.now ≡ take result (head format) }
    ensures differs { result < 8 → (format : ℕ) → slice_get first.now result ≢ slice_get (head format) result }
{
    for at in 0..8 {
        if differs(first, at) {
            return at;
        }
    }
    8
}

/// Whether a byte before the digit of a journal's head is another one here, or missing.
fn differs(first: &[u8], at: usize) -> bool
    requires { at < 8 }
    ensures { MatchBool result ((format : ℕ) → slice_get first.now at ≢ slice_get (head format) at)
        ((format : ℕ) → (at < length first.now) × (get_or first.now at 0 ≡ get_or (head format) at 0)) }
{
    match first.get(at) {
        Some(byte) => *byte != FRONT[at],
        None => true,
    }
}

/// The format whose digit is in the head; None where none does.
fn format_of(first: &[u8]) -> Option<u8>
    ensures { MatchOption result ((format : ℕ) → IsFormat format → slice_get first.now 8 ≢ slice_get (head format) 8)
        (λ format. IsFormat format × (slice_get first.now 8 ≡ slice_get (head format) 8)) }
{
    match first.get(8) {
        Some(b'1') => Some(1),
        Some(b'2') => Some(2),
        _ => None,
    }
}
