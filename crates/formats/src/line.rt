//! The lines of a document.
ghost use Rattle.std.specs.Prelude.{◌≡◌, ◌++◌, ◌∷◌, MatchOption};
ghost use Rattle.formats.specs.Parts.{IsOneLine};

use memchr::memchr;

/// The first line, without its newline, and the bytes after it. None where there is no newline.
pub fn first_line(bytes: &[u8]) -> Option<(&[u8], &[u8])>
    ensures { MatchOption result (IsOneLine bytes.now) (λ cut. (bytes.now ≡ cut.0.now ++ 10 ∷ cut.1.now) × IsOneLine cut.0.now) }
{
    let place = memchr(b'\n', bytes)?;
    let (line, newline) = bytes.split_at(place);
    let (_, rest) = newline.split_at(1);
    Some((line, rest))
}
