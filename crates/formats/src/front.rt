//! What is at the front of bytes.
ghost use Rattle.std.specs.Prelude.{◌≡◌};
ghost use Rattle.formats.specs.Parts.{Finds, behind_word, behind_byte, none_left};

/// The bytes after this word. None where they don't begin with it.
#[tactic(auto, unfolding(crate::specs::Parts::behind_word))]
pub fn behind<'a>(bytes: &'a [u8], word: &[u8]) -> Option<&'a [u8]>
    ensures { Finds (λ rest. rest.now) result (behind_word word.now bytes.now) }
{
    bytes.strip_prefix(word)
}

/// The bytes after this byte. None where they don't begin with it.
pub fn byte_behind(bytes: &[u8], byte: u8) -> Option<&[u8]>
    ensures { Finds (λ rest. rest.now) result (behind_byte byte bytes.now) }
{
    match bytes {
        [first, rest @ ..] if *first == byte => Some(rest),
        _ => None,
    }
}

/// Whether no byte is left.
pub fn is_done(bytes: &[u8]) -> Option<()>
    ensures { Finds (λ _. tt) result (none_left bytes.now) }
{
    match bytes {
        [] => Some(()),
        [_, ..] => None,
    }
}
