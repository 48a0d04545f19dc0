//! The parts of a template.
ghost use Rattle.std.specs.Prelude.{IfSome, length, List, ℕ, ◌≡◌, ◌≢◌, ◌==◌, ◌<◌, ◌∷◌, [], MatchOption, true, false};
ghost use Rattle.std.specs.List.{list_any, before_first, after_first, slice_split};
ghost use Rattle.notice_macros.specs.Expansion.{is_dollar, opening, macro_at as macro_at_front};

use crate::macros::{Macro, macro_of};
use memchr::memchr;

/// What comes before and after the first such byte, a character of ASCII.
pub(crate) fn cut_at(text: &str, mark: u8) -> Option<(&str, &str)>
    requires { mark < 128 }
    ensures { MatchOption result (list_any (λ b. b == mark) text.now ≡ false)
        (λ x. (list_any (λ b. b == mark) text.now ≡ true) × (x.0.now ≡ before_first (λ b. b == mark) text.now)
        × (x.1.now ≡ after_first (λ b. b == mark) text.now)) }
{
    let at = memchr(mark, text.as_bytes())?;
    Some((&text[..at], &text[at + 1..]))
}

/// What comes before the first `$`, and what after it.
pub(crate) fn cut_at_dollar(text: &str) -> Option<(&str, &str)>
    ensures pieces { MatchOption result (slice_split is_dollar text.now ≡ text.now ∷ [])
        (λ x. slice_split is_dollar text.now ≡ x.0.now ∷ slice_split is_dollar x.1.now) }
    ensures shorter { IfSome result (λ x. length x.1.now < length text.now) }
{
    cut_at(text, b'$')
}

/// What comes after a brace at the front.
fn behind_brace(text: &str) -> Option<&str>
    ensures { MatchOption result ((rest : List ℕ) → text.now ≢ (opening ∷ rest)) (λ x. text.now ≡ opening ∷ x.now) }
{
    text.strip_prefix('{')
}

/// The macro in braces at the front, and what comes after it.
pub(crate) fn macro_at(text: &str) -> Option<(Macro, &str)>
    ensures { MatchOption result (macro_at_front text.now ≡ None) (λ x. macro_at_front text.now ≡ Some (x.0, x.1.now)) }
{
    let inner = behind_brace(text)?;
    let (token, rest) = cut_at(inner, b'}')?;
    let found = macro_of(token)?;
    Some((found, rest))
}
