//! What the fields of a head say: the values of a name, codings, and `close`.
ghost use Rattle.std.specs.Prelude.{◌≡◌, ℕ, ◌<◌, ◌+◌, List, [], ◌∷◌, ◌++◌, length, take, drop, cond, Bool, ◌||◌, not, codes};
ghost use Rattle.std.specs.Str.{str_eq_ignore_ascii_case};
ghost use Rattle.http_grammar.specs.Heads.{pairs_at, AreWithin};
ghost use Rattle.http_grammar.specs.Fields.{values_of, names_word, names_only, is_plain, says_close};
ghost use Rattle.http_grammar.specs.Found.{AreValues};

use crate::words::{has_only_word, has_word, same_word};
use httparse::spans::HeaderSpan;

/// The values of the fields with one name.
#[derive(Clone, Copy)]
pub(crate) enum Values<'a> {
    /// There is none.
    Absent,
    /// There is this one.
    One(&'a [u8]),
    /// There are two or more.
    More,
}

/// The name and the value of a field.
pub(crate) fn field<'a>(head: &'a [u8], spans: &[HeaderSpan], i: usize) -> (&'a [u8], &'a [u8])
    requires inside { i < length spans.now }
    requires within { AreWithin head.now spans.now }
    ensures next { take (i + 1) (pairs_at head.now spans.now) ≡ take i (pairs_at head.now spans.now) ++ (result.0.now, result.1.now) ∷ [] }
    ensures among { pairs_at head.now spans.now ≡ take i (pairs_at head.now spans.now)
        ++ (result.0.now, result.1.now) ∷ drop (i + 1) (pairs_at head.now spans.now) }
{
    let span = spans[i];
    (span.name.of(head), span.value.of(head))
}

/// The values with one more, where it is among them.
fn values_with<'a>(found: Values<'a>, is_one: bool, value: &'a [u8]) -> Values<'a>
    ensures { (values : List (List ℕ)) → AreValues found.entry values → AreValues result (values ++ cond is_one (value.now ∷ []) []) }
{
    if !is_one {
        return found;
    }
    match found {
        Values::Absent => Values::One(value),
        _ => Values::More,
    }
}

/// The values of the fields with this name.
pub(crate) fn values_named<'a>(head: &'a [u8], spans: &[HeaderSpan], name: &[u8]) -> Values<'a>
    requires { AreWithin head.now spans.now }
    ensures { AreValues result (values_of name.now (pairs_at head.now spans.now)) }
{
    let mut found = Values::Absent;
    for i in 0..spans.len() {
        let (wanted, value) = field(head, spans, i);
        found = values_with(found, same_word(wanted, name), value);
    }
    found
}

/// Whether no content coding but `identity` is in the head.
pub(crate) fn has_plain_body(head: &[u8], spans: &[HeaderSpan]) -> bool
    requires { AreWithin head.now spans.now }
    ensures { result ≡ is_plain (pairs_at head.now spans.now) }
{
    for i in 0..spans.len() {
        let (name, value) = field(head, spans, i);
        if same_word(name, b"content-encoding") && !has_only_word(value, b"identity") {
            return false;
        }
    }
    true
}

/// Whether the other side closes the connection after this message.
pub(crate) fn has_close(head: &[u8], spans: &[HeaderSpan]) -> bool
    requires { AreWithin head.now spans.now }
    ensures { result ≡ says_close (pairs_at head.now spans.now) }
{
    for i in 0..spans.len() {
        let (name, value) = field(head, spans, i);
        if same_word(name, b"connection") && has_word(value, b"close") {
            return true;
        }
    }
    false
}
