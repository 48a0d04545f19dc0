//! The kinds of methods that are distinguished.
ghost use Rattle.std.specs.Prelude.{◌≡◌};
ghost use Rattle.http_grammar.specs.Requests.{verb_of_method};

/// The kinds of methods that are distinguished (RFC 9110, section 9).
#[derive(Clone, Copy, Debug, PartialEq, Eq)]
pub enum Verb {
    Get,
    Head,
    Post,
    /// Any other method.
    Other,
}

/// The kind of a method; methods differ in the case of their letters.
pub(crate) fn verb_of(method: &[u8]) -> Verb
    ensures { result ≡ verb_of_method method.now }
{
    if method == b"GET".as_slice() {
        Verb::Get
    } else if method == b"HEAD".as_slice() {
        Verb::Head
    } else if method == b"POST".as_slice() {
        Verb::Post
    } else {
        Verb::Other
    }
}
