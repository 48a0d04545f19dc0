//! The tests of a head, in their order.
ghost use Rattle.std.specs.Prelude.{◌≡◌, ◌≢◌, ◌⊎◌, ◌↔◌, ◌≤◌, ◌<◌, ℕ, length, IsTrue, MatchOption, MatchResult};
ghost use Rattle.http_grammar.specs.Heads.{pairs_at, AreWithin};
ghost use Rattle.http_grammar.specs.Fields.{HasHost};
ghost use Rattle.http_grammar.specs.Judged.{HasForm, IsSound, FailsRequest, IsSoundRequest, FailsResponse, IsSoundResponse, IsBodiless};

use crate::fault::HttpFault;
use crate::fields::{Values, has_plain_body, values_named};
use crate::framing::Framing;
use crate::host::is_host_value;
use crate::lengths::{Lengths, lengths_of, number_within};
use crate::words::same_word;
use httparse::spans::HeaderSpan;

/// How the fields frame the body, before a length is read as a number.
#[derive(Clone, Copy)]
pub(crate) enum Form<'a> {
    /// By neither a length nor chunks.
    Unframed,
    /// By chunks.
    Chunked,
    /// By the number that these digits mean.
    Sized(&'a [u8]),
}

/// Whether a request names its host as it must.
fn has_host(minor: u8, head: &[u8], spans: &[HeaderSpan]) -> bool
    requires { AreWithin head.now spans.now }
    ensures { IsTrue result ↔ HasHost minor (pairs_at head.now spans.now) }
{
    match values_named(head, spans, b"host") {
        Values::Absent => minor != 1,
        Values::One(value) => is_host_value(value),
        Values::More => false,
    }
}

/// How the fields frame the body; None where they don't agree.
fn form_of<'a>(head: &'a [u8], spans: &[HeaderSpan]) -> Option<Form<'a>>
    requires { AreWithin head.now spans.now }
    ensures { MatchOption result (IsSound (pairs_at head.now spans.now) → ⊥) (HasForm (pairs_at head.now spans.now)) }
{
    let codings = values_named(head, spans, b"transfer-encoding");
    match lengths_of(head, spans) {
        Lengths::Absent => match codings {
            Values::Absent => Some(Form::Unframed),
            Values::One(word) if same_word(word, b"chunked") => Some(Form::Chunked),
            _ => None,
        },
        Lengths::Same(digits) => match codings {
            Values::Absent => Some(Form::Sized(digits)),
            _ => None,
        },
        Lengths::Unsound => None,
    }
}

/// How the body of a request is framed, or the first test of its head that fails.
pub(crate) fn request_framing(
    minor: u8,
    is_post: bool,
    head: &[u8],
    spans: &[HeaderSpan],
    limit: u32,
) -> Result<Framing, HttpFault>
    requires { AreWithin head.now spans.now }
    ensures { MatchResult result (IsSoundRequest limit minor is_post (pairs_at head.now spans.now))
        (FailsRequest limit minor is_post (pairs_at head.now spans.now)) }
{
    let form = match form_of(head, spans) {
        Some(form) if has_host(minor, head, spans) => form,
        _ => return Err(HttpFault::BadHead),
    };
    if !has_plain_body(head, spans) {
        return Err(HttpFault::Coding);
    }
    match form {
        Form::Unframed if is_post => Err(HttpFault::LengthRequired),
        Form::Unframed => Ok(Framing::Unframed),
        Form::Chunked => Ok(Framing::Chunked),
        Form::Sized(digits) => match number_within(digits, limit) {
            Some(n) => Ok(Framing::Sized(n)),
            None => Err(HttpFault::BodyTooLong),
        },
    }
}

/// How the body of a response is framed, or the first test of its head that fails; None where the
/// status says that there is none.
pub(crate) fn response_framing(
    status: u16,
    head: &[u8],
    spans: &[HeaderSpan],
    limit: u32,
) -> Result<Option<Framing>, HttpFault>
    requires { AreWithin head.now spans.now }
    ensures { MatchResult result (IsSoundResponse limit status (pairs_at head.now spans.now))
        (FailsResponse limit status (pairs_at head.now spans.now)) }
{
    let Some(form) = form_of(head, spans) else {
        return Err(HttpFault::BadHead);
    };
    if !has_plain_body(head, spans) {
        return Err(HttpFault::Coding);
    }
    if status == 204 || status == 304 {
        return Ok(None);
    }
    match form {
        Form::Unframed => Ok(Some(Framing::Unframed)),
        Form::Chunked => Ok(Some(Framing::Chunked)),
        Form::Sized(digits) => match number_within(digits, limit) {
            Some(n) => Ok(Some(Framing::Sized(n))),
            None => Err(HttpFault::BodyTooLong),
        },
    }
}
