//! What the head of a request or a response says to its reader.
ghost use Rattle.std.specs.Prelude.{◌≡◌, ◌≤◌, ◌==◌, ◌&&◌, not, length, MatchOption, MatchResult, IfOk, IfSome};
ghost use Rattle.httparse.specs.Grammar.{RequestHead};
ghost use Rattle.httparse.specs.Spans.{IsRequestWithin, IsRequestAt};
ghost use Rattle.http_grammar.specs.Fields.{says_close};
ghost use Rattle.http_grammar.specs.Heads.{pairs_at, AreWithin};
ghost use Rattle.http_grammar.specs.Requests.{Judges, BeginsWithRequest, BeginsWithNoRequest, SaysRequest, RefusesRequest, SaysResponse, RefusesResponse};

use crate::fault::HttpFault;
use crate::fields::has_close;
use crate::framing::Framing;
use crate::heads::response_head;
use crate::judge::{request_framing, response_framing};
use crate::verb::{Verb, verb_of};
use httparse::Status;
use httparse::spans::{HeaderSpan, RequestSpans, Span, parse_request};

/// What the head of a request says.
#[derive(Clone, Copy, Debug, PartialEq, Eq)]
pub struct RequestParts {
    /// The kind of its method.
    pub verb: Verb,
    /// Where its target is in the head.
    pub target: Span,
    /// Whether the connection stays: HTTP/1.1 without `Connection: close`.
    pub keep: bool,
    /// How its body is framed.
    pub framing: Framing,
}

/// What the head of a response says.
#[derive(Clone, Copy, Debug, PartialEq, Eq)]
pub struct ResponseParts {
    /// The status, from 0 to 999.
    pub status: u16,
    /// How its body is framed; None where the status says that there is none. A body that isn't
    /// framed goes to the end of the bytes.
    pub framing: Option<Framing>,
}

/// The request's head that bytes begin with.
#[derive(Clone, Copy, Debug, PartialEq, Eq)]
pub struct FirstRequest {
    /// Its length in bytes.
    pub len: usize,
    /// What it says, or the first test that it fails.
    pub parts: Result<RequestParts, HttpFault>,
}

/// Whether a connection stays after a request.
fn stays(minor: u8, bytes: &[u8], fields: &[HeaderSpan]) -> bool
    requires { AreWithin bytes.now fields.now }
    ensures { result ≡ ((minor == 1) && not (says_close (pairs_at bytes.now fields.now))) }
{
    minor == 1 && !has_close(bytes, fields)
}

/// What a head says whose parts are there in the bytes.
fn parts_at(
    found: RequestSpans,
    bytes: &[u8],
    spans: &[HeaderSpan],
    limit: u32,
) -> Result<RequestParts, HttpFault>
    requires { IsRequestWithin bytes.now spans.now found }
    ensures judges { (h : RequestHead) → IsRequestAt bytes.now spans.now found h → Judges limit bytes.now h result }
    ensures target { IfOk result (λ p. p.target ≡ found.path) }
{
    let fields = &spans[..found.headers];
    let method = found.method.of(bytes);
    let is_post = method == b"POST".as_slice();
    match request_framing(found.version, is_post, bytes, fields, limit) {
        Ok(framing) => Ok(RequestParts {
            verb: verb_of(method),
            target: found.path,
            keep: stays(found.version, bytes, fields),
            framing,
        }),
        Err(fault) => Err(fault),
    }
}

/// The request's head that the bytes begin with, for bodies of at most `limit` bytes; None where
/// they begin with no head of the grammar that has at most as many fields as there are `spans`.
pub fn first_request(bytes: &[u8], spans: &mut [HeaderSpan], limit: u32) -> Option<FirstRequest>
    ensures exact { MatchOption result (BeginsWithNoRequest (length spans.old) bytes.now)
        (BeginsWithRequest (length spans.old) limit bytes.now) }
    ensures within { IfSome result (λ f. f.len ≤ length bytes.now) }
    ensures target { IfSome result (λ f. IfOk f.parts (λ p. (p.target.start ≤ p.target.end) × (p.target.end ≤ f.len))) }
{
    match parse_request(bytes, spans) {
        Ok(Status::Complete(found)) => Some(FirstRequest {
            len: found.len,
            parts: parts_at(found, bytes, spans, limit),
        }),
        _ => None,
    }
}

/// What the bytes say as the head of a request whose body is at most `limit` bytes. The bytes are
/// the whole head with its empty line, and at most as many fields are read as there are `spans`.
pub fn request_parts(
    head: &[u8],
    spans: &mut [HeaderSpan],
    limit: u32,
) -> Result<RequestParts, HttpFault>
    ensures exact { MatchResult result (SaysRequest limit head.now) (RefusesRequest (length spans.old) limit head.now) }
    ensures within { IfOk result (λ p. (p.target.start ≤ p.target.end) × (p.target.end ≤ length head.now)) }
{
    match first_request(head, spans, limit) {
        Some(first) => {
            if first.len == head.len() {
                first.parts
            } else {
                Err(HttpFault::BadHead)
            }
        }
        None => Err(HttpFault::BadHead),
    }
}

/// What the bytes say as the head of a response whose body is at most `limit` bytes. The bytes are
/// the whole head with its empty line, and at most as many fields are read as there are `spans`.
pub fn response_parts(
    head: &[u8],
    spans: &mut [HeaderSpan],
    limit: u32,
) -> Result<ResponseParts, HttpFault>
    ensures { MatchResult result (SaysResponse limit head.now) (RefusesResponse (length spans.old) limit head.now) }
{
    let Some(read) = response_head(head, spans) else {
        return Err(HttpFault::BadHead);
    };
    match response_framing(read.code, head, &spans[..read.headers], limit) {
        Ok(framing) => Ok(ResponseParts {
            status: read.code,
            framing,
        }),
        Err(fault) => Err(fault),
    }
}
