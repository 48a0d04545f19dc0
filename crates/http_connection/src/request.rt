//! The steps of a request: its head, what the head says, its body.
ghost use Rattle.std.specs.Prelude.{◌≡◌, ◌≤◌, ◌<◌, ◌+◌, ◌*◌, [], length, OnErr, Ok, false};
ghost use Rattle.adx_io.specs.Streams.{HasCause};
ghost use Rattle.http_connection.specs.BufferState.{Takes, IsAtEnd};
ghost use Rattle.http_connection.specs.Steps.{Advances, ReadsBy};
ghost use Rattle.http_connection.specs.Found.{HasHead, HasRequestHead, RequestGives};

use crate::bodies::{body_of_request, read_body};
use crate::buffer::Buffer;
use crate::chunks::LINE_COUNT_LIMIT;
use crate::conn::{Found, PIECE, front, read_head};
use crate::head::HEAD_LIMIT;
use adx_io::{Failed, Source};
use http_grammar::{HttpFault, RequestParts, first_request, request_parts};
use httparse::spans::HeaderSpan;

/// Joins the body to the request's head that the pending bytes begin with.
pub(crate) fn request_behind<S: Source>(
    buffer: &mut Buffer,
    source: &mut S,
    head: usize,
    parts: RequestParts,
    limit: u32,
) -> Result<Option<Found>, HttpFault>
    requires room { buffer.old.room ≡ 2 * HEAD_LIMIT + limit + PIECE }
    requires alone { buffer.old.kept ≡ [] }
    requires head { HasRequestHead limit buffer.old.pending head parts }
    requires target { (parts.target.start ≤ parts.target.end) × (parts.target.end ≤ head) }
    ensures gives { RequestGives limit buffer.old buffer.new (S.tape source.old) (S.tape source.new) result }
    ensures room { buffer.new.room ≡ buffer.old.room }
    ensures advances { Advances (S.tape source.old) (S.tape source.new) }
    ensures cause { ReadsBy (S.faults source.old) (S.faults source.new) result }
    ensures same { S.place source.new ≡ S.place source.old }
{
    buffer.keep(head);
    match read_body(buffer, source, body_of_request(parts.framing), limit) {
        Ok(_) => Ok(Some(Found {
            verb: parts.verb,
            target: parts.target,
            keep: parts.keep,
            head,
        })),
        Err(wrong) => Err(wrong),
    }
}

/// Reads the request whose head ends there.
fn request_at<S: Source>(
    buffer: &mut Buffer,
    spans: &mut [HeaderSpan],
    source: &mut S,
    head: usize,
    limit: u32,
) -> Result<Option<Found>, HttpFault>
    requires room { buffer.old.room ≡ 2 * HEAD_LIMIT + limit + PIECE }
    requires spans { length spans.old ≡ LINE_COUNT_LIMIT }
    requires alone { buffer.old.kept ≡ [] }
    requires head { HasHead buffer.old.pending head }
    ensures gives { RequestGives limit buffer.old buffer.new (S.tape source.old) (S.tape source.new) result }
    ensures room { buffer.new.room ≡ buffer.old.room }
    ensures advances { Advances (S.tape source.old) (S.tape source.new) }
    ensures cause { ReadsBy (S.faults source.old) (S.faults source.new) result }
    ensures same { S.place source.new ≡ S.place source.old }
{
    match request_parts(front(buffer.pending(), head), spans, limit) {
        Ok(parts) => request_behind(buffer, source, head, parts, limit),
        Err(refusal) => Err(refusal),
    }
}

/// Reads a request whose head is looked for line by line.
fn advance_by_lines<S: Source>(
    buffer: &mut Buffer,
    spans: &mut [HeaderSpan],
    source: &mut S,
    limit: u32,
) -> Result<Option<Found>, HttpFault>
    requires room { buffer.old.room ≡ 2 * HEAD_LIMIT + limit + PIECE }
    requires spans { length spans.old ≡ LINE_COUNT_LIMIT }
    requires alone { buffer.old.kept ≡ [] }
    ensures gives { RequestGives limit buffer.old buffer.new (S.tape source.old) (S.tape source.new) result }
    ensures room { buffer.new.room ≡ buffer.old.room }
    ensures advances { Advances (S.tape source.old) (S.tape source.new) }
    ensures cause { ReadsBy (S.faults source.old) (S.faults source.new) result }
    ensures same { S.place source.new ≡ S.place source.old }
{
    match read_head(buffer, source) {
        Ok(Some(head)) => request_at(buffer, spans, source, head, limit),
        Ok(None) => Ok(None),
        Err(fault) => Err(fault),
    }
}

/// Reads a request: where the pending bytes begin with a whole head it is found and read in one
/// search.
fn advance_held<S: Source>(
    buffer: &mut Buffer,
    spans: &mut [HeaderSpan],
    source: &mut S,
    limit: u32,
) -> Result<Option<Found>, HttpFault>
    requires room { buffer.old.room ≡ 2 * HEAD_LIMIT + limit + PIECE }
    requires spans { length spans.old ≡ LINE_COUNT_LIMIT }
    requires alone { buffer.old.kept ≡ [] }
    ensures gives { RequestGives limit buffer.old buffer.new (S.tape source.old) (S.tape source.new) result }
    ensures room { buffer.new.room ≡ buffer.old.room }
    ensures advances { Advances (S.tape source.old) (S.tape source.new) }
    ensures cause { ReadsBy (S.faults source.old) (S.faults source.new) result }
    ensures same { S.place source.new ≡ S.place source.old }
{
    match first_request(buffer.pending(), spans, limit) {
        Some(first) => {
            if first.len > HEAD_LIMIT {
                return advance_by_lines(buffer, spans, source, limit);
            }
            match first.parts {
                Ok(parts) => request_behind(buffer, source, first.len, parts, limit),
                Err(refusal) => Err(refusal),
            }
        }
        None => advance_by_lines(buffer, spans, source, limit),
    }
}

/// Takes bytes where none are pending; false where none come.
fn some_pending<S: Source>(buffer: &mut Buffer, source: &mut S) -> Result<bool, Failed>
    requires alone { buffer.old.kept ≡ [] }
    requires room { 0 < buffer.old.room }
    ensures takes { Takes buffer.old buffer.new (S.tape source.old) (S.tape source.new) }
    ensures none { result ≡ Ok false → buffer.new.pending ≡ [] }
    ensures ended { result ≡ Ok false → IsAtEnd (S.tape source.new) }
    ensures unread { OnErr result (buffer.new.pending ≡ []) }
    ensures cause { HasCause (S.faults source.old) (S.faults source.new) result }
    ensures same { S.place source.new ≡ S.place source.old }
{
    if !buffer.pending().is_empty() {
        return Ok(true);
    }
    buffer.fill(source)
}

/// Reads a request; where no byte is pending, the source gives some first.
pub(crate) fn advance<S: Source>(
    buffer: &mut Buffer,
    spans: &mut [HeaderSpan],
    source: &mut S,
    limit: u32,
) -> Result<Option<Found>, HttpFault>
    requires room { buffer.old.room ≡ 2 * HEAD_LIMIT + limit + PIECE }
    requires spans { length spans.old ≡ LINE_COUNT_LIMIT }
    requires alone { buffer.old.kept ≡ [] }
    ensures gives { RequestGives limit buffer.old buffer.new (S.tape source.old) (S.tape source.new) result }
    ensures room { buffer.new.room ≡ buffer.old.room }
    ensures advances { Advances (S.tape source.old) (S.tape source.new) }
    ensures cause { ReadsBy (S.faults source.old) (S.faults source.new) result }
    ensures same { S.place source.new ≡ S.place source.old }
{
    match some_pending(buffer, source) {
        Ok(true) => advance_held(buffer, spans, source, limit),
        Ok(false) => Ok(None),
        Err(_) => Err(HttpFault::ReadFault),
    }
}
