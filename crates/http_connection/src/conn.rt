//! A connection: messages read one after another from a source.
ghost use Rattle.std.specs.Prelude.{◌≡◌, ◌≤◌, ◌<◌, ◌+◌, ◌*◌, ◌-◌, ℕ, List, [], None, Ok, Err, length, take, drop, IfOk, MatchBool, true, false};
ghost use Rattle.std.specs.Borrow.{sem};
ghost use Rattle.std.specs.Io.BufRead.{Rests};
ghost use Rattle.http_connection.specs.Steps.{Advances, ReadsBy};
ghost use Rattle.http_grammar.specs.declared.fault.HttpFault.{HttpFault};
ghost use Rattle.http_connection.specs.Found.{HeadGives, HasHead, IsWithin, ResponseGives};
ghost use Rattle.http_connection.specs.BufferState.{Takes, IsAtEnd};
ghost use Rattle.httparse.specs.Spans.{span_bytes};

use crate::bodies::{body_of_response, read_body};
use crate::buffer::Buffer;
use crate::chunks::LINE_COUNT_LIMIT;
use crate::head::{HEAD_LIMIT, HeadEnd, head_end};
use crate::request::advance;
use crate::whole::{join_whole, whole_in};
use adx_io::Source;
use adx_units::OutOfMemory;
use http_grammar::{HttpFault, Verb, response_parts};
use httparse::spans::{EMPTY_HEADER_SPAN, HeaderSpan, Span};
use std::alloc::Global;
use std::marker::Model;

/// For how many bytes a connection has room beyond the longest message.
pub const PIECE: usize = 65_536;

/// A request that was read.
#[derive(Clone, Copy, Debug)]
pub struct Message<'a> {
    /// The kind of its method.
    pub verb: Verb,
    /// Its target, as it is in the head.
    pub target: &'a [u8],
    /// Its body, whose chunks are joined.
    pub body: &'a [u8],
    /// Whether the connection stays: HTTP/1.1 without `Connection: close`.
    pub keep: bool,
}

/// A response that was read.
#[derive(Clone, Copy, Debug)]
pub struct Response<'a> {
    /// The status, from 0 to 999.
    pub status: u16,
    /// Its body, whose chunks are joined; 204 and 304 have none.
    pub body: &'a [u8],
}

/// How a connection ended.
#[derive(Clone, Copy, Debug, PartialEq, Eq)]
pub enum ConnEnd {
    /// The source ended between messages, or the last reply said `close`.
    Closed,
    /// The source ended within a message.
    Cut,
    /// A message was refused, and its reply written.
    Refused { fault: HttpFault },
    /// The source failed.
    ReadFault,
    /// The sink failed.
    WriteFault,
    /// As many messages were read as one connection may bring.
    Spent,
    /// Memory was wanting.
    OutOfMemory,
}

/// Where the parts of a message in progress are.
#[derive(Clone, Copy)]
pub(crate) struct Found {
    pub verb: Verb,
    pub target: Span,
    pub keep: bool,
    /// The length of its head.
    pub head: usize,
}

/// A connection.
#[derive(Drop)]
pub struct Conn {
    buffer: Buffer,
    spans: Vec<HeaderSpan>,
    failed: bool,
    limit: u32,
}

impl Model for Conn {
    ghost use Rattle.std.specs.Prelude.{◌≡◌, ◌+◌, ◌*◌, length, vec_len};
    ghost use Rattle.http_connection.specs.declared.head.TheConstants.{HEAD_LIMIT};
    ghost use Rattle.http_connection.specs.declared.chunks.TheConstants.{LINE_COUNT_LIMIT};
    ghost use Rattle.http_connection.specs.declared.conn.TheConstants.{PIECE};
    ghost use Rattle.http_connection.specs.State.{ConnState};

    ghost Value = { ConnState };

    ghost view = { λ c. record { held = c.buffer.pending; failed = c.failed; limit = c.limit } };

    ghost invariant = { λ c. (c.buffer.room ≡ 2 * HEAD_LIMIT + c.limit + PIECE) × (vec_len c.spans ≡ LINE_COUNT_LIMIT) };
}

impl Conn {
    ghost use Rattle.http_connection.specs.State.{ConnState};
    ghost use Rattle.std.specs.Prelude.{Decides};
    ghost use Rattle.http_connection.specs.Ready.{IsReady};
    ghost use Rattle.http_connection.specs.Answers.{AnswersHeld, AnswersMessage, AnswersResponse};
    ghost use Rattle.http_connection.specs.contracts.conn.Conn.{the_row};

    /// A connection whose bodies are at most `body_limit` bytes. No later call takes memory.
    pub fn new(alloc: Global, body_limit: u32) -> Result<Conn, OutOfMemory>
        ensures { IfOk result (λ c. c ≡ record { held = []; failed = false; limit = body_limit }) }
    {
        Ok(Conn {
            buffer: Buffer::new(alloc, 2 * HEAD_LIMIT + body_limit as usize + PIECE)?,
            spans: vec![in alloc; EMPTY_HEADER_SPAN; LINE_COUNT_LIMIT]?,
            failed: false,
            limit: body_limit,
        })
    }

    /// Drops the bytes held and an earlier fault.
    pub fn clear(&mut self)
        ensures { self.new ≡ record self.old { held = []; failed = false } }
    {
        self.buffer.clear();
        self.failed = false;
    }

    /// Drops the bytes held and an earlier fault, and says true, where bodies are at most `body_limit` bytes; else it
    /// changes nothing and says false.
    pub fn clear_for(&mut self, body_limit: u32) -> bool
        ensures { MatchBool result (self.new ≡ record { held = []; failed = false; limit = body_limit }) (self.new ≡ self.old) }
    {
        if self.limit != body_limit {
            return false;
        }
        self.clear();
        true
    }

    /// Whether the bytes that were taken and not handed out begin with a whole request; false after
    /// a fault. Takes no memory and nothing from a source, and changes nothing.
    pub fn ready(&self) -> bool
        ensures { Decides result (IsReady self.now) }
    {
        if self.failed {
            return false;
        }
        let mut spans = [EMPTY_HEADER_SPAN; LINE_COUNT_LIMIT];
        whole_in(self.buffer.pending(), &mut spans, self.limit).is_some()
    }

    /// The next message where the bytes that were taken and not handed out begin with a whole one. None
    /// where they don't, and after a fault; then nothing changes. Takes no memory and nothing from a
    /// source.
    pub fn held_message(&mut self) -> Option<Message<'_>>
        ensures* after_borrow { sem 𝓛 (Rests the_row self.entry (λ new. AnswersHeld self.old new result)) }
    {
        if self.failed {
            return None;
        }
        match whole_in(self.buffer.pending(), &mut self.spans, self.limit) {
            Some(whole) => {
                self.buffer.release();
                let found = join_whole(&mut self.buffer, whole, self.limit);
                Some(lend(&self.buffer, found))
            }
            None => None,
        }
    }

    /// Reads the next message; None where the source ended between messages. After a fault each call
    /// answers `Cut` until `clear`.
    pub fn next_message<S: Source>(
        &mut self,
        source: &mut S,
    ) -> Result<Option<Message<'_>>, HttpFault>
        ensures* after_borrow { sem 𝓛 (Rests the_row self.entry (λ new. AnswersMessage self.old new (S.tape source.old) (S.tape source.new) result)) }
        ensures cause { ReadsBy (S.faults source.old) (S.faults source.new) result }
        ensures same { S.place source.new ≡ S.place source.old }
    {
        if self.failed {
            return Err(HttpFault::Cut);
        }
        self.buffer.release();
        match advance(&mut self.buffer, &mut self.spans, source, self.limit) {
            Ok(Some(found)) => Ok(Some(lend(&self.buffer, found))),
            Ok(None) => Ok(None),
            Err(fault) => {
                self.failed = true;
                Err(fault)
            }
        }
    }

    /// Reads a response. After a fault each call answers `Cut` until `clear`.
    pub fn read_response<S: Source>(&mut self, source: &mut S) -> Result<Response<'_>, HttpFault>
        ensures* after_borrow { sem 𝓛 (Rests the_row self.entry (λ new. AnswersResponse self.old new (S.tape source.old) (S.tape source.new) result)) }
        ensures cause { ReadsBy (S.faults source.old) (S.faults source.new) result }
        ensures same { S.place source.new ≡ S.place source.old }
    {
        if self.failed {
            return Err(HttpFault::Cut);
        }
        self.buffer.release();
        match respond(&mut self.buffer, &mut self.spans, source, self.limit) {
            Ok((status, head)) => Ok(Response {
                status,
                body: body(&self.buffer, head),
            }),
            Err(fault) => {
                self.failed = true;
                Err(fault)
            }
        }
    }
}

/// What comes after the head of the message in progress.
fn body(buffer: &Buffer, head: usize) -> &[u8]
    requires { head ≤ length buffer.now.kept }
    ensures { result.now ≡ drop head buffer.now.kept }
{
    let (_, body) = buffer.kept().split_at(head);
    body
}

/// The message in progress.
fn lend(buffer: &Buffer, found: Found) -> Message<'_>
    requires { IsWithin found buffer.now.kept }
    ensures verb { result.verb ≡ found.verb }
    ensures target { result.target.now ≡ span_bytes (take found.head buffer.now.kept) found.target }
    ensures body { result.body.now ≡ drop found.head buffer.now.kept }
    ensures keep { result.keep ≡ found.keep }
    ensures fits { length buffer.now.pending ≤ buffer.now.room }
{
    let (head, body) = buffer.kept().split_at(found.head);
    Message {
        verb: found.verb,
        target: found.target.of(head),
        body,
        keep: found.keep,
    }
}

/// Takes a head, and says how long it is; None where no byte comes.
pub(crate) fn read_head<S: Source>(
    buffer: &mut Buffer,
    source: &mut S,
) -> Result<Option<usize>, HttpFault>
    requires { length buffer.old.kept + HEAD_LIMIT ≤ buffer.old.room }
    ensures takes { Takes buffer.old buffer.new (S.tape source.old) (S.tape source.new) }
    ensures gives { HeadGives buffer.new.pending result }
    ensures none { result ≡ Ok None → IsAtEnd (S.tape source.new) }
    ensures cut { result ≡ Err HttpFault.Cut → IsAtEnd (S.tape source.new) }
    ensures cause { ReadsBy (S.faults source.old) (S.faults source.new) result }
    ensures same { S.place source.new ≡ S.place source.old }
{
    match head_end(buffer, source) {
        Ok(HeadEnd::At(end, lines)) => {
            if lines <= LINE_COUNT_LIMIT {
                Ok(Some(end))
            } else {
                Err(HttpFault::HeadTooLong)
            }
        }
        Ok(HeadEnd::TooLong) => Err(HttpFault::HeadTooLong),
        Ok(HeadEnd::Open) => {
            if buffer.pending().is_empty() {
                Ok(None)
            } else {
                Err(HttpFault::Cut)
            }
        }
        Err(_) => Err(HttpFault::ReadFault),
    }
}

/// The first bytes.
pub(crate) fn front(bytes: &[u8], end: usize) -> &[u8]
    requires { end ≤ length bytes.now }
    ensures { result.now ≡ take end bytes.now }
{
    let (front, _) = bytes.split_at(end);
    front
}

/// Reads the response whose head ends there, and says its status and how long its head is.
fn response_at<S: Source>(
    buffer: &mut Buffer,
    spans: &mut [HeaderSpan],
    source: &mut S,
    head: usize,
    limit: u32,
) -> Result<(u16, usize), HttpFault>
    requires room { buffer.old.room ≡ 2 * HEAD_LIMIT + limit + PIECE }
    requires spans { length spans.old ≡ LINE_COUNT_LIMIT }
    requires alone { buffer.old.kept ≡ [] }
    requires head { HasHead buffer.old.pending head }
    ensures gives { ResponseGives limit buffer.old buffer.new (S.tape source.old) (S.tape source.new) result }
    ensures room { buffer.new.room ≡ buffer.old.room }
    ensures advances { Advances (S.tape source.old) (S.tape source.new) }
    ensures cause { ReadsBy (S.faults source.old) (S.faults source.new) result }
    ensures same { S.place source.new ≡ S.place source.old }
{
    match response_parts(front(buffer.pending(), head), spans, limit) {
        Ok(parts) => {
            buffer.keep(head);
            match read_body(buffer, source, body_of_response(parts.framing), limit) {
                Ok(_) => Ok((parts.status, head)),
                Err(wrong) => Err(wrong),
            }
        }
        Err(refusal) => Err(refusal),
    }
}

/// Reads a response, and says its status and how long its head is.
fn respond<S: Source>(
    buffer: &mut Buffer,
    spans: &mut [HeaderSpan],
    source: &mut S,
    limit: u32,
) -> Result<(u16, usize), HttpFault>
    requires room { buffer.old.room ≡ 2 * HEAD_LIMIT + limit + PIECE }
    requires spans { length spans.old ≡ LINE_COUNT_LIMIT }
    requires alone { buffer.old.kept ≡ [] }
    ensures gives { ResponseGives limit buffer.old buffer.new (S.tape source.old) (S.tape source.new) result }
    ensures room { buffer.new.room ≡ buffer.old.room }
    ensures advances { Advances (S.tape source.old) (S.tape source.new) }
    ensures cause { ReadsBy (S.faults source.old) (S.faults source.new) result }
    ensures same { S.place source.new ≡ S.place source.old }
{
    match read_head(buffer, source) {
        Ok(Some(head)) => response_at(buffer, spans, source, head, limit),
        Ok(None) => Err(HttpFault::Cut),
        Err(fault) => Err(fault),
    }
}
