//! The messages of a connection, served one after another.
ghost use Rattle.std.specs.Prelude.{◌≡◌, ℕ, IsNone, Some, false};
ghost use Rattle.http_connection.specs.Answers.{Shows};
ghost use Rattle.http_connection.specs.Messages.{Request};
ghost use Rattle.http_service.specs.Connections.{EndsWith, HasCauses};
ghost use Rattle.http_service.specs.Replies.{fault_status};
ghost use Rattle.http_service.specs.Steps.{FaultCauses, FaultEnds, MessageEnds, StepCauses, StepGives};
ghost use Rattle.http_service.specs.declared.limits.TheConstants.{REQUEST_LIMIT as request_limit};

use crate::limits::{MESSAGE_LIMIT, REQUEST_LIMIT};
use crate::refusal::write_refusal;
use crate::reply::{asks_no_body, write_answer};
use crate::service::Service;
use adx_http::{Conn, ConnEnd, HttpFault, Message};
use adx_io::{Sink, Source};
use std::alloc::Global;

/// Answers a message that was read, and writes its reply. None where the connection goes on.
fn serve_message<V: Service, K: Sink>(
    alloc: Global,
    message: &Message<'_>,
    body: &mut String,
    service: &mut V,
    sink: &mut K,
) -> Option<ConnEnd>
    ensures ends { (m : Request) → Shows message.now m
        → MessageEnds V.answers V.gives_up (K.held sink.old) (K.held sink.new) service.old service.new m result }
    ensures causes { (faults : ℕ) → StepCauses faults faults (K.faults sink.old) (K.faults sink.new) result }
    ensures service { V.place service.new ≡ V.place service.old }
    ensures sink { K.place sink.new ≡ K.place sink.old }
{
    body.clear();
    match service.answer(alloc, message, body) {
        Ok(answer) => {
            let head = asks_no_body(message.verb);
            match write_answer(sink, answer, body.as_bytes(), !message.keep, head) {
                Ok(_) => {
                    if message.keep {
                        None
                    } else {
                        Some(ConnEnd::Closed)
                    }
                }
                Err(_) => Some(ConnEnd::WriteFault),
            }
        }
        Err(_) => Some(ConnEnd::OutOfMemory),
    }
}

/// Ends a connection whose next message is refused, by its reply.
fn refuse<K: Sink>(sink: &mut K, fault: HttpFault, status: u16) -> ConnEnd
    requires { fault_status fault ≡ Some status }
    ensures ends { FaultEnds (K.held sink.old) (K.held sink.new) fault result }
    ensures causes { (faults : ℕ) → HasCauses faults faults (K.faults sink.old) (K.faults sink.new) result }
    ensures sink { K.place sink.new ≡ K.place sink.old }
{
    match write_refusal(sink, status) {
        Ok(_) => ConnEnd::Refused { fault },
        Err(_) => ConnEnd::WriteFault,
    }
}

/// Ends a connection by a fault of its next message.
fn end_by<K: Sink>(sink: &mut K, fault: HttpFault) -> ConnEnd
    ensures ends { FaultEnds (K.held sink.old) (K.held sink.new) fault result }
    ensures causes { (before now : ℕ) → FaultCauses before now (K.faults sink.old) (K.faults sink.new) fault result }
    ensures sink { K.place sink.new ≡ K.place sink.old }
{
    match fault {
        HttpFault::BadHead => refuse(sink, HttpFault::BadHead, 400),
        HttpFault::HeadTooLong => refuse(sink, HttpFault::HeadTooLong, 431),
        HttpFault::LengthRequired => refuse(sink, HttpFault::LengthRequired, 411),
        HttpFault::BodyTooLong => refuse(sink, HttpFault::BodyTooLong, 413),
        HttpFault::BadChunk => refuse(sink, HttpFault::BadChunk, 400),
        HttpFault::Coding => refuse(sink, HttpFault::Coding, 415),
        HttpFault::Cut => ConnEnd::Cut,
        HttpFault::ReadFault => ConnEnd::ReadFault,
    }
}

/// Reads the next message and serves it. None where the connection goes on.
fn serve_next<V: Service, S: Source, K: Sink>(
    alloc: Global,
    conn: &mut Conn,
    body: &mut String,
    service: &mut V,
    source: &mut S,
    sink: &mut K,
) -> Option<ConnEnd>
    requires sound { conn.old.failed ≡ false }
    ensures gives { StepGives V.answers V.gives_up conn.old.limit conn.old.held conn.new.held (S.tape source.old)
        (S.tape source.new) (K.held sink.old) (K.held sink.new) service.old service.new result }
    ensures causes { StepCauses (S.faults source.old) (S.faults source.new) (K.faults sink.old) (K.faults sink.new) result }
    ensures limit { conn.new.limit ≡ conn.old.limit }
    ensures sound { IsNone result → conn.new.failed ≡ false }
    ensures service { V.place service.new ≡ V.place service.old }
    ensures source { S.place source.new ≡ S.place source.old }
    ensures sink { K.place sink.new ≡ K.place sink.old }
{
    match conn.next_message(source) {
        Ok(Some(message)) => serve_message(alloc, &message, body, service, sink),
        Ok(None) => Some(ConnEnd::Closed),
        Err(fault) => Some(end_by(sink, fault)),
    }
}

/// Serves the messages of a connection: reads them from the source, and puts the reply to each into the sink before it
/// reads the next. Ends with the source between two messages, or after a reply that says `close` (`Closed`); within a
/// message (`Cut`); at a message that is refused, its reply written (`Refused`); at a fault of the source or of the
/// sink, which only these have (`ReadFault`, `WriteFault`); after `MESSAGE_LIMIT` messages (`Spent`); or where memory is
/// refused, for the connection's own, or by the service (`OutOfMemory`). Bodies are at most `REQUEST_LIMIT` bytes.
pub fn serve_messages<V: Service, S: Source, K: Sink>(
    alloc: Global,
    service: &mut V,
    source: &mut S,
    sink: &mut K,
) -> ConnEnd
    ensures ends { EndsWith V.answers V.gives_up request_limit (S.tape source.old) (S.tape source.new)
        (K.held sink.old) (K.held sink.new) service.old service.new result }
    ensures causes { HasCauses (S.faults source.old) (S.faults source.new) (K.faults sink.old) (K.faults sink.new) result }
    ensures service { V.place service.new ≡ V.place service.old }
    ensures source { S.place source.new ≡ S.place source.old }
    ensures sink { K.place sink.new ≡ K.place sink.old }
{
    let Ok(mut conn) = Conn::new(alloc, REQUEST_LIMIT) else {
        return ConnEnd::OutOfMemory;
    };
    let mut body = String::new(alloc);
    'messages: for _served in 0..MESSAGE_LIMIT {
        match serve_next(alloc, &mut conn, &mut body, service, source, sink) {
            Some(end) => return end,
            None => {}
        }
    }
    ConnEnd::Spent
}
