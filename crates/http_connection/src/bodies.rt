//! The body of a message, read after a head that was kept.
ghost use Rattle.std.specs.Prelude.{◌≡◌, ◌≤◌, ◌+◌, ℕ, length};
ghost use Rattle.http_connection.specs.BodyForms.{body_of_request, body_of_response};
ghost use Rattle.http_connection.specs.Steps.{Advances, ReadsBy, BodyGives, FitsBody};
ghost use Rattle.http_connection.specs.declared.bodies.Body.{Body};

use crate::buffer::Buffer;
use crate::chunks::read_chunks;
use crate::head::HEAD_LIMIT;
use crate::line::need;
use adx_io::Source;
use http_grammar::{Framing, HttpFault};

/// How the body of a message is framed (RFC 9112, section 6).
#[derive(Clone, Copy, Debug, PartialEq, Eq)]
pub enum Body {
    /// There is none.
    Absent,
    /// By its length in bytes.
    Sized(usize),
    /// By chunks.
    Chunked,
    /// By the end of the source.
    ToEnd,
}

/// How the body of a request is framed.
pub fn body_of_request(framing: Framing) -> Body
    ensures { result ≡ body_of_request framing }
{
    match framing {
        Framing::Unframed => Body::Absent,
        Framing::Sized(size) => Body::Sized(size),
        Framing::Chunked => Body::Chunked,
    }
}

/// How the body of a response is framed.
pub fn body_of_response(framing: Option<Framing>) -> Body
    ensures { result ≡ body_of_response framing }
{
    match framing {
        None => Body::Absent,
        Some(Framing::Unframed) => Body::ToEnd,
        Some(Framing::Sized(size)) => Body::Sized(size),
        Some(Framing::Chunked) => Body::Chunked,
    }
}

/// Joins a body of so many bytes to what is kept.
fn read_sized<S: Source>(buffer: &mut Buffer, source: &mut S, size: usize) -> Result<(), HttpFault>
    requires { length buffer.old.kept + size ≤ buffer.old.room }
    ensures gives { (limit : ℕ) → BodyGives limit (Body.Sized size) buffer.old buffer.new (S.tape source.old) (S.tape source.new) result }
    ensures room { buffer.new.room ≡ buffer.old.room }
    ensures advances { Advances (S.tape source.old) (S.tape source.new) }
    ensures cause { ReadsBy (S.faults source.old) (S.faults source.new) result }
    ensures same { S.place source.new ≡ S.place source.old }
{
    match need(buffer, source, size) {
        Ok(true) => {
            buffer.keep(size);
            Ok(())
        }
        Ok(false) => Err(HttpFault::Cut),
        Err(_) => Err(HttpFault::ReadFault),
    }
}

/// Joins all bytes up to the source's end to what is kept.
fn read_to_end<S: Source>(buffer: &mut Buffer, source: &mut S, limit: u32) -> Result<(), HttpFault>
    requires { length buffer.old.kept + limit + 1 ≤ buffer.old.room }
    ensures gives { BodyGives limit Body.ToEnd buffer.old buffer.new (S.tape source.old) (S.tape source.new) result }
    ensures room { buffer.new.room ≡ buffer.old.room }
    ensures advances { Advances (S.tape source.old) (S.tape source.new) }
    ensures cause { ReadsBy (S.faults source.old) (S.faults source.new) result }
    ensures same { S.place source.new ≡ S.place source.old }
{
    match need(buffer, source, limit as usize + 1) {
        Ok(true) => Err(HttpFault::BodyTooLong),
        Ok(false) => {
            let size = buffer.pending().len();
            buffer.keep(size);
            Ok(())
        }
        Err(_) => Err(HttpFault::ReadFault),
    }
}

/// Joins the body to what is kept.
pub fn read_body<S: Source>(
    buffer: &mut Buffer,
    source: &mut S,
    body: Body,
    limit: u32,
) -> Result<(), HttpFault>
    requires room { length buffer.old.kept + limit + HEAD_LIMIT + 2 ≤ buffer.old.room }
    requires fits { FitsBody limit body }
    ensures gives { BodyGives limit body buffer.old buffer.new (S.tape source.old) (S.tape source.new) result }
    ensures room { buffer.new.room ≡ buffer.old.room }
    ensures advances { Advances (S.tape source.old) (S.tape source.new) }
    ensures cause { ReadsBy (S.faults source.old) (S.faults source.new) result }
    ensures same { S.place source.new ≡ S.place source.old }
{
    match body {
        Body::Absent => Ok(()),
        Body::Sized(size) => read_sized(buffer, source, size),
        Body::Chunked => read_chunks(buffer, source, limit),
        Body::ToEnd => read_to_end(buffer, source, limit),
    }
}
