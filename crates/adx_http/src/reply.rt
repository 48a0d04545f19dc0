//! Replies, and their bytes as a sink takes them.
ghost use Rattle.std.specs.Prelude.{◌≡◌, ℕ, List, [], ◌++◌, Option};
ghost use Rattle.adx_http.specs.Written.{Writes, WritesBy};
ghost use Rattle.adx_http.specs.Replies.{phrase, when, field_line, status_line, field_lines, has_body, reply_bytes, bare_bytes};
ghost use Rattle.adx_http.specs.Gathering.{Holds};

use crate::gathered::Gathered;
use adx_io::{Sink, put_all};
use http::StatusCode;
use std::fmt;

/// A reply of the exchange or of a bidder.
#[derive(Clone, Copy, Debug)]
pub struct Reply<'a> {
    /// The status, whose phrase is that of RFC 9110 where it has one.
    pub status: u16,
    /// Whether the body's type is `application/json`; a 204 never says so.
    pub json: bool,
    /// Whether the reply says the version of OpenRTB, 2.6.
    pub openrtb: bool,
    /// Whether the connection closes after the reply.
    pub close: bool,
    /// The methods that are allowed; nothing where the reply doesn't say so.
    pub allow: &'a [u8],
    /// Whether this answers a HEAD, and so has no length and no body.
    pub head: bool,
    /// The body; a 204 has none.
    pub body: &'a [u8],
}

/// The sink failed while a reply was written.
#[derive(Clone, Copy, Debug, PartialEq, Eq)]
pub struct WriteFault;

impl fmt::Display for WriteFault {
    fn fmt<W: fmt::Write>(&self, f: &mut fmt::Formatter<W>) -> fmt::Result {
        f.write_str("the sink failed")
    }
}

impl std::error::Error for WriteFault {}

/// The phrase of a status; empty where it has none.
fn phrase_of(status: u16) -> &'static [u8]
    ensures { result.now ≡ phrase status }
{
    match StatusCode::from_u16(status) {
        Ok(code) => match code.canonical_reason() {
            Some(phrase) => phrase.as_bytes(),
            None => b"",
        },
        Err(_) => b"",
    }
}

impl Reply<'_> {
    ghost use Rattle.adx_http.specs.Replies.{has_type, has_body, is_bare};

    /// Whether the reply says the type of its body.
    fn has_type(&self) -> bool
        ensures { result ≡ has_type self.now }
    {
        self.json && self.status != 204
    }

    /// Whether the reply has a length and a body.
    fn has_body(&self) -> bool
        ensures { result ≡ has_body self.now }
    {
        !self.head && self.status != 204
    }

    /// Whether the reply is a 204 with no field.
    fn is_bare(&self) -> bool
        ensures { result ≡ is_bare self.now }
    {
        self.status == 204 && !self.openrtb && self.allow.is_empty() && !self.close
    }
}

/// Gathers a field line, where it is to be.
fn push_field<K: Sink>(
    gathered: &mut Gathered,
    sink: &mut K,
    stands: bool,
    name: &[u8],
    value: &[u8],
)
    ensures same { K.place sink.new ≡ K.place sink.old }
    ensures holds { (old : Option (List ℕ)) (before : ℕ) (bytes : List ℕ) → Holds old before (K.held sink.old) (K.faults sink.old) gathered.old bytes
        → Holds old before (K.held sink.new) (K.faults sink.new) gathered.new (bytes ++ when stands (field_line name.now value.now)) }
{
    if !stands {
        return;
    }
    gathered.push(sink, name);
    gathered.push(sink, b": ");
    gathered.push(sink, value);
    gathered.push(sink, b"\r\n");
}

/// Gathers the status line.
fn push_status<K: Sink>(gathered: &mut Gathered, sink: &mut K, status: u16)
    ensures same { K.place sink.new ≡ K.place sink.old }
    ensures holds { (old : Option (List ℕ)) (before : ℕ) (bytes : List ℕ) → Holds old before (K.held sink.old) (K.faults sink.old) gathered.old bytes
        → Holds old before (K.held sink.new) (K.faults sink.new) gathered.new (bytes ++ status_line status) }
{
    let mut digits = itoa::Buffer::new();
    gathered.push(sink, b"HTTP/1.1 ");
    gathered.push(sink, digits.format(status).as_bytes());
    gathered.push(sink, b" ");
    gathered.push(sink, phrase_of(status));
    gathered.push(sink, b"\r\n");
}

/// Gathers the field lines.
fn push_fields<K: Sink>(gathered: &mut Gathered, sink: &mut K, reply: &Reply<'_>)
    ensures same { K.place sink.new ≡ K.place sink.old }
    ensures holds { (old : Option (List ℕ)) (before : ℕ) (bytes : List ℕ) → Holds old before (K.held sink.old) (K.faults sink.old) gathered.old bytes
        → Holds old before (K.held sink.new) (K.faults sink.new) gathered.new (bytes ++ field_lines reply.now) }
{
    let mut size = itoa::Buffer::new();
    let length = size.format(reply.body.len()).as_bytes();
    push_field(
        gathered,
        sink,
        reply.has_type(),
        b"Content-Type",
        b"application/json",
    );
    push_field(gathered, sink, reply.openrtb, b"x-openrtb-version", b"2.6");
    push_field(
        gathered,
        sink,
        !reply.allow.is_empty(),
        b"Allow",
        reply.allow,
    );
    push_field(gathered, sink, reply.has_body(), b"Content-Length", length);
    push_field(gathered, sink, reply.close, b"Connection", b"close");
}

/// Gathers the body, where there is one.
fn push_body<K: Sink>(gathered: &mut Gathered, sink: &mut K, reply: &Reply<'_>)
    ensures same { K.place sink.new ≡ K.place sink.old }
    ensures holds { (old : Option (List ℕ)) (before : ℕ) (bytes : List ℕ) → Holds old before (K.held sink.old) (K.faults sink.old) gathered.old bytes
        → Holds old before (K.held sink.new) (K.faults sink.new) gathered.new (bytes ++ when (has_body reply.now) reply.now.body.now) }
{
    if reply.has_body() {
        gathered.push(sink, reply.body);
    }
}

/// Puts the parts of a reply, gathered.
fn write_parts<K: Sink>(sink: &mut K, reply: &Reply<'_>) -> Result<(), WriteFault>
    ensures taken { Writes (K.held sink.old) (K.held sink.new) (reply_bytes reply.now) result }
    ensures cause { WritesBy (K.faults sink.old) (K.faults sink.new) result }
    ensures same { K.place sink.new ≡ K.place sink.old }
{
    let mut gathered = Gathered::new();
    push_status(&mut gathered, sink, reply.status);
    push_fields(&mut gathered, sink, reply);
    gathered.push(sink, b"\r\n");
    push_body(&mut gathered, sink, reply);
    if gathered.finish(sink) {
        Err(WriteFault)
    } else {
        Ok(())
    }
}

/// Puts the bytes of a reply that is a 204 with no field.
fn write_bare<K: Sink>(sink: &mut K) -> Result<(), WriteFault>
    ensures taken { Writes (K.held sink.old) (K.held sink.new) bare_bytes result }
    ensures cause { WritesBy (K.faults sink.old) (K.faults sink.new) result }
    ensures same { K.place sink.new ≡ K.place sink.old }
{
    match put_all(sink, b"HTTP/1.1 204 No Content\r\n\r\n") {
        Ok(_) => Ok(()),
        Err(_) => Err(WriteFault),
    }
}

/// Puts exactly the bytes of the reply. After a fault some front of them was taken; a fault is
/// answered only where the sink's count rose.
pub fn write_reply<K: Sink>(sink: &mut K, reply: &Reply<'_>) -> Result<(), WriteFault>
    ensures taken { Writes (K.held sink.old) (K.held sink.new) (reply_bytes reply.now) result }
    ensures cause { WritesBy (K.faults sink.old) (K.faults sink.new) result }
    ensures same { K.place sink.new ≡ K.place sink.old }
{
    if reply.is_bare() {
        return write_bare(sink);
    }
    write_parts(sink, reply)
}
