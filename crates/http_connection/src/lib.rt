//! HTTP/1.1 messages as they come from a source.
//!
//! `next_message` and `read_response` are functions of the bytes that a source gives, whatever its pieces: one
//! definition cuts all bytes into messages and faults. `held_message` gives the next message where it is whole in
//! what was taken. A message is lent from the connection's memory, where its chunks were joined.
//!
//! The memory of a connection: what was read of the message in progress, and the bytes after it. A contract sees a
//! `Buffer` as two lists, `kept` and `pending`, and its room. `fill` takes as many bytes of a source as fit; whatever
//! the pieces of the source, pending bytes and bytes left are together what they were. Nothing is moved but where the
//! room is used up, or bytes are joined. `line_end`, `head_end` and `need` take until a line ends, a head ends, or so
//! many bytes are there; no byte is searched twice. `line_in` looks at bytes at hand alone.
//!
//! The bodies of HTTP/1.1 messages as they come from a source. `read_body` joins a body to what a buffer keeps: one of
//! a length, one in chunks, or all up to the source's end. What it gives is a function of all bytes that come, whatever
//! the pieces of the source, and each fault is the first that they have. `has_body` looks at bytes at hand alone.
//!
//! Uses `adx_units`, `adx_io`, `http_grammar`, `httparse` and `memchr`.
#![tactic(auto)]

mod at_end;
mod bodies;
mod buffer;
mod chunks;
mod conn;
mod head;
mod laws;
mod line;
mod offsets;
mod request;
mod whole;
mod whole_bodies;

pub use bodies::{Body, body_of_request, body_of_response, read_body};
pub use buffer::Buffer;
pub use chunks::LINE_COUNT_LIMIT;
pub use conn::{Conn, ConnEnd, Message, PIECE, Response};
pub use head::{HEAD_LIMIT, HeadEnd, head_end, is_empty_line};
pub use http_grammar::{HttpFault, Verb};
pub use laws::{fronts_stay, one_answer};
pub use line::{Line, line_end, line_in, need};
pub use whole_bodies::has_body;
