//! HTTP/1.1: heads of requests, the messages of a connection and a response, whole and in pieces, targets, and two values of a
//! query.
use crate::readers::{done, push_other};
use adx_http::{query_values, read_target};
use adx_io::MemorySource;
use adx_units::OutOfMemory;
use http_connection::Conn;
use http_grammar::request_parts;
use httparse::spans::EMPTY_HEADER_SPAN;
use std::alloc::Global;
use std::borrow::CowStr;
use std::fmt::Write;

/// The limit of a message's body in bytes.
const LIMIT: u32 = 20;

/// How many bytes a source gives at a call; 0 is all.
const SIZES: [usize; 5] = [0, 1, 2, 3, 7];

/// Adds what a head says under a limit of 100 bytes of a body, or its fault: the verb, whether the connection stays, and how the
/// body is framed.
pub(crate) fn push_head(out: &mut String, head: &[u8]) -> Result<(), OutOfMemory> {
    let mut spans = [EMPTY_HEADER_SPAN; 64];
    match request_parts(head, &mut spans, 100) {
        Ok(parts) => done(write!(
            out,
            "{:?} {} {:?}",
            parts.verb,
            if parts.keep { "keep" } else { "close" },
            parts.framing
        )),
        Err(fault) => done(write!(out, "{fault:?}")),
    }
}

/// Adds what the next message is; false where it is the last.
fn push_next(
    out: &mut String,
    conn: &mut Conn,
    source: &mut MemorySource,
) -> Result<bool, OutOfMemory> {
    let (written, goes_on) = match conn.next_message(source) {
        Ok(Some(message)) => (
            write!(
                out,
                "{:?} {} {} {};",
                message.verb,
                if message.keep { "keep" } else { "close" },
                std::str::from_utf8(message.target).unwrap_or("?"),
                std::str::from_utf8(message.body).unwrap_or("?")
            ),
            true,
        ),
        Ok(None) => (write!(out, "end"), false),
        Err(fault) => (write!(out, "{fault:?}"), false),
    };
    done(written)?;
    Ok(goes_on)
}

/// Adds the messages of bytes that come in pieces of this size, eight at most.
fn push_messages(
    out: &mut String,
    alloc: Global,
    bytes: &[u8],
    size: usize,
) -> Result<(), OutOfMemory> {
    let mut conn = Conn::new(alloc, LIMIT)?;
    let mut source = MemorySource::new(alloc, bytes, size, &[])?;
    for _ in 0..8 {
        if !push_next(out, &mut conn, &mut source)? {
            break;
        }
    }
    Ok(())
}

/// Adds the response of bytes that come in pieces of this size.
fn push_response(
    out: &mut String,
    alloc: Global,
    bytes: &[u8],
    size: usize,
) -> Result<(), OutOfMemory> {
    let mut conn = Conn::new(alloc, LIMIT)?;
    let mut source = MemorySource::new(alloc, bytes, size, &[])?;
    match conn.read_response(&mut source) {
        Ok(response) => done(write!(
            out,
            "{}:{}",
            response.status,
            std::str::from_utf8(response.body).unwrap_or("?")
        )),
        Err(fault) => done(write!(out, "{fault:?}")),
    }
}

/// What bytes are read as.
#[derive(Clone, Copy)]
pub(crate) enum Side {
    Messages,
    Response,
}

/// Adds the messages or the response of bytes; and what they are in pieces, where that is something else.
pub(crate) fn push_pieces(
    out: &mut String,
    alloc: Global,
    side: Side,
    bytes: &[u8],
) -> Result<(), OutOfMemory> {
    for size in SIZES {
        let mut given = String::new(alloc);
        match side {
            Side::Messages => push_messages(&mut given, alloc, bytes, size)?,
            Side::Response => push_response(&mut given, alloc, bytes, size)?,
        }
        if out.is_empty() {
            out.push_str(given.as_str())?;
        }
        push_other(out, given.as_str())?;
    }
    Ok(())
}

/// Adds the path and the query of a target.
pub(crate) fn push_target(out: &mut String, bytes: &[u8]) -> Result<(), OutOfMemory> {
    let target = read_target(bytes);
    done(write!(
        out,
        "{} {}",
        std::str::from_utf8(target.path).unwrap_or("?"),
        std::str::from_utf8(target.query).unwrap_or("?")
    ))
}

/// Adds a value of a query; `-` where there is none.
fn push_value(out: &mut String, value: &Option<CowStr<'_, Global>>) -> Result<(), OutOfMemory> {
    match value {
        Some(text) => done(write!(out, "{}", text.as_str())),
        None => done(write!(out, "-")),
    }
}

/// Adds the values of `auction` and of `bid` in a query, with a bar between them; `-` where there is none.
pub(crate) fn push_values(
    out: &mut String,
    alloc: Global,
    query: &[u8],
) -> Result<(), OutOfMemory> {
    let Ok((auction, bid)) = query_values(alloc, query, "auction", "bid") else {
        return Err(OutOfMemory);
    };
    push_value(out, &auction)?;
    done(write!(out, "|"))?;
    push_value(out, &bid)
}
