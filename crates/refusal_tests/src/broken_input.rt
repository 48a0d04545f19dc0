//! Input that isn't of its form, and what each reader answers it.
ghost use Rattle.std.specs.Prelude.{◌≡◌, IfOk};
ghost use Rattle.adx_desk.specs.Rosters.{desk_terms};
ghost use Rattle.fan_out.specs.declared.answer.TheConstants.{ANSWER_LIMIT as answer_limit};
ghost use Rattle.exchange_messages.specs.Floors.{AreLanes};

use crate::repeating::{Counting, Repeating};
use adx_desk::{Desk, DeskFault};
use adx_http::{ConnEnd, HttpFault};
use adx_io::{MemorySink, MemorySource, Sink, Source};
use adx_json::{Json, read};
use adx_links::MemoryLink;
use adx_units::OutOfMemory;
use day_journal::{Disk, MemoryDisk};
use deal_floor::{Place, Roster};
use exchange_http::serve_connection;
use exchange_messages::FixedClock;
use fan_out::Lane;
use std::alloc::{AllocError, Global};
use std::fmt::Write;

/// One bidder with one campaign.
const ROSTER: &str =
    r#"{"day":"2025-03-01","bidders":[{"name":"b1"}],"campaigns":[{"bidder":"b1","seat":"s1","cid":"c1","budget":0.01}]}"#;

/// Bytes in parts: the first, a piece so many times, the middle, and another piece as many times.
#[derive(Clone, Copy)]
struct Parts(
    &'static [u8],
    usize,
    &'static [u8],
    &'static [u8],
    &'static [u8],
);

/// Adds a piece so many times.
fn push_times(out: &mut Vec<u8>, piece: &[u8], count: usize) -> Result<(), AllocError> {
    for _ in 0..count {
        out.extend_from_slice(piece)?;
    }
    Ok(())
}

/// The bytes of the parts.
fn bytes_of(alloc: Global, parts: Parts) -> Result<Vec<u8>, AllocError> {
    let Parts(first, count, piece, middle, last) = parts;
    let mut out = Vec::from_slice(alloc, first)?;
    push_times(&mut out, piece, count)?;
    out.extend_from_slice(middle)?;
    push_times(&mut out, last, count)?;
    Ok(out)
}

/// Texts that are read as JSON, and what is told of them.
const TEXTS: [(Parts, &str); 7] = [
    (Parts(b"", 0, b"", b"", b""), "Syntax { at: 0 }"),
    (Parts(b"01", 0, b"", b"", b""), "Syntax { at: 1 }"),
    (Parts(b"{\"a\":1", 0, b"", b"", b""), "Syntax { at: 6 }"),
    (Parts(b"\x22\xC0", 0, b"", b"", b""), "Utf8 { at: 1 }"),
    (Parts(b"\x22\xE2\x82", 0, b"", b"", b""), "Utf8 { at: 3 }"),
    (Parts(b"", 64, b"[", b"", b"]"), "a tree"),
    (Parts(b"\"\\ud800\"", 0, b"", b"", b""), "the text \u{FFFD}"),
];

/// Adds what is told of a tree: a text by its letters.
fn push_tree(out: &mut String, tree: &Json) -> Result<(), AllocError> {
    match tree {
        Json::Text(text) => write!(out, "the text {}", text.as_str()),
        _ => write!(out, "a tree"),
    }
}

/// What is told of a text that is read.
fn told(alloc: Global, bytes: &[u8]) -> Result<String, OutOfMemory> {
    let mut out = String::new(alloc);
    let written = match read(alloc, bytes) {
        Ok(tree) => push_tree(&mut out, &tree),
        Err(fault) => write!(out, "{fault:?}"),
    };
    match written {
        Ok(()) => Ok(out),
        Err(_) => Err(OutOfMemory),
    }
}

/// Whether a text is read so.
fn is_told(alloc: Global, parts: Parts, wanted: &str) -> Result<bool, OutOfMemory> {
    let bytes = bytes_of(alloc, parts)?;
    let told = told(alloc, bytes.as_slice())?;
    Ok(told.as_str() == wanted)
}

/// Replies to messages that are refused.
const BAD: &str =
    "HTTP/1.1 400 Bad Request\r\nContent-Type: application/json\r\nContent-Length: 0\r\nConnection: close\r\n\r\n";

const TOO_LONG: &str =
    "HTTP/1.1 431 Request Header Fields Too Large\r\nContent-Type: application/json\r\nContent-Length: 0\r\nConnection: close\r\n\r\n";

const TOO_LARGE: &str =
    "HTTP/1.1 413 Payload Too Large\r\nContent-Type: application/json\r\nContent-Length: 0\r\nConnection: close\r\n\r\n";

const UNSUPPORTED: &str =
    "HTTP/1.1 415 Unsupported Media Type\r\nContent-Type: application/json\r\nContent-Length: 0\r\nConnection: close\r\n\r\n";

const NOT_ALLOWED: &str =
    "HTTP/1.1 405 Method Not Allowed\r\nContent-Type: application/json\r\nAllow: GET\r\n\r\n";

/// What comes on a connection, what is replied and how it ends.
const CONNECTIONS: [(Parts, &str, ConnEnd); 11] = [
    (
        Parts(b"GET / HTTP/1.1\r\n\r\n", 0, b"", b"", b""),
        BAD,
        ConnEnd::Refused {
            fault: HttpFault::BadHead,
        },
    ),
    (
        Parts(
            b"GET / HTTP/1.1\r\nHost: x\r\nHost: x\r\n\r\n",
            0,
            b"",
            b"",
            b"",
        ),
        BAD,
        ConnEnd::Refused {
            fault: HttpFault::BadHead,
        },
    ),
    (
        Parts(
            b"POST / HTTP/1.1\r\nHost: x\r\nContent-Length: 5\r\nContent-Length: 6\r\n\r\n",
            0,
            b"",
            b"",
            b"",
        ),
        BAD,
        ConnEnd::Refused {
            fault: HttpFault::BadHead,
        },
    ),
    (
        Parts(
            b"POST / HTTP/1.1\r\nHost: x\r\nContent-Length: 5\r\nTransfer-Encoding: chunked\r\n\r\n",
            0,
            b"",
            b"",
            b"",
        ),
        BAD,
        ConnEnd::Refused {
            fault: HttpFault::BadHead,
        },
    ),
    (
        Parts(b"GET /", 16_379, b"a", b"", b""),
        TOO_LONG,
        ConnEnd::Refused {
            fault: HttpFault::HeadTooLong,
        },
    ),
    (
        Parts(
            b"GET / HTTP/1.1\r\nHost: x\r\n",
            64,
            b"X: y\r\n",
            b"\r\n",
            b"",
        ),
        TOO_LONG,
        ConnEnd::Refused {
            fault: HttpFault::HeadTooLong,
        },
    ),
    (
        Parts(
            b"POST / HTTP/1.1\r\nHost: x\r\nContent-Length: 65537\r\n\r\n",
            0,
            b"",
            b"",
            b"",
        ),
        TOO_LARGE,
        ConnEnd::Refused {
            fault: HttpFault::BodyTooLong,
        },
    ),
    (
        Parts(
            b"POST / HTTP/1.1\r\nHost: x\r\nContent-Encoding: gzip\r\nContent-Length: 0\r\n\r\n",
            0,
            b"",
            b"",
            b"",
        ),
        UNSUPPORTED,
        ConnEnd::Refused {
            fault: HttpFault::Coding,
        },
    ),
    (
        Parts(
            b"POST / HTTP/1.1\r\nHost: x\r\nTransfer-Encoding: chunked\r\n\r\nzz\r\n",
            0,
            b"",
            b"",
            b"",
        ),
        BAD,
        ConnEnd::Refused {
            fault: HttpFault::BadChunk,
        },
    ),
    (
        Parts(
            b"POST / HTTP/1.1\r\nHost: x\r\nContent-Length: 5\r\n\r\nhe",
            0,
            b"",
            b"",
            b"",
        ),
        "",
        ConnEnd::Cut,
    ),
    (
        Parts(
            b"HEAD http://x/books HTTP/1.1\r\nHost: x\r\n\r\n",
            0,
            b"",
            b"",
            b"",
        ),
        NOT_ALLOWED,
        ConnEnd::Closed,
    ),
];

/// A message without an answer, more often than a connection may bring one, and its reply.
const UNKNOWN: &[u8] = b"GET /x HTTP/1.1\r\nHost: x\r\n\r\n";

const TIMES: u64 = 1_048_577;

const NOT_FOUND: &[u8] =
    b"HTTP/1.1 404 Not Found\r\nContent-Type: application/json\r\nContent-Length: 33\r\n\r\n{\"answer\":\"refused\",\"why\":\"path\"}";

/// The roster of the line.
fn roster_of(alloc: Global) -> Result<Roster, OutOfMemory> {
    let Ok(tree) = read(alloc, ROSTER.as_bytes()) else {
        return Err(OutOfMemory);
    };
    match Roster::of(alloc, &tree) {
        Ok(roster) => Ok(roster),
        Err(_) => Err(OutOfMemory),
    }
}

/// The desk of a roster's day.
fn desk_of(alloc: Global, roster: &Roster) -> Result<Desk<MemoryDisk>, OutOfMemory>
    ensures { IfOk result (λ d. d.desk.terms ≡ desk_terms roster.entry.now) }
{
    let disk = MemoryDisk::new(alloc, b"", &[], None)?;
    match Desk::open(alloc, disk, roster) {
        Ok(desk) => Ok(desk),
        Err(_) => Err(OutOfMemory),
    }
}

/// The lane of a bidder, which isn't asked.
fn lane_of(alloc: Global, place: &Place) -> Result<Lane<MemoryLink>, OutOfMemory>
    ensures place { IfOk result (λ l. l.place ≡ place.now) }
    ensures limit { IfOk result (λ l. l.conn.limit ≡ answer_limit) }
{
    Lane::to(alloc, place, MemoryLink::new(alloc, &[])?)
}

/// The lanes of a roster's bidders.
fn lanes_of(alloc: Global, roster: &Roster) -> Result<Vec<Lane<MemoryLink>>, OutOfMemory>
    ensures { IfOk result (λ v. AreLanes roster.entry.now v.items) }
{
    let mut lanes = Vec::new(alloc);
    let bidders = roster.bidders.as_slice();
    for place in bidders {
        match lane_of(alloc, place) {
            Ok(lane) => lanes.push(lane)?,
            Err(wanting) => return Err(wanting),
        }
    }
    Ok(lanes)
}

/// How a connection ends between a source and a sink.
fn served<S: Source, K: Sink>(
    alloc: Global,
    source: &mut S,
    sink: &mut K,
) -> Result<ConnEnd, OutOfMemory> {
    let roster = roster_of(alloc)?;
    let mut desk = desk_of(alloc, &roster)?;
    let mut lanes = lanes_of(alloc, &roster)?;
    let clock = FixedClock::new(10);
    Ok(serve_connection(alloc, &roster, &mut desk, &mut lanes, source, sink, &clock))
}

/// Whether what comes is replied so, and the connection ends so.
fn is_replied(
    alloc: Global,
    parts: Parts,
    reply: &str,
    wanted: ConnEnd,
) -> Result<bool, OutOfMemory> {
    let bytes = bytes_of(alloc, parts)?;
    let mut source = MemorySource::new(alloc, bytes.as_slice(), 0, &[])?;
    let mut sink = MemorySink::new(alloc, 0, &[])?;
    let end = served(alloc, &mut source, &mut sink)?;
    Ok(end == wanted && sink.taken() == reply.as_bytes())
}

/// How a connection ends on which more messages come than it may bring; how many replies are those to its message, and
/// how many aren't.
fn spent(alloc: Global) -> Result<(ConnEnd, u64, u64), OutOfMemory> {
    let mut source = Repeating::new(UNKNOWN, TIMES);
    let mut sink = Counting::new(NOT_FOUND);
    let end = served(alloc, &mut source, &mut sink)?;
    Ok((end, sink.replies, sink.others))
}

/// Whether a disk begins with these bytes.
fn begins(disk: &mut MemoryDisk, front: &[u8; 9]) -> bool {
    let mut bytes = [0; 9];
    disk.read(0, &mut bytes) == Ok(9) && bytes == *front
}

/// How many entries a file stands for that is opened as a journal, and whether it is a journal afterwards; or why it
/// isn't opened.
fn opened(alloc: Global, file: &[u8]) -> Result<Result<(u64, bool), DeskFault>, OutOfMemory> {
    let roster = roster_of(alloc)?;
    let disk = MemoryDisk::new(alloc, file, &[], None)?;
    match Desk::open(alloc, disk, &roster) {
        Ok(desk) => {
            let count = desk.count();
            let mut disk = desk.close();
            Ok(Ok((count, begins(&mut disk, b"\x01ADXJRNL2"))))
        }
        Err((fault, _)) => Ok(Err(fault)),
    }
}

#[test]
fn broken_input(rt: HostRuntime) {
    for (parts, wanted) in TEXTS {
        assert_eq!(rt; is_told(rt.alloc(), parts, wanted), Ok(true), "{wanted}");
    }
    for (parts, reply, end) in CONNECTIONS {
        assert_eq!(rt;
            is_replied(rt.alloc(), parts, reply, end),
            Ok(true),
            "{end:?}"
        );
    }
    assert_eq!(rt; spent(rt.alloc()), Ok((ConnEnd::Spent, TIMES - 1, 0)));
    assert_eq!(rt;
        opened(rt.alloc(), b"\x01ADXJRNL1\x01\xFF\xFF\xFF\xFF"),
        Ok(Err(DeskFault::BadLength { at: 9 }))
    );
    assert_eq!(rt; opened(rt.alloc(), &[0; 10]), Ok(Ok((0, true))));
}
