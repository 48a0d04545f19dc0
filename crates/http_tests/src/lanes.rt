//! Links that fail, and lanes that are worked at the same time.

use crate::answers::{
    AUCTION, Wanted, id_of, lane, no_price, planned_lanes, tell_at_once, tell_twice,
};
use adx_io::Failed;
use adx_links::{Link, MemoryLink, Planned};
use adx_units::{OutOfMemory, Text};
use fan_out::Lane;
use std::alloc::Global;
use std::sync::atomic::{AtomicU64, Ordering};
use std::test::Fail;

/// The request of a bidder's lane with the body of the example.
const ASKED: &str =
    "POST /bid?x=1 HTTP/1.1\r\nHost: bidder.example:8080\r\nContent-Type: application/json\r\nx-openrtb-version: 2.6\r\nContent-Length: 17\r\nConnection: close\r\n\r\n{\"id\":\"7979d0c7\"}";

/// The call that fails, and what the bidder would answer.
const FAILS: [(&str, &str); 8] = [
    ("", "#{\"id\":\"7979d0c7\",\"seatbid\":[{\"bid\":[{}]}]}"),
    ("s", "HTTP/1.1 204 No Content<<"),
    ("p", "HTTP/1.1 204 No Content<<"),
    ("0", "HTTP/1.1 204 No Content<<"),
    ("1", "HTTP/1.1 204 No Content<<"),
    ("0", "#{\"id\":\"7979d0c7\"}"),
    ("1", "#{\"id\":\"7979d0c7\"}"),
    ("2", "#{\"id\":\"7979d0c7\"}"),
];

/// What is told of them.
const FAILS_TOLD: &str =
    "Bids, LinkFault, LinkFault, LinkFault, NoBid, LinkFault, LinkFault, NoBid";

/// What each of them was asked.
const FAILS_ASKED: [&str; 8] = [ASKED, "", "", ASKED, ASKED, ASKED, ASKED, ASKED];

/// What the bidder of a lane was asked in each of three starts; None where there was no such start.
fn asked_of(lanes: &[Lane<MemoryLink>], place: usize) -> [Option<&[u8]>; 3] {
    match lanes.get(place) {
        Some(lane) => [lane.link.asked(0), lane.link.asked(1), lane.link.asked(2)],
        None => [None, None, None],
    }
}

#[test]
fn links_that_fail(rt: HostRuntime) -> Result<(), Fail> {
    let mut lanes = planned_lanes(rt.alloc(), &FAILS)?;
    let wanted = Wanted {
        body: "{\"id\":\"7979d0c7\"}",
        ..no_price(FAILS_TOLD)
    };
    assert_eq!(rt; tell_twice(&rt, rt.alloc(), &mut lanes, wanted), [true; 2]);
    for (place, asked) in FAILS_ASKED.into_iter().enumerate() {
        let twice = [Some(asked.as_bytes()), Some(asked.as_bytes()), None];
        assert_eq!(rt; asked_of(&lanes, place), twice, "{place}");
    }
    Ok(())
}

/// A request, what a bidder is sent with it, and what one answers in chunks of 16 bytes.
const EXAMPLE_ID: &str = "7979d0c7-4a1e-4c6b-9d0e-2f6f1b1c0a11";

const EXAMPLE: &str =
    "{\"id\":\"7979d0c7-4a1e-4c6b-9d0e-2f6f1b1c0a11\",\"imp\":[{\"id\":\"1\",\"banner\":{\"w\":300,\"h\":250},\"bidfloor\":0.5,\"exp\":300},{\"id\":\"2\",\"banner\":{\"w\":728,\"h\":90}}],\"site\":{\"id\":\"102855\",\"domain\":\"example.com\",\"page\":\"http://example.com/a\"},\"device\":{\"ua\":\"Mozilla/5.0\",\"ip\":\"192.0.2.10\"},\"user\":{\"id\":\"u1\"},\"tmax\":120,\"ext\":{\"x\":1},\"at\":1,\"cur\":[\"USD\"]}";

const EXAMPLE_ASKED: &str =
    "POST /bid?x=1 HTTP/1.1\r\nHost: bidder.example:8080\r\nContent-Type: application/json\r\nx-openrtb-version: 2.6\r\nContent-Length: 342\r\nConnection: close\r\n\r\n{\"id\":\"7979d0c7-4a1e-4c6b-9d0e-2f6f1b1c0a11\",\"imp\":[{\"id\":\"1\",\"banner\":{\"w\":300,\"h\":250},\"bidfloor\":0.5,\"exp\":300},{\"id\":\"2\",\"banner\":{\"w\":728,\"h\":90}}],\"site\":{\"id\":\"102855\",\"domain\":\"example.com\",\"page\":\"http://example.com/a\"},\"device\":{\"ua\":\"Mozilla/5.0\",\"ip\":\"192.0.2.10\"},\"user\":{\"id\":\"u1\"},\"tmax\":120,\"ext\":{\"x\":1},\"at\":1,\"cur\":[\"USD\"]}";

const EXAMPLE_ANSWER: &str =
    "HTTP/1.1 200 OK\r\nContent-Type: application/json\r\nTransfer-Encoding: chunked\r\n\r\n10\r\n{\"id\":\"7979d0c7-\r\n10\r\n4a1e-4c6b-9d0e-2\r\n10\r\nf6f1b1c0a11\",\"se\r\n10\r\natbid\":[{\"seat\":\r\n10\r\n\"s1\",\"bid\":[{\"id\r\n10\r\n\":\"k1\",\"impid\":\"\r\n10\r\n1\",\"price\":1.25,\r\n10\r\n\"cid\":\"c1\",\"adm\"\r\n10\r\n:\"<img src=\\\"htt\r\n10\r\np://a.example/i?\r\n10\r\np=${AUCTION_PRIC\r\nb\r\nE}\\\">\"}]}]}\r\n0\r\n\r\n";

/// A start that answers the example, or fails.
fn answering(alloc: Global, start_fails: bool) -> Result<Planned, OutOfMemory> {
    Ok(Planned {
        bytes: Text::of(alloc, EXAMPLE_ANSWER)?,
        start_fails,
        put_fails: false,
        take_fails: None,
    })
}

/// A link that answers the example twice; or its starts fail.
fn example_link(alloc: Global, start_fails: bool) -> Result<MemoryLink, OutOfMemory> {
    let plan = [
        answering(alloc, start_fails)?,
        answering(alloc, start_fails)?,
    ];
    MemoryLink::new(alloc, &plan)
}

/// Three lanes that answer the example, of which the starts of one fail.
fn example_lanes(alloc: Global) -> Result<Vec<Lane<MemoryLink>>, OutOfMemory> {
    let mut lanes = Vec::new(alloc);
    for start_fails in [false, true, false] {
        lanes.push(lane(alloc, example_link(alloc, start_fails)?)?)?;
    }
    Ok(lanes)
}

#[test]
fn one_bidder_fails(rt: HostRuntime) -> Result<(), Fail> {
    let mut lanes = example_lanes(rt.alloc())?;
    let wanted = Wanted {
        id: EXAMPLE_ID,
        body: EXAMPLE,
        front: "",
        told: "Bids, LinkFault, Bids",
        price: 1_250_000,
    };
    assert_eq!(rt; tell_twice(&rt, rt.alloc(), &mut lanes, wanted), [true; 2]);
    for (place, asked) in [EXAMPLE_ASKED, "", EXAMPLE_ASKED].into_iter().enumerate() {
        let twice = [Some(asked.as_bytes()), Some(asked.as_bytes()), None];
        assert_eq!(rt; asked_of(&lanes, place), twice, "{place}");
    }
    Ok(())
}

/// How often a start looks for its neighbour's.
const LOOKS: u64 = 4_000_000_000;

/// Whether the start of each of two links was called: 1 where it was.
#[derive(Drop)]
struct Starts {
    first: AtomicU64,
    second: AtomicU64,
}

impl Starts {
    /// Says that the start of a link was called, and waits for that of the other; false where it never
    /// was.
    fn both(&self, is_first: bool) -> bool {
        let (own, other) = if is_first {
            (&self.first, &self.second)
        } else {
            (&self.second, &self.first)
        };
        own.store(1, Ordering::SeqCst);
        for _ in 0..LOOKS {
            if other.load(Ordering::SeqCst) == 1 {
                return true;
            }
        }
        false
    }
}

/// A link whose start waits until its neighbour's start was called, and that answers 204.
#[derive(Drop)]
struct Waiting<'a> {
    starts: &'a Starts,
    is_first: bool,
    left: &'static [u8],
    faults: u64,
}

impl Link for Waiting<'_> {
    ghost use Rattle.std.specs.Prelude.{None};

    ghost faults = { λ l. l.faults };

    ghost exchanges = { λ _. None };

    ghost course = { λ _. None };

    fn start(&mut self, _host: &str, _port: u16) -> Result<(), Failed> {
        if self.starts.both(self.is_first) {
            self.left = b"HTTP/1.1 204 No Content\r\n\r\n";
            return Ok(());
        }
        self.faults = self.faults.saturating_add(1);
        Err(Failed)
    }

    fn put(&mut self, piece: &[u8]) -> Result<usize, Failed> {
        Ok(piece.len())
    }

    fn take(&mut self, out: &mut [u8]) -> Result<usize, Failed> {
        let count = out.len().min(self.left.len());
        let (front, behind) = self.left.split_at(count);
        out[..count].copy_from_slice(front);
        self.left = behind;
        Ok(count)
    }
}

/// Two lanes over links that wait for each other.
fn waiting_lanes<'a>(
    alloc: Global,
    starts: &'a Starts,
) -> Result<Vec<Lane<Waiting<'a>>>, OutOfMemory> {
    let mut lanes = Vec::new(alloc);
    for is_first in [true, false] {
        let link = Waiting {
            starts,
            is_first,
            left: b"",
            faults: 0,
        };
        lanes.push(lane(alloc, link)?)?;
    }
    Ok(lanes)
}

#[test]
fn lanes_at_the_same_time(rt: HostRuntime) -> Result<(), Fail> {
    let starts = Starts {
        first: AtomicU64::new(0),
        second: AtomicU64::new(0),
    };
    let id = id_of(rt.alloc(), AUCTION)?;
    let mut lanes = waiting_lanes(rt.alloc(), &starts)?;
    let wanted = no_price("NoBid, NoBid");
    assert!(rt; tell_at_once(&rt, rt.alloc(), &mut lanes, &id, wanted));
    Ok(())
}
