//! A link in memory by its plan, and one over sockets with a peer on this machine.
use adx_links::{Link, MemoryLink, NO_CONTENT, Planned, TcpLink};
use adx_units::{OutOfMemory, Text};
use std::alloc::Global;
use std::io;
use std::io::{Read, Write};
use std::net::{Ipv4Addr, Net, OpenListener, SocketAddr, TcpListener};

/// What is planned for a start, how it then ends, and the bytes answered and asked in it.
struct Row {
    bytes: &'static str,
    start_fails: bool,
    put_fails: bool,
    take_fails: Option<u64>,
    ends: &'static str,
    answered: &'static [u8],
    asked: &'static [u8],
}

const TABLE: [Row; 7] = [
    Row {
        bytes: "HTTP/1.1",
        start_fails: false,
        put_fails: false,
        take_fails: None,
        ends: "end",
        answered: b"HTTP/1.1",
        asked: b"asked",
    },
    Row {
        bytes: "abc",
        start_fails: true,
        put_fails: false,
        take_fails: None,
        ends: "start",
        answered: b"",
        asked: b"",
    },
    Row {
        bytes: "abc",
        start_fails: false,
        put_fails: true,
        take_fails: None,
        ends: "put",
        answered: b"",
        asked: b"",
    },
    Row {
        bytes: "abcdef",
        start_fails: false,
        put_fails: false,
        take_fails: Some(0),
        ends: "take",
        answered: b"",
        asked: b"asked",
    },
    Row {
        bytes: "abcdef",
        start_fails: false,
        put_fails: false,
        take_fails: Some(1),
        ends: "take",
        answered: b"abcd",
        asked: b"asked",
    },
    Row {
        bytes: "abcdef",
        start_fails: false,
        put_fails: false,
        take_fails: Some(2),
        ends: "take",
        answered: b"abcdef",
        asked: b"asked",
    },
    Row {
        bytes: "abcdef",
        start_fails: false,
        put_fails: false,
        take_fails: Some(3),
        ends: "end",
        answered: b"abcdef",
        asked: b"asked",
    },
];

/// Starts a link, asks in two pieces and takes to the end of the answer; says which call failed.
fn exchange<L: Link>(link: &mut L, answered: &mut Vec<u8>) -> Result<&'static str, OutOfMemory> {
    answered.clear();
    if link.start("bidder.example", 8080).is_err() {
        return Ok("start");
    }
    if link.put(b"ask").is_err() {
        return Ok("put");
    }
    if link.put(b"ed").is_err() {
        return Ok("second put");
    }
    let mut chunk = [0; 4];
    for _ in 0..16 {
        match link.take(&mut chunk) {
            Ok(0) => return Ok("end"),
            Ok(count) => answered.extend_from_slice(&chunk[..count])?,
            Err(_) => return Ok("take"),
        }
    }
    Ok("no end")
}

/// Whether an exchange over a link ends so, behind these bytes.
fn is_exchanged<L: Link>(
    alloc: Global,
    link: &mut L,
    ends: &str,
    bytes: &[u8],
) -> Result<bool, OutOfMemory> {
    let mut answered = Vec::new(alloc);
    let end = exchange(link, &mut answered)?;
    Ok(end == ends && answered.as_slice() == bytes)
}

/// What is planned for a start.
fn planned(alloc: Global, row: &Row) -> Result<Planned, OutOfMemory> {
    Ok(Planned {
        bytes: Text::of(alloc, row.bytes)?,
        start_fails: row.start_fails,
        put_fails: row.put_fails,
        take_fails: row.take_fails,
    })
}

/// A link that does what the table plans.
fn planned_link(alloc: Global) -> Result<MemoryLink, OutOfMemory> {
    let mut plan = Vec::new(alloc);
    for row in &TABLE {
        plan.push(planned(alloc, row)?)?;
    }
    MemoryLink::new(alloc, &plan)
}

#[test]
fn plan(rt: HostRuntime) -> Result<(), OutOfMemory> {
    let alloc = rt.alloc();
    let mut link = planned_link(alloc)?;
    assert_eq!(rt; link.put(b"x").is_err(), true);
    for row in &TABLE {
        assert_eq!(rt;
            is_exchanged(alloc, &mut link, row.ends, row.answered),
            Ok(true)
        );
    }
    let more = is_exchanged(alloc, &mut &mut link, "end", NO_CONTENT.as_bytes());
    assert_eq!(rt; more, Ok(true));
    for (start, row) in TABLE.iter().enumerate() {
        assert_eq!(rt; link.asked(start as u32), Some(row.asked));
    }
    assert_eq!(rt; link.asked(7), Some(&b"asked"[..]));
    assert_eq!(rt; link.asked(8), None);
    Ok(())
}

/// What a link and its peer answer, one behind the other: the link asks, the peer hears and tells, and the link is told.
fn talk<L: Link, S: Read + Write>(link: &mut L, peer: &mut S) -> io::Result<[bool; 5]> {
    let mut bytes = [0; 8];
    Ok([
        link.put(b"ask") == Ok(3),
        peer.read(&mut bytes)? == 3,
        peer.write(b"told")? == 4,
        link.take(&mut bytes) == Ok(4),
        bytes[..4] == b"told"[..],
    ])
}

/// What the next start of a link that has a connection answers: it closes the connection, a peer that is then silent is a
/// fault, and one that closes is the end.
fn restart<R: Net>(
    link: &mut TcpLink<R>,
    peer: &mut R::Stream,
    listener: &R::Listener,
    port: u16,
) -> io::Result<[bool; 4]> {
    let mut bytes = [0; 8];
    let is_started = link.start("localhost", port).is_ok();
    let (other, _) = listener.accept()?;
    let is_closed = peer.read(&mut bytes)? == 0;
    let is_fault = link.take(&mut bytes).is_err();
    drop(other);
    Ok([
        is_started,
        is_closed,
        is_fault,
        link.take(&mut bytes) == Ok(0),
    ])
}

/// What the first start of a link answers, its talk and its next start.
fn start<R: Net>(
    link: &mut TcpLink<R>,
    listener: &R::Listener,
    port: u16,
) -> io::Result<(bool, [bool; 5], [bool; 4])> {
    let is_started = link.start("127.0.0.1", port).is_ok();
    let (mut peer, _) = listener.accept()?;
    let told = talk(link, &mut peer)?;
    Ok((is_started, told, restart(link, &mut peer, listener, port)?))
}

/// What a link answers that has no connection, where a host takes no call, to a start and a take.
fn ends<L: Link>(link: &mut L, port: u16) -> [bool; 2] {
    let mut bytes = [0; 8];
    [
        link.start("127.0.0.1", port).is_err(),
        link.take(&mut bytes).is_err(),
    ]
}

#[test]
fn sockets(rt: HostRuntime) -> io::Result<()> {
    let listener = TcpListener::bind(&rt, SocketAddr::from((Ipv4Addr::LOCALHOST, 0)))?;
    let port = listener.local_addr()?.port();
    let mut link = TcpLink::new(&rt);
    assert_eq!(rt; link.put(b"ask").is_err(), true);
    let started = start(&mut link, &listener, port)?;
    assert_eq!(rt; started, (true, [true; 5], [true; 4]));
    drop(listener);
    assert_eq!(rt; ends(&mut link, port), [true; 2]);
    Ok(())
}
