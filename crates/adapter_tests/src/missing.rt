//! Names that aren't found.
ghost use Rattle.std.specs.Prelude.{◌≤◌, length, IfOk};

use bounded_network::{FIRST_MISSING, LONGEST_MISSING, Names};
use std::io;
use std::io::ErrorKind;
use std::net::{Ipv4Addr, Net, SocketAddr, TcpListener, TcpStream};
use std::sync::atomic::{AtomicU32, AtomicU64, Ordering};
use std::time::{Clock, Duration};

const NAME: &str = "n.example";

/// A network without a name, at a moment. It counts how often it is asked for one.
#[derive(Drop)]
struct Nameless {
    now: AtomicU64,
    asked: AtomicU32,
}

impl Nameless {
    /// It wasn't asked yet.
    fn new() -> Nameless {
        Nameless {
            now: AtomicU64::new(0),
            asked: AtomicU32::new(0),
        }
    }

    /// So many milliseconds later.
    fn later(&self, millis: u64) {
        self.now.fetch_add(millis, Ordering::SeqCst);
    }

    /// How often it was asked.
    fn asked(&self) -> u32 {
        self.asked.load(Ordering::SeqCst)
    }
}

impl Clock for Nameless {
    fn monotonic(&self) -> io::Result<Duration> {
        Ok(Duration::from_millis(self.now.load(Ordering::SeqCst)))
    }

    fn since_1970(&self) -> io::Result<Duration> {
        Err(io::Error::from(ErrorKind::Unsupported))
    }
}

impl Net for Nameless {
    type Stream = TcpStream;

    type Listener = TcpListener;

    fn bind(&self, _addr: SocketAddr) -> io::Result<TcpListener> {
        Err(io::Error::from(ErrorKind::Unsupported))
    }

    fn connect(&self, _addr: SocketAddr) -> io::Result<TcpStream> {
        Err(io::Error::from(ErrorKind::Unsupported))
    }

    fn lookup_host(&self, _host: &str, _port: u16, _found: &mut [SocketAddr]) -> io::Result<usize> {
        self.asked.fetch_add(1, Ordering::SeqCst);
        Err(io::Error::from(ErrorKind::NotFound))
    }
}

/// A network in which others ask for a name, over a network of theirs, while it is looked up.
#[derive(Drop)]
struct Crowded<'a> {
    names: &'a Names,
    nameless: Nameless,
}

impl<'a> Clock for Crowded<'a> {
    fn monotonic(&self) -> io::Result<Duration> {
        self.nameless.monotonic()
    }

    fn since_1970(&self) -> io::Result<Duration> {
        self.nameless.since_1970()
    }
}

impl<'a> Net for Crowded<'a> {
    type Stream = TcpStream;

    type Listener = TcpListener;

    fn bind(&self, addr: SocketAddr) -> io::Result<TcpListener> {
        self.nameless.bind(addr)
    }

    fn connect(&self, addr: SocketAddr) -> io::Result<TcpStream> {
        self.nameless.connect(addr)
    }

    fn lookup_host(&self, host: &str, port: u16, found: &mut [SocketAddr]) -> io::Result<usize> {
        self.names.look_up(&self.nameless, host, port, found)
    }
}

/// Whether a name is found.
fn is_found<R: Net + Clock>(names: &Names, rt: &R) -> bool {
    let mut found = [SocketAddr::from((Ipv4Addr::UNSPECIFIED, 0)); 2];
    names.look_up(rt, NAME, 80, &mut found).is_ok()
}

/// How often a network was asked once a name was looked up now, just before a time is over, and when it is over.
fn asked_until(names: &Names, net: &Nameless, rest: u64) -> [u32; 3] {
    let _ = is_found(names, net);
    let first = net.asked();
    net.later(rest.saturating_sub(1));
    let _ = is_found(names, net);
    let second = net.asked();
    net.later(1);
    let _ = is_found(names, net);
    [first, second, net.asked()]
}

#[test]
fn a_name_that_is_not_found_rests_for_one_to_ten_minutes(rt: HostRuntime) {
    let names = Names::new(rt.alloc());
    let net = Nameless::new();
    let mut rest = FIRST_MISSING;
    for turn in 1..10u32 {
        let asked = asked_until(&names, &net, rest);
        assert_eq!(rt; asked, [turn, turn, turn + 1], "{rest}");
        rest = rest.saturating_mul(2).min(LONGEST_MISSING);
    }
    assert_eq!(rt; rest, 600_000);
}

#[test]
fn others_do_not_wait_for_a_name_that_was_not_found(rt: HostRuntime) {
    let names = Names::new(rt.alloc());
    let net = Crowded {
        names: &names,
        nameless: Nameless::new(),
    };
    // A name that nobody looked up yet is looked up by each.
    assert!(rt; !is_found(&names, &net));
    assert_eq!(rt; net.nameless.asked(), 1);
    net.nameless.later(FIRST_MISSING);
    assert!(rt; !is_found(&names, &net));
    assert_eq!(rt; net.nameless.asked(), 1);
}
