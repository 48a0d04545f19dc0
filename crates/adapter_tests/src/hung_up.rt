//! What links have connected, where no descriptor is left.

use adx_io::Failed;
use adx_links::{Link, TcpLink};
use bounded_network::{BoundedCalls, IN_ALL, Names, OpenCalls, Reach};
use std::io;
use std::io::{ErrorKind, Read, Write};
use std::net::{Net, OpenListener, SocketAddr, TcpListener, TcpStream};
use std::sync::atomic::{AtomicU32, AtomicU64, Ordering};
use std::time::{Clock, Duration};

/// The system's number of the error that no descriptor is left (EMFILE).
const NONE_LEFT: i32 = 24;

/// A network at a moment, which has no descriptor left for so many tries of a connection.
#[derive(Drop)]
struct Scarce<'a> {
    rt: &'a HostRuntime,
    now: AtomicU64,
    refuses: AtomicU32,
}

impl<'a> Scarce<'a> {
    /// It has descriptors.
    fn new(rt: &'a HostRuntime) -> Scarce<'a> {
        Scarce {
            rt,
            now: AtomicU64::new(0),
            refuses: AtomicU32::new(0),
        }
    }

    /// So many milliseconds later.
    fn later(&self, millis: u64) {
        self.now.fetch_add(millis, Ordering::SeqCst);
    }

    /// The moment.
    fn now(&self) -> u64 {
        self.now.load(Ordering::SeqCst)
    }
}

impl<'a> Clock for Scarce<'a> {
    fn monotonic(&self) -> io::Result<Duration> {
        Ok(Duration::from_millis(self.now()))
    }

    fn since_1970(&self) -> io::Result<Duration> {
        Err(io::Error::from(ErrorKind::Unsupported))
    }
}

impl<'a> Net for Scarce<'a> {
    type Stream = TcpStream;

    type Listener = TcpListener;

    fn bind(&self, addr: SocketAddr) -> io::Result<TcpListener> {
        self.rt.bind(addr)
    }

    fn connect(&self, addr: SocketAddr) -> io::Result<TcpStream> {
        self.rt.connect(addr)
    }

    fn connect_timeout(&self, addr: SocketAddr, timeout: Duration) -> io::Result<TcpStream> {
        let refuses = self.refuses.load(Ordering::SeqCst);
        if refuses > 0 {
            self.refuses.store(refuses - 1, Ordering::SeqCst);
            return Err(io::Error::from_raw_os_error(NONE_LEFT));
        }
        self.rt.connect_timeout(addr, timeout)
    }
}

/// A link over a network whose calls end in time.
type Calls<'a> = TcpLink<BoundedCalls<'a, Scarce<'a>>>;

/// What the links of a test share.
#[derive(Drop)]
struct Shared<'a> {
    net: Scarce<'a>,
    names: Names,
    open: OpenCalls<TcpStream>,
    listener: TcpListener,
}

/// Room for so many links, and a host that they call.
fn host_for(rt: &HostRuntime, links: usize) -> Option<Shared<'_>> {
    Some(Shared {
        net: Scarce::new(rt),
        names: Names::new(rt.alloc()),
        open: OpenCalls::new(rt.alloc(), links).ok()?,
        listener: TcpListener::bind(rt, "127.0.0.1:0").ok()?,
    })
}

impl<'a> Shared<'a> {
    /// A link that called no host.
    fn link(&'a self) -> Calls<'a> {
        TcpLink::new(BoundedCalls::new(&self.net, &self.names, Reach::everywhere(), &self.open))
    }

    /// Starts a link.
    fn start(&self, link: &mut Calls<'a>) -> Result<(), Failed> {
        match self.listener.local_addr() {
            Ok(address) => link.start("127.0.0.1", address.port()),
            Err(_) => Err(Failed),
        }
    }

    /// Starts a link, and gives what its host has then.
    fn called(&self, link: &mut Calls<'a>) -> Option<TcpStream> {
        self.start(link).ok()?;
        let (peer, _) = self.listener.accept().ok()?;
        Some(peer)
    }

    /// How many connections are hung up now.
    fn hung_up(&self) -> usize {
        self.open.hang_up(self.net.now())
    }
}

/// Takes what is answered next, and says how many bytes that is.
fn taken(link: &mut Calls<'_>) -> Option<usize> {
    let mut out = [0; 16];
    link.take(&mut out).ok()
}

/// How many connections are hung up of two, one whose host ends it after two bytes, and one whose host is silent: before and after
/// those bytes are read, and once the time of calls is over; and what is taken of the first after it was hung up, and of the
/// second before.
fn of_two(shared: &Shared<'_>) -> Option<([usize; 3], [usize; 2])> {
    let (mut first, mut second) = (shared.link(), shared.link());
    let mut short = shared.called(&mut first)?;
    let mut silent = shared.called(&mut second)?;
    let _ = short.write(b"ab").ok()?;
    drop(short);
    let unread = shared.hung_up();
    let _ = taken(&mut first)?;
    let read = shared.hung_up();
    let more = taken(&mut first)?;
    let _ = silent.write(b"c").ok()?;
    let goes_on = taken(&mut second)?;
    shared.net.later(IN_ALL);
    Some(([unread, read, shared.hung_up()], [more, goes_on]))
}

#[test]
fn calls_that_are_over_are_hung_up_and_no_others(rt: HostRuntime) {
    let Some(shared) = host_for(&rt, 2) else {
        assert!(rt; false, "no port");
        return;
    };
    assert_eq!(rt; of_two(&shared), Some(([0, 1, 1], [0, 1])));
}

/// Whether a link is started where one try finds no descriptor left, how many connections are left to be hung up then, and whether
/// it is started where two tries find none.
fn without_descriptors(shared: &Shared<'_>) -> Option<(bool, usize, bool)> {
    let (mut over, mut link) = (shared.link(), shared.link());
    drop(shared.called(&mut over)?);
    shared.net.refuses.store(1, Ordering::SeqCst);
    let started = shared.start(&mut link).is_ok();
    let left = shared.hung_up();
    shared.net.refuses.store(2, Ordering::SeqCst);
    Some((started, left, shared.start(&mut link).is_ok()))
}

#[test]
fn a_start_without_a_descriptor_hangs_up_and_is_tried_again(rt: HostRuntime) {
    let Some(shared) = host_for(&rt, 2) else {
        assert!(rt; false, "no port");
        return;
    };
    assert_eq!(rt; without_descriptors(&shared), Some((true, 0, false)));
}

/// Whether a host sees the end of a call once its link is started again, and whether a link is started for which there is no room.
fn started_again(shared: &Shared<'_>) -> Option<(bool, bool)> {
    let (mut link, mut further) = (shared.link(), shared.link());
    let mut before = shared.called(&mut link)?;
    let _now = shared.called(&mut link)?;
    let ended = before.read(&mut [0; 1]).ok()? == 0;
    Some((ended, shared.start(&mut further).is_ok()))
}

#[test]
fn a_link_has_one_connection(rt: HostRuntime) {
    let Some(shared) = host_for(&rt, 1) else {
        assert!(rt; false, "no port");
        return;
    };
    assert_eq!(rt; started_again(&shared), Some((true, false)));
}
