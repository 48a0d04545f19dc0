//! The network of a link, whose calls end in time.
ghost use Rattle.std.specs.Prelude.{◌≡◌, ◌≤◌, length, IfOk, IsOk};
ghost use Rattle.bounded_network.specs.Reach.{Has};

use crate::names::Names;
use crate::open_calls::{OpenCalls, Place, is_full};
use crate::reach::Reach;
use crate::times::millis;
use std::io;
use std::io::{ErrorKind, Read, Write};
use std::net::{Net, OpenListener, OpenStream, Shutdown, SocketAddr};
use std::os::fd::{AsRawFd, RawFd};
use std::time::{Clock, Duration};

/// How long a call of a host takes at most from its connecting on, in milliseconds, whatever bytes come.
pub const IN_ALL: u64 = 2_000;

/// How long one wait of a call takes at most, in milliseconds: a call that has more left sets no limit of its own.
const ONE_WAIT: u64 = 1_000;

/// How often a call that a signal ended is made again at most.
const MOST_TRIES: u32 = 64;

/// A network for a link: names are looked up once, addresses that it may not call are refused, and what is connected ends in time.
/// It has one connection at a time: one that is made takes the place of the last one. Where no descriptor is left for it, the
/// connections are hung up of all calls of the run that are over, and it is tried once more.
#[derive(Drop)]
pub struct BoundedCalls<'a, R: Net> {
    rt: &'a R,
    names: &'a Names,
    reach: Reach,
    open: &'a OpenCalls<R::Stream>,
    place: Option<&'a Place<R::Stream>>,
}

impl<'a, R: Net + Clock> BoundedCalls<'a, R> {
    /// The network of `rt`, with the names that were looked up, the addresses that may be called, and the connections of the links
    /// of the run, of which it is one. Beyond as many links as there is room for it connects to nobody.
    pub fn new(
        rt: &'a R,
        names: &'a Names,
        reach: Reach,
        open: &'a OpenCalls<R::Stream>,
    ) -> BoundedCalls<'a, R> {
        BoundedCalls {
            rt,
            names,
            reach,
            open,
            place: open.give(),
        }
    }

    /// A connection to an address. Where no descriptor is left, it is tried again once those of calls that are over were hung up.
    fn connected(&self, addr: SocketAddr, timeout: Duration) -> io::Result<R::Stream> {
        match self.rt.connect_timeout(addr, timeout) {
            Err(error) if is_full(&error) => {
                self.open.hang_up(millis(self.rt));
                self.rt.connect_timeout(addr, timeout)
            }
            done => done,
        }
    }
}

/// A connection that ends at a moment.
pub struct CallStream<'a, R: Net> {
    place: &'a Place<R::Stream>,
    /// Which one of its link's it is.
    number: u64,
    rt: &'a R,
    until: u64,
}

impl<'a, R: Net> Drop for CallStream<'a, R> {
    fn drop(self) {
        self.place.end(self.number);
        let CallStream {
            place: _,
            number: _,
            rt: _,
            until: _,
        } = self;
    }
}

/// No listener: a link takes no connections.
#[derive(Drop)]
pub struct CallListener<'a, R: Net> {
    rt: &'a R,
    open: &'a OpenCalls<R::Stream>,
}

impl<'a, R: Net + Clock> CallStream<'a, R> {
    /// What is left of its time, where that is less than one wait; an error where nothing is.
    fn left(&self) -> io::Result<Option<Duration>> {
        let now = millis(self.rt);
        if now >= self.until {
            return Err(io::Error::from(ErrorKind::TimedOut));
        }
        let left = self.until - now;
        if left >= ONE_WAIT {
            return Ok(None);
        }
        Ok(Some(Duration::from_millis(left)))
    }
}

impl<'a, R: Net + Clock> Read for CallStream<'a, R> {
    // A call that a signal ends is made again, as long as its time isn't over.
    fn read(&mut self, buf: &mut [u8]) -> io::Result<usize> {
        for _try in 0..MOST_TRIES {
            let left = self.left()?;
            match self.place.call(self.number)?.read(buf, left) {
                Err(error) if error.kind() == ErrorKind::Interrupted => {}
                done => return done,
            }
        }
        Err(io::Error::from(ErrorKind::TimedOut))
    }
}

impl<'a, R: Net + Clock> Write for CallStream<'a, R> {
    fn write(&mut self, buf: &[u8]) -> io::Result<usize> {
        for _try in 0..MOST_TRIES {
            let left = self.left()?;
            match self.place.call(self.number)?.write(buf, left) {
                Err(error) if error.kind() == ErrorKind::Interrupted => {}
                done => return done,
            }
        }
        Err(io::Error::from(ErrorKind::TimedOut))
    }

    fn flush(&mut self) -> io::Result<()> {
        Ok(())
    }
}

impl<'a, R: Net> OpenStream for CallStream<'a, R> {
    fn peer_addr(&self) -> io::Result<SocketAddr> {
        self.place.call(self.number)?.stream()?.peer_addr()
    }

    fn local_addr(&self) -> io::Result<SocketAddr> {
        self.place.call(self.number)?.stream()?.local_addr()
    }

    fn shutdown(&self, how: Shutdown) -> io::Result<()> {
        self.place.call(self.number)?.stream()?.shutdown(how)
    }

    fn set_nodelay(&self, nodelay: bool) -> io::Result<()> {
        self.place.call(self.number)?.stream()?.set_nodelay(nodelay)
    }

    // No wait is longer than one wait is: the moment of its end is looked at before each.
    fn set_read_timeout(&self, _dur: Option<Duration>) -> io::Result<()> {
        Ok(())
    }

    fn set_write_timeout(&self, _dur: Option<Duration>) -> io::Result<()> {
        Ok(())
    }
}

impl<'a, R: Net> AsRawFd for CallStream<'a, R> {
    fn as_raw_fd(&self) -> RawFd {
        match self.place.call(self.number) {
            Ok(call) => match call.stream() {
                Ok(stream) => stream.as_raw_fd(),
                Err(_) => -1,
            },
            Err(_) => -1,
        }
    }
}

impl<'a, R: Net + Clock> OpenListener for CallListener<'a, R> {
    type Stream = CallStream<'a, R>;

    fn accept(&self) -> io::Result<(CallStream<'a, R>, SocketAddr)> {
        Err(io::Error::from(ErrorKind::Unsupported))
    }
}

impl<'a, R: Net> AsRawFd for CallListener<'a, R> {
    fn as_raw_fd(&self) -> RawFd {
        -1
    }
}

impl<'a, R: Net + Clock> Net for BoundedCalls<'a, R> {
    type Stream = CallStream<'a, R>;

    type Listener = CallListener<'a, R>;

    fn bind(&self, _addr: SocketAddr) -> io::Result<CallListener<'a, R>> {
        Err(io::Error::from(ErrorKind::Unsupported))
    }

    fn connect(&self, addr: SocketAddr) -> io::Result<CallStream<'a, R>>
        ensures within { IsOk result → Has self.now.reach addr }
    {
        self.connect_timeout(addr, Duration::from_millis(IN_ALL))
    }

    fn connect_timeout(&self, addr: SocketAddr, timeout: Duration) -> io::Result<CallStream<'a, R>>
        ensures within { IsOk result → Has self.now.reach addr }
    {
        if !self.reach.has(&addr) {
            return Err(io::Error::from(ErrorKind::PermissionDenied));
        }
        let Some(place) = self.place else {
            return Err(io::Error::from(ErrorKind::AddrNotAvailable));
        };
        let until = millis(self.rt).saturating_add(IN_ALL);
        let stream = self.connected(addr, timeout)?;
        // A call whose last bytes wait for others to be acknowledged is made all the same.
        let _ = stream.set_nodelay(true);
        let wait = Duration::from_millis(ONE_WAIT);
        stream.set_read_timeout(Some(wait))?;
        stream.set_write_timeout(Some(wait))?;
        Ok(CallStream {
            place,
            number: place.begin(stream, until)?,
            rt: self.rt,
            until,
        })
    }

    fn lookup_host(&self, host: &str, port: u16, found: &mut [SocketAddr]) -> io::Result<usize> {
        self.names.look_up(self.rt, host, port, found)
    }
}
