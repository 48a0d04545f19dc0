//! A connection that was taken, whose calls end in time.
ghost use Rattle.std.specs.Io.{ReadsAtMost, WritesAtMost};

use crate::listening::Listening;
use crate::locked::locked;
use crate::times::millis;
use std::alloc::Global;
use std::fs::Files;
use std::io;
use std::io::{ErrorKind, Read, Write};
use std::net::{OpenStream, Shutdown, SocketAddr, TcpStream};
use std::os::fd::{AsRawFd, RawFd};
use std::sync::atomic::{AtomicBool, AtomicU64, Ordering};
use std::sync::{Arc, Mutex, MutexGuard};
use std::time::{Clock, Duration};

/// How long a connection may be idle between messages, or its peer between two bytes of one, in milliseconds.
pub const LONGEST_IDLE: u64 = 30_000;

/// How long a message takes at most once its first bytes came, and how long the replies to what was read, in milliseconds.
pub const LONGEST_MESSAGE: u64 = 120_000;

/// How long a peer may take no byte of a reply, in milliseconds.
pub const LONGEST_WRITE: u64 = 30_000;

/// How long a message may take at most where no more connections are taken, in milliseconds.
const LAST_MESSAGE: u64 = 5_000;

/// For how long further messages of a connection are read once no more connections are taken, in milliseconds.
const LAST_READ: u64 = 1_000;

/// After how many slices in a row in which no worker was free an idle connection gives way: slices and not a time, so that a
/// machine that stops for a moment doesn't end connections.
const CROWDED: u32 = 10;

/// The most slices of one read: more than `LONGEST_MESSAGE` has.
const MOST_SLICES: u32 = 4_096;

/// What the handles of one connection share.
#[derive(Drop)]
pub(crate) struct Socket {
    /// The socket, until it was shut down and read out: its descriptor is given up then, before the connection is given back.
    /// One thread uses it at a time.
    stream: Mutex<Option<TcpStream>>,
    /// It was shut down.
    shut: AtomicBool,
    /// Nothing came since the last reply.
    idle: AtomicBool,
    /// Nothing more comes: its peer ended it, or it failed.
    ended: AtomicBool,
    /// Since when the message comes that comes, where the connection isn't idle.
    since: AtomicU64,
    /// Since when replies to what was read last are written; 0 where none was yet.
    replying: AtomicU64,
}

impl Socket {
    /// A connection that was just taken.
    pub(crate) fn new(stream: TcpStream) -> Socket {
        Socket {
            stream: Mutex::new(Some(stream)),
            shut: AtomicBool::new(false),
            idle: AtomicBool::new(true),
            ended: AtomicBool::new(false),
            since: AtomicU64::new(0),
            replying: AtomicU64::new(0),
        }
    }
}

/// A handle of a connection. Its handles share one descriptor.
#[derive(Drop)]
pub struct Connection<'a, R> {
    socket: Arc<Socket, Global>,
    rt: R,
    listening: &'a Listening,
}

/// The error of a socket that was given up.
fn gone() -> io::Error {
    io::Error::from(ErrorKind::NotConnected)
}

/// The error of what takes too long.
fn late() -> io::Error {
    io::Error::from(ErrorKind::TimedOut)
}

/// Whether an error of a read is that nothing came in its slice, or that a signal ended the slice (signal(7) of Linux: a read with a
/// limit of time isn't begun again by the system once a stopped process goes on).
fn passes(kind: ErrorKind) -> bool {
    matches!(kind, ErrorKind::WouldBlock | ErrorKind::Interrupted)
}

/// What a slice of waiting leads to.
enum Waits {
    /// The read goes on.
    On,
    /// The connection ends, as if its peer had ended it.
    Ends,
    /// The read fails.
    Fails,
}

impl<'a, R> Connection<'a, R> {
    /// A handle.
    pub(crate) fn new(
        socket: Arc<Socket, Global>,
        rt: R,
        listening: &'a Listening,
    ) -> Connection<'a, R> {
        Connection {
            socket,
            rt,
            listening,
        }
    }

    /// The socket.
    fn stream(&self) -> io::Result<MutexGuard<'_, Option<TcpStream>>> {
        match locked(&self.socket.stream) {
            Some(stream) => Ok(stream),
            None => Err(gone()),
        }
    }

    /// Nothing more comes. Gives up the descriptor, where the connection was shut down.
    fn end(&self) {
        self.socket.ended.store(true, Ordering::SeqCst);
        if self.socket.shut.load(Ordering::SeqCst) {
            if let Some(mut stream) = locked(&self.socket.stream) {
                *stream = None;
            }
        }
    }

    /// Reads what has come within a slice.
    fn read_now(&self, buf: &mut [u8]) -> io::Result<usize>
        ensures { ReadsAtMost result buf.new }
    {
        let stream = self.stream()?;
        match &*stream {
            Some(stream) => (&*stream).read(buf),
            None => Err(gone()),
        }
    }
}

impl<'a, R> Connection<'a, R> {
    /// Writes what is taken.
    fn write_now(&self, buf: &[u8]) -> io::Result<usize>
        ensures { WritesAtMost result buf.now }
    {
        let stream = self.stream()?;
        match &*stream {
            Some(stream) => (&*stream).write(buf),
            None => Err(gone()),
        }
    }
}

impl<'a, R: Clock + Files> Connection<'a, R> {
    /// What comes of a slice in which an idle connection's peer sent nothing, the last of `crowded` in a row in which no worker
    /// was free.
    fn idles(&self, waited: u64, crowded: u32) -> Waits {
        if self.listening.is_closing() || crowded >= CROWDED || waited >= LONGEST_IDLE {
            Waits::Ends
        } else {
            Waits::On
        }
    }

    /// What comes of a message that began `since` milliseconds ago, and of which nothing came for `waited`.
    fn comes(&self, waited: u64, since: u64) -> Waits {
        if since >= LONGEST_MESSAGE
            || waited >= LONGEST_IDLE
            || (self.listening.is_closing() && since >= LAST_MESSAGE)
        {
            Waits::Fails
        } else {
            Waits::On
        }
    }

    /// Bytes came, the first since the last reply where `idle` says so.
    fn took(&self, idle: bool) {
        if idle {
            self.socket.since.store(millis(&self.rt), Ordering::SeqCst);
            self.socket.idle.store(false, Ordering::SeqCst);
        }
        self.socket.replying.store(0, Ordering::SeqCst);
    }

    /// Whether nothing is read any more from a connection that is idle, or whose message began at that moment.
    fn is_over(&self, idle: bool, since: u64, now: u64) -> bool {
        if idle {
            self.listening.is_closed_for(now) >= LAST_READ
        } else {
            now.saturating_sub(since) >= LONGEST_MESSAGE
        }
    }
}

impl<'a, R: Clock + Files> Read for Connection<'a, R> {
    fn read(&mut self, buf: &mut [u8]) -> io::Result<usize> {
        let start = millis(&self.rt);
        self.listening.look(&self.rt, start);
        let idle = self.socket.idle.load(Ordering::SeqCst);
        let since = self.socket.since.load(Ordering::SeqCst);
        if !self.socket.shut.load(Ordering::SeqCst) && self.is_over(idle, since, start) {
            self.end();
            return if idle { Ok(0) } else { Err(late()) };
        }
        let mut crowded: u32 = 0;
        for _slice in 0..MOST_SLICES {
            match self.read_now(buf) {
                Ok(count) => {
                    if count == 0 {
                        self.end();
                    } else {
                        self.took(idle);
                    }
                    return Ok(count);
                }
                Err(error) if passes(error.kind()) => {}
                Err(error) => {
                    self.end();
                    return Err(error);
                }
            }
            let now = millis(&self.rt);
            self.listening.look(&self.rt, now);
            crowded = if self.listening.is_open() {
                0
            } else {
                crowded.saturating_add(1)
            };
            let waited = now.saturating_sub(start);
            let waits = if idle {
                self.idles(waited, crowded)
            } else {
                self.comes(waited, now.saturating_sub(since))
            };
            match waits {
                Waits::On => {}
                Waits::Ends => {
                    self.end();
                    return Ok(0);
                }
                Waits::Fails => break,
            }
        }
        self.end();
        Err(late())
    }
}

impl<'a, R: Clock> Write for Connection<'a, R> {
    fn write(&mut self, buf: &[u8]) -> io::Result<usize> {
        let now = millis(&self.rt);
        let since = self.socket.replying.load(Ordering::SeqCst);
        if since == 0 {
            self.socket.idle.store(true, Ordering::SeqCst);
            self.socket.replying.store(now, Ordering::SeqCst);
        } else if now.saturating_sub(since) >= LONGEST_MESSAGE {
            return Err(late());
        }
        for _try in 0..MOST_SLICES {
            match self.write_now(buf) {
                Err(error) if error.kind() == ErrorKind::Interrupted => {}
                done => return done,
            }
        }
        Err(late())
    }

    fn flush(&mut self) -> io::Result<()> {
        Ok(())
    }
}

impl<'a, R: Copy> OpenStream for Connection<'a, R> {
    fn peer_addr(&self) -> io::Result<SocketAddr> {
        match &*self.stream()? {
            Some(stream) => stream.peer_addr(),
            None => Err(gone()),
        }
    }

    fn local_addr(&self) -> io::Result<SocketAddr> {
        match &*self.stream()? {
            Some(stream) => stream.local_addr(),
            None => Err(gone()),
        }
    }

    fn shutdown(&self, how: Shutdown) -> io::Result<()> {
        if !self.socket.idle.load(Ordering::SeqCst) && !self.socket.ended.load(Ordering::SeqCst) {
            self.listening.hang_up();
        }
        self.socket.shut.store(true, Ordering::SeqCst);
        let done = match &*self.stream()? {
            Some(stream) => stream.shutdown(how),
            None => Err(gone()),
        };
        if done.is_err() {
            self.end();
        }
        done
    }

    fn set_nodelay(&self, nodelay: bool) -> io::Result<()> {
        match &*self.stream()? {
            Some(stream) => stream.set_nodelay(nodelay),
            None => Err(gone()),
        }
    }

    fn set_read_timeout(&self, dur: Option<Duration>) -> io::Result<()> {
        match &*self.stream()? {
            Some(stream) => stream.set_read_timeout(dur),
            None => Err(gone()),
        }
    }

    fn set_write_timeout(&self, dur: Option<Duration>) -> io::Result<()> {
        match &*self.stream()? {
            Some(stream) => stream.set_write_timeout(dur),
            None => Err(gone()),
        }
    }

    fn try_clone(&self) -> io::Result<Connection<'a, R>> {
        Ok(Connection {
            socket: self.socket.clone()?,
            rt: self.rt,
            listening: self.listening,
        })
    }
}

impl<'a, R> AsRawFd for Connection<'a, R> {
    fn as_raw_fd(&self) -> RawFd {
        match locked(&self.socket.stream) {
            Some(stream) => match &*stream {
                Some(stream) => stream.as_raw_fd(),
                None => -1,
            },
            None => -1,
        }
    }
}
