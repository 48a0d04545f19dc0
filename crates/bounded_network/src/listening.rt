//! Where connections are taken.

use crate::connection::{Connection, LONGEST_WRITE, Socket};
use crate::locked::locked;
use crate::open_calls::{OpenCalls, is_full};
use crate::times::millis;
use adx_units::Text;
use std::alloc::Global;
use std::fs::Files;
use std::io::ErrorKind;
use std::net::{Ipv4Addr, Net, OpenListener, OpenStream, SocketAddr, TcpListener, TcpStream};
use std::os::fd::{AsRawFd, OwnedFd, RawFd};
use std::sync::atomic::{AtomicBool, AtomicU32, AtomicU64, Ordering};
use std::sync::{Arc, Mutex};
use std::time::{Clock, Duration};
use std::{fs, io, thread};

/// How long a wait for a connection or for bytes goes on until it is looked around, in milliseconds.
pub const SLICE: u64 = 100;

/// How long it takes until the file is looked for again, in milliseconds.
const LOOK: u64 = 250;

/// How long is waited where the system has no room for a connection, in milliseconds.
const ROOM: u64 = 10;

/// The system's numbers of errors of an accept that pass: EPERM, ENOMEM, ENFILE, EMFILE, ENONET, EPROTO, ENOPROTOOPT, ENETDOWN,
/// ENETUNREACH, ECONNABORTED, ENOBUFS, EHOSTDOWN, EHOSTUNREACH (accept(2)).
const PASSING: [i32; 13] = [1, 12, 23, 24, 64, 71, 92, 100, 101, 103, 105, 112, 113];

/// What came of a wait for a connection.
#[derive(Clone, Copy, Debug)]
pub enum Waited {
    /// One came, and the next `accept` of the listener gives it.
    Came,
    /// No more are taken.
    Closing,
    /// The system had none for this cause, which passes.
    Passing(io::Error),
    /// The listener failed, as its next `accept` will: the worker that waits ends.
    Failed(io::Error),
}

/// What the connections of a listener share.
#[derive(Drop)]
pub struct Listening {
    alloc: Global,
    /// How many connections may be served at the same time.
    workers: u32,
    /// How many of the workers serve a connection, or have ended.
    busy: AtomicU32,
    /// A thread waits for a connection.
    open: AtomicBool,
    /// The system had no room for the connection that came last.
    full: AtomicBool,
    /// No more connections are taken.
    closing: AtomicBool,
    /// Since when that is so.
    closed: AtomicU64,
    /// When the file was looked for last.
    looked: AtomicU64,
    /// How many connections were shut down with a message that had no reply, though their peers hadn't ended them.
    unanswered: AtomicU64,
    /// The file whose name ends the taking of connections.
    stop: Option<Text>,
    /// The connection that came last and wasn't given yet.
    came: Mutex<Option<Arc<Socket, Global>>>,
}

/// The listener with waits that go on for a slice at most.
pub fn with_slices(listener: TcpListener) -> io::Result<TcpListener> {
    // The system's limit of a read is that of an accept, too (socket(7)).
    let stream = TcpStream::from(OwnedFd::from(listener));
    stream.set_read_timeout(Some(Duration::from_millis(SLICE)))?;
    Ok(TcpListener::from(OwnedFd::from(stream)))
}

/// Whether an error of an accept passes.
fn passes(error: &io::Error) -> bool {
    match error.raw_os_error() {
        Some(number) => PASSING.contains(&number),
        None => false,
    }
}

/// Sets the limits of a connection.
fn limit(stream: &TcpStream) -> io::Result<()> {
    stream.set_read_timeout(Some(Duration::from_millis(SLICE)))?;
    stream.set_write_timeout(Some(Duration::from_millis(LONGEST_WRITE)))
}

impl Listening {
    /// Connections are taken by so many workers until a file has this name, where one is given.
    pub fn new(alloc: Global, stop: Option<Text>, workers: u32) -> Listening {
        Listening {
            alloc,
            workers,
            busy: AtomicU32::new(0),
            open: AtomicBool::new(false),
            full: AtomicBool::new(false),
            closing: AtomicBool::new(false),
            closed: AtomicU64::new(0),
            looked: AtomicU64::new(0),
            unanswered: AtomicU64::new(0),
            stop,
            came: Mutex::new(None),
        }
    }

    /// Whether a worker waits for a connection, or is free to, and the system has room for one.
    pub fn is_open(&self) -> bool {
        let free = self.open.load(Ordering::SeqCst)
            || self.busy.load(Ordering::SeqCst) < self.workers;
        free && !self.full.load(Ordering::SeqCst)
    }

    /// A connection that came was left.
    pub fn leave(&self) {
        self.busy.fetch_sub(1, Ordering::SeqCst);
    }

    /// A connection is shut down whose last message has no reply.
    pub(crate) fn hang_up(&self) {
        self.unanswered.fetch_add(1, Ordering::SeqCst);
    }

    /// How many connections were shut down with a message that had no reply, though their peers hadn't ended them.
    pub fn unanswered(&self) -> u64 {
        self.unanswered.load(Ordering::SeqCst)
    }

    /// Whether no more connections are taken.
    pub fn is_closing(&self) -> bool {
        self.closing.load(Ordering::SeqCst)
    }

    /// For how many milliseconds no more connections are taken; 0 where they are.
    pub(crate) fn is_closed_for(&self, now: u64) -> u64 {
        if self.is_closing() {
            now.saturating_sub(self.closed.load(Ordering::SeqCst))
        } else {
            0
        }
    }

    /// Looks for the file, now and then.
    pub fn look<R: Files>(&self, rt: &R, now: u64) {
        let Some(stop) = &self.stop else {
            return;
        };
        if now.saturating_sub(self.looked.load(Ordering::SeqCst)) < LOOK || self.is_closing() {
            return;
        }
        self.looked.store(now, Ordering::SeqCst);
        if fs::metadata(rt, stop.as_str()).is_ok() {
            self.closed.store(now, Ordering::SeqCst);
            self.closing.store(true, Ordering::SeqCst);
        }
    }

    /// Keeps a connection that came; false where its limits or its room can't be had.
    fn keep(&self, stream: TcpStream) -> bool {
        if limit(&stream).is_err() {
            return false;
        }
        let (Ok(socket), Some(mut came)) = (
            Arc::new(self.alloc, Socket::new(stream)),
            locked(&self.came),
        ) else {
            return false;
        };
        *came = Some(socket);
        true
    }

    /// The connection that is kept.
    fn taken(&self) -> Option<Arc<Socket, Global>> {
        let mut came = locked(&self.came)?;
        came.take()
    }

    /// Takes a connection that comes within a slice; None where none came.
    fn wait_for_one(&self, listener: &TcpListener) -> io::Result<Option<TcpStream>> {
        match listener.accept() {
            Ok((stream, _)) => {
                self.full.store(false, Ordering::SeqCst);
                Ok(Some(stream))
            }
            Err(error) if error.kind() == ErrorKind::WouldBlock => Ok(None),
            Err(error) => Err(error),
        }
    }

    /// Waits for a connection. Where no descriptor is left, the connections of calls that are over are hung up, and it goes on.
    /// Where the system has none for another cause that passes, or no call is over, it sleeps for a moment first. The worker
    /// counts as busy from `Came` on until `leave`, and from `Failed` on for ever.
    pub fn wait<R: Clock + Files, S: OpenStream + Drop>(
        &self,
        rt: &R,
        listener: &TcpListener,
        calls: &OpenCalls<S>,
    ) -> Waited {
        self.open.store(true, Ordering::SeqCst);
        let waited = self.wait_on(rt, listener, calls);
        self.open.store(false, Ordering::SeqCst);
        waited
    }

    /// Waits for a connection, slice by slice.
    fn wait_on<R: Clock + Files, S: OpenStream + Drop>(
        &self,
        rt: &R,
        listener: &TcpListener,
        calls: &OpenCalls<S>,
    ) -> Waited {
        for _turn in 0..u64::MAX {
            self.look(rt, millis(rt));
            if self.is_closing() {
                return Waited::Closing;
            }
            match self.wait_for_one(listener) {
                Ok(Some(stream)) => {
                    if self.keep(stream) {
                        self.busy.fetch_add(1, Ordering::SeqCst);
                        return Waited::Came;
                    }
                }
                Ok(None) => {}
                Err(error) if is_full(&error) && calls.hang_up(millis(rt)) > 0 => {}
                Err(error) if passes(&error) => {
                    self.full.store(true, Ordering::SeqCst);
                    thread::sleep(rt, Duration::from_millis(ROOM));
                    return Waited::Passing(error);
                }
                Err(error) => {
                    self.busy.fetch_add(1, Ordering::SeqCst);
                    return Waited::Failed(error);
                }
            }
        }
        Waited::Closing
    }
}

/// The network of an acceptor over connections that come: it calls nobody.
#[derive(Drop)]
pub struct BoundedAccepts<'a, R> {
    rt: R,
    listening: &'a Listening,
}

/// A listener that gives the connection that is kept.
#[derive(Drop)]
pub struct AcceptedListener<'a, R> {
    rt: R,
    listening: &'a Listening,
}

impl<'a, R> AcceptedListener<'a, R> {
    /// The listener of these connections, over a runtime.
    pub fn new(rt: R, listening: &'a Listening) -> AcceptedListener<'a, R> {
        AcceptedListener { rt, listening }
    }
}

impl<'a, R: Clock + Files + Copy> OpenListener for AcceptedListener<'a, R> {
    type Stream = Connection<'a, R>;

    fn accept(&self) -> io::Result<(Connection<'a, R>, SocketAddr)> {
        let Some(socket) = self.listening.taken() else {
            return Err(io::Error::from(ErrorKind::NotConnected));
        };
        Ok((
            Connection::new(socket, self.rt, self.listening),
            SocketAddr::from((Ipv4Addr::UNSPECIFIED, 0)),
        ))
    }
}

impl<'a, R> AsRawFd for AcceptedListener<'a, R> {
    fn as_raw_fd(&self) -> RawFd {
        -1
    }
}

impl<'a, R: Clock + Files + Copy> Net for BoundedAccepts<'a, R> {
    type Stream = Connection<'a, R>;

    type Listener = AcceptedListener<'a, R>;

    fn bind(&self, _addr: SocketAddr) -> io::Result<AcceptedListener<'a, R>> {
        Err(io::Error::from(ErrorKind::Unsupported))
    }

    fn connect(&self, _addr: SocketAddr) -> io::Result<Connection<'a, R>> {
        Err(io::Error::from(ErrorKind::Unsupported))
    }
}
