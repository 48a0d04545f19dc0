//! The connections of links, which are hung up where no descriptor is left.
ghost use Rattle.std.specs.Prelude.{◌≡◌, ◌≤◌, IfOk};
ghost use Rattle.std.specs.Io.{ReadsAtMost, WritesAtMost};
ghost use Rattle.bounded_network.specs.Calls.{link_count};

use crate::locked::locked;
use adx_units::OutOfMemory;
use std::alloc::Global;
use std::io;
use std::io::{ErrorKind, Read, Write};
use std::net::OpenStream;
use std::sync::atomic::{AtomicUsize, Ordering};
use std::sync::{Mutex, MutexGuard};
use std::time::Duration;

/// The system's numbers of the errors of a call that found no descriptor left: ENFILE, EMFILE (accept(2), socket(2)).
const FULL: [i32; 2] = [23, 24];

/// Whether a call failed since no descriptor was left.
pub(crate) fn is_full(error: &io::Error) -> bool {
    match error.raw_os_error() {
        Some(number) => FULL.contains(&number),
        None => false,
    }
}

/// What is left of a connection.
#[derive(Drop)]
pub(crate) enum Held<S> {
    /// It is open.
    Open(S),
    /// It was hung up after its peer had ended it, and all that came was read.
    Ended,
    /// It was hung up, or there was none.
    Gone,
}

/// A connection of a link.
#[derive(Drop)]
pub(crate) struct Call<S> {
    /// Which one of its link's it is.
    number: u64,
    /// When its time is over.
    until: u64,
    held: Held<S>,
}

/// Where the connection of a link is kept, which has one at a time.
#[derive(Drop)]
pub(crate) struct Place<S> {
    /// One thread uses it at a time: while its lock is held, it is used.
    call: Mutex<Call<S>>,
}

/// The error of a connection that was hung up.
fn gone() -> io::Error {
    io::Error::from(ErrorKind::NotConnected)
}

/// What is left of a connection that nobody uses, where it needn't stay open: nothing more comes from its peer, and all that came
/// was read. Nothing is read of it.
fn left_of<S: OpenStream>(stream: &S) -> Option<Held<S>> {
    if stream.set_nonblocking(true).is_err() {
        return None;
    }
    let mut byte = [0; 1];
    match stream.peek(&mut byte) {
        Ok(0) => return Some(Held::Ended),
        Ok(_) => {}
        Err(error) if error.kind() == ErrorKind::WouldBlock => {}
        Err(_) => return Some(Held::Gone),
    }
    let _ = stream.set_nonblocking(false);
    None
}

impl<S: OpenStream + Drop> Call<S> {
    /// Hangs it up where it is over: its time is, or nothing more comes and all that came was read. Says whether it was.
    fn hang_up(&mut self, now: u64) -> bool {
        let left = match &self.held {
            Held::Open(stream) => {
                if now >= self.until {
                    Some(Held::Gone)
                } else {
                    left_of(stream)
                }
            }
            Held::Ended | Held::Gone => None,
        };
        match left {
            Some(left) => {
                self.held = left;
                true
            }
            None => false,
        }
    }
}

impl<S: OpenStream + Drop> Place<S> {
    /// No connection was made yet.
    fn empty() -> Place<S> {
        Place {
            call: Mutex::new(Call {
                number: 0,
                until: 0,
                held: Held::Gone,
            }),
        }
    }

    /// Hangs up its connection where nobody uses it and its call is over. Says whether it was.
    fn hang_up(&self, now: u64) -> bool {
        match self.call.try_lock() {
            Some(mut call) => call.hang_up(now),
            None => false,
        }
    }

    /// A connection that was just made takes the place of the last one. Its number.
    pub(crate) fn begin(&self, stream: S, until: u64) -> io::Result<u64> {
        let Some(mut call) = locked(&self.call) else {
            return Err(gone());
        };
        call.number = call.number.wrapping_add(1);
        call.until = until;
        call.held = Held::Open(stream);
        Ok(call.number)
    }

    /// The connection with this number ends.
    pub(crate) fn end(&self, number: u64) {
        if let Some(mut call) = locked(&self.call) {
            if call.number == number {
                call.held = Held::Gone;
            }
        }
    }

    /// What is left of the connection with this number.
    pub(crate) fn call(&self, number: u64) -> io::Result<MutexGuard<'_, Call<S>>> {
        match locked(&self.call) {
            Some(call) if call.number == number => Ok(call),
            _ => Err(gone()),
        }
    }
}

impl<S: OpenStream> Call<S> {
    /// The connection, where it is open.
    pub(crate) fn stream(&self) -> io::Result<&S> {
        match &self.held {
            Held::Open(stream) => Ok(stream),
            Held::Ended | Held::Gone => Err(gone()),
        }
    }
}

impl<S: OpenStream + Read> Call<S> {
    /// Reads what comes, within a time where one is given.
    pub(crate) fn read(&mut self, buf: &mut [u8], within: Option<Duration>) -> io::Result<usize>
        ensures { ReadsAtMost result buf.new }
    {
        match &mut self.held {
            Held::Open(stream) => {
                if within.is_some() {
                    stream.set_read_timeout(within)?;
                }
                stream.read(buf)
            }
            Held::Ended => Ok(0),
            Held::Gone => Err(gone()),
        }
    }
}

impl<S: OpenStream + Write> Call<S> {
    /// Writes what is taken, within a time where one is given.
    pub(crate) fn write(&mut self, buf: &[u8], within: Option<Duration>) -> io::Result<usize>
        ensures { WritesAtMost result buf.now }
    {
        match &mut self.held {
            Held::Open(stream) => {
                if within.is_some() {
                    stream.set_write_timeout(within)?;
                }
                stream.write(buf)
            }
            Held::Ended | Held::Gone => Err(gone()),
        }
    }
}

/// The connections of the links of a run, which threads may share. A link has one at a time, from its start to its next one. Where
/// no descriptor is left, those are hung up whose calls are over.
#[derive(Drop)]
pub struct OpenCalls<S> {
    places: Vec<Place<S>>,
    /// How many places were given to links.
    given: AtomicUsize,
}

impl<S: OpenStream + Drop> OpenCalls<S> {
    /// Room for the connections of so many links.
    pub fn new(alloc: Global, links: usize) -> Result<OpenCalls<S>, OutOfMemory>
        ensures { IfOk result (λ c. link_count c ≡ links) }
    {
        let mut places = Vec::with_capacity(alloc, links)?;
        'places: for _made in 0..links {
            places.push(Place::empty())?;
        }
        Ok(OpenCalls {
            places,
            given: AtomicUsize::new(0),
        })
    }

    /// The place of a further link; None beyond as many as there are.
    pub(crate) fn give(&self) -> Option<&Place<S>> {
        self.places.get(self.given.fetch_add(1, Ordering::SeqCst))
    }

    /// Hangs up the connections whose calls are over at that moment, in milliseconds of the system's monotonic clock: their time is
    /// over, or their peers have ended them and all that came was read. A call that goes on is none of them. How many they were.
    pub fn hang_up(&self, now: u64) -> usize
        ensures { result ≤ link_count self.now }
    {
        let mut count: usize = 0;
        'places: for place in self.places.iter() {
            if place.hang_up(now) {
                count += 1;
            }
        }
        count
    }
}
