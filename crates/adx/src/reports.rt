//! What a run that goes on says on standard error: lines that wait for nobody, and few of a kind.

use crate::clock::SystemClock;
use crate::lines::{Lines, one_line};
use crate::streams::Hasty;
use bounded_network::millis;
use exchange_messages::Clock;
use std::fmt::Display;
use std::io;
use std::io::Eprint;
use std::sync::atomic::{AtomicU64, Ordering};

/// How many lines of a kind are written one by one.
const ONE_BY_ONE: u64 = 64;

/// After how many milliseconds it is said again how many more of a kind there were.
const SAID_EVERY: u64 = 60_000;

/// What a line is about. Each kind is counted on its own.
#[derive(Clone, Copy, Debug, PartialEq, Eq)]
pub(crate) enum Kind {
    /// A connection ended by a fault.
    Connection,
    /// The journal's file failed.
    Journal,
    /// A connection ended without a reply, for lack of memory.
    Memory,
    /// The system had no connection to give, for a cause that passes.
    System,
    /// A host of notices changed.
    Host,
    /// A bidder changed.
    Bidder,
}

/// How often a kind came, and when its count was said last.
#[derive(Drop)]
struct Count {
    came: AtomicU64,
    said: AtomicU64,
}

impl Count {
    /// It came never.
    fn new() -> Count {
        Count {
            came: AtomicU64::new(0),
            said: AtomicU64::new(0),
        }
    }
}

/// What is written of one more of a kind.
enum Due {
    /// Its line.
    Line,
    /// How many came so far.
    Count(u64),
    /// Nothing.
    Nothing,
}

/// Standard error for a run that goes on. A line that it doesn't take at once is dropped, and counted.
#[derive(Drop)]
pub(crate) struct Reports<'a> {
    rt: &'a HostRuntime,
    /// None: lines are written as they are elsewhere.
    error: Option<Hasty>,
    /// How many lines were dropped since a line was written.
    dropped: AtomicU64,
    connections: Count,
    journal: Count,
    memory: Count,
    system: Count,
    hosts: Count,
    bidders: Count,
}

impl<'a> Reports<'a> {
    /// Nothing was said yet.
    fn over(rt: &'a HostRuntime, error: Option<Hasty>) -> Reports<'a> {
        Reports {
            rt,
            error,
            dropped: AtomicU64::new(0),
            connections: Count::new(),
            journal: Count::new(),
            memory: Count::new(),
            system: Count::new(),
            hosts: Count::new(),
            bidders: Count::new(),
        }
    }

    /// For a run that serves others: nobody waits for its lines.
    pub(crate) fn without_waiting(rt: &'a HostRuntime) -> Reports<'a> {
        Reports::over(rt, Hasty::error(rt))
    }

    /// For a run that ends by itself: its lines are waited for.
    pub(crate) fn with_waiting(rt: &'a HostRuntime) -> Reports<'a> {
        Reports::over(rt, None)
    }

    /// The runtime.
    pub(crate) fn rt(&self) -> &'a HostRuntime {
        self.rt
    }

    /// The moment, as the lines have it: the seconds since the beginning of 1970.
    pub(crate) fn moment(&self) -> u64 {
        SystemClock::new(self.rt).now()
    }

    /// The count of a kind.
    fn count_of(&self, kind: Kind) -> &Count {
        match kind {
            Kind::Connection => &self.connections,
            Kind::Journal => &self.journal,
            Kind::Memory => &self.memory,
            Kind::System => &self.system,
            Kind::Host => &self.hosts,
            Kind::Bidder => &self.bidders,
        }
    }

    /// Counts one more of a kind, and says what is written of it.
    fn due(&self, kind: Kind) -> Due {
        let count = self.count_of(kind);
        let came = count.came.fetch_add(1, Ordering::SeqCst).saturating_add(1);
        if came <= ONE_BY_ONE {
            return Due::Line;
        }
        let now = millis(self.rt);
        let said = count.said.load(Ordering::SeqCst);
        if said != 0 && now.saturating_sub(said) < SAID_EVERY {
            return Due::Nothing;
        }
        count.said.store(now, Ordering::SeqCst);
        Due::Count(came)
    }

    /// Writes the line of one more of a kind, or now and then how many there were; `plural` names them.
    pub(crate) fn say<D: Display + Drop>(&self, kind: Kind, plural: &str, line: D) {
        let moment = self.moment();
        match self.due(kind) {
            Due::Line => {
                let _ = eprintln!(self; "adx: {moment}: {line}");
            }
            Due::Count(came) => {
                let _ = eprintln!(self; "adx: {moment}: {plural}: {came} so far");
            }
            Due::Nothing => {}
        }
    }

    /// Writes a line.
    fn put<D: Display + Drop>(&self, error: &Hasty, value: D) -> io::Result<()> {
        let mut line = one_line(self.rt, value)?;
        line.push('\n')?;
        error.put(line.as_bytes())
    }

    /// Writes how many lines were dropped, where some were.
    fn put_dropped(&self, error: &Hasty) {
        let dropped = self.dropped.swap(0, Ordering::SeqCst);
        if dropped == 0 {
            return;
        }
        let moment = self.moment();
        if self
            .put(
                error,
                format_args!("adx: {moment}: lines that standard error didn't take: {dropped}"),
            )
            .is_err()
        {
            self.dropped.fetch_add(dropped, Ordering::SeqCst);
        }
    }
}

impl<'a> Eprint for Reports<'a> {
    fn eprint<D: Display + Drop>(&self, value: D) -> io::Result<()> {
        self.rt.eprint(value)
    }

    fn eprintln<D: Display + Drop>(&self, value: D) -> io::Result<()> {
        let Some(error) = &self.error else {
            return Lines::of(self.rt).eprintln(value);
        };
        if self.put(error, value).is_err() {
            self.dropped.fetch_add(1, Ordering::SeqCst);
        } else {
            self.put_dropped(error);
        }
        Ok(())
    }
}
