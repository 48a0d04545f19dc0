//! Calls of hosts that are watched: hosts that fail aren't called for a while, and it is said of which that is so.
ghost use Rattle.std.specs.Prelude.{◌≡◌};

use crate::bidder_watch::Bidder;
use crate::calls::{Calls, Outcome};
use crate::judging::Sample;
use crate::reports::Kind;
use adx_io::Failed;
use adx_links::{LONGEST_WAIT, Link, TcpLink};
use adx_units::Text;
use bounded_network::{BoundedCalls, Change, millis};
use std::thread;
use std::time::Duration;

/// Of how many hosts it is kept what came of their notices.
const MOST_HOSTS: usize = 64;

/// How long an answer with a status outside 200 to 299 may take, in milliseconds, so that its host isn't one that fails.
const SOON: u64 = 250;

/// Where the digits of its status are in an answer ("HTTP/1.1 200": RFC 9112, 4), and where they end.
const STATUS_AT: usize = 9;

const STATUS_END: usize = 12;

/// How long a patient link waits at most for a host that isn't called yet, in milliseconds.
const PATIENCE: u64 = 8_000;

/// How many notices of a host that takes none are tried in a while, and how long a while is, in milliseconds. The others aren't
/// tried for real then; in the next while it is others.
const TRIES: u64 = 64;

const WHILE: u64 = 1_000;

/// What a link is for.
#[derive(Clone, Copy)]
pub(crate) enum Purpose<'a> {
    /// This bidder is asked: an answer is an answer, whatever its status.
    Asks(&'a Bidder<'a>),
    /// Notices are sent: an answer with a status outside 200 to 299 doesn't take one.
    Notifies,
    /// So they are, and a host that isn't called yet is waited for.
    NotifiesPatiently,
}

/// A host of notices, and what came of the last one that it didn't take.
#[derive(Drop)]
pub(crate) struct Noted {
    pub(crate) host: Text,
    pub(crate) port: u16,
    pub(crate) last: Outcome,
    /// How many it didn't take.
    pub(crate) failed: u64,
    /// When this while began, how many notices to it came in it, and how many in the while before it; 0 where one was taken.
    begun: u64,
    came: u64,
    before: u64,
    /// How many whiles there were.
    whiles: u64,
}

impl Noted {
    /// A host that didn't take its first notice.
    fn new(host: Text, port: u16, last: Outcome) -> Noted {
        Noted {
            host,
            port,
            last,
            failed: 1,
            begun: 0,
            came: 0,
            before: 0,
            whiles: 0,
        }
    }

    /// Whether it is this one.
    fn is(&self, host: &str, port: u16) -> bool {
        self.port == port && self.host.as_str() == host
    }

    /// Whether the next notice to it is tried for real: all of them are, where there are few or one was taken.
    fn lets(&mut self, now: u64) -> bool {
        if now.saturating_sub(self.begun) >= WHILE {
            self.begun = now;
            self.before = self.came;
            self.came = 0;
            self.whiles = self.whiles.wrapping_add(1);
        }
        self.came = self.came.saturating_add(1);
        let each = self.before / TRIES;
        each < 2 || self.came.wrapping_add(self.whiles) % each == 0
    }
}

/// A link of std's sockets that counts the calls of hosts. A host that wasn't reached or didn't answer in time, a few times in
/// a row, isn't called for a while: a start of it is a fault at once. A host that answers soon is called on, whatever it answers:
/// it may take the next notice. It is said of a host when what comes of its calls changes.
#[derive(Drop)]
pub(crate) struct WatchedLink<'a> {
    inner: TcpLink<BoundedCalls<'a, HostRuntime>>,
    calls_of: &'a Calls<'a>,
    purpose: Purpose<'a>,
    /// The host of the notice that is sent, as long as its end isn't known.
    host: Option<(Text, u16)>,
    /// When the call began, and when a piece of its answer came last.
    begun: u64,
    came: u64,
    /// How many bytes of its answer came, until its status is known, and the status.
    heard: usize,
    status: u16,
    /// Whether it is known what came of the call.
    settled: bool,
    /// The call, where its answer is read whole.
    sample: Option<Sample>,
    /// The hosts that didn't take notices.
    pub(crate) noted: Vec<Noted>,
    /// How many calls there were.
    pub(crate) calls: u64,
    /// How many of them failed, or were answered with a status that doesn't take a notice.
    pub(crate) failed: u64,
}

/// Whether an answer with this status takes a notice.
fn takes(status: u16) -> bool {
    200 <= status && status <= 299
}

impl<'a> WatchedLink<'a> {
    /// A link that has called no host.
    pub(crate) fn new(calls_of: &'a Calls<'a>, purpose: Purpose<'a>) -> WatchedLink<'a> {
        let rt = calls_of.reports.rt();
        WatchedLink {
            inner: TcpLink::new(BoundedCalls::new(
                rt,
                calls_of.names,
                calls_of.reach,
                calls_of.open,
            )),
            calls_of,
            purpose,
            host: None,
            begun: 0,
            came: 0,
            heard: 0,
            status: 0,
            settled: true,
            sample: None,
            noted: Vec::new(rt.alloc()),
            calls: 0,
            failed: 0,
        }
    }

    /// The moment, in milliseconds.
    fn now(&self) -> u64 {
        millis(self.calls_of.reports.rt())
    }

    /// Says what came of a host's notices. What a patient link saw is said at its end.
    fn say(&self, host: &str, port: u16, outcome: Outcome) {
        if matches!(self.purpose, Purpose::NotifiesPatiently) {
            return;
        }
        if outcome == Outcome::Well {
            self.calls_of.reports.say(
                Kind::Host,
                "changes of hosts of notices",
                format_args!("{host}:{port} takes notices again"),
            );
        } else {
            self.calls_of.reports.say(
                Kind::Host,
                "changes of hosts of notices",
                format_args!("notices are pending: {host}:{port} {outcome}"),
            );
        }
    }

    /// Keeps what came of a notice to a host, and says whether it is another outcome than before.
    fn keep(&mut self, host: &str, port: u16, outcome: Outcome) -> bool
        ensures { self.new.inner ≡ self.old.inner }
    {
        for noted in self.noted.iter_mut() {
            if noted.is(host, port) {
                noted.failed = noted.failed.saturating_add(1);
                let same = noted.last == outcome;
                noted.last = outcome;
                return !same;
            }
        }
        if self.noted.len() < MOST_HOSTS {
            if let Ok(host) = Text::of(self.calls_of.reports.rt().alloc(), host) {
                let _ = self.noted.push(Noted::new(host, port, outcome));
                return true;
            }
        }
        false
    }

    /// The notice that is sent isn't taken; `fails` says that its host counts as one that fails.
    fn refuse(&mut self, outcome: Outcome, fails: bool)
        ensures { self.new.inner ≡ self.old.inner }
    {
        let Some((host, port)) = self.host.take() else {
            return;
        };
        let change = if fails {
            self.calls_of.hosts.failed(host.as_str(), port, self.now())
        } else {
            self.calls_of.hosts.answered(host.as_str(), port)
        };
        if self.keep(host.as_str(), port, outcome) {
            self.say(host.as_str(), port, outcome);
        }
        if change == Change::Cold {
            self.say(host.as_str(), port, Outcome::Rests);
        }
    }

    /// The call failed.
    fn fail(&mut self, outcome: Outcome)
        ensures { self.new.inner ≡ self.old.inner }
    {
        if self.settled {
            return;
        }
        self.settled = true;
        self.failed = self.failed.saturating_add(1);
        match self.purpose {
            Purpose::Asks(bidder) => bidder.fail(self.calls_of, outcome, self.now()),
            Purpose::Notifies | Purpose::NotifiesPatiently => self.refuse(outcome, true),
        }
    }

    /// The call failed while its connection was there.
    fn break_off(&mut self)
        ensures { self.new.inner ≡ self.old.inner }
    {
        if self.settled {
            return;
        }
        // A host that hangs up does so soon.
        if self.now().saturating_sub(self.begun) < LONGEST_WAIT {
            self.fail(Outcome::HungUp);
        } else {
            self.fail(Outcome::Late);
        }
    }

    /// A notice's host took it.
    fn accept(&mut self)
        ensures { self.new.inner ≡ self.old.inner }
    {
        if let Some((host, port)) = self.host.take() {
            for noted in self.noted.iter_mut() {
                if noted.is(host.as_str(), port) {
                    noted.before = 0;
                    noted.came = 0;
                }
            }
            if self.calls_of.hosts.answered(host.as_str(), port) == Change::Warm {
                self.say(host.as_str(), port, Outcome::Well);
            }
        }
    }

    /// The call that went on is over, and nothing failed.
    fn end(&mut self)
        ensures { self.new.inner ≡ self.old.inner }
    {
        if self.settled || self.heard < STATUS_END {
            return;
        }
        self.settled = true;
        if let Purpose::Asks(bidder) = self.purpose {
            bidder.answer(self.calls_of);
        } else if takes(self.status) {
            self.accept();
        } else {
            self.failed = self.failed.saturating_add(1);
            let slow = self.came.saturating_sub(self.begun) >= SOON;
            self.refuse(Outcome::Status(self.status), slow);
        }
    }

    /// How long a host isn't called yet. A patient link waits for it, if that isn't long.
    fn rest_of(&mut self, host: &str, port: u16) -> u64
        ensures { self.new.inner ≡ self.old.inner }
    {
        let wait = self.calls_of.hosts.wait(host, port, self.begun);
        if wait == 0 || wait > PATIENCE || !matches!(self.purpose, Purpose::NotifiesPatiently) {
            return wait;
        }
        thread::sleep(self.calls_of.reports.rt(), Duration::from_millis(wait));
        self.begun = self.now();
        self.calls_of.hosts.wait(host, port, self.begun)
    }

    /// A call of a host begins; false where it isn't to be called.
    fn begin(&mut self, host: &str, port: u16) -> bool
        ensures { self.new.inner ≡ self.old.inner }
    {
        self.end();
        let alloc = self.calls_of.reports.rt().alloc();
        self.calls = self.calls.saturating_add(1);
        self.heard = 0;
        self.status = 0;
        self.settled = false;
        self.sample = None;
        self.host = None;
        self.begun = self.now();
        let mut called = self.rest_of(host, port) == 0;
        if let Purpose::Asks(bidder) = self.purpose {
            called = called && bidder.is_askable();
            if called && bidder.is_read(self.begun) {
                self.sample = Some(Sample::new(alloc));
            }
        } else {
            called = called && self.lets(host, port);
            if let Ok(host) = Text::of(alloc, host) {
                self.host = Some((host, port));
            }
        }
        if !called {
            // Its host has failed before, and doesn't fail once more.
            self.settled = true;
            self.failed = self.failed.saturating_add(1);
            self.pass_over();
        }
        called
    }

    /// Whether a notice to a host is tried for real. A patient link tries all.
    fn lets(&mut self, host: &str, port: u16) -> bool
        ensures { self.new.inner ≡ self.old.inner }
    {
        if matches!(self.purpose, Purpose::NotifiesPatiently) {
            return true;
        }
        for noted in self.noted.iter_mut() {
            if noted.is(host, port) {
                return noted.lets(self.begun);
            }
        }
        true
    }

    /// A notice's host wasn't called.
    fn pass_over(&mut self)
        ensures { self.new.inner ≡ self.old.inner }
    {
        if let Some((host, port)) = self.host.take() {
            for noted in self.noted.iter_mut() {
                if noted.is(host.as_str(), port) {
                    noted.failed = noted.failed.saturating_add(1);
                }
            }
        }
    }

    /// No address of a host took the call.
    fn miss(&mut self, host: &str, port: u16)
        ensures { self.new.inner ≡ self.old.inner }
    {
        let rt = self.calls_of.reports.rt();
        if self
            .calls_of
            .names
            .is_beyond(rt, host, port, self.calls_of.reach)
        {
            self.fail(Outcome::Beyond);
        } else {
            self.fail(Outcome::Unreached);
        }
    }

    /// Reads the status out of the first bytes of an answer.
    fn read_status(&mut self, bytes: &[u8])
        ensures { self.new.inner ≡ self.old.inner }
    {
        let mut heard = self.heard;
        let mut status = self.status;
        for byte in bytes {
            if STATUS_AT <= heard && heard < STATUS_END {
                let digit = byte.saturating_sub(b'0').min(9);
                status = status.saturating_mul(10).saturating_add(u16::from(digit));
            }
            heard = heard.saturating_add(1);
        }
        self.heard = heard;
        self.status = status;
    }

    /// A bidder's status is known.
    fn judge(&mut self, bidder: &Bidder<'a>)
        ensures { self.new.inner ≡ self.old.inner }
    {
        let reports = self.calls_of.reports;
        match self.status {
            200 => {
                if self.sample.is_none() {
                    bidder.note(reports, Outcome::Well, false);
                }
            }
            204 => bidder.note(reports, Outcome::Well, true),
            other => bidder.note(reports, Outcome::Status(other), true),
        }
        if self.status != 200 {
            self.sample = None;
        }
    }

    /// A piece of a bidder's answer came whose answer is read whole.
    fn read_whole(&mut self, bidder: &Bidder<'a>, bytes: &[u8])
        ensures { self.new.inner ≡ self.old.inner }
    {
        let reports = self.calls_of.reports;
        let Some(sample) = &mut self.sample else {
            return;
        };
        if let Some(outcome) = sample.hear(reports.rt().alloc(), bidder, bytes) {
            bidder.note(reports, outcome, true);
            self.sample = None;
        }
    }

    /// A piece of the answer came, or none, at its end.
    fn hear(&mut self, bytes: &[u8])
        ensures { self.new.inner ≡ self.old.inner }
    {
        if self.heard < STATUS_END {
            if bytes.is_empty() {
                self.break_off();
                return;
            }
            self.read_status(bytes);
            if let Purpose::Asks(bidder) = self.purpose {
                if self.heard >= STATUS_END {
                    self.judge(bidder);
                }
            }
        }
        match self.purpose {
            Purpose::Asks(bidder) => self.read_whole(bidder, bytes),
            Purpose::Notifies | Purpose::NotifiesPatiently => self.came = self.now(),
        }
    }

    /// How many notices were tried, and how many of them weren't taken, once no more are sent.
    pub(crate) fn totals(&mut self) -> (u64, u64) {
        self.end();
        (self.calls, self.failed)
    }
}

impl<'a> Link for WatchedLink<'a> {
    ghost use Rattle.std.specs.Prelude.{None};
    ghost use Rattle.adx_links.specs.TcpLinks.{link_faults};

    ghost faults = { λ l. link_faults l.inner };

    ghost exchanges = { λ _. None };

    ghost course = { λ _. None };

    fn start(&mut self, host: &str, port: u16) -> Result<(), Failed> {
        let called = self.begin(host, port);
        // Where it isn't to be called, the call of no host fails at once.
        let started = self.inner.start(if called { host } else { "" }, port);
        if started.is_err() && called {
            self.miss(host, port);
        }
        started
    }

    fn put(&mut self, piece: &[u8]) -> Result<usize, Failed> {
        let put = self.inner.put(piece);
        match put {
            Ok(count) => {
                if let Some(sample) = &mut self.sample {
                    if !sample.ask(&piece[..count]) {
                        self.sample = None;
                    }
                }
            }
            Err(_) => self.break_off(),
        }
        put
    }

    fn take(&mut self, out: &mut [u8]) -> Result<usize, Failed> {
        let taken = self.inner.take(out);
        match taken {
            Ok(count) => self.hear(&out[..count]),
            Err(_) => self.break_off(),
        }
        taken
    }
}
