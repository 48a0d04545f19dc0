//! Connections that are watched: those that failed are said on standard error, and all are counted.
ghost use Rattle.std.specs.Prelude.{◌≡◌, true, false, IfOk, IfSome, None};
ghost use Rattle.adx_links.specs.Pairs.{IsNew, PairTold, is_over_after};
ghost use Rattle.adx_links.specs.TcpAcceptors.{acceptor_faults, is_closed, peer_faults};
ghost use Rattle.adx_io.specs.Adapters.{source_faults};
ghost use Rattle.adx_io.specs.Streams.{HasCause};

use crate::reports::{Kind, Reports};
use adx_io::{Failed, Sink, Source, StdSource};
use adx_links::{Acceptor, PeerSink, TcpAcceptor};
use bounded_network::{
    AcceptedListener, BoundedAccepts, Connection, Listening, OpenCalls, Waited, with_slices,
};
use std::io;
use std::marker::PhantomData;
use std::net::{Ipv4Addr, OpenListener, SocketAddr, TcpListener, TcpStream};

/// A source or a sink of a connection, which remembers whether a call of it failed.
#[derive(Drop)]
pub(crate) struct Watched<T> {
    inner: T,
    /// The number of its connection, from 1.
    number: u64,
    failed: bool,
}

impl<T> Watched<T> {
    /// No call failed yet.
    fn new(inner: T, number: u64) -> Watched<T>
        ensures { result.inner ≡ inner }
    {
        Watched {
            inner,
            number,
            failed: false,
        }
    }
}

impl<S: Source> Source for Watched<S> {
    ghost faults = { λ w. S.faults w.inner };

    ghost tape = { λ w. S.tape w.inner };

    ghost place = { λ w. S.place w.inner };

    fn take(&mut self, out: &mut [u8]) -> Result<usize, Failed> {
        let taken = self.inner.take(out);
        self.failed = self.failed || taken.is_err();
        taken
    }
}

impl<K: Sink> Sink for Watched<K> {
    ghost faults = { λ w. K.faults w.inner };

    ghost held = { λ w. K.held w.inner };

    ghost place = { λ w. K.place w.inner };

    fn put(&mut self, piece: &[u8]) -> Result<usize, Failed> {
        let put = self.inner.put(piece);
        self.failed = self.failed || put.is_err();
        put
    }
}

/// A handle of a connection.
type Handle<'a, 'b> = Connection<'b, &'a HostRuntime>;

/// A connection whose faults are remembered.
type Pair<'a, 'b> = (
    Watched<StdSource<Handle<'a, 'b>>>,
    Watched<PeerSink<Handle<'a, 'b>>>,
);

/// A listener on this machine's own address.
pub(crate) fn listener_at(rt: &HostRuntime, port: u16) -> io::Result<TcpListener> {
    TcpListener::bind(rt, SocketAddr::from((Ipv4Addr::LOCALHOST, port)))
}

/// A listener on this machine's own address whose waits are short, and where it listens.
fn listening_at(rt: &HostRuntime, port: u16) -> io::Result<(TcpListener, SocketAddr)> {
    let listener = with_slices(listener_at(rt, port)?)?;
    let address = listener.local_addr()?;
    Ok((listener, address))
}

/// What is said of a run that takes connections.
#[derive(Clone, Copy)]
pub(crate) struct Serves<'a> {
    pub(crate) workers: u32,
    pub(crate) bidders: usize,
    /// The journal, and how many bytes it had when it was opened.
    pub(crate) journal: &'a str,
    pub(crate) bytes: u64,
}

/// A listener of std's sockets as an acceptor that counts connections, and says of those that ended by a fault. It listens from
/// its first call on, and says where. It reports no pairs. No more connections come once its file is there.
#[derive(Drop)]
pub(crate) struct WatchedAcceptor<'a, 'b, T> {
    inner: TcpAcceptor<BoundedAccepts<'b, &'a HostRuntime>>,
    /// The command that the connections are for, as a name alone.
    command: PhantomData<T>,
    port: u16,
    listener: Option<TcpListener>,
    listening: &'b Listening,
    /// What the links of the run have connected.
    open: &'a OpenCalls<TcpStream>,
    reports: &'a Reports<'a>,
    /// What is said of the run, beside where it takes connections.
    serves: Option<Serves<'a>>,
    over: bool,
    /// How many connections have ended without a reply, as far as it was said.
    unanswered: u64,
    /// How many connections came.
    pub(crate) came: u64,
    /// How many of them ended by a fault.
    pub(crate) failed: u64,
}

impl<'a, 'b, T> WatchedAcceptor<'a, 'b, T> {
    /// The acceptor at a port.
    pub(crate) fn new(
        port: u16,
        listening: &'b Listening,
        open: &'a OpenCalls<TcpStream>,
        reports: &'a Reports<'a>,
        serves: Option<Serves<'a>>,
    ) -> WatchedAcceptor<'a, 'b, T> {
        WatchedAcceptor {
            inner: TcpAcceptor::<BoundedAccepts<'b, &'a HostRuntime>>::new(AcceptedListener::new(
                reports.rt(),
                listening,
            )),
            command: PhantomData,
            port,
            listener: None,
            listening,
            open,
            reports,
            serves,
            over: false,
            unanswered: 0,
            came: 0,
            failed: 0,
        }
    }

    /// Whether it has begun to listen.
    pub(crate) fn listens(&self) -> bool {
        self.listener.is_some()
    }

    /// Says where connections are taken.
    fn say_where(&self, address: SocketAddr) {
        let reports = self.reports;
        let Some(
            Serves {
                workers,
                bidders,
                journal,
                bytes,
            },
        ) = self.serves
        else {
            let _ = eprintln!(reports; "adx: connections are taken at {address}");
            return;
        };
        let _ = eprintln!(reports;
            "adx: connections are taken at {address} (workers: {workers}, bidders: {bidders})"
        );
        let moment = reports.moment();
        let _ = eprintln!(reports; "adx: {moment}: {journal}: {bytes} bytes were there");
    }

    /// Begins to listen, where that isn't so yet.
    fn listen(&mut self)
        ensures inner { self.new.inner ≡ self.old.inner }
        ensures over { self.new.over ≡ self.old.over }
    {
        if self.listener.is_some() {
            return;
        }
        match listening_at(self.reports.rt(), self.port) {
            Ok((listener, address)) => {
                self.say_where(address);
                self.listener = Some(listener);
            }
            Err(error) => {
                let (reports, port) = (self.reports, self.port);
                let _ = eprintln!(reports; "adx: port {port}: {error}");
            }
        }
    }

    /// Waits until a connection is kept, or none can be had. False: no more come.
    fn comes(&self) -> bool {
        let Some(listener) = &self.listener else {
            return true;
        };
        for _turn in 0..u64::MAX {
            match self.listening.wait(self.reports.rt(), listener, self.open) {
                Waited::Came => return true,
                Waited::Closing => return false,
                Waited::Passing(error) => self.reports.say(
                    Kind::System,
                    "times the system had no room for a connection",
                    format_args!("connections wait: {error}"),
                ),
                Waited::Failed(error) => {
                    self.reports.say(
                        Kind::System,
                        "times no connection could be taken",
                        format_args!("no connection can be taken, and a worker ends: {error}"),
                    );
                    return true;
                }
            }
        }
        true
    }

    /// A connection failed.
    fn say(&mut self, number: u64, reading: bool)
        ensures inner { self.new.inner ≡ self.old.inner }
        ensures over { self.new.over ≡ self.old.over }
    {
        self.failed = self.failed.saturating_add(1);
        let why = if reading {
            "its bytes can't be read"
        } else {
            "replies can't be written"
        };
        self.reports.say(
            Kind::Connection,
            "connections that failed",
            format_args!("connection {number} failed: {why}"),
        );
    }

    /// Says that connections ended without a reply, where more of them did.
    fn say_unanswered(&mut self)
        ensures inner { self.new.inner ≡ self.old.inner }
        ensures over { self.new.over ≡ self.old.over }
    {
        let unanswered = self.listening.unanswered();
        if unanswered == self.unanswered {
            return;
        }
        self.unanswered = unanswered;
        self.reports.say(
            Kind::Memory,
            "times connections ended without a reply for want of memory",
            "a connection ended without a reply: memory was refused",
        );
    }
}

impl<'a, 'b, T> Acceptor for WatchedAcceptor<'a, 'b, T> {
    ghost use Rattle.std.specs.Prelude.{None};
    ghost use Rattle.adx_links.specs.TcpAcceptors.{acceptor_faults, is_closed};

    type In = Watched<StdSource<Handle<'a, 'b>>>;

    type Out = Watched<PeerSink<Handle<'a, 'b>>>;

    ghost faults = { λ a. acceptor_faults a.inner };

    ghost pairs = { λ _. None };

    ghost is_over = { λ a. a.over };

    ghost is_finished = { λ p. is_closed p.1.inner };

    fn accept(&mut self) -> Result<Option<Pair<'a, 'b>>, Failed>
        ensures new { IfOk result (λ came. IfSome came (λ p. IsNew (record {
          tape = None;
          read_faults = source_faults p.0.inner;
          held = None;
          write_faults = peer_faults p.1.inner;
        }))) }
        ensures over { self.new.over ≡ is_over_after self.old.over result }
        ensures cause { HasCause (acceptor_faults self.old.inner) (acceptor_faults self.new.inner) result }
    {
        self.listen();
        if !self.comes() {
            self.over = true;
            return Ok(None);
        }
        match self.inner.accept()? {
            Some((source, sink)) => {
                self.came = self.came.saturating_add(1);
                Ok(Some((
                    Watched::new(source, self.came),
                    Watched::new(sink, self.came),
                )))
            }
            None => {
                self.over = true;
                Ok(None)
            }
        }
    }

    fn finish(pair: &mut Pair<'a, 'b>)
        ensures finished { is_closed pair.new.1.inner ≡ true }
        ensures same { ◌≡◌ {A = PairTold}
            (record { tape = None; read_faults = source_faults pair.new.0.inner; held = None; write_faults = peer_faults pair.new.1.inner })
            (record { tape = None; read_faults = source_faults pair.old.0.inner; held = None; write_faults = peer_faults pair.old.1.inner }) }
    {
        pair.1.inner.close();
    }

    fn done(&mut self, pair: Pair<'a, 'b>)
        ensures over { self.new.over ≡ self.old.over }
        ensures faults { acceptor_faults self.new.inner ≡ acceptor_faults self.old.inner }
    {
        self.listening.leave();
        if pair.0.failed || pair.1.failed {
            self.say(pair.0.number, pair.0.failed);
        }
        self.say_unanswered();
    }
}
