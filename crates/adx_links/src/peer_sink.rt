//! What is sent to the peer of a connection.
ghost use Rattle.std.specs.Prelude.{◌≡◌, true};
ghost use Rattle.adx_links.specs.TcpAcceptors.{is_closed, peer_faults};

use adx_io::{Failed, Sink, StdSink};
use std::io::{Read, Write};
use std::net::{OpenStream, Shutdown};

/// How many bytes are read at once of those that are left unread.
const PIECE: usize = 512;

/// How many pieces of them are read at most: 32 MiB, more than a system keeps of one connection by its defaults.
const MOST_PIECES: u32 = 65_536;

/// A sink over a handle of a connection's socket. It remembers whether closing the connection for its peer was asked for.
#[derive(Drop)]
pub struct PeerSink<W> {
    sink: StdSink<W>,
    closed: bool,
}

/// Reads what a connection that is shut down has left unread. A peer that waits for its bytes to be read may then send more,
/// and learns so that nobody reads them.
fn read_out<S: Read>(stream: &mut S) {
    let mut piece = [0; PIECE];
    for _ in 0..MOST_PIECES {
        match stream.read(&mut piece) {
            Ok(0) => return,
            Ok(_) => {}
            Err(_) => return,
        }
    }
}

impl<W: Write> PeerSink<W> {
    /// The sink over a handle that is open.
    pub(crate) fn new(handle: W) -> PeerSink<W>
        ensures begins { peer_faults result ≡ 0 }
    {
        PeerSink {
            sink: StdSink::new(handle),
            closed: false,
        }
    }
}

impl<S: Read + Write + OpenStream + Drop> PeerSink<S> {
    /// Shuts the connection down in both directions, and reads out what its peer has sent and nobody took, so that a peer that
    /// goes on sending isn't kept waiting. A lack of memory for that is passed over: the socket is closed once its handles are
    /// dropped.
    pub fn close(&mut self)
        ensures closed { is_closed self.new ≡ true }
        ensures faults { peer_faults self.new ≡ peer_faults self.old }
    {
        self.closed = true;
        let stream = self.sink.get_ref();
        if stream.shutdown(Shutdown::Both).is_err() {
            return;
        }
        if let Ok(mut rest) = stream.try_clone() {
            read_out(&mut rest);
        }
    }
}

impl<W: Write> Sink for PeerSink<W> {
    ghost use Rattle.std.specs.Prelude.{None};
    ghost use Rattle.adx_links.specs.TcpAcceptors.{peer_faults};

    ghost faults = { peer_faults };

    ghost held = { λ _. None };

    fn put(&mut self, piece: &[u8]) -> Result<usize, Failed> {
        self.sink.put(piece)
    }
}
