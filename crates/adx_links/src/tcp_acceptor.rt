//! A listener of std's sockets as an acceptor.
ghost use Rattle.std.specs.Prelude.{◌≡◌, true, false, IfOk, IfSome, None};
ghost use Rattle.adx_io.specs.Streams.{HasCause};
ghost use Rattle.adx_io.specs.Adapters.{source_faults};
ghost use Rattle.adx_links.specs.Pairs.{IsNew, is_over_after, told_of};
ghost use Rattle.adx_links.specs.TcpAcceptors.{acceptor_faults, is_closed, pair_told, peer_faults};

use crate::acceptor::Acceptor;
use crate::peer_sink::PeerSink;
use adx_io::{Failed, StdSource};
use std::io;
use std::net::{Net, OpenListener, OpenStream};

/// A listener of std's sockets as an acceptor. It reports no pairs, since no contract can know who calls. It never says
/// that no more connections come.
#[derive(Drop)]
pub struct TcpAcceptor<R: Net> {
    listener: R::Listener,
    faults: u64,
}

impl<R: Net> TcpAcceptor<R> {
    /// The acceptor over a listener that is bound.
    pub fn new(listener: R::Listener) -> TcpAcceptor<R>
        ensures begins { acceptor_faults result ≡ 0 }
    {
        TcpAcceptor {
            listener,
            faults: 0,
        }
    }
}

/// A pair over one connection.
type TcpPair<R> = (StdSource<<R as Net>::Stream>, PeerSink<<R as Net>::Stream>);

/// The next connection, as a pair over two handles of it.
fn next_pair<R: Net>(listener: &R::Listener) -> io::Result<TcpPair<R>>
    ensures new { IfOk result (λ p. (source_faults p.0 ≡ 0) × (peer_faults p.1 ≡ 0)) }
{
    let (stream, _) = listener.accept()?;
    // Replies go out as they are put. A connection that can't do so is served all the same.
    let _ = stream.set_nodelay(true);
    let other = stream.try_clone()?;
    Ok((StdSource::new(stream), PeerSink::new(other)))
}

impl<R: Net> Acceptor for TcpAcceptor<R>
where
    R::Stream: Send,
{
    ghost use Rattle.std.specs.Prelude.{None, false};
    ghost use Rattle.adx_links.specs.TcpAcceptors.{acceptor_faults, is_closed};

    type In = StdSource<R::Stream>;

    type Out = PeerSink<R::Stream>;

    ghost faults = { acceptor_faults };

    ghost pairs = { λ _. None };

    ghost is_over = { λ _. false };

    ghost is_finished = { λ p. is_closed p.1 };

    fn accept(&mut self) -> Result<Option<TcpPair<R>>, Failed>
        ensures new { IfOk result (λ came. IfSome came (λ p. IsNew (pair_told p))) }
        ensures over { false ≡ is_over_after false result }
        ensures cause { HasCause (acceptor_faults self.old) (acceptor_faults self.new) result }
    {
        match next_pair::<R>(&self.listener) {
            Ok(pair) => Ok(Some(pair)),
            Err(_) => {
                self.faults = self.faults.saturating_add(1);
                Err(Failed)
            }
        }
    }

    fn finish(pair: &mut TcpPair<R>)
        ensures finished { is_closed pair.new.1 ≡ true }
        ensures same { pair_told pair.new ≡ pair_told pair.old }
    {
        pair.1.close();
    }

    fn done(&mut self, _pair: TcpPair<R>)
        ensures faults { acceptor_faults self.new ≡ acceptor_faults self.old }
    {}
}
