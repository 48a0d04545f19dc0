//! A connection of std's sockets as a link.
ghost use Rattle.std.specs.Prelude.{◌≡◌, ◌≤◌, ◌<◌, length, None, Some, IfOk, IsErr, IsSome, OnOk, OnErr, IfSome};
ghost use Rattle.std.specs.Io.KnownBytes.{ReadConsumes, WriteAppends};
ghost use Rattle.adx_io.specs.Streams.{HasCause, own_place};
ghost use Rattle.adx_links.specs.TcpLinks.{BothStand, link_faults, stream_of};

use crate::link::Link;
use adx_io::Failed;
use std::io;
use std::io::{Read, Write};
use std::net::{Net, OpenStream, SocketAddr, TcpStream, ToSocketAddrs};
use std::time::Duration;

/// How long a link waits for a host to take a call, to take bytes or to give some, in milliseconds.
pub const LONGEST_WAIT: u64 = 1_000;

/// Connections of std's sockets as a link, one at a time. It reports no bytes, since no contract can know
/// what a host is asked or answers. A host that is silent for `LONGEST_WAIT` is a fault.
#[derive(Drop)]
pub struct TcpLink<R: Net> {
    net: R,
    stream: Option<R::Stream>,
    faults: u64,
}

impl<R: Net> TcpLink<R> {
    /// The link over a network; it calls no host yet.
    pub fn new(net: R) -> TcpLink<R>
        ensures begins { link_faults result ≡ 0 }
        ensures unconnected { stream_of result ≡ None }
    {
        TcpLink {
            net,
            stream: None,
            faults: 0,
        }
    }
}

impl<R: Net> Link for TcpLink<R> {
    ghost use Rattle.std.specs.Prelude.{None};
    ghost use Rattle.adx_links.specs.TcpLinks.{link_faults};

    ghost faults = { link_faults };

    ghost exchanges = { λ _. None };

    ghost course = { λ _. None };

    fn start(&mut self, host: &str, port: u16) -> Result<(), Failed>
        ensures cause { HasCause (link_faults self.old) (link_faults self.new) result }
        ensures same { own_place ≡ own_place }
        ensures connected { OnOk result (IsSome (stream_of self.new)) }
        ensures closed { OnErr result (stream_of self.new ≡ None) }
    {
        self.stream = None;
        match connected(&self.net, host, port) {
            Some(stream) => {
                self.stream = Some(stream);
                Ok(())
            }
            None => {
                self.faults = self.faults.saturating_add(1);
                Err(Failed)
            }
        }
    }

    fn put(&mut self, piece: &[u8]) -> Result<usize, Failed>
        ensures count { IfOk result (λ n. n ≤ length piece.now) }
        ensures some { IfOk result (λ n. 0 < length piece.now → 0 < n) }
        ensures cause { HasCause (link_faults self.old) (link_faults self.new) result }
        ensures same { own_place ≡ own_place }
        ensures unconnected { stream_of self.old ≡ None → IsErr result }
        ensures wrote { BothStand (stream_of self.old) (stream_of self.new) (λ s t. WriteAppends (R.Stream.contents s) (R.Stream.contents t) result piece.now) }
    {
        if let Some(stream) = &mut self.stream {
            match stream.write(piece) {
                Ok(count) if count > 0 || piece.is_empty() => return Ok(count),
                _ => {}
            }
        }
        self.faults = self.faults.saturating_add(1);
        Err(Failed)
    }

    fn take(&mut self, out: &mut [u8]) -> Result<usize, Failed>
        ensures count { IfOk result (λ n. n ≤ length out.old) }
        ensures cause { HasCause (link_faults self.old) (link_faults self.new) result }
        ensures same { own_place ≡ own_place }
        ensures unconnected { stream_of self.old ≡ None → IsErr result }
        ensures read { BothStand (stream_of self.old) (stream_of self.new) (λ s t. ReadConsumes (R.Stream.remaining s) (R.Stream.remaining t) result out.new) }
    {
        if let Some(stream) = &mut self.stream {
            if let Ok(count) = stream.read(out) {
                return Ok(count);
            }
        }
        self.faults = self.faults.saturating_add(1);
        Err(Failed)
    }
}

/// A connection to a host, whose calls wait no longer than `LONGEST_WAIT`; None where no address of it
/// takes the call.
fn connected<R: Net>(net: &R, host: &str, port: u16) -> Option<R::Stream> {
    for address in (host, port).to_socket_addrs(net).ok()? {
        if let Ok(stream) = called(net, &address) {
            return Some(stream);
        }
    }
    None
}

/// A connection to an address, with its longest waits set.
fn called<R: Net>(net: &R, address: &SocketAddr) -> io::Result<R::Stream> {
    let wait = Duration::from_millis(LONGEST_WAIT);
    let stream = TcpStream::connect_timeout(net, address, wait)?;
    stream.set_read_timeout(Some(wait))?;
    stream.set_write_timeout(Some(wait))?;
    Ok(stream)
}
