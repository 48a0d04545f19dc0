//! One turn: a connection is taken, served and given back.
ghost use Rattle.std.specs.Prelude.{◌≡◌, true};
ghost use Rattle.adx_links.specs.Pairs.{IsNew};
ghost use Rattle.adx_links.specs.Told.{pair_by, told_by};
ghost use Rattle.command_bidder.specs.Connections.{IsServed, is_short};
ghost use Rattle.command_bidder.specs.Turns.{TakesTurn};

use adx_links::Acceptor;
use bidder_core::Bidder;
use bidder_http::serve_bidder;
use http_connection::ConnEnd;
use std::alloc::Global;

/// What came of a turn.
#[derive(Clone, Copy)]
pub(crate) enum Turn {
    /// A connection was served, and whether it ended for lack of memory.
    Served(bool),
    /// No more connections come.
    Over,
    /// The acceptor failed.
    Failed,
}

/// Whether a connection ended for lack of memory.
fn ends_short(end: ConnEnd) -> bool
    ensures { result ≡ is_short end }
{
    match end {
        ConnEnd::OutOfMemory => true,
        ConnEnd::Closed => false,
        ConnEnd::Cut => false,
        ConnEnd::Refused { .. } => false,
        ConnEnd::ReadFault => false,
        ConnEnd::WriteFault => false,
        ConnEnd::Spent => false,
    }
}

/// Serves a connection, and closes it for its peer.
fn serve_pair<A: Acceptor>(
    alloc: Global,
    bidder: &mut Bidder,
    pair: &mut (A::In, A::Out),
) -> ConnEnd
    requires { IsNew (pair_by A.In.Source A.Out.Sink pair.old) }
    ensures closed { A.is_finished pair.new ≡ true }
    ensures served { IsServed bidder.old (record {
      came = pair_by A.In.Source A.Out.Sink pair.old;
      left = pair_by A.In.Source A.Out.Sink pair.new;
      end = result;
    }) bidder.new }
{
    let end = serve_bidder(alloc, bidder, &mut pair.0, &mut pair.1);
    A::finish(pair);
    end
}

/// Takes a connection, serves it and gives it back.
pub(crate) fn take_turn<A: Acceptor>(alloc: Global, bidder: &mut Bidder, acceptor: &mut A) -> Turn
    ensures { TakesTurn (told_by A.Acceptor A.In.Source A.Out.Sink acceptor.old)
        (told_by A.Acceptor A.In.Source A.Out.Sink acceptor.new) bidder.old bidder.new result }
{
    match acceptor.accept() {
        Ok(Some(came)) => {
            let mut pair = came;
            let end = serve_pair::<A>(alloc, bidder, &mut pair);
            acceptor.done(pair);
            Turn::Served(ends_short(end))
        }
        Ok(None) => Turn::Over,
        Err(_) => Turn::Failed,
    }
}
