//! Who serves pairs, and how a worker goes round.
ghost use Rattle.std.specs.Prelude.{◌≡◌, false};
ghost use Rattle.adx_links.specs.Pairs.{IsNew};
ghost use Rattle.adx_links.specs.Told.{pair_by};
ghost use Rattle.turnstile.specs.Passes.{IsOf};
ghost use Rattle.adx_links.specs.Serving.{IsBeside, IsFresh, served_pair};

use crate::acceptor::Acceptor;
use crate::hall::Hall;
use crate::lobby::Lobby;
use crate::shares::{EvenShares, Shares};
use adx_units::Counted;
use std::sync::ledger::Ledger;
use std::sync::{Mutex, Wait};
use turnstile::{Pass, Turnstile};

/// Who serves pairs in one thread, each by the pass that is split for it.
pub trait Worker<R, A: Acceptor, T: Counted, B: Hall<T>> {
    /// Serves a pair, and says whether memory was wanting.
    fn serve(&mut self, rt: &R, pass: &mut Pass<T>, pair: &mut (A::In, A::Out)) -> bool
        requires fresh { IsFresh B.first pass.old }
        requires new { IsNew (pair_by A.In.Source A.Out.Sink pair.old) }
        ensures of { IsBeside B.first pass.new }
        ensures split { pass.new.is_first ≡ false }
        ensures served { B.served pass.new.seen
            (served_pair (pair_by A.In.Source A.Out.Sink pair.new) pass.new result) };

    /// What is done once a pair was served and finished, before it is given back: another worker may have the lobby for as
    /// long as no connection comes. Says whether memory was wanting.
    fn rest(&mut self, rt: &R) -> bool;
}

/// How a worker ended.
#[derive(Drop)]
pub(crate) enum End<K: Ledger, L: Ledger> {
    /// It gave back all pairs that it took, and says whether memory was wanting.
    Even(EvenShares<K, L>, bool),
    /// It had a pair where none was out.
    Lost,
}

/// Takes pairs, serves them and gives them back, until none comes.
pub(crate) fn work<
    R: Wait,
    A: Acceptor,
    T: Counted + Drop,
    B: Hall<T>,
    K: Ledger,
    L: Ledger,
    W: Worker<R, A, T, B> + Drop,
>(
    rt: &R,
    lobby: &Mutex<Lobby<A, T, B, K, L>>,
    gate: &Turnstile<T>,
    mut worker: W,
    shares: EvenShares<K, L>,
) -> End<K, L>
    requires gate { IsOf B.first gate.now }
{
    let EvenShares { taken, given } = shares;
    let mut shares = Shares { taken, given };
    let mut wanting = false;
    for _ in rt.forever() {
        let (mut pass, mut pair) = match lobby.lock(rt).take(gate, &mut shares) {
            Ok(Some(came)) => came,
            Ok(None) => break,
            Err(_) => {
                wanting = true;
                break;
            }
        };
        let short = worker.serve(rt, &mut pass, &mut pair);
        A::finish(&mut pair);
        wanting |= worker.rest(rt);
        if !lobby.lock(rt).give(gate, (pass, pair), short, &mut shares) {
            return End::Lost;
        }
    }
    let Shares { taken, given } = shares;
    End::Even(EvenShares { taken, given }, wanting)
}
