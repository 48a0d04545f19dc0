//! All workers, from the opening of the lobby to its end.
ghost use Rattle.std.specs.Prelude.{◌≡◌, ◌+◌, ◌<◌, ◌^◌, [], true, IfSome, IfOk, OnOk, vec_len};
ghost use Rattle.turnstile.specs.Passes.{IsOf};
ghost use Rattle.adx_links.specs.Halls.{IsLeft};
ghost use Rattle.std.specs.Thread.{IsSync};

use crate::acceptor::Acceptor;
use crate::hall::Hall;
use crate::left::Left;
use crate::lobby::Lobby;
use crate::shares::EvenShares;
use crate::worker::{End, Worker, work};
use adx_units::{Counted, OutOfMemory};
use std::alloc::Global;
use std::marker::Brand;
use std::sync::ledger::{Blank, Ledger, Share};
use std::sync::{Mutex, Wait};
use std::thread;
use std::thread::Threads;
use turnstile::{Pass, Turnstile};

/// A worker with its shares.
#[derive(Drop)]
pub(crate) struct Job<W, K: Ledger, L: Ledger> {
    pub(crate) worker: W,
    pub(crate) shares: EvenShares<K, L>,
}

/// The workers, each with a part of both ledgers.
fn jobs_of<W: Drop, K: Ledger, L: Ledger>(
    alloc: Global,
    mut workers: Vec<W>,
    taken: &mut Share<K>,
    given: &mut Share<L>,
) -> Result<Vec<Job<W, K, L>>, OutOfMemory>
    requires taken { (taken.old.parts ≡ vec_len workers + 1) × (taken.old.amount ≡ 0) }
    requires given { (given.old.parts ≡ vec_len workers + 1) × (given.old.amount ≡ 0) }
    ensures jobs { IfOk result (λ jobs. vec_len jobs ≡ vec_len workers) }
    ensures taken { OnOk result ((taken.new.parts ≡ 1) × (taken.new.amount ≡ 0)) }
    ensures given { OnOk result ((given.new.parts ≡ 1) × (given.new.amount ≡ 0)) }
{
    let mut jobs = Vec::with_capacity(alloc, workers.len())?;
    while let Some(worker) = workers.pop() {
        let shares = EvenShares {
            taken: taken.split_off(1, 0),
            given: given.split_off(1, 0),
        };
        jobs.push(Job { worker, shares })?;
    }
    Ok(jobs)
}

/// Gathers the shares of the workers. None where one had a pair where none was out. Says whether memory was wanting.
fn gather<K: Ledger, L: Ledger>(
    mut ends: Vec<End<K, L>>,
    taken: &mut Share<K>,
    given: &mut Share<L>,
) -> Option<bool>
    requires even { taken.old.amount ≡ given.old.amount }
    ensures taken { IfSome result (λ _. taken.new.parts ≡ taken.old.parts + vec_len ends) }
    ensures given { IfSome result (λ _. given.new.parts ≡ given.old.parts + vec_len ends) }
    ensures even { IfSome result (λ _. taken.new.amount ≡ given.new.amount) }
{
    let mut wanting = false;
    while let Some(end) = ends.pop() {
        let End::Even(shares, short) = end else {
            return None;
        };
        taken.merge(shares.taken);
        given.merge(shares.given);
        wanting |= short;
    }
    Some(wanting)
}

/// Lets the workers go round in threads of their own, and gives back what is left once all have ended.
fn serve_by<
    R: Threads + Wait + Sync,
    A: Acceptor + Drop + Send,
    T: Counted + Drop + Send,
    B: Hall<T> + Send + Sync,
    K: Ledger + Send + Sync,
    L: Ledger + Send + Sync,
    W: Worker<R, A, T, B> + Drop + Send,
>(
    rt: &R,
    alloc: Global,
    gate: &Turnstile<T>,
    acceptor: A,
    pass: Pass<T>,
    workers: Vec<W>,
    taken: Blank,
    given: Blank,
) -> Option<Left<A, T>>
    requires taken { (taken.name ≡ K.name) × (taken.parts ≡ K.parts)
        × (taken.parts ≡ vec_len workers + 1) }
    requires given { (given.name ≡ L.name) × (given.parts ≡ L.parts)
        × (given.parts ≡ vec_len workers + 1) }
    requires gate { IsOf B.first gate.now }
    requires first { pass ≡ B.first }
    requires is_first { pass.is_first ≡ true }
    requires out { pass.out ≡ B.others }
    requires turns { pass.turns ≡ [] }
    requires faults { A.faults acceptor ≡ B.faults }
    requires none { IfSome (A.pairs acceptor) (λ t. (t.out ≡ []) × (t.back ≡ [])) }
    ensures { IfSome result (IsLeft B.Hall A.Acceptor A.In.Source A.Out.Sink) }
{
    let (taken_book, mut taken) = taken.open::<K>();
    let (given_book, mut given) = given.open::<L>();
    let lobby: Mutex<Lobby<A, T, B, K, L>> = Mutex::new(Lobby::open(
        acceptor, pass, taken_book, given_book,
    ));
    let jobs = jobs_of(alloc, workers, &mut taken, &mut given).ok()?;
    let shared = &lobby;
    let round = |job: Job<W, K, L>| -> End<K, L>
        requires gate { IsOf B.first gate.now }
    { work(rt, shared, gate, job.worker, job.shares) };
    let ends = thread::map_vec(rt, jobs, &round).ok()?;
    let short = gather(ends, &mut taken, &mut given)?;
    Some(lobby.into_inner().leave(taken, given, short))
}

/// Lets the workers take pairs from the acceptor, serve each by a pass that is split for it, and give both back, each
/// worker in a thread of its own, until no pair comes. None where memory was wanting, or where a worker had a pair while
/// none was out, which no run reaches.
///
/// `pass` is the first pass, from which only `others` passes are out. What is left has every pair back that was taken, and
/// the pass has all turns of all of them.
pub fn serve_all<
    R: Threads + Wait + Sync,
    A: Acceptor + Drop + Send,
    T: Counted + Drop + Send,
    B: Hall<T> + Send + Sync,
    W: Worker<R, A, T, B> + Drop + Send,
>(
    rt: &R,
    alloc: Global,
    gate: &Turnstile<T>,
    acceptor: A,
    pass: Pass<T>,
    workers: Vec<W>,
) -> Option<Left<A, T>>
    requires gate { IsOf B.first gate.now }
    requires first { pass ≡ B.first }
    requires is_first { pass.is_first ≡ true }
    requires out { pass.out ≡ B.others }
    requires turns { pass.turns ≡ [] }
    requires faults { A.faults acceptor ≡ B.faults }
    requires none { IfSome (A.pairs acceptor) (λ t. (t.out ≡ []) × (t.back ≡ [])) }
    ensures { IfSome result (IsLeft B.Hall A.Acceptor A.In.Source A.Out.Sink) }
{
    let parts = workers.len() as u64 + 1;
    serve_by::<R, A, T, B, Brand, Brand, W>(
        rt,
        alloc,
        gate,
        acceptor,
        pass,
        workers,
        Blank::new(parts),
        Blank::new(parts),
    )
}
