//! Connections and two workers: each connection has its own turn, and all are given back, whatever fails. Two are served at
//! once.
ghost use Rattle.std.specs.Prelude.{◌≡◌, [], All, IfOk, IfSome, Some, true, false, length};
ghost use Rattle.adx_links.specs.Pairs.{IsNew, acceptor_told};
ghost use Rattle.adx_links.specs.MemoryAcceptors.{pair_told, pairs_of as told_pairs};
ghost use Rattle.turnstile.specs.Passes.{IsOf};
ghost use Rattle.adx_links.specs.Lobbies.{IsClosed};
ghost use Rattle.adx_links.specs.Serving.{IsFresh};

use crate::tally::{Add, Tally, opened};
use adx_io::{MemorySink, MemorySource, Source, put_all};
use adx_links::{Hall, Intake, Left, MemoryAcceptor, Worker, serve_all};
use adx_units::OutOfMemory;
use std::alloc::Global;
use std::hint::spin_loop;
use std::marker::{Brand, PhantomData};
use std::sync::{Mutex, Wait};
use std::test::Fail;
use std::thread::Threads;
use turnstile::{Pass, Turnstile};

/// A connection in memory.
type Pair = (MemorySource, MemorySink);

/// How often a worker looks whether another has met it.
const LOOKS: u64 = 100_000_000;

/// Which first pass it is. A call picks it.
trait Names {
    ghost use Rattle.std.specs.Prelude.{ℕ};
    ghost use Rattle.turnstile.specs.Passes.{PassView};
    ghost use Rattle.thread_tests.specs.declared.tally.Outcome.{Outcome};

    ghost first: { PassView ℕ (Unit {0}) Outcome };
}

impl Names for Brand {
    ghost use Rattle.std.specs.Prelude.{[], None, true};

    ghost first = { record {
      turnstile = record { words = 0; slots = 0; views_name = 0; atom = 0; block = 0; offset = 0; slot_names = [] };
      is_first = true;
      out = 0;
      fixed = None;
      opening = 0;
      seen = [];
      known = 0;
      faults = 0;
      turns = [];
    } };
}

/// Each pair has one turn.
struct OneTurn<J: Names> {
    names: PhantomData<J>,
}

impl<J: Names> Hall<Tally> for OneTurn<J> {
    ghost use Rattle.std.specs.Prelude.{◌≡◌, length};

    ghost first = { J.first };

    ghost others = { 0 };

    ghost faults = { 0 };

    ghost served = { λ _ s. length s.turns ≡ 1 };
}

/// Adds its number to the list once for each pair, and echoes what the pair's source gives at once. Where that begins with
/// `w` it waits for a worker whose pair gives `m`.
#[derive(Drop)]
struct Echo<'a, J: Names> {
    item: u64,
    turnstile: &'a Turnstile<Tally>,
    met: &'a Mutex<bool>,
    names: PhantomData<J>,
    ghost of: { IsOf J.first turnstile.now },
}

impl<'a, R: Wait, J: Names> Worker<R, MemoryAcceptor, Tally, OneTurn<J>> for Echo<'a, J> {
    ghost use Rattle.std.specs.Prelude.{◌≡◌, false, length};
    ghost use Rattle.adx_links.specs.Pairs.{IsNew};
    ghost use Rattle.adx_links.specs.MemoryAcceptors.{pair_told};
    ghost use Rattle.adx_links.specs.Serving.{IsBeside, IsFresh};

    fn serve(&mut self, rt: &R, pass: &mut Pass<Tally>, pair: &mut Pair) -> bool
        requires fresh { IsFresh J.first pass.old }
        requires new { IsNew (pair_told pair.old) }
        ensures of { IsBeside J.first pass.new }
        ensures split { pass.new.is_first ≡ false }
        ensures served { length pass.new.turns ≡ 1 }
    {
        let mut job = Add::of(self.item);
        self.turnstile.turn(rt, pass, &mut job, &mut ());
        !answer(rt, pair, self.met)
    }

    fn rest(&mut self, _rt: &R) -> bool {
        false
    }
}

/// Whether another worker met this one within so many looks.
fn is_met<R: Wait>(rt: &R, met: &Mutex<bool>) -> bool {
    for _look in 0..LOOKS {
        if *met.lock(rt) {
            return true;
        }
        spin_loop();
    }
    false
}

/// Puts into a pair's sink what its source gives at once. Whether all went well.
fn answer<R: Wait>(rt: &R, pair: &mut Pair, met: &Mutex<bool>) -> bool {
    let mut bytes = [0; 1];
    if pair.0.take(&mut bytes).is_err() {
        return false;
    }
    if bytes[0] == b'w' && !is_met(rt, met) {
        return false;
    }
    if put_all(&mut pair.1, &bytes).is_err() {
        return false;
    }
    if bytes[0] == b'm' {
        *met.lock(rt) = true;
    }
    true
}

/// No call.
const NONE: &[u64] = &[];

/// The first call.
const FIRST: &[u64] = &[0];

/// Which calls fail.
fn first_where(fails: bool) -> &'static [u64] {
    if fails { FIRST } else { NONE }
}

/// A new connection. `r`: the source fails at its first call. `x`: the sink does. Any other letter comes from the source.
fn pair_of(alloc: Global, letter: u8) -> Result<Pair, OutOfMemory>
    ensures { IfOk result (λ p. IsNew (pair_told p)) }
{
    let read_fails = first_where(letter == b'r');
    let write_fails = first_where(letter == b'x');
    Ok((
        MemorySource::new(alloc, &[letter], 0, read_fails)?,
        MemorySink::new(alloc, 0, write_fails)?,
    ))
}

/// A new connection for each letter.
fn pairs_of(alloc: Global, letters: &str) -> Result<Vec<Pair>, OutOfMemory>
    ensures { IfOk result (λ pairs. All (λ p. IsNew (pair_told p)) pairs.items) }
{
    let mut pairs = Vec::new(alloc);
    for letter in letters.as_bytes() {
        let pair = pair_of(alloc, *letter)?;
        pairs.push(pair)?;
    }
    Ok(pairs)
}

/// Lets two workers serve all pairs of the acceptor, and closes the turnstile.
fn serve_pairs<J: Names + Send + Sync, R: Threads + Wait + Sync>(
    rt: &R,
    alloc: Global,
    turnstile: Turnstile<Tally>,
    pass: Pass<Tally>,
    acceptor: MemoryAcceptor,
) -> Option<(MemoryAcceptor, Tally, bool, Intake)>
    requires of { IsOf J.first turnstile }
    requires first { pass ≡ J.first }
    requires is_first { pass.is_first ≡ true }
    requires out { pass.out ≡ 0 }
    requires turns { pass.turns ≡ [] }
    requires faults { acceptor.faults ≡ 0 }
    requires none { (acceptor.out ≡ []) × (acceptor.back ≡ []) }
    ensures closed { IfSome result (λ r. IsClosed (λ _ s. length s.turns ≡ 1) (λ o. o.added) J.first
        (acceptor_told (λ a. a.faults) (λ a. a.over) (λ a. Some (told_pairs a)) pair_told r.0) r.1.items.items r.2) }
{
    let met = Mutex::new(false);
    let mut workers = Vec::new(alloc);
    for item in 1..3 {
        workers
            .push(Echo::<J> {
                item,
                turnstile: &turnstile,
                met: &met,
                names: PhantomData,
            })
            .ok()?;
    }
    let left = serve_all::<R, MemoryAcceptor, Tally, OneTurn<J>, Echo<J>>(
        rt, alloc, &turnstile, acceptor, pass, workers,
    )?;
    let Left {
        acceptor,
        pass,
        intake,
        wanting,
    } = left;
    Some((acceptor, turnstile.close(pass), wanting, intake))
}

/// How many bytes the sinks of these pairs took.
fn bytes_in(pairs: &[Pair]) -> usize {
    let mut total: usize = 0;
    for pair in pairs {
        total = total.saturating_add(pair.1.taken().len());
    }
    total
}

/// What became of a lobby: the pairs given back, the items added, the bytes echoed, whether a worker said that it was short,
/// and how the intake ended.
type Seen = (usize, usize, usize, bool, Intake);

/// Serves a connection for each letter, with an acceptor that fails at these calls.
fn served<R: Threads + Wait + Sync>(
    rt: &R,
    alloc: Global,
    letters: &str,
    fails: &[u64],
) -> Option<Seen> {
    let (turnstile, pass) = opened(alloc).ok()?;
    let acceptor = MemoryAcceptor::new(alloc, pairs_of(alloc, letters).ok()?, fails).ok()?;
    let (acceptor, tally, short, intake) = serve_pairs::<Brand, R>(
        rt, alloc, turnstile, pass, acceptor,
    )?;
    let ended = acceptor.ended();
    Some((
        ended.len(),
        tally.items.len(),
        bytes_in(ended),
        short,
        intake,
    ))
}

/// One row per connections and faults. `wm`: the first is served only while the second is.
#[test]
fn all_are_given_back(rt: HostRuntime) -> Result<(), Fail> {
    let (none, first, both): (&[u64], &[u64], &[u64]) = (&[], &[1], &[0, 1]);
    for (letters, fails, seen) in [
        ("", none, (0, 0, 0, false, Intake::Over)),
        ("aaa", none, (3, 3, 3, false, Intake::Over)),
        ("ara", none, (3, 3, 2, true, Intake::Over)),
        ("axa", none, (3, 3, 2, true, Intake::Over)),
        ("aaa", first, (3, 3, 3, false, Intake::Failed)),
        ("aaa", both, (0, 0, 0, false, Intake::Failed)),
        ("wm", none, (2, 2, 2, false, Intake::Over)),
        ("mw", none, (2, 2, 2, false, Intake::Over)),
    ] {
        assert_eq!(rt; served(&rt, rt.alloc(), letters, fails), Some(seen));
    }
    Ok(())
}
