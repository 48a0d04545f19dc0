//! The lobby, where workers take pairs and give them back.
ghost use Rattle.std.specs.Prelude.{◌≡◌, ◌+◌, ◌<◌, ◌≤◌, ℕ, [], true, false, IfOk, IfSome, OnErr, MatchOption};
ghost use Rattle.adx_links.specs.Pairs.{IsNew};
ghost use Rattle.adx_links.specs.Told.{pair_by, told_by};
ghost use Rattle.turnstile.specs.Passes.{IsOf};
ghost use Rattle.adx_links.specs.Serving.{IsBeside, IsFresh, served_pair};
ghost use Rattle.adx_links.specs.Lobbies.{over_after};
ghost use Rattle.adx_links.specs.Halls.{IsLeft};

use crate::acceptor::Acceptor;
use crate::hall::Hall;
use crate::intake::Intake;
use crate::left::Left;
use crate::shares::Shares;
use adx_units::{Counted, OutOfMemory};
use std::marker::{Model, PhantomData};
use std::sync::ledger::{Book, Ledger, Share};
use turnstile::{Pass, Turnstile};

/// A pair with the pass that it is served by.
pub(crate) type Served<A, T> = (Pass<T>, (<A as Acceptor>::In, <A as Acceptor>::Out));

/// The acceptor and the first pass, with how many pairs were taken and given back.
#[derive(Drop)]
pub(crate) struct Lobby<A: Acceptor, T: Counted, B: Hall<T>, K: Ledger, L: Ledger> {
    acceptor: A,
    pass: Pass<T>,
    taken: u64,
    given: u64,
    taken_book: Book<K>,
    given_book: Book<L>,
    intake: Intake,
    wanting: bool,
    hall: PhantomData<B>,
}

impl<A: Acceptor, T: Counted, B: Hall<T>, K: Ledger, L: Ledger> Model for Lobby<A, T, B, K, L> {
    ghost use Rattle.std.specs.Prelude.{◌≡◌, ℕ};
    ghost use Rattle.adx_links.specs.Told.{told_by};
    ghost use Rattle.adx_links.specs.Halls.{IsKept};

    ghost Value = { ℕ × ℕ };

    ghost view = { λ l. (l.taken, l.given) };

    ghost invariant = { λ l. (l.taken ≡ l.taken_book.total) × (l.given ≡ l.given_book.total)
        × IsKept B.Hall (told_by A.Acceptor A.In.Source A.Out.Sink l.acceptor) l.pass l.taken l.given
        l.intake l.wanting };
}

impl<A: Acceptor, T: Counted + Drop, B: Hall<T>, K: Ledger, L: Ledger> Lobby<A, T, B, K, L> {
    /// A lobby over an acceptor and a first pass from which so many other passes were split.
    pub(crate) fn open(acceptor: A, pass: Pass<T>, taken_book: Book<K>, given_book: Book<L>) -> Self
        requires first { pass ≡ B.first }
        requires is_first { pass.is_first ≡ true }
        requires out { pass.out ≡ B.others }
        requires turns { pass.turns ≡ [] }
        requires faults { A.faults acceptor ≡ B.faults }
        requires none { IfSome (A.pairs acceptor) (λ t. (t.out ≡ []) × (t.back ≡ [])) }
        requires taken { taken_book.total ≡ 0 }
        requires given { given_book.total ≡ 0 }
    {
        Lobby {
            acceptor,
            pass,
            taken: 0,
            given: 0,
            taken_book,
            given_book,
            intake: Intake::Open,
            wanting: false,
            hall: PhantomData,
        }
    }

    /// Splits a pass, and takes a pair to serve by it. None where no pair came, since no more come or the acceptor failed.
    /// `OutOfMemory` where no pass could be split.
    pub(crate) fn take(
        &mut self,
        gate: &Turnstile<T>,
        shares: &mut Shares<K, L>,
    ) -> Result<Option<Served<A, T>>, OutOfMemory>
        requires gate { IsOf B.first gate.now }
        ensures taken { IfOk result (λ came. MatchOption came
            (shares.new.taken.amount ≡ shares.old.taken.amount)
            (λ _. shares.new.taken.amount ≡ shares.old.taken.amount + 1)) }
        ensures none { OnErr result (shares.new.taken.amount ≡ shares.old.taken.amount) }
        ensures given { shares.new.given.amount ≡ shares.old.given.amount }
        ensures fresh { IfOk result (λ came. IfSome came (λ p. IsFresh B.first p.0)) }
        ensures pair { IfOk result (λ came. IfSome came
            (λ p. IsNew (pair_by A.In.Source A.Out.Sink p.1))) }
    {
        if self.taken == u64::MAX {
            return Err(OutOfMemory);
        }
        let pass = gate.split(&mut self.pass)?;
        match self.acceptor.accept() {
            Ok(Some(pair)) => {
                self.taken_book.add(&mut shares.taken, 1);
                self.taken += 1;
                Ok(Some((pass, pair)))
            }
            Ok(None) => {
                gate.join(&mut self.pass, pass);
                self.intake = over(self.intake);
                Ok(None)
            }
            Err(_) => {
                gate.join(&mut self.pass, pass);
                self.intake = Intake::Failed;
                Ok(None)
            }
        }
    }

    /// Gives back a pair that was closed for its peer, with the pass that it was served by. False where no pair is out: then
    /// both are dropped.
    pub(crate) fn give(
        &mut self,
        gate: &Turnstile<T>,
        served: Served<A, T>,
        wanting: bool,
        shares: &mut Shares<K, L>,
    ) -> bool
        requires gate { IsOf B.first gate.now }
        requires of { IsBeside B.first served.0 }
        requires split { served.0.is_first ≡ false }
        requires finished { A.is_finished served.1 ≡ true }
        requires served { B.served served.0.seen
            (served_pair (pair_by A.In.Source A.Out.Sink served.1) served.0 wanting) }
        ensures given { result ≡ true → shares.new.given.amount ≡ shares.old.given.amount + 1 }
        ensures taken { shares.new.taken.amount ≡ shares.old.taken.amount }
    {
        if self.given >= self.taken {
            return false;
        }
        let (pass, pair) = served;
        gate.join(&mut self.pass, pass);
        self.acceptor.done(pair);
        self.given_book.add(&mut shares.given, 1);
        self.given += 1;
        if wanting {
            self.wanting = true;
        }
        true
    }

    /// What is left, once all shares are gathered and as many pairs were given back as were taken. `short` says that memory
    /// was wanting elsewhere.
    pub(crate) fn leave(self, mut taken: Share<K>, mut given: Share<L>, short: bool) -> Left<A, T>
        requires taken { taken.parts ≡ K.parts }
        requires given { given.parts ≡ L.parts }
        requires even { taken.amount ≡ given.amount }
        ensures { IsLeft B.Hall A.Acceptor A.In.Source A.Out.Sink result }
    {
        let Self {
            acceptor,
            pass,
            taken: _,
            given: _,
            mut taken_book,
            mut given_book,
            intake,
            wanting,
            hall: _,
        } = self;
        taken_book.audit(&mut taken);
        given_book.audit(&mut given);
        Left {
            acceptor,
            pass,
            intake,
            wanting: wanting || short,
        }
    }
}

/// What is known once no more come.
fn over(intake: Intake) -> Intake
    ensures { result ≡ over_after intake }
{
    match intake {
        Intake::Failed => Intake::Failed,
        Intake::Open | Intake::Over => Intake::Over,
    }
}
