//! An acceptor in memory.
ghost use Rattle.std.specs.Prelude.{◌≡◌, [], false, All, IfOk, IfSome, Some};
ghost use Rattle.adx_links.specs.Pairs.{GetsBack, GivesOut, IsNew, is_over_after};
ghost use Rattle.adx_links.specs.MemoryAcceptors.{AcceptorState, pair_told, pairs_of};
ghost use Rattle.adx_io.specs.Streams.{HasCause, Moved, WhereTold};

use crate::acceptor::Acceptor;
use adx_io::{Failed, MemorySink, MemorySource};
use adx_units::OutOfMemory;
use std::alloc::Global;
use std::collections::VecDeque;
use std::marker::Model;
use std::snapshot::Snapshot;

/// A pair in memory.
type MemoryPair = (MemorySource, MemorySink);

/// An acceptor that gives out the pairs that it was made with, in their order, and fails by a list. It reports all.
#[derive(Drop)]
pub struct MemoryAcceptor {
    all: Snapshot<Vec<MemoryPair>>,
    given: usize,
    left: VecDeque<MemoryPair>,
    back: Vec<MemoryPair>,
    fails: Vec<u64>,
    calls: u64,
    faults: u64,
    over: bool,
}

impl Model for MemoryAcceptor {
    ghost use Rattle.std.specs.Prelude.{◌≡◌, ◌≤◌, ◌++◌, All, take, length, vec_len, vec_capacity};
    ghost use Rattle.adx_links.specs.MemoryAcceptors.{AcceptorState, pair_told};
    ghost use Rattle.adx_links.specs.Pairs.{IsNew};

    ghost Value = { AcceptorState };

    ghost view = { λ a. record {
      out = take a.given a.all.value.items;
      left = a.left.items;
      back = a.back.items;
      fails = a.fails.items;
      calls = a.calls;
      faults = a.faults;
      over = a.over;
    } };

    ghost invariant = { λ a. (a.all.value.items ≡ take a.given a.all.value.items ++ a.left.items)
        × (a.given ≤ length a.all.value.items) × (length a.all.value.items ≤ vec_capacity a.back) × (vec_len a.back ≤ a.given)
        × All (λ p. IsNew (pair_told p)) a.left.items };
}

impl MemoryAcceptor {
    /// An acceptor that gives out these pairs in their order and then None, and whose calls with a number in `fails`,
    /// from 0, fail. Each pair is as new.
    pub fn new(
        alloc: Global,
        pairs: Vec<MemoryPair>,
        fails: &[u64],
    ) -> Result<MemoryAcceptor, OutOfMemory>
        requires new { All (λ p. IsNew (pair_told p)) pairs.items }
        ensures { IfOk result (λ a. a ≡ record {
          out = [];
          left = pairs.items;
          back = [];
          fails = fails.now;
          calls = 0;
          faults = 0;
          over = false;
        }) }
    {
        let all = Snapshot::of(&pairs);
        let back = Vec::with_capacity(alloc, pairs.len())?;
        let fails = Vec::from_slice(alloc, fails)?;
        Ok(MemoryAcceptor {
            all,
            given: 0,
            left: VecDeque::from(pairs),
            back,
            fails,
            calls: 0,
            faults: 0,
            over: false,
        })
    }

    /// The pairs given back, in their order.
    pub fn ended(&self) -> &[MemoryPair]
        ensures { result.now ≡ self.now.back }
    {
        self.back.as_slice()
    }
}

impl Acceptor for MemoryAcceptor {
    ghost use Rattle.std.specs.Prelude.{Some, true};
    ghost use Rattle.adx_links.specs.MemoryAcceptors.{pairs_of};

    type In = MemorySource;

    type Out = MemorySink;

    ghost faults = { λ a. a.faults };

    ghost pairs = { λ a. Some (pairs_of a) };

    ghost is_over = { λ a. a.over };

    // Nobody waits at the other end of a pair in memory.
    ghost is_finished = { λ _. true };

    fn accept(&mut self) -> Result<Option<MemoryPair>, Failed>
        ensures gives { WhereTold (Some (pairs_of self.old)) (Some (pairs_of self.new)) (GivesOut result) }
        ensures new { IfOk result (λ came. IfSome came (λ p. IsNew (pair_told p))) }
        ensures over { self.new.over ≡ is_over_after self.old.over result }
        ensures cause { HasCause self.old.faults self.new.faults result }
    {
        let call = self.calls;
        self.calls = call.saturating_add(1);
        if self.fails.contains(&call) {
            self.faults = self.faults.saturating_add(1);
            return Err(Failed);
        }
        match self.left.pop_front() {
            Some(pair) => {
                self.given += 1;
                Ok(Some(pair))
            }
            None => {
                self.over = true;
                Ok(None)
            }
        }
    }

    fn finish(_pair: &mut MemoryPair)
        ensures same { pair_told _pair.new ≡ pair_told _pair.old }
    {}

    fn done(&mut self, pair: MemoryPair)
        ensures back { WhereTold (Some (pairs_of self.old)) (Some (pairs_of self.new)) (GetsBack pair) }
        ensures over { self.new.over ≡ self.old.over }
        ensures faults { self.new.faults ≡ self.old.faults }
    {
        if self.back.len() < self.given {
            self.back.push_reserved(pair);
        }
    }
}
