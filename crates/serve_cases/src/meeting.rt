//! Two connections at once: the first is silent until the second has its reply.
ghost use Rattle.std.specs.Prelude.{◌≡◌, true, IfOk, IfSome, None, Some};
ghost use Rattle.adx_io.specs.Streams.{HasCause};
ghost use Rattle.adx_links.specs.MemoryAcceptors.{pair_told};
ghost use Rattle.adx_links.specs.Pairs.{IsNew, is_over_after};

use crate::objects::{Pair, pair_of};
use crate::served::code_of;
use adx_io::{Failed, MemorySink, MemorySource, Sink, Source};
use adx_links::Acceptor;
use adx_units::{OutOfMemory, Text};
use std::alloc::Global;
use std::hint::spin_loop;
use std::sync::Arc;
use std::sync::atomic::{AtomicBool, Ordering};

/// How often a silent connection looks whether the other has its reply.
const LOOKS: u64 = 1_000_000_000;

/// A source or a sink of a connection with this number, from 0. Where the other has no reply within all looks, the first one's
/// input ends.
#[derive(Drop)]
pub(crate) struct Met<T> {
    pub(crate) inner: T,
    pub(crate) number: usize,
    /// Whether the second connection has its reply.
    replied: Arc<AtomicBool, Global>,
}

impl<T> Met<T> {
    /// Whether the second connection has its reply within all looks.
    fn waits(&self) -> bool {
        for _look in 0..LOOKS {
            if self.replied.load(Ordering::SeqCst) {
                return true;
            }
            spin_loop();
        }
        false
    }
}

impl<S: Source> Source for Met<S> {
    ghost use Rattle.std.specs.Prelude.{None};

    ghost faults = { λ m. S.faults m.inner };

    ghost tape = { λ _. None };

    ghost place = { λ m. S.place m.inner };

    fn take(&mut self, out: &mut [u8]) -> Result<usize, Failed> {
        if self.number == 0 && !self.waits() {
            return Ok(0);
        }
        self.inner.take(out)
    }
}

impl<K: Sink> Sink for Met<K> {
    ghost faults = { λ m. K.faults m.inner };

    ghost held = { λ m. K.held m.inner };

    ghost place = { λ m. K.place m.inner };

    fn put(&mut self, piece: &[u8]) -> Result<usize, Failed> {
        let put = self.inner.put(piece);
        if self.number == 1 && put.is_ok() {
            self.replied.store(true, Ordering::SeqCst);
        }
        put
    }
}

/// A connection.
type MetPair = (Met<MemorySource>, Met<MemorySink>);

/// An acceptor of two connections that meet, and of none after them. It keeps the statuses of their first replies by their numbers,
/// and reports no pairs.
#[derive(Drop)]
pub(crate) struct MeetingAcceptor {
    alloc: Global,
    /// What the connections bring, by letters.
    brings: [Text; 2],
    /// How many connections came.
    came: usize,
    over: bool,
    replied: Arc<AtomicBool, Global>,
    /// How many pairs were given back.
    pub(crate) back: usize,
    /// The statuses of their first replies.
    pub(crate) codes: [u64; 2],
}

impl MeetingAcceptor {
    /// No connection has come.
    pub(crate) fn new(alloc: Global, brings: [Text; 2]) -> Result<MeetingAcceptor, OutOfMemory> {
        Ok(MeetingAcceptor {
            alloc,
            brings,
            came: 0,
            over: false,
            replied: Arc::new(alloc, AtomicBool::new(false))?,
            back: 0,
            codes: [0; 2],
        })
    }

    /// A pair as the connection with the next number.
    fn met(&mut self, pair: Pair) -> Result<MetPair, OutOfMemory>
        ensures inner { IfOk result (λ p. (p.0.inner, p.1.inner) ≡ pair) }
        ensures over { self.new.over ≡ self.old.over }
    {
        let number = self.came;
        self.came = self.came.saturating_add(1);
        let (source, sink) = pair;
        Ok((
            Met {
                inner: source,
                number,
                replied: self.replied.clone()?,
            },
            Met {
                inner: sink,
                number,
                replied: self.replied.clone()?,
            },
        ))
    }

    /// The next connection, as new; None where there is none.
    fn next(&mut self) -> Option<MetPair>
        ensures new { IfSome result (λ p. IsNew (pair_told (p.0.inner, p.1.inner))) }
        ensures over { self.new.over ≡ self.old.over }
    {
        let letters = self.brings.get(self.came)?;
        let pair = pair_of(self.alloc, letters.as_str()).ok()?;
        self.met(pair).ok()
    }
}

impl Acceptor for MeetingAcceptor {
    ghost use Rattle.std.specs.Prelude.{None, true};

    type In = Met<MemorySource>;

    type Out = Met<MemorySink>;

    ghost faults = { λ _. 0 };

    ghost pairs = { λ _. None };

    ghost is_over = { λ a. a.over };

    ghost is_finished = { λ _. true };

    fn accept(&mut self) -> Result<Option<MetPair>, Failed>
        ensures new { IfOk result (λ came. IfSome came (λ p. IsNew (record {
          tape = None;
          read_faults = p.0.inner.habits.faults;
          held = Some p.1.inner.bytes;
          write_faults = p.1.inner.habits.faults;
        }))) }
        ensures over { self.new.over ≡ is_over_after self.old.over result }
        ensures cause { HasCause 0 0 result }
    {
        match self.next() {
            Some(pair) => Ok(Some(pair)),
            None => {
                self.over = true;
                Ok(None)
            }
        }
    }

    fn finish(_pair: &mut MetPair) {}

    fn done(&mut self, pair: MetPair)
        ensures over { self.new.over ≡ self.old.over }
    {
        self.back = self.back.saturating_add(1);
        if let Some(code) = self.codes.get_mut(pair.1.number) {
            *code = code_of(pair.1.inner.taken());
        }
    }
}
