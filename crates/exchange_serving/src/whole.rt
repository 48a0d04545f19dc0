//! A source that is known to keep its bytes: those that were taken and those left are what it had.
ghost use Rattle.std.proofs.Props.{props};
ghost use Rattle.exchange_serving.specs.Rounds.{IsWhole};

use adx_io::{Failed, Source};
use std::marker::{Brand, PhantomData};

/// What a source reported when it was lent. A call picks it.
pub trait TapeNames {
    ghost use Rattle.std.specs.Prelude.{Option};
    ghost use Rattle.adx_io.specs.Streams.{Tape};

    ghost tape: { Option Tape };
}

impl TapeNames for Brand {
    ghost use Rattle.std.specs.Prelude.{None};

    ghost tape = { None };
}

/// A source that is lent: what was taken of it and what is left is what it had.
#[derive(Drop)]
pub struct Whole<'a, S: Source, J: TapeNames> {
    pub source: &'a mut S,
    pub names: PhantomData<J>,
    pub ghost whole: { IsWhole J.tape (S.tape source.now) } by { Prim.hlevel props },
}

impl<'a, S: Source, J: TapeNames> Source for Whole<'a, S, J> {
    ghost use Rattle.std.specs.Prelude.{◌∷◌};

    ghost faults = { λ w. S.faults w.source.now };

    ghost tape = { λ w. S.tape w.source.now };

    ghost place = { λ w. w.source.ghost_name ∷ S.place w.source.now };

    fn take(&mut self, out: &mut [u8]) -> Result<usize, Failed> {
        self.source.take(out)
    }
}
