//! A source that has come to its end.
use adx_io::{Failed, Source};

/// A source that has no bytes left. What is read of it is in what was taken before.
#[derive(Drop)]
pub(crate) struct AtEnd;

impl Source for AtEnd {
    ghost use Rattle.std.specs.Prelude.{[], Some};

    ghost faults = { λ _. 0 };

    ghost tape = { λ _. Some (record { taken = []; left = [] }) };

    fn take(&mut self, _out: &mut [u8]) -> Result<usize, Failed> {
        Ok(0)
    }
}
