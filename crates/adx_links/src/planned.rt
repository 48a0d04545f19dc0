//! What one start of a link is to do.
ghost use Rattle.std.specs.Prelude.{◌≡◌, IfOk};

use adx_units::{OutOfMemory, Text};
use std::alloc::Global;

/// What one start of a link is to do: the bytes that it answers, or the call that fails.
#[derive(Debug, Drop)]
pub struct Planned {
    /// The bytes that are answered.
    pub bytes: Text,
    /// Whether the start fails.
    pub start_fails: bool,
    /// Whether the first put after the start fails.
    pub put_fails: bool,
    /// The take after the start, from 0, that fails.
    pub take_fails: Option<u64>,
}

impl Planned {
    /// A copy.
    pub fn copy(&self, alloc: Global) -> Result<Planned, OutOfMemory>
        ensures { IfOk result (λ p. p ≡ self.now) }
    {
        Ok(Planned {
            bytes: self.bytes.copy(alloc)?,
            start_fails: self.start_fails,
            put_fails: self.put_fails,
            take_fails: self.take_fails,
        })
    }
}
