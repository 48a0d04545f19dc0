//! Copies of names.
ghost use Rattle.std.specs.Prelude.{◌≡◌, IfOk};
ghost use Rattle.bid_record.specs.Records.{IsName};

use adx_units::{Id, OutOfMemory};
use std::alloc::Global;

/// A copy of a name.
pub(crate) fn copy_of(alloc: Global, name: &Id) -> Result<Id, OutOfMemory>
    ensures copy { IfOk result (λ i. i ≡ name.now) }
    ensures named { IsName name.now }
{
    let _bytes = name.as_bytes();
    name.copy(alloc)
}
