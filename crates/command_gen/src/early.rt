//! Why the calls of a generated day end early.
ghost use Rattle.std.specs.Prelude.{◌≡◌};
ghost use Rattle.command_gen.specs.declared.early.EarlyEnd.TheVariants.{OutOfMemory as NoMemory};

use adx_units::OutOfMemory;

/// Why the calls of a generated day end before all were taken.
#[derive(Clone, Copy, Debug, PartialEq, Eq)]
pub(crate) enum EarlyEnd {
    /// The disk's fault gave up the last of them.
    DiskFault,
    /// Memory was refused.
    OutOfMemory,
}

impl From<OutOfMemory> for EarlyEnd {
    ghost from_gives = { λ _ e. e ≡ NoMemory };

    fn from(_refused: OutOfMemory) -> EarlyEnd {
        EarlyEnd::OutOfMemory
    }
}
