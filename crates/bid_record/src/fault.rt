//! Why a document isn't a record.
ghost use Rattle.std.specs.Prelude.{◌≡◌};
ghost use Rattle.bid_record.specs.declared.fault.Misfit.TheVariants.{Memory};
ghost use Rattle.bid_record.specs.declared.fault.RecordFault.TheVariants.{OutOfMemory as NoMemory};

use adx_units::OutOfMemory;
use std::alloc::{AllocError, AllocFailed};
use std::fmt;

/// Why bytes aren't a record. The first line that fails counts; lines count from 1.
#[derive(Clone, Copy, Debug, PartialEq, Eq)]
pub enum RecordFault {
    /// The line isn't of a form that may stand there.
    Line { n: u64 },
    /// Its index doesn't run on.
    Order { n: u64 },
    /// It names a campaign that isn't listed, or a chosen offer past the end.
    Campaign { n: u64 },
    /// The bytes end before the last line does.
    Cut,
    /// Memory was refused.
    OutOfMemory,
}

impl fmt::Display for RecordFault {
    fn fmt<W: fmt::Write>(&self, f: &mut fmt::Formatter<W>) -> fmt::Result {
        match self {
            RecordFault::Line { n } => write!(f, "line {n} doesn't belong into a record"),
            RecordFault::Order { n } => write!(f, "the index of line {n} doesn't run on"),
            RecordFault::Campaign { n } => write!(f, "line {n} names what isn't listed"),
            RecordFault::Cut => f.write_str("the record is cut"),
            RecordFault::OutOfMemory => f.write_str("out of memory"),
        }
    }
}

impl std::error::Error for RecordFault {}

impl<T: Drop> From<AllocFailed<T>> for RecordFault {
    ghost from_gives = { λ _ e. e ≡ NoMemory };

    fn from(_refused: AllocFailed<T>) -> RecordFault {
        RecordFault::OutOfMemory
    }
}

/// Why a line wasn't read.
#[derive(Clone, Copy, Debug, PartialEq, Eq)]
pub(crate) enum Misfit {
    /// It isn't of its form.
    Form,
    /// Memory was refused.
    Memory,
}

impl From<AllocError> for Misfit {
    ghost from_gives = { λ _ e. e ≡ Memory };

    fn from(_refused: AllocError) -> Misfit {
        Misfit::Memory
    }
}

impl<T: Drop> From<AllocFailed<T>> for Misfit {
    ghost from_gives = { λ _ e. e ≡ Memory };

    fn from(_refused: AllocFailed<T>) -> Misfit {
        Misfit::Memory
    }
}

impl From<OutOfMemory> for Misfit {
    ghost from_gives = { λ _ e. e ≡ Memory };

    fn from(_refused: OutOfMemory) -> Misfit {
        Misfit::Memory
    }
}
