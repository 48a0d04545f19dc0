//! What a journal answers where it can't do what it was asked.
ghost use Rattle.std.specs.Prelude.{◌≡◌};

use adx_io::Failed;
use adx_units::OutOfMemory;
use std::fmt;

/// Why a journal couldn't be opened.
#[derive(Clone, Copy, Debug, PartialEq, Eq)]
pub enum OpeningFault {
    /// The disk failed.
    DiskFault,
    /// The file is no journal: its byte `at`, from 0, is missing or another one than in the head of a
    /// journal of any format.
    NotAJournal { at: u64 },
    /// At the byte `at`, from 0, there is an open gate whose payload can't be, or the file ends without a
    /// gate.
    BadLength { at: u64 },
    /// Memory was refused.
    OutOfMemory,
}

impl fmt::Display for OpeningFault {
    fn fmt<W: fmt::Write>(&self, f: &mut fmt::Formatter<W>) -> fmt::Result {
        match self {
            OpeningFault::DiskFault => f.write_str("the disk failed"),
            OpeningFault::NotAJournal { at } => write!(f, "no journal from byte {at} on"),
            OpeningFault::BadLength { at } => write!(f, "no whole record at byte {at}"),
            OpeningFault::OutOfMemory => f.write_str("out of memory"),
        }
    }
}

impl std::error::Error for OpeningFault {}

impl From<Failed> for OpeningFault {
    ghost use Rattle.day_journal.specs.declared.fault.OpeningFault.{OpeningFault};

    ghost from_gives = { λ _ e. e ≡ OpeningFault.DiskFault };

    fn from(_: Failed) -> Self {
        OpeningFault::DiskFault
    }
}

impl From<OutOfMemory> for OpeningFault {
    ghost use Rattle.day_journal.specs.declared.fault.OpeningFault.{OpeningFault};

    ghost from_gives = { λ _ e. e ≡ OpeningFault.OutOfMemory };

    fn from(_: OutOfMemory) -> Self {
        OpeningFault::OutOfMemory
    }
}

/// Why a payload wasn't added.
#[derive(Clone, Copy, Debug, PartialEq, Eq)]
pub enum AppendFault {
    /// The disk failed: the payload may be there or not.
    DiskFault,
    /// The journal would pass 2^32 bytes, and nothing was done; `size` is what it would come to with the
    /// bytes that are held for later records, or 2^64 - 1 where that is more.
    Full { size: u64 },
}

impl fmt::Display for AppendFault {
    fn fmt<W: fmt::Write>(&self, f: &mut fmt::Formatter<W>) -> fmt::Result {
        match self {
            AppendFault::DiskFault => f.write_str("the disk failed"),
            AppendFault::Full { size } => write!(f, "the journal would come to {size} bytes"),
        }
    }
}

impl std::error::Error for AppendFault {}
