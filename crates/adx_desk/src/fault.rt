//! What a desk answers where it can't do what it was asked.
ghost use Rattle.std.specs.Prelude.{◌≡◌};
ghost use Rattle.adx_desk.specs.Lines.{told_as};

use adx_units::OutOfMemory;
use answer_lines::Fault;
use day_journal::{AppendFault, OpeningFault};
use std::fmt;

/// Why a call of the desk gave up.
#[derive(Clone, Copy, Debug, PartialEq, Eq)]
pub enum DeskFault {
    /// The disk failed.
    DiskFault,
    /// The journal has no room: `size` is what it would come to in bytes with what is held for notices and expiries,
    /// or 2^64 - 1 where that is more. At opening, what it comes to.
    JournalFull { size: u64 },
    /// The entry with this place in the history, from 0, can't be read or may not follow those before it.
    BadEntry { at: u64 },
    /// The journal is another roster's: its first payload where that has 32 bytes, and else its SHA-256.
    OtherRoster { kept: [u8; 32] },
    /// The file is no journal: its byte `at`, from 0, is another one than that of a journal's head, or missing.
    NotAJournal { at: u64 },
    /// At the byte `at`, from 0, there is an open gate whose payload can't be, or the file ends without a gate.
    BadLength { at: u64 },
    /// Memory was refused.
    OutOfMemory,
}

impl DeskFault {
    /// The fault that a line says of a call which this one gave up: that of the disk, or a journal without room, with the
    /// size in bytes that it would come to. None for lack of memory and for the refusals of a file, which no line says.
    pub fn told(&self) -> Option<Fault>
        ensures { result ≡ told_as self.now }
    {
        match self {
            DeskFault::DiskFault => Some(Fault::Disk),
            DeskFault::JournalFull { size } => Some(Fault::JournalFull { size: *size }),
            DeskFault::BadEntry { .. }
            | DeskFault::OtherRoster { .. }
            | DeskFault::NotAJournal { .. }
            | DeskFault::BadLength { .. }
            | DeskFault::OutOfMemory => None,
        }
    }
}

impl fmt::Display for DeskFault {
    fn fmt<W: fmt::Write>(&self, f: &mut fmt::Formatter<W>) -> fmt::Result {
        match self {
            DeskFault::DiskFault => f.write_str("the disk failed"),
            DeskFault::JournalFull { size } => write!(f, "the journal would come to {size} bytes"),
            DeskFault::BadEntry { at } => write!(f, "no entry that may stand at place {at}"),
            DeskFault::OtherRoster { .. } => f.write_str("the journal is another roster's"),
            DeskFault::NotAJournal { at } => write!(f, "no journal from byte {at} on"),
            DeskFault::BadLength { at } => write!(f, "no whole record at byte {at}"),
            DeskFault::OutOfMemory => f.write_str("out of memory"),
        }
    }
}

impl std::error::Error for DeskFault {}

impl From<OutOfMemory> for DeskFault {
    ghost use Rattle.std.specs.Prelude.{◌≡◌};
    ghost use Rattle.adx_desk.specs.declared.fault.DeskFault.{DeskFault};

    ghost from_gives = { λ _ e. e ≡ DeskFault.OutOfMemory };

    fn from(_: OutOfMemory) -> Self {
        DeskFault::OutOfMemory
    }
}

impl From<OpeningFault> for DeskFault {
    ghost use Rattle.std.specs.Prelude.{◌≡◌};
    ghost use Rattle.adx_desk.specs.Openings.{fault_of};

    ghost from_gives = { λ why e. e ≡ fault_of why };

    fn from(why: OpeningFault) -> Self {
        match why {
            OpeningFault::DiskFault => DeskFault::DiskFault,
            OpeningFault::NotAJournal { at } => DeskFault::NotAJournal { at },
            OpeningFault::BadLength { at } => DeskFault::BadLength { at },
            OpeningFault::OutOfMemory => DeskFault::OutOfMemory,
        }
    }
}

impl From<AppendFault> for DeskFault {
    ghost use Rattle.std.specs.Prelude.{◌≡◌};
    ghost use Rattle.adx_desk.specs.Openings.{append_fault_of};

    ghost from_gives = { λ why e. e ≡ append_fault_of why };

    fn from(why: AppendFault) -> Self {
        match why {
            AppendFault::DiskFault => DeskFault::DiskFault,
            AppendFault::Full { size } => DeskFault::JournalFull { size },
        }
    }
}
