//! How a run of posting ended.
ghost use Rattle.std.specs.Prelude.{◌≡◌};
ghost use Rattle.command_notices.specs.Statuses.{status_by, unopened_end};

use adx_desk::DeskFault;
use script_lines::RosterRefusal;

/// How a run of posting ended.
#[derive(Clone, Copy, Debug, PartialEq, Eq)]
pub enum PostEnd {
    /// No notice is pending.
    Delivered,
    /// Some notices are pending: the last try of each met a fault of the link, or an answer outside 200 to 299.
    Pending,
    /// The document's first line is no roster.
    Refused {
        /// Why it is none.
        why: RosterRefusal,
    },
    /// The disk failed.
    DiskFault,
    /// The disk's file represents no history of the roster.
    NoHistory {
        /// Why it represents none.
        fault: DeskFault,
    },
    /// Memory was refused.
    OutOfMemory,
}

/// How a run ends whose day wasn't opened for this cause.
pub(crate) fn end_of(fault: DeskFault) -> PostEnd
    ensures { result ≡ unopened_end fault }
{
    match fault {
        DeskFault::DiskFault => PostEnd::DiskFault,
        DeskFault::OutOfMemory => PostEnd::OutOfMemory,
        DeskFault::NotAJournal { .. }
        | DeskFault::BadLength { .. }
        | DeskFault::BadEntry { .. }
        | DeskFault::OtherRoster { .. }
        | DeskFault::JournalFull { .. } => PostEnd::NoHistory { fault },
    }
}

/// The exit status of a run that ended so.
pub fn status_of(end: PostEnd) -> u8
    ensures { result ≡ status_by end }
{
    match end {
        PostEnd::Delivered => 0,
        PostEnd::Refused { .. } => 3,
        PostEnd::DiskFault => 6,
        PostEnd::NoHistory { .. } => 7,
        PostEnd::Pending => 11,
        PostEnd::OutOfMemory => 12,
    }
}
