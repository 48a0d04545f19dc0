//! Why a command that talks over the network didn't begin.
ghost use Rattle.std.specs.Prelude.{◌≡◌};
ghost use Rattle.adx_commands.specs.Served.{why_no_bid, why_no_post};

use adx_desk::DeskFault;
use adx_units::OutOfMemory;
use command_bidder::BidEnd;
use command_notices::PostEnd;
use script_lines::{RosterRefusal, push_roster_why};
use std::fmt::Write;

/// Why a command that talks over the network didn't begin, where its exit status alone doesn't say it.
#[derive(Clone, Copy, Debug, PartialEq, Eq)]
pub enum NotBegun {
    /// The document's first line isn't of its form: a roster's, for `bid` a price line's.
    Line {
        /// Why it isn't.
        why: RosterRefusal,
    },
    /// The roster's day wasn't opened on the disk.
    Journal {
        /// Why it wasn't.
        fault: DeskFault,
    },
}

impl NotBegun {
    /// Writes it after what is there: for a line what the command `day` answers it, for a journal a few words. Where memory is
    /// refused, a part of it may be written.
    pub fn push(&self, out: &mut String) -> Result<(), OutOfMemory> {
        match self {
            NotBegun::Line { why } => push_roster_why(out, *why),
            NotBegun::Journal { fault } => match write!(out, "{fault}") {
                Ok(()) => Ok(()),
                Err(_) => Err(OutOfMemory),
            },
        }
    }
}

/// Why a run of `post` didn't begin that ended so.
pub(crate) fn post_not_begun(end: PostEnd) -> Option<NotBegun>
    ensures { result ≡ why_no_post end }
{
    match end {
        PostEnd::Refused { why } => Some(NotBegun::Line { why }),
        PostEnd::NoHistory { fault } => Some(NotBegun::Journal { fault }),
        PostEnd::Delivered | PostEnd::Pending | PostEnd::DiskFault | PostEnd::OutOfMemory => None,
    }
}

/// Why a run of `bid` didn't begin that ended so.
pub(crate) fn bid_not_begun(end: BidEnd) -> Option<NotBegun>
    ensures { result ≡ why_no_bid end }
{
    match end {
        BidEnd::Refused { why } => Some(NotBegun::Line { why }),
        BidEnd::Over | BidEnd::AcceptorFault | BidEnd::OutOfMemory => None,
    }
}
