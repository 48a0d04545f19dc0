//! How a bidder's run ended.
ghost use Rattle.std.specs.Prelude.{◌≡◌};
ghost use Rattle.command_bidder.specs.Statuses.{status_by};

use script_lines::RosterRefusal;

/// How a bidder's run over an acceptor ended.
#[derive(Clone, Copy, Debug, PartialEq, Eq)]
pub enum BidEnd {
    /// No more connections come.
    Over,
    /// The document's first line is no price line.
    Refused {
        /// Why it is none.
        why: RosterRefusal,
    },
    /// The acceptor failed.
    AcceptorFault,
    /// Memory was refused: for the bidder, or within a connection.
    OutOfMemory,
}

/// The exit status of a run that ended so.
pub fn status_of(end: BidEnd) -> u8
    ensures { result ≡ status_by end }
{
    match end {
        BidEnd::Over => 0,
        BidEnd::Refused { .. } => 3,
        BidEnd::AcceptorFault => 4,
        BidEnd::OutOfMemory => 12,
    }
}
