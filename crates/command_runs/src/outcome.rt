//! How a run ends, and its exit status.
ghost use Rattle.std.specs.Prelude.{◌≡◌};
ghost use Rattle.command_runs.specs.Statuses.{status_by};

use adx_io::Stop;

/// How a run ends for which source, sink and memory sufficed.
#[derive(Clone, Copy, Debug, PartialEq, Eq)]
pub enum Outcome {
    /// All was done.
    Done,
    /// The input isn't of its form, or passes its limit.
    Refused,
    /// The disk failed.
    DiskFault,
    /// The disk's file isn't a journal of the roster's day.
    NoHistory,
    /// The checker refused the certificate.
    NotAccepted,
    /// The keeper of closed days failed.
    KeeperFault,
    /// The closed day wasn't kept or listed: the archive has it already, or a date isn't one.
    NotKept,
    /// Some notices couldn't be posted yet.
    Pending,
}

/// The exit status where memory was refused.
pub const OUT_OF_MEMORY: u8 = 12;

/// The exit status of a run by how it ended.
pub fn status_of(ended: Result<Outcome, Stop>) -> u8
    ensures { result ≡ status_by ended }
{
    match ended {
        Ok(Outcome::Done) => 0,
        Ok(Outcome::Refused) => 3,
        Ok(Outcome::DiskFault) => 6,
        Ok(Outcome::NoHistory) => 7,
        Ok(Outcome::NotAccepted) => 8,
        Ok(Outcome::KeeperFault) => 9,
        Ok(Outcome::NotKept) => 10,
        Ok(Outcome::Pending) => 11,
        Err(Stop::ReadFault) => 4,
        Err(Stop::WriteFault) => 5,
        Err(Stop::OutOfMemory) => OUT_OF_MEMORY,
    }
}
