//! What words may ask for.
use adx_units::Text;

/// The most asks of a generated day.
pub const MOST_ASKS: u64 = 1_000_000;

/// What the words of a command line ask for.
#[derive(Debug, Drop)]
pub enum Command {
    /// Serve a day, with the file of its journal where one is named.
    Day {
        journal: Option<Text>,
    },
    /// Serve a day on a connection, with the file of its journal where one is named.
    Connection {
        journal: Option<Text>,
    },
    /// Print the notices of the day that a journal keeps, with its file.
    Notices {
        journal: Text,
    },
    /// Serve a bidder's connection.
    Bidder,
    /// Print the document of the day that a journal keeps, with its file; or, with `ratio`, the line of its revenue guarantee.
    Close {
        journal: Text,
        ratio: bool,
    },
    /// Check the certificate of a closed day against its record.
    Check,
    /// Keep a closed day in the archive of this file.
    ArchivePut {
        archive: Text,
    },
    /// List the days of a campaign in the archive of this file, from a first day to a last.
    ArchiveList {
        archive: Text,
        seat: Text,
        cid: Text,
        first: Text,
        last: Text,
    },
    /// Compare the bills of the day that a journal keeps, with its file, with the ledger of the bidder of this name.
    Reconcile {
        journal: Text,
        bidder: Text,
    },
    /// Take the calls of a generated day, by the words of a seed; it has at most `MOST_ASKS` asks.
    Generate {
        seed: u64,
        asks: u64,
    },
    /// Show the help on this.
    Help(Topic),
    /// Show the version.
    Version,
}

/// What there is help on: the whole program, or one of its commands.
#[derive(Clone, Copy, Debug, PartialEq, Eq)]
pub enum Topic {
    /// The program and its commands.
    Program,
    /// The command at this place of the table `COMMANDS`.
    Command {
        /// The place, from 0.
        place: usize,
    },
}
