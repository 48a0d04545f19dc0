//! What words may ask for of the commands that talk over the network.
use adx_units::Text;

/// The greatest port of a listener.
pub const MOST_PORT: u64 = 65_535;

/// The most workers that serve connections.
pub const MOST_WORKERS: u64 = 64;

/// What the words of a command over the network ask for.
#[derive(Debug, Drop)]
pub enum NetworkCommand {
    /// Serve connections as an exchange, by the roster in a file, on the day that a journal keeps.
    Serve {
        /// The file of the roster.
        roster: Text,
        /// The file of the journal.
        journal: Text,
        /// The port of the listener.
        port: u16,
        /// How many connections are served at the same time: 1 to `MOST_WORKERS`.
        workers: u32,
    },
    /// Send the notices of the day that a journal keeps to its bidders, by the roster in a file.
    Post {
        /// The file of the roster.
        roster: Text,
        /// The file of the journal.
        journal: Text,
    },
    /// Serve connections as a bidder, by the price line in a file.
    Bid {
        /// The file of the price line.
        prices: Text,
        /// The port of the listener.
        port: u16,
    },
}
