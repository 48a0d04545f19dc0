//! A bidder of a roster, and where it is asked.
ghost use Rattle.std.specs.Prelude.{◌≡◌, ◌≤◌, true};
ghost use Rattle.adx_units.specs.Number.{begins_with};

use adx_units::{Id, Text};

/// The most bidders of a roster.
pub const MOST_BIDDERS: usize = 16;

/// The greatest port.
pub const MOST_PORT: u64 = 65_535;

/// A bidder of the roster, and where it is asked.
#[derive(Debug, Drop)]
pub struct Place {
    pub name: Id,
    /// The host, `127.0.0.1` where none is given.
    pub host: Text,
    /// The port, 80 where none is given.
    pub port: u16,
    /// The path, which begins with `/`; `/` where none is given.
    pub path: Text,
    pub ghost slash_first: { begins_with 47 path ≡ true },
}
