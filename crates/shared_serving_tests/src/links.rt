//! Links to two bidders, of which each may wait until the other is asked; and the lanes over them.
ghost use Rattle.std.specs.Prelude.{IfOk};
ghost use Rattle.exchange_messages.specs.Floors.{AreLanes};

use adx_io::Failed;
use adx_links::Link;
use adx_units::OutOfMemory;
use deal_floor::{Place, Roster};
use fan_out::Lane;
use std::alloc::Global;
use std::sync::atomic::{AtomicU64, Ordering};

/// What the first bidder answers.
const BIDS: &[u8] =
    b"HTTP/1.1 200 OK\r\n\r\n{\"id\":\"a1\",\"seatbid\":[{\"seat\":\"s1\",\"bid\":[{\"id\":\"x\",\"impid\":\"1\",\"price\":2.5,\"cid\":\"c1\"},{\"id\":\"y\",\"impid\":\"2\",\"price\":2.5,\"cid\":\"c1\"}]}]}";

/// What the second answers.
const NOTHING: &[u8] = b"HTTP/1.1 204 No Content\r\n\r\n";

/// Whether the start of each of two links was called, 1 where it was; and how often a start looks for the other's.
#[derive(Drop)]
pub(crate) struct Starts {
    first: AtomicU64,
    second: AtomicU64,
    looks: u64,
}

impl Starts {
    /// None was called. With no looks a start waits for nobody.
    pub(crate) fn new(looks: u64) -> Starts {
        Starts {
            first: AtomicU64::new(0),
            second: AtomicU64::new(0),
            looks,
        }
    }

    /// Says that the start of a link was called, and waits for that of the other; false where it wasn't in so many looks.
    fn both(&self, is_first: bool) -> bool {
        let (own, other) = if is_first {
            (&self.first, &self.second)
        } else {
            (&self.second, &self.first)
        };
        own.store(1, Ordering::SeqCst);
        for _ in 0..self.looks {
            if other.load(Ordering::SeqCst) == 1 {
                return true;
            }
        }
        self.looks == 0
    }
}

/// A link to one of the two bidders, whose start waits as its starts say.
#[derive(Drop)]
pub(crate) struct Waiting<'a> {
    starts: &'a Starts,
    is_first: bool,
    left: &'static [u8],
    faults: u64,
}

impl Link for Waiting<'_> {
    ghost use Rattle.std.specs.Prelude.{None};

    ghost faults = { λ l. l.faults };

    ghost exchanges = { λ _. None };

    ghost course = { λ _. None };

    fn start(&mut self, _host: &str, _port: u16) -> Result<(), Failed> {
        if self.starts.both(self.is_first) {
            self.left = if self.is_first { BIDS } else { NOTHING };
            return Ok(());
        }
        self.faults = self.faults.saturating_add(1);
        Err(Failed)
    }

    fn put(&mut self, piece: &[u8]) -> Result<usize, Failed> {
        Ok(piece.len())
    }

    fn take(&mut self, out: &mut [u8]) -> Result<usize, Failed> {
        let count = out.len().min(self.left.len());
        let (front, behind) = self.left.split_at(count);
        out[..count].copy_from_slice(front);
        self.left = behind;
        Ok(count)
    }
}

/// The link to the bidder of a place.
fn link_to<'a>(place: &Place, starts: &'a Starts) -> Waiting<'a> {
    Waiting {
        starts,
        is_first: place.name.as_str() == "b1",
        left: b"",
        faults: 0,
    }
}

/// The lanes of the roster's bidders.
pub(crate) fn lanes_of<'a>(
    alloc: Global,
    roster: &Roster,
    starts: &'a Starts,
) -> Result<Vec<Lane<Waiting<'a>>>, OutOfMemory>
    ensures { IfOk result (λ v. AreLanes roster.entry.now v.items) }
{
    let mut lanes = Vec::new(alloc);
    let bidders = roster.bidders.as_slice();
    for place in bidders {
        match Lane::to(alloc, place, link_to(place, starts)) {
            Ok(lane) => lanes.push(lane)?,
            Err(wanting) => return Err(wanting),
        }
    }
    Ok(lanes)
}
