//! The command that lists a campaign's days.
ghost use Rattle.std.specs.Prelude.{◌≡◌, ◌≢◌, ◌≤◌, Err};
ghost use Rattle.adx_io.specs.Streams.{Rises};
ghost use Rattle.adx_io.specs.declared.stop.Stop.TheVariants.{WriteFault};
ghost use Rattle.command_archive.specs.Lists.{LeavesListed, Listing, ListsAs, PutsListed};
ghost use Rattle.command_runs.specs.Meanings.{MayPut, PutsEnd};

use crate::filing::Filing;
use crate::listing::list_days;
use crate::outcome::outcome_of;
use adx_io::{Sink, Stop, put_all};
use adx_units::Text;
use command_runs::{Outcome, status_of};
use day_archive::Keeper;
use std::alloc::Global;

/// Which days are asked for: those of a campaign, from a first day to a last, both included.
#[derive(Debug, Drop)]
pub struct Query {
    /// The campaign's seat.
    pub seat: Text,
    /// The campaign's id.
    pub cid: Text,
    /// The first day, as `2025-03-01`.
    pub first: Text,
    /// The last day.
    pub last: Text,
}

/// Puts an output into a sink, and ends so.
fn put_end<K: Sink>(sink: &mut K, out: &str, outcome: Outcome) -> Result<Outcome, Stop>
    ensures puts { PutsEnd outcome (K.held sink.old) (K.held sink.new) out.now result }
    ensures may { MayPut outcome result }
    ensures write_fault { result ≡ Err WriteFault → Rises (K.faults sink.old) (K.faults sink.new) }
    ensures write_passed { result ≢ Err WriteFault → K.faults sink.new ≡ K.faults sink.old }
    ensures write_later { K.faults sink.old ≤ K.faults sink.new }
    ensures same { K.place sink.new ≡ K.place sink.old }
{
    match put_all(sink, out.as_bytes()) {
        Ok(()) => Ok(outcome),
        Err(_) => Err(Stop::WriteFault),
    }
}

/// Lists the kept days of a campaign, and puts the lines.
fn put_days<P: Keeper, K: Sink>(
    alloc: Global,
    keeper: &mut P,
    query: &Query,
    sink: &mut K,
) -> Result<Outcome, Stop>
    ensures lists { (c : Listing) × LeavesListed P.Keeper query.now keeper.old keeper.new c result × PutsListed c (K.held sink.old) (K.held sink.new) result }
    ensures write_fault { result ≡ Err WriteFault → Rises (K.faults sink.old) (K.faults sink.new) }
    ensures write_passed { result ≢ Err WriteFault → K.faults sink.new ≡ K.faults sink.old }
    ensures write_later { K.faults sink.old ≤ K.faults sink.new }
    ensures same { K.place sink.new ≡ K.place sink.old }
{
    let mut out = String::new(alloc);
    let seat = query.seat.as_str();
    let cid = query.cid.as_str();
    let first = query.first.as_str();
    let last = query.last.as_str();
    let listed = list_days(keeper, seat, cid, first, last, &mut out);
    match listed {
        Ok(end) => put_end(sink, out.as_str(), outcome_of(end)),
        Err(_) => Err(Stop::OutOfMemory),
    }
}

/// Puts the kept days of a campaign into a sink, a line for each in order of day, and gives the exit status. The keeper is
/// upgraded first.
///
/// The status is 0 where the days were put; 10 where a text isn't a date, or the first day comes after the last, and then
/// the sink took the line that says so; 9 where the keeper failed, whose count of faults rose then, and the sink took
/// nothing; 5 where the sink failed, whose count rose then, and took a prefix of the output; 12 out of memory, and then the
/// sink took nothing.
pub fn list_days_of<P: Keeper, K: Sink>(
    alloc: Global,
    keeper: &mut P,
    query: &Query,
    sink: &mut K,
) -> u8
    ensures lists { ListsAs P.Keeper query.now keeper.old keeper.new (K.held sink.old) (K.held sink.new) result }
    ensures keeper_fault { result ≡ 9 → Rises (P.faults keeper.old) (P.faults keeper.new) }
    ensures keeper_passed { result ≢ 9 → result ≢ 5 → P.faults keeper.new ≡ P.faults keeper.old }
    ensures write_fault { result ≡ 5 → Rises (K.faults sink.old) (K.faults sink.new) }
    ensures write_passed { result ≢ 5 → K.faults sink.new ≡ K.faults sink.old }
    ensures other { (result ≢ 2) × (result ≢ 4) × (result ≢ 6) }
    ensures write_later { K.faults sink.old ≤ K.faults sink.new }
    ensures same { K.place sink.new ≡ K.place sink.old }
{
    let ended = put_days(alloc, keeper, query, sink);
    status_of(ended)
}
