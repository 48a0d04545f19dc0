//! A bidder's run: its price line, and the connection after it.
ghost use Rattle.std.specs.Prelude.{◌≡◌, ◌≤◌, [], length};
ghost use Rattle.adx_io.specs.Lines.{TookLast};
ghost use Rattle.adx_io.specs.Talk.{HasCauses};
ghost use Rattle.adx_io.specs.TalkState.{place_of, state_of};
ghost use Rattle.adx_io.specs.declared.line_buffer.TheConstants.{CHUNK};
ghost use Rattle.command_runs.specs.Talks.{TalkWrote};
ghost use Rattle.http_service.specs.ConnectionRuns.{EndsServing};
ghost use Rattle.http_connection.specs.declared.conn.ConnEnd.TheVariants.{ReadFault as ConnReadFault};
ghost use Rattle.http_service.specs.Connections.{HasCauses as ConnCauses};
ghost use Rattle.command_bidder.specs.Bidders.{BidderRuns, serves};
ghost use Rattle.command_bidder.specs.Serving.{ServedRest};

use crate::prices::{prices_of, push_prices_lack};
use adx_io::{LineBuffer, Lines, Sink, Source, Stop, Talk};
use adx_units::OutOfMemory;
use bidder_core::Bidder;
use bidder_http::serve_bidder;
use command_runs::{Led, NoLine, Outcome, run_led};
use http_connection::ConnEnd;
use http_service::result_of;
use std::alloc::Global;
use std::snapshot::Snapshot;

/// Serves the connection that comes after what the buffer looked at.
fn serve_rest<S: Source, K: Sink>(
    alloc: Global,
    bidder: &mut Bidder,
    source: &mut S,
    buffer: &mut LineBuffer,
    sink: &mut K,
) -> ConnEnd
    requires last { TookLast (S.tape source.old) buffer.old.pending }
    requires ahead { length buffer.old.pending ≤ CHUNK }
    ensures last { TookLast (S.tape source.new) buffer.new.pending }
    ensures ahead { length buffer.new.pending ≤ CHUNK }
    ensures read_out { result ≡ ConnReadFault → buffer.new.pending ≡ [] }
    ensures ends { ServedRest S.Source K.Sink source.old source.new buffer.old buffer.new sink.old sink.new bidder.old bidder.new result }
    ensures causes { ConnCauses (S.faults source.old) (S.faults source.new) (K.faults sink.old) (K.faults sink.new) result }
    ensures source_same { S.place source.new ≡ S.place source.old }
    ensures sink_same { K.place sink.new ≡ K.place sink.old }
{
    let since = Snapshot::of(&*source);
    let mut rest = Lines::over(source, buffer, &since, 0);
    serve_bidder(alloc, bidder, &mut rest, sink)
}

/// Serves the connection that comes after the price line.
fn serve_after<S: Source, K: Sink>(
    alloc: Global,
    bidder: &mut Bidder,
    talk: &mut Talk<'_, S, K>,
) -> Result<Outcome, Stop>
    requires { length talk.old.buffer.now.pending ≤ CHUNK }
    ensures ran { TalkWrote (serves bidder.old bidder.new) talk.old talk.new result }
    ensures ends { EndsServing result }
    ensures causes { HasCauses (state_of talk.old) (state_of talk.new) result }
    ensures same { place_of talk.new ≡ place_of talk.old }
{
    let end = serve_rest(alloc, bidder, talk.source, talk.buffer, talk.sink);
    result_of(end)
}

/// A bidder that is served to whoever connects.
#[derive(Drop)]
struct Bidding;

impl Led for Bidding {
    ghost use Rattle.std.specs.Prelude.{◌≡◌};
    ghost use Rattle.bidder_core.specs.Seen.{BidderState};
    ghost use Rattle.http_service.specs.ConnectionRuns.{EndsServing};
    ghost use Rattle.command_bidder.specs.Bidders.{price_heads, serves};

    type Head = Bidder;

    ghost heads = { price_heads };

    ghost course = { BidderState };

    ghost meaning = { λ bidder allowed now. serves bidder now };

    ghost leaves = { λ old new bidder now result. EndsServing result };

    fn head_of(
        alloc: Global,
        line: &[u8],
        out: &mut String,
    ) -> Result<Option<Bidder>, OutOfMemory> {
        prices_of(alloc, line, out)
    }

    fn push_lack(alloc: Global, out: &mut String, why: NoLine) -> Result<(), OutOfMemory> {
        push_prices_lack(alloc, out, why)
    }

    fn run_rest<S: Source, K: Sink>(
        &mut self,
        alloc: Global,
        head: Bidder,
        talk: &mut Talk<'_, S, K>,
    ) -> Result<Outcome, Stop> {
        let mut bidder = head;
        serve_after(alloc, &mut bidder, talk)
    }
}

/// Serves a bidder: its price line is the first of the source, and the HTTP connection that comes after it brings what the
/// bidder is asked, sent and shows. What is replied is put into the sink before more is asked of the source.
///
/// `Done`: the connection was read to an end of its own, and all replies were put. `Refused`: the first line isn't a price
/// line, and the sink took the answer that says why; at most one piece was taken from the source after it. No other outcome
/// comes. `Err`: the source or the sink failed, and its count of faults rose, or memory was refused. Where the source
/// failed, the sink took the replies to all whole messages that were taken of it; where the sink failed, all replies but
/// the last, and a prefix of that one.
pub fn run_bidder<S: Source, K: Sink>(
    alloc: Global,
    source: &mut S,
    sink: &mut K,
) -> Result<Outcome, Stop>
    ensures runs { BidderRuns S.Source K.Sink source.old source.new sink.old sink.new result }
{
    let mut bidding = Bidding;
    run_led(alloc, &mut bidding, source, sink)
}
