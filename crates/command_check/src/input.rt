//! The command over a source and a sink.
ghost use Rattle.std.specs.Prelude.{◌≡◌, ◌≢◌, ◌≤◌};
ghost use Rattle.adx_io.specs.Streams.{Rises};
ghost use Rattle.command_check.specs.Checks.{HasOneAnswer};
ghost use Rattle.command_check.specs.Runs.{AcceptsInput, ChecksInput};

use crate::check::Check;
use adx_io::{Sink, Source};
use command_runs::{run_document, status_of};
use std::alloc::Global;

/// Reads a document from a source to its end, at most 2^31 bytes and one more, checks its certificate against its record,
/// puts one line into a sink, and gives the exit status.
///
/// The status is 0 where the certificate is accepted: then no assignment of the record's impressions earns more than the
/// bound that the line tells. It is 8 where it isn't accepted, and the line tells the first rule that fails; 3 where the bytes
/// are no document or pass the limit, and the line tells the first fault; 4 where the source failed, and then nothing is
/// put; 5 where the sink failed, and 12 out of memory, and then the sink took a prefix of the line. The count of faults of
/// the source rises exactly at 4 and that of the sink exactly at 5, except where a count is at its last value.
pub fn check_input<S: Source, K: Sink>(alloc: Global, source: &mut S, sink: &mut K) -> u8
    ensures checks { ChecksInput (S.tape source.old) (S.tape source.new) (K.held sink.old) (K.held sink.new) result }
    ensures accepted { result ≡ 0 → AcceptsInput (S.tape source.old) (S.tape source.new) (K.held sink.old) (K.held sink.new) }
    ensures read_fault { result ≡ 4 → Rises (S.faults source.old) (S.faults source.new) }
    ensures read_passed { result ≢ 4 → S.faults source.new ≡ S.faults source.old }
    ensures write_fault { result ≡ 5 → Rises (K.faults sink.old) (K.faults sink.new) }
    ensures write_passed { result ≢ 5 → K.faults sink.new ≡ K.faults sink.old }
    ensures one_answer { HasOneAnswer }
    ensures other { (result ≢ 2) × (result ≢ 6) × (result ≢ 9) }
    ensures source_later { S.faults source.old ≤ S.faults source.new }
    ensures sink_later { K.faults sink.old ≤ K.faults sink.new }
    ensures source_same { S.place source.new ≡ S.place source.old }
    ensures sink_same { K.place sink.new ≡ K.place sink.old }
{
    let ended = run_document(alloc, &mut Check, source, sink);
    status_of(ended)
}
