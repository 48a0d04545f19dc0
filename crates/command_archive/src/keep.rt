//! The command that keeps a closed day.
ghost use Rattle.std.specs.Prelude.{◌≡◌, ◌≢◌, ◌≤◌, [], Err, IfOk, OnErr, string_bytes};
ghost use Rattle.adx_io.specs.Streams.{Rises};
ghost use Rattle.adx_io.specs.declared.stop.Stop.{Stop as StopValue};
ghost use Rattle.command_archive.specs.Endings.{LeavesUnanswered};
ghost use Rattle.command_archive.specs.Keeps.{KeepsAs};
ghost use Rattle.command_archive.specs.Puts.{PutsRows};

use crate::file::file_day;
use crate::outcome::outcome_of;
use crate::rows::rows_of;
use adx_io::{Rest, Sink, Source, Stop};
use adx_units::OutOfMemory;
use bid_record::Record;
use command_check::{Checked, check_document};
use command_runs::{Judge, Outcome, run_document, status_of};
use day_archive::Keeper;
use std::alloc::Global;

/// The command that checks a document, and keeps its rows where the certificate is accepted. It writes one line: that the
/// day is kept, or why not; or what the check says of a certificate that isn't accepted, and of bytes that are no document.
#[derive(Drop)]
struct KeepDay<'a, P: Keeper> {
    keeper: &'a mut P,
}

/// Keeps the rows of a record with its bound, and writes the line of what the keeper answered.
fn keep_rows<P: Keeper>(
    alloc: Global,
    keeper: &mut P,
    rec: &Record,
    bound: u128,
    out: &mut String,
) -> Result<Outcome, OutOfMemory>
    requires { string_bytes out.old ≡ [] }
    ensures put { IfOk result (PutsRows P.Keeper keeper.old keeper.new rec.now bound (string_bytes out.new)) }
    ensures refused { OnErr result (LeavesUnanswered P.Keeper keeper.old keeper.new (Err StopValue.OutOfMemory)) }
{
    match rows_of(alloc, rec, bound) {
        Ok(rows) => match file_day(keeper, rows.as_slice(), out) {
            Ok(end) => Ok(outcome_of(end)),
            Err(refused) => Err(refused),
        },
        Err(refused) => Err(refused),
    }
}

impl<P: Keeper> Judge for KeepDay<'_, P> {
    ghost use Rattle.std.specs.Prelude.{◌≡◌, ◌∷◌, [], refl};
    ghost use Rattle.command_archive.specs.Keeps.{Keeping, LeavesKept, keeps, unasked};

    ghost course = { Keeping };

    ghost judges = { keeps };

    ghost leaves = { λ old new c ended. LeavesKept P.Keeper old.keeper.now new.keeper.now c ended };

    ghost place = { λ s. s.keeper.ghost_name ∷ [] };

    ghost unjudged = { λ s. (unasked, λ stop. (refl, tt)) };

    fn judge(
        &mut self,
        alloc: Global,
        document: &[u8],
        rest: Rest,
        out: &mut String,
    ) -> Result<Outcome, OutOfMemory> {
        match check_document(alloc, document, rest, out) {
            Ok(Checked::Accepted { rec, bound }) => {
                keep_rows(alloc, self.keeper, &rec, bound, out)
            }
            Ok(Checked::Ended(outcome)) => Ok(outcome),
            Err(refused) => Err(refused),
        }
    }
}

/// Reads a document from a source to its end, at most 2^31 bytes and one more, keeps the rows of its record in a keeper
/// where the certificate is accepted, puts one line into a sink, and gives the exit status. The keeper is upgraded first, but
/// only behind the document and its verdict, so that a document that isn't accepted touches nothing.
///
/// The status is 0 where the day is kept; 10 where it was kept already or isn't a date, and the line tells which; 9 where
/// the keeper failed, whose count of faults rose then, and nothing is put; 8 where the certificate isn't accepted and 3 where
/// the bytes are no document or pass the limit, and the line is that of the check; 4 where the source failed, and then
/// nothing is put; 5 where the sink failed, and then it took a prefix of the line; 12 out of memory, and then no day is kept.
pub fn keep_day<P: Keeper, S: Source, K: Sink>(
    alloc: Global,
    keeper: &mut P,
    source: &mut S,
    sink: &mut K,
) -> u8
    ensures runs { KeepsAs S.Source K.Sink P.Keeper source.old source.new sink.old sink.new keeper.old keeper.new result }
    ensures keeper_fault { result ≡ 9 → Rises (P.faults keeper.old) (P.faults keeper.new) }
    ensures keeper_passed { result ≢ 9 → result ≢ 5 → P.faults keeper.new ≡ P.faults keeper.old }
    ensures read_fault { result ≡ 4 → Rises (S.faults source.old) (S.faults source.new) }
    ensures read_passed { result ≢ 4 → S.faults source.new ≡ S.faults source.old }
    ensures write_fault { result ≡ 5 → Rises (K.faults sink.old) (K.faults sink.new) }
    ensures write_passed { result ≢ 5 → K.faults sink.new ≡ K.faults sink.old }
    ensures other { (result ≢ 2) × (result ≢ 6) }
    ensures source_later { S.faults source.old ≤ S.faults source.new }
    ensures sink_later { K.faults sink.old ≤ K.faults sink.new }
    ensures source_same { S.place source.new ≡ S.place source.old }
    ensures sink_same { K.place sink.new ≡ K.place sink.old }
{
    let mut command = KeepDay { keeper };
    let ended = run_document(alloc, &mut command, source, sink);
    status_of(ended)
}
