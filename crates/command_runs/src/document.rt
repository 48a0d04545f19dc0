//! A command whose input is one document, which is read whole.
ghost use Rattle.std.specs.Prelude.{◌≡◌, ◌≤◌, List, [], IfOk, string_bytes, Err, Result};
ghost use Rattle.adx_io.specs.Lines.{TookLast};
ghost use Rattle.adx_io.specs.Rest.{IsFull, ReadsRest, Within};
ghost use Rattle.adx_io.specs.Streams.{HasReadCause, WhereTold};
ghost use Rattle.adx_io.specs.Talk.{HasCauses};
ghost use Rattle.adx_io.specs.TalkState.{place_of, state_of};
ghost use Rattle.adx_io.specs.declared.stop.Stop.{Stop as StopValue};
ghost use Rattle.command_runs.specs.Documents.{Judged, MayEnd, document as document_meaning};
ghost use Rattle.command_runs.specs.Runs.{Runs};
ghost use Rattle.command_runs.specs.Limits.{document_limit};
ghost use Rattle.command_runs.specs.declared.outcome.Outcome.{Outcome as OutcomeValue};
ghost use Rattle.command_runs.specs.Talks.{TalkWrote};

use crate::command::{Command, run_command};
use crate::limits::DOCUMENT_LIMIT;
use crate::outcome::Outcome;
use crate::put::put_end;
use adx_io::{Rest, Sink, Source, Stop, Talk, read_rest};
use adx_units::OutOfMemory;
use std::alloc::Global;

/// A command's own part where its input is one document: what it writes for the document.
pub trait Judge {
    ghost use Rattle.std.specs.Prelude.{◌≡◌, ℕ, List, Result, Err};
    ghost use Rattle.std.specs.Borrow.{GName};
    ghost use Rattle.adx_io.specs.Streams.{own_place};
    ghost use Rattle.adx_io.specs.declared.stop.Stop.{Stop};
    ghost use Rattle.command_runs.specs.Documents.{Judging};
    ghost use Rattle.command_runs.specs.declared.outcome.Outcome.{Outcome};

    /// What a run may depend on besides its input.
    ghost course: { Type 0 };

    /// How the run ends for a document, and what is written, on a course.
    ghost judges: { course → Judging };

    /// What became of the command's own state on a course, for a run with this end.
    ghost leaves: { Self → Self → course → Result Outcome Stop → Type 0 };

    /// The objects lent to the command, which a run hands back.
    ghost place: { Self → List GName } = { λ _. own_place };

    /// Judges a document, or its first `DOCUMENT_LIMIT` bytes where it is longer, and writes the output into `out`.
    fn judge(
        &mut self,
        alloc: Global,
        document: &[u8],
        rest: Rest,
        out: &mut String,
    ) -> Result<Outcome, OutOfMemory>
        requires { string_bytes out.old ≡ [] }
        ensures judged { (c : course) × ((ended : Result OutcomeValue StopValue) → MayEnd result ended → leaves self.old self.new c ended)
            × Judged (judges c) rest document.now (string_bytes out.new) result }
        ensures stays { place self.new ≡ place self.old };

    /// Where a run ends before its document is judged, the command's own state is as it was.
    ghost unjudged: { (self : Self) → (c : course) × ((stop : Stop) → leaves self self c (Err stop)) };
}

/// Reads a document to its end, or one byte past the limit.
fn read_document<S: Source>(source: &mut S, document: &mut Vec<u8>) -> Result<Rest, Stop>
    ensures reads { WhereTold (S.tape source.old) (S.tape source.new) (ReadsRest document_limit document.old.items document.new.items result) }
    ensures within { Within document_limit document.old.items document.new.items }
    ensures full { IfOk result (IsFull document_limit document.old.items document.new.items) }
    ensures last { TookLast (S.tape source.new) [] }
    ensures cause { HasReadCause (S.faults source.old) (S.faults source.new) result }
    ensures same { S.place source.new ≡ S.place source.old }
{
    read_rest(source, document, DOCUMENT_LIMIT)
}

/// Reads the document of a talk, judges it, and puts the output.
fn judge_document<J: Judge, S: Source, K: Sink>(
    alloc: Global,
    judge: &mut J,
    talk: &mut Talk<'_, S, K>,
) -> Result<Outcome, Stop>
    requires unwritten { (state_of talk.old).out ≡ [] }
    requires untaken { talk.old.buffer.now.pending ≡ [] }
    ensures ran { (c : J.course) × J.leaves judge.old judge.new c result
        × TalkWrote (document_meaning document_limit (J.judges c)) talk.old talk.new result }
    ensures causes { HasCauses (state_of talk.old) (state_of talk.new) result }
    ensures same { place_of talk.new ≡ place_of talk.old }
    ensures stays { J.place judge.new ≡ J.place judge.old }
{
    let mut document = Vec::new(alloc);
    match read_document(talk.source, &mut document) {
        Ok(rest) => match judge.judge(alloc, document.as_slice(), rest, talk.out) {
            Ok(outcome) => put_end(talk, outcome),
            Err(_) => Err(Stop::OutOfMemory),
        },
        Err(stop) => Err(stop),
    }
}

/// The command that reads its input whole and has a `Judge` judge it.
#[derive(Drop)]
pub struct Document<'a, J: Judge> {
    judge: &'a mut J,
}

impl<J: Judge> Command for Document<'_, J> {
    ghost use Rattle.std.specs.Prelude.{◌≡◌, ◌∷◌, [], refl, Err};
    ghost use Rattle.std.proofs.Common.{inr, zero-le};
    ghost use Rattle.adx_io.specs.Streams.{WhereTold};
    ghost use Rattle.adx_io.specs.declared.stop.Stop.{Stop};
    ghost use Rattle.command_runs.specs.Documents.{document};
    ghost use Rattle.command_runs.specs.Limits.{document_limit, input_limit};

    ghost course = { J.course };

    ghost meaning = { λ c. document document_limit (J.judges c) };

    ghost leaves = { λ old new c result. J.leaves old.judge.now new.judge.now c result };

    ghost place = { λ s. s.judge.ghost_name ∷ J.place s.judge.now };

    ghost unbegun = { λ s. ((J.unjudged s.judge.now).0, (J.unjudged s.judge.now).1 Stop.OutOfMemory, λ left. (refl, inr (refl, zero-le))) };

    fn run<S: Source, K: Sink>(
        &mut self,
        alloc: Global,
        talk: &mut Talk<'_, S, K>,
    ) -> Result<Outcome, Stop> {
        judge_document(alloc, self.judge, talk)
    }
}

/// Reads a document from a source, at most `DOCUMENT_LIMIT` bytes and one more, judges it, and puts the output into a sink.
/// Nothing is put before the whole document was read.
///
/// `Ok`: the run ended as the document was judged. `Err`: the source or the sink failed, and its count of faults rose, or
/// memory was refused. What the sink took by then is in `specs/Documents`.
pub fn run_document<J: Judge, S: Source, K: Sink>(
    alloc: Global,
    judge: &mut J,
    source: &mut S,
    sink: &mut K,
) -> Result<Outcome, Stop>
    ensures runs { (c : J.course) × J.leaves judge.old judge.new c result
        × Runs S.Source K.Sink (document_meaning document_limit (J.judges c)) source.old source.new sink.old sink.new result }
    ensures stays { J.place judge.new ≡ J.place judge.old }
{
    let mut document = Document { judge };
    run_command(alloc, &mut document, source, sink)
}
