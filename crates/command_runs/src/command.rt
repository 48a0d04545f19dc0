//! A command, run over a source and a sink.
ghost use Rattle.std.specs.Prelude.{◌≡◌, ◌≤◌, []};
ghost use Rattle.adx_io.specs.Talk.{HasCauses};
ghost use Rattle.adx_io.specs.TalkState.{place_of, state_of};
ghost use Rattle.command_runs.specs.Limits.{input_limit};
ghost use Rattle.command_runs.specs.Runs.{Runs};
ghost use Rattle.command_runs.specs.Talks.{TalkWrote};

use crate::limits::INPUT_LIMIT;
use crate::outcome::Outcome;
use adx_io::{LineBuffer, Sink, Source, Stop, Talk};
use std::alloc::Global;

/// A command that reads an input and writes an output.
pub trait Command {
    ghost use Rattle.std.specs.Prelude.{◌≡◌, ℕ, List, [], Result, Err};
    ghost use Rattle.std.specs.Borrow.{GName};
    ghost use Rattle.adx_io.specs.Streams.{own_place};
    ghost use Rattle.adx_io.specs.declared.stop.Stop.{Stop};
    ghost use Rattle.command_runs.specs.declared.outcome.Outcome.{Outcome};
    ghost use Rattle.command_runs.specs.Meanings.{Meaning};

    /// What a run may depend on besides its input: what a disk held, say, or where memory was refused.
    ghost course: { Type 0 };

    /// What the command writes for its input on such a course.
    ghost meaning: { course → Meaning };

    /// What became of the command's own state on a course, for a run with this end.
    ghost leaves: { Self → Self → course → Result Outcome Stop → Type 0 };

    /// The objects lent to the command, which a run hands back.
    ghost place: { Self → List GName } = { λ _. own_place };

    /// Runs the command over a talk from which nothing was read yet.
    fn run<S: Source, K: Sink>(
        &mut self,
        alloc: Global,
        talk: &mut Talk<'_, S, K>,
    ) -> Result<Outcome, Stop>
        requires unwritten { (state_of talk.old).out ≡ [] }
        requires untaken { talk.old.buffer.now.pending ≡ [] }
        requires whole { (state_of talk.old).allowed ≡ input_limit }
        ensures ran { (c : course) × leaves self.old self.new c result × TalkWrote (meaning c) talk.old talk.new result }
        ensures causes { HasCauses (state_of talk.old) (state_of talk.new) result }
        ensures same { place_of talk.new ≡ place_of talk.old }
        ensures stays { place self.new ≡ place self.old };

    /// A run may end for lack of memory before it begins: then nothing is read, written or changed.
    ghost unbegun: { (self : Self) → (c : course) × leaves self self c (Err Stop.OutOfMemory) × ((left : List ℕ) → (meaning c).breaks [] left [] []) };
}

/// Runs a command from a source to a sink, and reads at most `INPUT_LIMIT` bytes and one more.
///
/// `Ok`: the run came to this end of its own. `Err`: the source or the sink failed, and its count of faults rose, or
/// memory was refused. What the sink took by then, for the bytes that the source gave, is in `specs/Meanings`.
pub fn run_command<C: Command, S: Source, K: Sink>(
    alloc: Global,
    command: &mut C,
    source: &mut S,
    sink: &mut K,
) -> Result<Outcome, Stop>
    ensures runs { (c : C.course) × C.leaves command.old command.new c result
        × Runs S.Source K.Sink (C.meaning c) source.old source.new sink.old sink.new result }
    ensures stays { C.place command.new ≡ C.place command.old }
{
    let mut buffer = LineBuffer::new(alloc)?;
    let mut out = String::new(alloc);
    let mut talk = Talk::over(source, sink, &mut buffer, &mut out, INPUT_LIMIT);
    command.run(alloc, &mut talk)
}
