//! A command whose input has a first line of its own.
ghost use Rattle.std.specs.Prelude.{◌≡◌, ◌≤◌, ◌++◌, List, ℕ, [], length, IfOk, OnOk, string_bytes, Option, Some, None};
ghost use Rattle.adx_io.specs.Lines.{Keeps};
ghost use Rattle.adx_io.specs.Talk.{HasCauses};
ghost use Rattle.adx_io.specs.TalkState.{place_of, state_of};
ghost use Rattle.adx_io.specs.declared.line_buffer.TheConstants.{CHUNK};
ghost use Rattle.command_runs.specs.Firsts.{FindsFirst, FindsHead, IsLackIn, KeepsOut, LeavesFirst, by_first};
ghost use Rattle.command_runs.specs.Meanings.{PutsEnd};
ghost use Rattle.command_runs.specs.Runs.{Runs};
ghost use Rattle.command_runs.specs.declared.outcome.Outcome.TheVariants.{Refused};
ghost use Rattle.command_runs.specs.Limits.{input_limit, line_limit};
ghost use Rattle.command_runs.specs.Talks.{OfLine, TalkWrote};

use crate::command::{Command, run_command};
use crate::limits::LINE_LIMIT;
use crate::outcome::Outcome;
use crate::put::put_end;
use adx_io::{LineBuffer, Next, Sink, Source, Stop, Talk};
use adx_units::OutOfMemory;
use std::alloc::Global;

/// Why an input has no first line within its limits.
#[derive(Clone, Copy, Debug, PartialEq, Eq)]
pub enum NoLine {
    /// The input ends before a newline.
    Cut,
    /// It is longer than `LINE_LIMIT`, or than the input may be.
    Long,
}

/// A command whose first line is a header, such as a roster, by which the rest of its input is read.
pub trait Led {
    ghost use Rattle.std.specs.Prelude.{◌≡◌, ℕ, List, Result};
    ghost use Rattle.std.specs.Borrow.{GName};
    ghost use Rattle.adx_io.specs.Streams.{own_place};
    ghost use Rattle.adx_io.specs.declared.stop.Stop.{Stop};
    ghost use Rattle.command_runs.specs.declared.outcome.Outcome.{Outcome};
    ghost use Rattle.command_runs.specs.Firsts.{Heads};
    ghost use Rattle.command_runs.specs.Meanings.{Meaning};

    /// What is read of a first line.
    type Head: Drop;

    /// What is read of which line, and what is written for a line that is refused.
    ghost heads: { Heads Self.Head };

    /// What a run may depend on besides its input, once its first line was read.
    ghost course: { Type 0 };

    /// What the command writes for the rest of its input after a line with this head, on a course; so many bytes may be read.
    ghost meaning: { Self.Head → ℕ → course → Meaning };

    /// What became of the command's own state on a course, for a run with this end.
    ghost leaves: { Self → Self → Self.Head → course → Result Outcome Stop → Type 0 };

    /// The objects lent to the command, which a run hands back.
    ghost place: { Self → List GName } = { λ _. own_place };

    /// The head of a first line, which comes without its newline. None where the line is refused, and then the answer that
    /// says why is written.
    fn head_of(
        alloc: Global,
        line: &[u8],
        out: &mut String,
    ) -> Result<Option<Self::Head>, OutOfMemory>
        ensures found { IfOk result (FindsHead heads input_limit line.now (string_bytes out.old) (string_bytes out.new)) };

    /// Writes the answer that says why there is no first line.
    fn push_lack(alloc: Global, out: &mut String, why: NoLine) -> Result<(), OutOfMemory>
        ensures lacks { OnOk result (string_bytes out.new ≡ string_bytes out.old ++ heads.lacks why) };

    /// Runs the command over the rest of its input.
    fn run_rest<S: Source, K: Sink>(
        &mut self,
        alloc: Global,
        head: Self::Head,
        talk: &mut Talk<'_, S, K>,
    ) -> Result<Outcome, Stop>
        requires unwritten { (state_of talk.old).out ≡ [] }
        requires ahead { length talk.old.buffer.now.pending ≤ CHUNK }
        ensures ran { (c : course) × leaves self.old self.new head c result
            × TalkWrote (meaning head (state_of talk.old).allowed c) talk.old talk.new result }
        ensures causes { HasCauses (state_of talk.old) (state_of talk.new) result }
        ensures same { place_of talk.new ≡ place_of talk.old }
        ensures stays { place self.new ≡ place self.old };
}

/// The head of the first line, which the buffer keeps and whose newline was read. None where the line is refused, and then
/// the answer that says why is written.
fn head_in<L: Led>(
    alloc: Global,
    buffer: &LineBuffer,
    out: &mut String,
) -> Result<Option<L::Head>, OutOfMemory>
    ensures finds { IfOk result (λ head. OfLine buffer.now.overlong buffer.now.line
        (λ line. FindsFirst L.heads input_limit line (string_bytes out.old) (string_bytes out.new) head)) }
    ensures kept { IfOk result (KeepsOut (string_bytes out.old) (string_bytes out.new)) }
{
    match buffer.line() {
        Some(line) => {
            let head = L::head_of(alloc, line, out)?;
            Ok(head)
        }
        None => {
            L::push_lack(alloc, out, NoLine::Long)?;
            Ok(None)
        }
    }
}

/// Why an input has no first line that ended in this piece, which the buffer keeps.
fn lack_in(buffer: &LineBuffer) -> NoLine
    ensures { (line : List ℕ) → Keeps line_limit buffer.now.overlong buffer.now.line line → IsLackIn line result }
{
    match buffer.line() {
        Some(_) => NoLine::Cut,
        None => NoLine::Long,
    }
}

/// Ends an input that has no first line.
fn refuse<L: Led, S: Source, K: Sink>(
    alloc: Global,
    talk: &mut Talk<'_, S, K>,
    why: NoLine,
) -> Result<Outcome, Stop>
    requires unwritten { (state_of talk.old).out ≡ [] }
    ensures puts { PutsEnd Refused (state_of talk.old).held (state_of talk.new).held (L.heads.lacks why) result }
    ensures rest { (talk.new.source ≡ talk.old.source) × (talk.new.buffer ≡ talk.old.buffer) }
    ensures causes { HasCauses (state_of talk.old) (state_of talk.new) result }
    ensures same { place_of talk.new ≡ place_of talk.old }
{
    match L::push_lack(alloc, talk.out, why) {
        Ok(()) => put_end(talk, Outcome::Refused),
        Err(_) => Err(Stop::OutOfMemory),
    }
}

/// Reads the first line, and runs the command over the rest.
fn lead<L: Led, S: Source, K: Sink>(
    alloc: Global,
    led: &mut L,
    talk: &mut Talk<'_, S, K>,
) -> Result<Outcome, Stop>
    requires unwritten { (state_of talk.old).out ≡ [] }
    requires whole { (state_of talk.old).allowed ≡ input_limit }
    ensures ran { (c : Option (L.Head × L.course)) × LeavesFirst L.leaves led.old led.new c result
        × TalkWrote (by_first L.heads input_limit L.meaning c) talk.old talk.new result }
    ensures causes { HasCauses (state_of talk.old) (state_of talk.new) result }
    ensures same { place_of talk.new ≡ place_of talk.old }
    ensures stays { L.place led.new ≡ L.place led.old }
{
    match talk.next_line(LINE_LIMIT) {
        Ok(Next::Line) => match head_in::<L>(alloc, talk.buffer, talk.out) {
            Ok(Some(head)) => led.run_rest(alloc, head, talk),
            Ok(None) => put_end(talk, Outcome::Refused),
            Err(_) => Err(Stop::OutOfMemory),
        },
        Ok(Next::End) => {
            let why = lack_in(talk.buffer);
            refuse::<L, S, K>(alloc, talk, why)
        }
        Ok(Next::PastLimit) => refuse::<L, S, K>(alloc, talk, NoLine::Long),
        Err(stop) => Err(stop),
    }
}

/// The command that reads its first line and runs a `Led` over the rest.
#[derive(Drop)]
pub struct FirstLine<'a, L: Led> {
    led: &'a mut L,
}

impl<L: Led> Command for FirstLine<'_, L> {
    ghost use Rattle.std.specs.Prelude.{◌≡◌, ◌≢◌, ◌∷◌, [], Option, refl, None};
    ghost use Rattle.std.proofs.Common.{inl, inr, zero-le};
    ghost use Rattle.std.proofs.lemmas.List.Elements.{All-nil};
    ghost use Rattle.adx_io.specs.Streams.{WhereTold};
    ghost use Rattle.command_runs.specs.Firsts.{LeavesFirst, by_first};
    ghost use Rattle.command_runs.specs.Limits.{input_limit};

    ghost course = { Option (L.Head × L.course) };

    ghost meaning = { by_first L.heads input_limit L.meaning };

    ghost leaves = { λ old new c result. LeavesFirst L.leaves old.led.now new.led.now c result };

    ghost place = { λ s. s.led.ghost_name ∷ L.place s.led.now };

    ghost unbegun = { λ s. (None, (refl, tt), λ left. (refl, inr (([], All-nil (λ b. b ≢ 10), zero-le, inl ([], zero-le, refl)), refl))) };

    fn run<S: Source, K: Sink>(
        &mut self,
        alloc: Global,
        talk: &mut Talk<'_, S, K>,
    ) -> Result<Outcome, Stop> {
        lead(alloc, self.led, talk)
    }
}

/// Reads a first line of at most `LINE_LIMIT` bytes from a source, and runs a command over the rest of its input.
///
/// `Ok(Outcome::Refused)` where the first line is refused or missing: the sink then took the answer that says why, at most
/// one piece was taken from the source after the line, and the command's own state is as it was. Any other end is the
/// command's. `Err`: the source or the sink failed, and its count of faults rose, or memory was refused. What the sink
/// took by then is in `specs/Firsts`.
pub fn run_led<L: Led, S: Source, K: Sink>(
    alloc: Global,
    led: &mut L,
    source: &mut S,
    sink: &mut K,
) -> Result<Outcome, Stop>
    ensures runs { (c : Option (L.Head × L.course)) × LeavesFirst L.leaves led.old led.new c result
        × Runs S.Source K.Sink (by_first L.heads input_limit L.meaning c) source.old source.new sink.old sink.new result }
    ensures stays { L.place led.new ≡ L.place led.old }
{
    let mut first = FirstLine { led };
    run_command(alloc, &mut first, source, sink)
}
