//! The lines of a script, from the first to the closing table.
ghost use Rattle.std.specs.Prelude.{◌≡◌, ◌++◌, ◌+◌, [], IfErr, IfOk, Ok, Err, OnOk, string_bytes};
ghost use Rattle.adx_desk.specs.Rosters.{desk_terms};
ghost use Rattle.adx_io.specs.Talk.{HasCauses};
ghost use Rattle.adx_io.specs.TalkState.{place_of, state_of};
ghost use Rattle.command_day.specs.Steps.{IsEndOf, PutsClosing, PutsLine, ScriptRan};
ghost use Rattle.command_runs.specs.Meanings.{PutsEnd};
ghost use Rattle.command_runs.specs.declared.outcome.Outcome.TheVariants.{Refused};
ghost use Rattle.script_lines.specs.Refusals.{toolong_line};
ghost use Rattle.history_runs.specs.Clauses.{IsKept, OfLine};
ghost use Rattle.history_runs.specs.Script.{closing, cut_line, terms_by};

use crate::answering::answer_line;
use adx_desk::{Desk, push_books};
use adx_io::{LineBuffer, Next, Sink, Source, Stop, Talk};
use adx_units::OutOfMemory;
use command_runs::{LINE_LIMIT, Outcome, put_end};
use day_journal::Disk;
use deal_floor::Roster;
use script_lines::{Refusal, push_refusal, push_refused};
use std::alloc::Global;

/// Writes the refusal of a last piece without a newline, unless it is empty.
fn push_cut(
    alloc: Global,
    out: &mut String,
    number: u64,
    buffer: &LineBuffer,
) -> Result<(), OutOfMemory>
    ensures { OnOk result (OfLine buffer.now (λ line. string_bytes out.new ≡ string_bytes out.old ++ cut_line number line)) }
{
    match buffer.line() {
        Some([]) => Ok(()),
        Some(_) => {
            push_refused(alloc, out, number, &Refusal::Cut)?;
            Ok(())
        }
        None => {
            push_refused(alloc, out, number, &Refusal::Long)?;
            Ok(())
        }
    }
}

/// Writes what comes after the answers to all lines.
fn push_close<D: Disk>(
    alloc: Global,
    out: &mut String,
    desk: &Desk<D>,
    roster: &Roster,
    number: u64,
    buffer: &LineBuffer,
) -> Result<(), OutOfMemory>
    requires { desk.now.desk.terms.day ≡ terms_by roster.now }
    ensures { OnOk result (OfLine buffer.now (λ line. string_bytes out.new
        ≡ string_bytes out.old ++ closing roster.entry.now number line desk.now.desk.history)) }
{
    push_cut(alloc, out, number, buffer)?;
    push_books(out, desk, roster)?;
    Ok(())
}

/// How a day ends whose script was read to its end: done, or with a fault where a call was answered so.
fn end_of<D: Disk>(desk: &Desk<D>) -> Outcome
    ensures { IsEndOf desk.now.desk.faults result }
{
    if desk.faults() == 0 {
        return Outcome::Done;
    }
    Outcome::DiskFault
}

/// Ends a script that was read to its end.
fn close_lines<S: Source, K: Sink, D: Disk>(
    alloc: Global,
    roster: &Roster,
    desk: &Desk<D>,
    number: u64,
    talk: &mut Talk<'_, S, K>,
) -> Result<Outcome, Stop>
    requires terms { desk.now.desk.terms.day ≡ terms_by roster.now }
    requires unwritten { (state_of talk.old).out ≡ [] }
    ensures puts { PutsClosing roster.entry.now desk.now.desk number (IsKept talk.old.buffer.now)
        (state_of talk.old).held (state_of talk.new).held result }
    ensures rest { (talk.new.source ≡ talk.old.source) × (talk.new.buffer ≡ talk.old.buffer) }
    ensures causes { HasCauses (state_of talk.old) (state_of talk.new) result }
    ensures same { place_of talk.new ≡ place_of talk.old }
{
    match push_close(alloc, talk.out, desk, roster, number, talk.buffer) {
        Ok(()) => put_end(talk, end_of(desk)),
        Err(_) => Err(Stop::OutOfMemory),
    }
}

/// Ends a script that passes the limit of an input.
fn pass_lines<S: Source, K: Sink>(number: u64, talk: &mut Talk<'_, S, K>) -> Result<Outcome, Stop>
    requires unwritten { (state_of talk.old).out ≡ [] }
    ensures puts { PutsEnd Refused (state_of talk.old).held (state_of talk.new).held (toolong_line number) result }
    ensures rest { (talk.new.source ≡ talk.old.source) × (talk.new.buffer ≡ talk.old.buffer) }
    ensures causes { HasCauses (state_of talk.old) (state_of talk.new) result }
    ensures same { place_of talk.new ≡ place_of talk.old }
{
    match push_refusal(talk.out, number, "toolong") {
        Ok(()) => put_end(talk, Outcome::Refused),
        Err(_) => Err(Stop::OutOfMemory),
    }
}

/// Answers the line that was read last, puts its answer, and gives the number of the next line.
fn answer_next<S: Source, K: Sink, D: Disk>(
    alloc: Global,
    roster: &Roster,
    desk: &mut Desk<D>,
    number: u64,
    talk: &mut Talk<'_, S, K>,
) -> Result<u64, Stop>
    requires terms { desk.old.desk.terms.day ≡ terms_by roster.now }
    requires unwritten { (state_of talk.old).out ≡ [] }
    ensures next { IfOk result (λ next. next ≡ number + 1) }
    ensures answered { OnOk result (PutsLine D.Disk roster.entry.now desk.old desk.new number (IsKept talk.old.buffer.now)
        (state_of talk.old).held (state_of talk.new).held (Ok tt)) }
    ensures cut { IfErr result (λ stop. PutsLine D.Disk roster.entry.now desk.old desk.new number (IsKept talk.old.buffer.now)
        (state_of talk.old).held (state_of talk.new).held (Err stop)) }
    ensures unwritten { OnOk result ((state_of talk.new).out ≡ []) }
    ensures rest { (talk.new.source ≡ talk.old.source) × (talk.new.buffer ≡ talk.old.buffer) × (talk.new.room ≡ talk.old.room) }
    ensures lasts { D.lasts desk.old.disk desk.new.disk }
    ensures causes { HasCauses (state_of talk.old) (state_of talk.new) result }
    ensures same { place_of talk.new ≡ place_of talk.old }
{
    let Some(next) = number.checked_add(1) else {
        return Err(Stop::OutOfMemory);
    };
    match answer_line(alloc, roster, desk, number, talk.buffer, talk.out) {
        Ok(()) => match talk.put_out() {
            Ok(()) => Ok(next),
            Err(stop) => Err(stop),
        },
        Err(_) => Err(Stop::OutOfMemory),
    }
}

/// Answers the lines of a script on a day that begins, and closes it. The answer to a line is put before the next line is
/// read, so that a run that is cut short is at most one line ahead of its output.
pub(crate) fn run_lines<S: Source, K: Sink, D: Disk>(
    alloc: Global,
    roster: &Roster,
    desk: &mut Desk<D>,
    talk: &mut Talk<'_, S, K>,
) -> Result<Outcome, Stop>
    requires unwritten { (state_of talk.old).out ≡ [] }
    requires terms { desk.old.desk.terms ≡ desk_terms roster.now }
    ensures ran { ScriptRan D.Disk roster.entry.now desk.old desk.new.disk talk.old talk.new result }
    ensures lasts { D.lasts desk.old.disk desk.new.disk }
    ensures causes { HasCauses (state_of talk.old) (state_of talk.new) result }
    ensures same { place_of talk.new ≡ place_of talk.old }
{
    let mut number: u64 = 2;
    'lines: loop {
        match talk.next_line(LINE_LIMIT) {
            Ok(Next::Line) => match answer_next(alloc, roster, desk, number, talk) {
                Ok(next) => number = next,
                Err(stop) => return Err(stop),
            },
            Ok(Next::End) => return close_lines(alloc, roster, desk, number, talk),
            Ok(Next::PastLimit) => return pass_lines(number, talk),
            Err(stop) => return Err(stop),
        }
    }
}
