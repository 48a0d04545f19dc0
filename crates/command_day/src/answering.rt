//! A line's answer: what the desk answers its call, or why it gave the call up.
ghost use Rattle.std.specs.Prelude.{◌≡◌, ◌≤◌, ◌<◌, ◌^◌, ℕ, List, ◌++◌, codes, length, option_map, Option, Some, None, Result, Ok, IfOk, IfErr, OnErr, OnOk, string_bytes};
ghost use Rattle.adx_io.specs.Talk.{ended};
ghost use Rattle.answer_lines.specs.Answers.{answer_line as line_of_answer, fault_line};
ghost use Rattle.day_rules.specs.Asks.{IsWellFormed, IsUndecided};
ghost use Rattle.day_rules.specs.Replies.{Call, ask as ask_call, set_budget as budget_call, tick as tick_call};
ghost use Rattle.day_rules.specs.Runs.{IsCall};
ghost use Rattle.script_lines.specs.Changes.{change_told};
ghost use Rattle.script_lines.specs.Found.{call_of};
ghost use Rattle.adx_desk.specs.Lines.{told_as};
ghost use Rattle.history_runs.specs.Clauses.{CallAnswered, CallLeft, IsKept, IsShort, LineAnswered, LineLeft, notice_of};
ghost use Rattle.adx_desk.specs.Answering.{IsOfCall};
ghost use Rattle.history_runs.specs.Script.{terms_by};

use adx_desk::{Desk, DeskFault};
use adx_io::LineBuffer;
use adx_units::OutOfMemory;
use answer_lines::{Fault, push_answer, push_fault};
use day_journal::Disk;
use day_rules::{Answer, Ask};
use deal_floor::{Campaign, Roster};
use script_lines::{Change, LineFault, Notice, Refusal, ScriptLine, push_refused, read_line};
use std::alloc::Global;

/// Writes a newline.
fn push_newline(out: &mut String) -> Result<(), OutOfMemory>
    ensures { OnOk result (string_bytes out.new ≡ string_bytes out.old ++ codes "\n") }
{
    out.push_str("\n")?;
    Ok(())
}

/// Writes what a call is answered, and about which ask.
fn push_told(
    out: &mut String,
    campaigns: &[Campaign],
    answer: &Answer,
    ask: Option<&Ask>,
) -> Result<(), OutOfMemory>
    ensures { OnOk result (string_bytes out.new ≡ string_bytes out.old
        ++ ended (line_of_answer campaigns.now answer.now (option_map (λ a. a.now) ask.entry))) }
{
    push_answer(out, campaigns, answer, ask)?;
    push_newline(out)?;
    Ok(())
}

/// The fault that a line says of a call that was given up; lack of memory has no line.
fn fault_told(fault: DeskFault) -> Result<Fault, OutOfMemory>
    requires { IsOfCall fault }
    ensures { IfOk result (λ told. told_as fault ≡ Some told) }
{
    match fault.told() {
        Some(told) => Ok(told),
        None => Err(OutOfMemory),
    }
}

/// Writes why a call was given up.
fn push_given_up(out: &mut String, fault: DeskFault) -> Result<(), OutOfMemory>
    requires { IsOfCall fault }
    ensures { OnOk result ((told : Fault) × (told_as fault ≡ Some told)
        × (string_bytes out.new ≡ string_bytes out.old ++ ended (fault_line told))) }
{
    let told = fault_told(fault)?;
    push_fault(out, told)?;
    push_newline(out)?;
    Ok(())
}

/// Takes an ask, and writes its answer.
fn answer_ask<D: Disk>(
    campaigns: &[Campaign],
    desk: &mut Desk<D>,
    ask: Ask,
    out: &mut String,
) -> Result<(), OutOfMemory>
    requires well_formed { IsWellFormed (length desk.old.desk.terms.day.budgets) ask }
    requires undecided { IsUndecided ask }
    ensures answered { OnOk result (CallAnswered D.Disk campaigns.now desk.old desk.new (ask_call ask)
        (string_bytes out.old) (string_bytes out.new)) }
    ensures unwritten { OnErr result (CallLeft D.Disk desk.old desk.new (ask_call ask)) }
    ensures lasts { D.lasts desk.old.disk desk.new.disk }
{
    match desk.take_ask(ask) {
        Ok(answer) => {
            push_told(out, campaigns, &answer, desk.ask_for(answer))?;
            Ok(())
        }
        Err(fault) => {
            push_given_up(out, fault)?;
            Ok(())
        }
    }
}

/// Takes a notice, and writes its answer.
fn answer_notice<D: Disk>(
    campaigns: &[Campaign],
    desk: &mut Desk<D>,
    notice: &Notice,
    out: &mut String,
) -> Result<(), OutOfMemory>
    ensures answered { OnOk result (CallAnswered D.Disk campaigns.now desk.old desk.new (notice_of notice.now)
        (string_bytes out.old) (string_bytes out.new)) }
    ensures unwritten { OnErr result (CallLeft D.Disk desk.old desk.new (notice_of notice.now)) }
    ensures lasts { D.lasts desk.old.disk desk.new.disk }
{
    match desk.notice(notice.kind, notice.auction.as_str(), notice.award) {
        Ok(answer) => {
            push_told(out, campaigns, &answer, None)?;
            Ok(())
        }
        Err(fault) => {
            push_given_up(out, fault)?;
            Ok(())
        }
    }
}

/// Takes a tick, and writes its answer.
fn answer_tick<D: Disk>(
    campaigns: &[Campaign],
    desk: &mut Desk<D>,
    now: u64,
    out: &mut String,
) -> Result<(), OutOfMemory>
    requires { now < 2 ^ 63 }
    ensures answered { OnOk result (CallAnswered D.Disk campaigns.now desk.old desk.new (tick_call now)
        (string_bytes out.old) (string_bytes out.new)) }
    ensures unwritten { OnErr result (CallLeft D.Disk desk.old desk.new (tick_call now)) }
    ensures lasts { D.lasts desk.old.disk desk.new.disk }
{
    match desk.tick(now) {
        Ok(answer) => {
            push_told(out, campaigns, &answer, None)?;
            Ok(())
        }
        Err(fault) => {
            push_given_up(out, fault)?;
            Ok(())
        }
    }
}

/// Takes a change of a campaign's budget, and writes its answer.
fn answer_change<D: Disk>(
    campaigns: &[Campaign],
    desk: &mut Desk<D>,
    change: Change,
    out: &mut String,
) -> Result<(), OutOfMemory>
    requires { IsCall (length desk.old.desk.terms.day.budgets) (budget_call (change_told change)) }
    ensures answered { OnOk result (CallAnswered D.Disk campaigns.now desk.old desk.new
        (budget_call (change_told change)) (string_bytes out.old) (string_bytes out.new)) }
    ensures unwritten { OnErr result (CallLeft D.Disk desk.old desk.new (budget_call (change_told change))) }
    ensures lasts { D.lasts desk.old.disk desk.new.disk }
{
    match desk.set_budget(change.campaign, change.number, change.budget) {
        Ok(answer) => {
            push_told(out, campaigns, &answer, None)?;
            Ok(())
        }
        Err(fault) => {
            push_given_up(out, fault)?;
            Ok(())
        }
    }
}

/// Takes the call of a line, and writes its answer.
fn answer_call<D: Disk>(
    campaigns: &[Campaign],
    desk: &mut Desk<D>,
    call: ScriptLine,
    out: &mut String,
) -> Result<(), OutOfMemory>
    requires { IsCall (length desk.old.desk.terms.day.budgets) (call_of call) }
    ensures answered { OnOk result (CallAnswered D.Disk campaigns.now desk.old desk.new (call_of call)
        (string_bytes out.old) (string_bytes out.new)) }
    ensures unwritten { OnErr result (CallLeft D.Disk desk.old desk.new (call_of call)) }
    ensures lasts { D.lasts desk.old.disk desk.new.disk }
{
    match call {
        ScriptLine::Ask { ask } => answer_ask(campaigns, desk, ask, out),
        ScriptLine::Notice { notice } => answer_notice(campaigns, desk, &notice, out),
        ScriptLine::Tick { now } => answer_tick(campaigns, desk, now, out),
        ScriptLine::Budget { change } => answer_change(campaigns, desk, change, out),
    }
}

/// Answers a line within the limit of a line.
fn answer_text<D: Disk>(
    alloc: Global,
    roster: &Roster,
    desk: &mut Desk<D>,
    number: u64,
    line: &[u8],
    out: &mut String,
) -> Result<(), OutOfMemory>
    requires terms { desk.old.desk.terms.day ≡ terms_by roster.now }
    ensures answered { OnOk result (LineAnswered D.Disk roster.entry.now desk.old desk.new number (IsShort line.now)
        (string_bytes out.old) (string_bytes out.new)) }
    ensures unwritten { OnErr result (LineLeft D.Disk roster.entry.now desk.old desk.new (IsShort line.now)) }
    ensures lasts { D.lasts desk.old.disk desk.new.disk }
{
    match read_line(alloc, roster, line) {
        Ok(call) => {
            answer_call(roster.campaigns.as_slice(), desk, call, out)?;
            Ok(())
        }
        Err(LineFault::Refused { why }) => {
            push_refused(alloc, out, number, &why)?;
            Ok(())
        }
        Err(LineFault::OutOfMemory) => Err(OutOfMemory),
    }
}

/// Answers the line that was read last.
pub(crate) fn answer_line<D: Disk>(
    alloc: Global,
    roster: &Roster,
    desk: &mut Desk<D>,
    number: u64,
    buffer: &LineBuffer,
    out: &mut String,
) -> Result<(), OutOfMemory>
    requires terms { desk.old.desk.terms.day ≡ terms_by roster.now }
    ensures answered { OnOk result (LineAnswered D.Disk roster.entry.now desk.old desk.new number (IsKept buffer.now)
        (string_bytes out.old) (string_bytes out.new)) }
    ensures unwritten { OnErr result (LineLeft D.Disk roster.entry.now desk.old desk.new (IsKept buffer.now)) }
    ensures lasts { D.lasts desk.old.disk desk.new.disk }
{
    match buffer.line() {
        Some(line) => {
            answer_text(alloc, roster, desk, number, line, out)?;
            Ok(())
        }
        None => {
            push_refused(alloc, out, number, &Refusal::Long)?;
            Ok(())
        }
    }
}
