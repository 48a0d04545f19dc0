//! The lines that say what a desk answers.
ghost use Rattle.std.specs.Prelude.{◌≡◌, Some, IfOk, IfSome};
ghost use Rattle.answer_lines.specs.Answers.{answer_line as line_of, fault_line as line_of_fault};
ghost use Rattle.adx_desk.specs.Lines.{HasLine, told_as};

use crate::done::Done;
use crate::fault::DeskFault;
use adx_units::{OutOfMemory, Text};
use answer_lines::{push_answer, push_fault};
use deal_floor::Roster;
use std::alloc::Global;

/// The line of what a desk answered to an ask of an auction, without its newline.
pub fn answer_line(
    alloc: Global,
    roster: &Roster,
    _auction: &str,
    done: &Done,
) -> Result<Text, OutOfMemory>
    ensures { IfOk result (λ text. text ≡ line_of roster.entry.now.campaigns done.entry.now.answer done.entry.now.ask) }
{
    let mut line = String::new(alloc);
    push_answer(
        &mut line,
        roster.campaigns.as_slice(),
        &done.answer,
        done.ask.as_ref(),
    )?;
    Ok(Text::from(line))
}

/// The line of a call that was given up by a fault of the disk or for lack of room in the journal, without its newline.
pub fn fault_line(alloc: Global, fault: &DeskFault) -> Result<Text, OutOfMemory>
    requires { HasLine fault.now }
    ensures { IfOk result (λ text. IfSome (told_as fault.now) (λ told. text ≡ line_of_fault told)) }
{
    let Some(told) = fault.told() else {
        unreachable!()
    };
    let mut line = String::new(alloc);
    push_fault(&mut line, told)?;
    Ok(Text::from(line))
}
