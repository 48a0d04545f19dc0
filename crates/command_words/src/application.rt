//! The program and its commands, as `clap` builds them of the table.
ghost use Rattle.std.specs.Prelude.{◌≡◌, IfOk, false};
ghost use Rattle.clap.specs.Simple.{app_of};
ghost use Rattle.clap.specs.Walk.{rule_of};
ghost use Rattle.clap.specs.declared.builder.command.Command.TheViews.{out-Command as fields_of};
ghost use Rattle.command_words.specs.Rows.{choice_in, row_in};
ghost use Rattle.command_words.specs.Taken.{HasForm, application as program, no_commands, rule_for, subcommand_for};

use crate::table::{Choice, Row, rows};
use clap::{Arg, ArgAction, Command};
use std::alloc::{AllocError, Global};

/// An option of a command: one with a value, which may be needed, or a flag.
fn argument<'a>(alloc: Global, choice: &Choice) -> Arg<'a>
    ensures rule { rule_of result ≡ rule_for (choice_in choice.now) }
    ensures local { result.global ≡ false }
{
    let (name, value, needed) = *choice;
    let argument = Arg::new(alloc, name).long(name);
    if needed {
        argument.required(true)
    } else if value.is_empty() {
        argument.action(ArgAction::SetTrue)
    } else {
        argument
    }
}

/// A command with its options.
fn command_of_row<'a>(alloc: Global, row: &Row) -> Result<Command<'a>, AllocError>
    ensures { IfOk result (HasForm (subcommand_for (row_in row.now))) }
{
    let mut command = Command::new(alloc, row.0);
    for choice in row.1 {
        command = command.arg(argument(alloc, choice))?;
    }
    Ok(command)
}

/// The program without its commands. It has no `help` command beside `--help`.
fn bare<'a>(alloc: Global) -> Command<'a>
    ensures { app_of result ≡ no_commands }
{
    Command::new(alloc, "adx")
        .version("0.1.0")
        .no_binary_name(true)
        .disable_help_subcommand(true)
}

/// The program with its commands.
pub(crate) fn application<'a>(alloc: Global) -> Result<Command<'a>, AllocError>
    ensures { IfOk result (λ c. app_of c ≡ program) }
{
    let mut program = bare(alloc);
    for row in rows() {
        program = program.subcommand(command_of_row(alloc, row)?)?;
    }
    Ok(program)
}
