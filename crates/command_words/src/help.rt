//! The texts that `--help` and `--version` show, made of the table of commands.
ghost use Rattle.std.specs.Prelude.{◌≡◌, ◌++◌, IfOk, OnOk, map, option_map, slice_get, string_bytes};
ghost use Rattle.std.specs.List.{flat_map};
ghost use Rattle.command_words.specs.declared.command.Topic.{Topic as TopicValue};
ghost use Rattle.command_words.specs.Helps.{choice_text, command_help, command_line, help_body, help_by, help_text, program_help, usage_text};
ghost use Rattle.command_words.specs.Meanings.{commands, helps as help_rows};
ghost use Rattle.command_words.specs.Rows.{choice_in, help_in, row_in};

use crate::command::Topic;
use crate::table::{Choice, Help, Row, helps, rows};
use adx_units::{OutOfMemory, Text};
use std::alloc::Global;

/// What `--version` shows.
pub const VERSION: &str = "adx 0.1.0\n";

/// How the help on the program begins, up to its commands.
pub const PROGRAM_ABOUT: &str = "adx serves a day of an advertising exchange, or a bidder of one.

usage: adx COMMAND [OPTIONS]
       adx COMMAND --help
       adx help COMMAND
       adx --version

commands:
";

/// How it goes on after them.
pub const PROGRAM_STATUSES: &str = "
status:
  0  done: the input was read to its end
  2  the words aren't a command
  3  the first line, or the document, isn't of its form, or the input is too long
  4  standard input, the file of a roster or of prices can't be read, or a port can't be had
  5  standard output can't be written
  6  the journal can't be read or written, or another process has it open
  7  the journal isn't one of this roster's day
  8  the certificate isn't accepted
  9  the archive can't be read or written, or another process has it open
  10  the day is kept already, or a day isn't a date, or the first day is after the last
  11  a notice wasn't taken by its host
  12  out of memory
At every status but 0 a line on standard error says why.

example:
  ./adx gen --seed 7 --asks 250
";

/// Writes a text as it is.
fn push(out: &mut String, text: &str) -> Result<(), OutOfMemory>
    ensures { OnOk result (string_bytes out.new ≡ string_bytes out.old ++ text.now) }
{
    out.push_str(text)?;
    Ok(())
}

/// Writes a text between two others.
fn push_between(out: &mut String, before: &str, text: &str, after: &str) -> Result<(), OutOfMemory>
    ensures { OnOk result (string_bytes out.new ≡ string_bytes out.old ++ (before.now ++ text.now ++ after.now)) }
{
    push(out, before)?;
    push(out, text)?;
    push(out, after)?;
    Ok(())
}

/// Writes an option as a usage line shows it: in brackets where it may be left out.
fn push_choice(out: &mut String, choice: &Choice) -> Result<(), OutOfMemory>
    ensures { OnOk result (string_bytes out.new ≡ string_bytes out.old ++ choice_text (choice_in choice.now)) }
{
    let (name, value, needed) = *choice;
    if needed {
        push_between(out, " --", name, " ")?;
        push(out, value)
    } else if value.is_empty() {
        push_between(out, " [--", name, "]")
    } else {
        push_between(out, " [--", name, " ")?;
        push_between(out, "", value, "]")
    }
}

/// Writes options.
fn push_choices(out: &mut String, choices: &[Choice]) -> Result<(), OutOfMemory>
    ensures { OnOk result (string_bytes out.new ≡ string_bytes out.old ++ flat_map (λ c. choice_text (choice_in c)) choices.now) }
{
    for choice in choices {
        push_choice(out, choice)?;
    }
    Ok(())
}

/// Writes the options of a command.
fn push_options(out: &mut String, row: &Row) -> Result<(), OutOfMemory>
    ensures { OnOk result (string_bytes out.new ≡ string_bytes out.old ++ flat_map choice_text (map choice_in row.now.1.now)) }
{
    push_choices(out, row.1)
}

/// Writes a command's word and its options.
fn push_usage(out: &mut String, row: &Row) -> Result<(), OutOfMemory>
    ensures { OnOk result (string_bytes out.new ≡ string_bytes out.old ++ usage_text (row_in row.now)) }
{
    push(out, row.0)?;
    push_options(out, row)
}

/// Writes the help on a command below its usage line: what goes in and out, the exit statuses, and an example.
fn push_body(out: &mut String, help: &Help) -> Result<(), OutOfMemory>
    ensures { OnOk result (string_bytes out.new ≡ string_bytes out.old ++ help_body (help_in help.now)) }
{
    push_between(out, "\n\n", help.0, "\n\nstatus:\n")?;
    push(out, help.1)?;
    push_between(out, "\nexample:\n  ", help.2, "\n")
}

/// Writes the help on a command: how it is called, and the rest.
fn push_command(out: &mut String, row: &Row, help: &Help) -> Result<(), OutOfMemory>
    ensures { OnOk result (string_bytes out.new ≡ string_bytes out.old ++ command_help (row_in row.now) (help_in help.now)) }
{
    push(out, "usage: adx ")?;
    push_usage(out, row)?;
    push_body(out, help)
}

/// Writes what the help on the program says of a command: how it is called, and what it is for.
fn push_line(out: &mut String, row: &Row) -> Result<(), OutOfMemory>
    ensures { OnOk result (string_bytes out.new ≡ string_bytes out.old ++ command_line (row_in row.now)) }
{
    push(out, "  ")?;
    push_usage(out, row)?;
    push_between(out, "\n      ", row.2, "\n")
}

/// Writes this of commands.
fn push_lines(out: &mut String, rows: &[Row]) -> Result<(), OutOfMemory>
    ensures { OnOk result (string_bytes out.new ≡ string_bytes out.old ++ flat_map (λ r. command_line (row_in r)) rows.now) }
{
    for row in rows {
        push_line(out, row)?;
    }
    Ok(())
}

/// Writes this of all commands.
fn push_commands(out: &mut String) -> Result<(), OutOfMemory>
    ensures { OnOk result (string_bytes out.new ≡ string_bytes out.old ++ flat_map command_line commands) }
{
    push_lines(out, rows())
}

/// Writes the help on the program.
fn push_program(out: &mut String) -> Result<(), OutOfMemory>
    ensures { OnOk result (string_bytes out.new ≡ string_bytes out.old ++ program_help) }
{
    push(out, PROGRAM_ABOUT)?;
    push_commands(out)?;
    push(out, PROGRAM_STATUSES)
}

/// The row at a place of the table.
fn row_at<'a>(place: usize) -> Option<&'a Row>
    ensures { option_map (λ r. row_in r.now) result ≡ slice_get commands place }
{
    match rows().get(place) {
        Some(row) => Some(row),
        None => None,
    }
}

/// The help at a place of the table.
fn help_at<'a>(place: usize) -> Option<&'a Help>
    ensures { option_map (λ h. help_in h.now) result ≡ slice_get help_rows place }
{
    match helps().get(place) {
        Some(help) => Some(help),
        None => None,
    }
}

/// Writes the help on a command, where there is one, and its help.
fn push_help(out: &mut String, row: Option<&Row>, help: Option<&Help>) -> Result<(), OutOfMemory>
    ensures { OnOk result (string_bytes out.new ≡ string_bytes out.old
        ++ help_by (option_map (λ r. row_in r.now) row.entry) (option_map (λ h. help_in h.now) help.entry)) }
{
    match row {
        Some(row) => match help {
            Some(help) => push_command(out, row, help),
            None => Ok(()),
        },
        None => Ok(()),
    }
}

/// Writes the help on the command at a place of the table, and nothing where there is none.
fn push_place(out: &mut String, place: usize) -> Result<(), OutOfMemory>
    ensures { OnOk result (string_bytes out.new ≡ string_bytes out.old ++ help_text (TopicValue.Command place)) }
{
    push_help(out, row_at(place), help_at(place))
}

/// Writes the help on a topic.
fn push_topic(out: &mut String, topic: Topic) -> Result<(), OutOfMemory>
    ensures { OnOk result (string_bytes out.new ≡ string_bytes out.old ++ help_text topic) }
{
    match topic {
        Topic::Program => push_program(out),
        Topic::Command { place } => push_place(out, place),
    }
}

/// The help on a topic: on the program how it is called, its commands, the exit statuses and an example; on a command what goes
/// in and out, too.
pub fn help_of(alloc: Global, topic: Topic) -> Result<Text, OutOfMemory>
    ensures { IfOk result (λ text. text ≡ help_text topic) }
{
    let mut out = String::new(alloc);
    push_topic(&mut out, topic)?;
    Ok(Text::from(out))
}
