//! The lines of what is refused.
ghost use Rattle.std.specs.Prelude.{◌≡◌, ◌++◌, OnOk, string_bytes};
ghost use Rattle.script_lines.specs.Refusals.{refused_line, refusal_line, roster_refused_line};

use crate::refusal::{Refusal, RosterRefusal};
use crate::why::{push_roster_why, push_why};
use adx_json::push_number;
use adx_units::{OutOfMemory, push_text};
use std::alloc::Global;

/// Writes a text as it is.
fn push(out: &mut String, text: &str) -> Result<(), OutOfMemory>
    ensures { OnOk result (string_bytes out.new ≡ string_bytes out.old ++ text.now) }
{
    out.push_str(text)?;
    Ok(())
}

/// Writes the line of a refused line, by its number and why. Where memory is refused, a part of it may stand there.
pub fn push_refusal(out: &mut String, number: u64, why: &str) -> Result<(), OutOfMemory>
    ensures { OnOk result (string_bytes out.new ≡ string_bytes out.old ++ refused_line number why.now) }
{
    push(out, "{\"answer\":\"refused\",\"line\":")?;
    push_number(out, number)?;
    push(out, ",\"why\":")?;
    push_text(out, why)?;
    push(out, "}\n")
}

/// Writes the line of a script line that is refused. Where memory is refused, a part of it may stand there.
pub fn push_refused(
    alloc: Global,
    out: &mut String,
    number: u64,
    why: &Refusal,
) -> Result<(), OutOfMemory>
    ensures { OnOk result (string_bytes out.new ≡ string_bytes out.old ++ refusal_line number why.now) }
{
    let mut text = String::new(alloc);
    push_why(&mut text, why)?;
    push_refusal(out, number, text.as_str())?;
    Ok(())
}

/// Writes the line of a first line that isn't of its form, and why, behind what is there. Where memory is refused, a part of
/// it may stand there.
pub fn push_roster_refused(
    alloc: Global,
    out: &mut String,
    why: RosterRefusal,
) -> Result<(), OutOfMemory>
    ensures { OnOk result (string_bytes out.new ≡ string_bytes out.old ++ roster_refused_line why) }
{
    let mut text = String::new(alloc);
    push_roster_why(&mut text, why)?;
    push(out, "{\"answer\":\"roster\",\"why\":")?;
    push_text(out, text.as_str())?;
    push(out, "}\n")?;
    Ok(())
}
